// The files of the registry that a pass asks about: each is asked about under a ticket of its own as soon as the pass wants it, or its
// answer is taken from the given store, and they are read in order.
ghost use Rattle.std.specs.Prelude.{◌≡◌, ◌++◌, [], ◌∷◌, drop, length, None, Some, IfOk, OnOk, option_copied, slice_get, if◌then◌else◌};
ghost use Rattle.spec_base.specs.Options.{by_option};
ghost use Rattle.registry_urls.specs.Meaning.{RegistryMeaning};
ghost use Rattle.graph_turns.specs.declared.registry.RegistryFile.{RegistryFile};
ghost use Rattle.graph_turns.specs.declared.registry.RegistryFile.TheVariants.{Version};
ghost use Rattle.graph_turns.specs.Machine.Files.{file_kept};
ghost use Rattle.graph_turns.specs.Machine.RegistryFiles.{wanted_kept};
ghost use Rattle.graph_turns.specs.Machine.Runs.{setting_for};
ghost use Rattle.graph_turns.specs.Promise.Versions.{answer_in, is_stored, kept_of, loaded};
ghost use Rattle.open_loads.specs.Order.Asking.{file_url, wanted_question};
ghost use Rattle.open_loads.specs.Order.OpenLoads.{known_now};
ghost use Rattle.open_loads.specs.Order.Numbered.{file_next, first_added, one_wanted, put, stored_read, stored_begun, wanted_all, with_added};

use crate::open_loads::OpenLoads;
use crate::questions::wanted_question;
use crate::stored::{stored, stored_version};
use crate::turn_stage::Stage;
use graph_turns::{RegistryFile, loaded};
use semver_npm::PackageNv;
use source_io::{Answer, JsrUrlProvider, LoadResult, Locker, Question};
use std::alloc::{AllocError, Global};

impl<L: Locker + Drop> OpenLoads<L> {
    // The answer about a file in the given store, of which a first run alone takes.
    fn stored(&self, file: &RegistryFile) -> Option<&LoadResult>
        ensures { option_copied result ≡ answer_in (known_now self.now).store file.now }
    {
        if self.state.is_second() {
            None
        } else {
            stored(&self.store, file)
        }
    }

    // The question about a file, unless its answer stands in the given store.
    fn file_question<U: JsrUrlProvider>(
        &self,
        alloc: Global,
        urls: &U,
        file: &RegistryFile,
    ) -> Result<Option<Question>, AllocError>
        ensures { IfOk result (λ question. question
            ≡ (if is_stored (known_now self.now).store file.now then None else Some (wanted_question
            (setting_for self.now.state.run) (known_now self.now) file.now
            (file_url (U.meaning urls.now) file.now)))) }
    {
        if self.stored(file).is_some() {
            return Ok(None);
        }
        let setting = self.state.metadata_setting();
        Ok(Some(wanted_question(alloc, urls, &self.known_sums(), setting, file)?))
    }

    // The question about the next file that has no place yet.
    fn next_file<U: JsrUrlProvider>(
        &self,
        alloc: Global,
        urls: &U,
    ) -> Result<Option<Question>, AllocError>
        ensures { (file : RegistryFile)
            → slice_get self.now.state.wanted (length self.now.wanted) ≡ Some file
            → IfOk result
            (λ question. question
            ≡ (if is_stored (known_now self.now).store file then None else Some
            (wanted_question (setting_for self.now.state.run) (known_now self.now)
            file (file_url (U.meaning urls.now) file)))) }
    {
        match self.state.wanted.get(self.wanted.len()) {
            None => Ok(None),
            Some(file) => self.file_question(alloc, urls, file),
        }
    }

    // A file has its place behind the turn that stands, whose answer stands in the given store.
    fn place_stored(&mut self) -> Result<(), AllocError>
        ensures placed { OnOk result
            (self.new ≡ record self.old { wanted = self.old.wanted ++ None ∷ [] }) }
        ensures known { self.new.known ≡ self.old.known }
    {
        self.wanted.push_back(None)?;
        Ok(())
    }

    // A file has its place there, and its question is queued.
    fn place_asked(&mut self, question: Question) -> Result<(), AllocError>
        ensures placed { OnOk result (self.new
            ≡ record (put self.old question)
            { wanted = self.old.wanted ++ Some (self.old.queued, question.specifier) ∷ [] }) }
        ensures known { self.new.known ≡ self.old.known }
    {
        let (ticket, at) = self.put_at(question)?;
        self.wanted.push_back(Some((ticket, at)))?;
        Ok(())
    }

    // A file has its place there, and its question is queued, unless its answer stands in the given store.
    fn place_file(&mut self, question: Option<Question>) -> Result<(), AllocError>
        ensures placed { (registry : RegistryMeaning) (file : RegistryFile)
            → question
            ≡ (if is_stored (known_now self.old).store file then None else Some (wanted_question
            (setting_for self.old.state.run) (known_now self.old) file (file_url registry file)))
            → OnOk result (self.new ≡ one_wanted registry self.old file) }
        ensures known { self.new.known ≡ self.old.known }
    {
        match question {
            None => self.place_stored(),
            Some(question) => self.place_asked(question),
        }
    }

    // Queues the questions about the files that have no place yet.
    fn put_wanted<U: JsrUrlProvider>(&mut self, alloc: Global, urls: &U) -> Result<(), AllocError>
        ensures wanted { OnOk result
            (self.new
            ≡ wanted_all (U.meaning urls.now)
            (drop (length self.old.wanted) self.old.state.wanted) self.old) }
        ensures known { self.new.known ≡ self.old.known }
    {
        while self.wanted.len() < self.state.wanted.len() {
            let question = self.next_file(alloc, urls)?;
            self.place_file(question)?;
        }
        Ok(())
    }

    // The answer about the first file is taken from the given store; answers whether a turn stands, which it does where none is there.
    fn use_stored<U: JsrUrlProvider>(&mut self, alloc: Global, urls: &U) -> Result<bool, AllocError>
        ensures used { IfOk result
            (λ due. stored_begun (U.meaning urls.now) self.old self.old.state.wanted
            ≡ (due, self.new)) }
        ensures known { self.new.known ≡ self.old.known }
    {
        if self.state.is_second() {
            return Ok(true);
        }
        let Some(file) = self.state.wanted.get(0) else {
            return Ok(true);
        };
        let Some(answer) = stored(&self.store, file) else {
            return Ok(true);
        };
        let kept = self.state.keep_wanted(alloc, urls, answer)?;
        drop(kept);
        Ok(false)
    }

    /// The turn of the first file begins, which the pass asks about; answers whether it stands.
    pub(crate) fn begin_wanted<U: JsrUrlProvider>(
        &mut self,
        alloc: Global,
        urls: &U,
    ) -> Result<bool, AllocError>
        ensures begun { IfOk result
            (λ due. file_next (U.meaning urls.now)
            (wanted_all (U.meaning urls.now)
            (drop (length self.old.wanted) self.old.state.wanted) self.old)
            ≡ (due, self.new)) }
        ensures known { self.new.known ≡ self.old.known }
    {
        self.put_wanted(alloc, urls)?;
        match self.wanted.pop_front() {
            None => Ok(true),
            Some(Some((ticket, at))) => {
                self.stand(Stage::Looks(ticket, at));
                Ok(true)
            }
            Some(None) => self.use_stored(alloc, urls),
        }
    }

    // An answer about a file is to be added to the given store, in a first run.
    fn add_to_store(&mut self, file: RegistryFile, answer: LoadResult) -> Result<(), AllocError>
        ensures added { OnOk result (self.new ≡ with_added self.old file answer) }
        ensures known { self.new.known ≡ self.old.known }
    {
        if self.state.is_second() || self.store.is_none() {
            drop(file);
            drop(answer);
            Ok(())
        } else {
            self.added.push_back((file, answer))
        }
    }

    /// The answer about the first file is kept.
    pub(crate) fn keep_wanted<U: JsrUrlProvider>(
        &mut self,
        alloc: Global,
        urls: &U,
        answer: Answer,
    ) -> Result<(), AllocError>
        ensures kept { OnOk result
            (self.new
            ≡ first_added
            (record self.old
            { state = wanted_kept (U.meaning urls.now) self.old.state (loaded answer) })
            (loaded answer) self.old.state.wanted) }
        ensures known { self.new.known ≡ self.old.known }
    {
        let answer = loaded(answer);
        match self.state.keep_wanted(alloc, urls, &answer) {
            Ok(Some(file)) => self.add_to_store(file, answer),
            Ok(None) => {
                drop(answer);
                Ok(())
            }
            Err(refusal) => {
                drop(answer);
                Err(refusal)
            }
        }
    }

    /// The answer about the file of a version that the first open load's URL names is kept.
    pub(crate) fn keep_file<U: JsrUrlProvider>(
        &mut self,
        alloc: Global,
        urls: &U,
        nv: PackageNv,
        answer: Answer,
    ) -> Result<(), AllocError>
        ensures kept { OnOk result
            (self.new
            ≡ with_added
            (record self.old {
              state = file_kept self.old.state nv
                  (kept_of (U.meaning urls.now) nv (loaded answer));
            }) (Version nv)
            (loaded answer)) }
        ensures known { self.new.known ≡ self.old.known }
    {
        let answer = loaded(answer);
        match self.state.keep_version(alloc, urls, &nv, &answer) {
            Ok(()) => self.add_to_store(RegistryFile::Version(nv), answer),
            Err(refusal) => {
                drop(nv);
                drop(answer);
                Err(refusal)
            }
        }
    }

    /// The file of a version that the first open load's URL names is taken from the given store; answers whether it stands there.
    pub(crate) fn read_stored<U: JsrUrlProvider>(
        &mut self,
        alloc: Global,
        urls: &U,
        nv: &PackageNv,
    ) -> Result<bool, AllocError>
        ensures found { IfOk result
            (λ found. found ≡ is_stored (known_now self.old).store (Version nv.now)) }
        ensures read { IfOk result (λ found. self.new
            ≡ by_option (answer_in (known_now self.old).store (Version nv.now)) self.old
            (stored_read (U.meaning urls.now) self.old nv.now)) }
        ensures known { self.new.known ≡ self.old.known }
    {
        if self.state.is_second() {
            return Ok(false);
        }
        let Some(answer) = stored_version(&self.store, nv) else {
            return Ok(false);
        };
        self.state.keep_version(alloc, urls, nv, answer)?;
        Ok(true)
    }
}
