// A loader over sources in memory, which answers the first open question first.
ghost use Rattle.std.specs.Prelude.{◌≡◌, [], IfOk, OnOk, OnErr};
ghost use Rattle.spec_base.specs.Refusal.{AnswersBy};

use crate::answers::{Answers, kept_or_read, put_source, put_sources};
use crate::invalid_specifier::{InvalidSpecifier, specifier_of};
use crate::registry_files::{package_url, version_url, written};
use crate::source::{MemoryLoaderSources, Source};
use crate::source_answer::{loaded, module_response};
use pkg_versions::{JsrPackageInfo, JsrPackageVersionInfo};
use serde_json::Value;
use source_io::{
    Answer, CacheInfo, DEFAULT_MAX_REDIRECTS, LoadResponse, Loader, LoaderCore, NextRefusal,
    Question, Ticket,
};
use spec_base::{Bytes, ModuleSpecifier, Refusal};
use std::alloc::{AllocError, Global};
use std::collections::VecDeque;

/// A loader that answers by sources in memory, the first open question first, and never fails.
///
/// A question that keeps a module at hand is answered by `ensured` of what a load of it is answered. The options of a question
/// make no difference: a source stands there under each cache setting, and no sum is judged.
///
/// A `data:` URL at which no source stands is answered by what it holds (RFC 2397), and any other such
/// specifier is missing. A load follows at most `DEFAULT_MAX_REDIRECTS` redirects.
#[derive(Drop)]
pub struct MemoryLoader {
    alloc: Global,
    answers: Answers,
    unanswered: VecDeque<(Ticket, Question)>,
    asked: u64,
}

impl MemoryLoader {
    ghost use Rattle.source_io.specs.declared.types.LoadResponse.TheVariants.{External};
    ghost use Rattle.memory_loader.specs.Sources.{bare_module, with_sources};
    ghost use Rattle.memory_loader.specs.Loaders.{LeavesAnswers, ListsLast, ListsLater, answers_in, open_in, asked_of, source_added, response_added};

    /// The loader of some sources, in which nothing is open and to which nothing was put.
    ///
    /// A later source of a specifier stands in the place of an earlier one. `Is` comes exactly where a text has no
    /// URL (a key, or the name or the target of a source), with the first such text.
    pub fn new(
        alloc: Global,
        sources: MemoryLoaderSources<String, Vec<u8>>,
    ) -> Result<MemoryLoader, Refusal<InvalidSpecifier>>
        ensures sources { AnswersBy answers_in result (with_sources [] sources.items) }
        ensures latest { IfOk result (ListsLast sources.items) }
        ensures opened { IfOk result (λ l. open_in l ≡ []) }
        ensures asked { IfOk result (λ l. asked_of l ≡ 0) }
    {
        let mut answers = Answers::new(alloc);
        put_sources(alloc, &mut answers, sources)?;
        Ok(MemoryLoader {
            alloc,
            answers,
            unanswered: VecDeque::new(alloc),
            asked: 0,
        })
    }

    /// Adds a source, in the place of an earlier one of its specifier. `Is` comes exactly where the key, or the
    /// name or the target of the source, has no URL, with the first such text; after a refusal the loader is
    /// unchanged.
    pub fn add_source(
        &mut self,
        specifier: &str,
        source: Source<String, Vec<u8>>,
    ) -> Result<(), Refusal<InvalidSpecifier>>
        ensures added { LeavesAnswers self.new result (source_added self.old specifier.now source) }
        ensures latest { OnOk result (ListsLater specifier.now source self.old self.new) }
        ensures refused { OnErr result (self.new ≡ self.old) }
        ensures opened { open_in self.new ≡ open_in self.old }
        ensures asked { asked_of self.new ≡ asked_of self.old }
    {
        put_source(self.alloc, &mut self.answers, specifier, source)
    }

    /// Adds a module that is named by its key and has no headers, as `add_source` does.
    pub fn add_bytes_source(
        &mut self,
        specifier: &str,
        content: Vec<u8>,
    ) -> Result<(), Refusal<InvalidSpecifier>>
        ensures added { LeavesAnswers self.new result
            (response_added self.old specifier.now (bare_module content.items)) }
        ensures refused { OnErr result (self.new ≡ self.old) }
        ensures opened { open_in self.new ≡ open_in self.old }
        ensures asked { asked_of self.new ≡ asked_of self.old }
    {
        let key = specifier_of(self.alloc, specifier)?;
        let name = key.clone()?;
        self.put(key, module_response(content.into(), None, name))
    }

    /// Adds a module that is named by its key and has no headers, with the bytes of a text, as `add_source` does.
    pub fn add_source_with_text(
        &mut self,
        specifier: &str,
        source: &str,
    ) -> Result<(), Refusal<InvalidSpecifier>>
        ensures added { LeavesAnswers self.new result
            (response_added self.old specifier.now (bare_module source.now)) }
        ensures refused { OnErr result (self.new ≡ self.old) }
        ensures opened { open_in self.new ≡ open_in self.old }
        ensures asked { asked_of self.new ≡ asked_of self.old }
    {
        let content = Vec::from_slice(self.alloc, source.as_bytes())?;
        self.add_bytes_source(specifier, content)
    }

    /// Adds an external module that is named by its key, as `add_source` does.
    pub fn add_external_source(&mut self, specifier: &str) -> Result<(), Refusal<InvalidSpecifier>>
        ensures added { LeavesAnswers self.new result
            (response_added self.old specifier.now External) }
        ensures refused { OnErr result (self.new ≡ self.old) }
        ensures opened { open_in self.new ≡ open_in self.old }
        ensures asked { asked_of self.new ≡ asked_of self.old }
    {
        let key = specifier_of(self.alloc, specifier)?;
        let specifier = key.clone()?;
        self.put(key, LoadResponse::External { specifier })
    }
}

impl MemoryLoader {
    ghost use Rattle.std.specs.Prelude.{IfErr};
    ghost use Rattle.serde_json.specs.View.{view};
    ghost use Rattle.spec_base.specs.declared.refusal.Refusal.TheVariants.{Memory};
    ghost use Rattle.pkg_versions.specs.FileViews.{file_of};
    ghost use Rattle.pkg_versions.specs.RegistryFiles.{package_json, version_json};
    ghost use Rattle.memory_loader.specs.Loaders.{open_in, asked_of};
    ghost use Rattle.memory_loader.specs.RegistryFiles.{KeepsFile, package_url, version_url};

    /// Adds the file of a package of the registry JSR (`https://jsr.io/name/meta.json`), in the place of an earlier source of
    /// its URL: the JSON text of what it says, which `JsrPackageInfo::from_json` reads. The name stands in the URL as it is
    /// written, so each name has one; the only refusal is want of memory, after which the loader is unchanged.
    pub fn add_jsr_package_info(
        &mut self,
        name: &str,
        package_info: &JsrPackageInfo,
    ) -> Result<(), Refusal<InvalidSpecifier>>
        ensures added { OnOk result
            (KeepsFile (package_url name.now) (package_json package_info.now) self.old self.new) }
        ensures memory { IfErr result (λ e. e ≡ Memory) }
        ensures refused { OnErr result (self.new ≡ self.old) }
        ensures opened { open_in self.new ≡ open_in self.old }
        ensures asked { asked_of self.new ≡ asked_of self.old }
    {
        let url = package_url(self.alloc, name)?;
        let json = package_info.to_json(self.alloc)?;
        self.put_json(url, &json)
    }

    /// Adds the file of a version of a package of the registry JSR (`https://jsr.io/name/version_meta.json`, with the version
    /// as it is written), as `add_jsr_package_info` does for a package.
    pub fn add_jsr_version_info(
        &mut self,
        name: &str,
        version: &str,
        version_info: &JsrPackageVersionInfo,
    ) -> Result<(), Refusal<InvalidSpecifier>>
        ensures added { OnOk result
            (KeepsFile (version_url name.now version.now) (version_json (file_of version_info.now))
            self.old self.new) }
        ensures memory { IfErr result (λ e. e ≡ Memory) }
        ensures refused { OnErr result (self.new ≡ self.old) }
        ensures opened { open_in self.new ≡ open_in self.old }
        ensures asked { asked_of self.new ≡ asked_of self.old }
    {
        let url = version_url(self.alloc, name, version)?;
        let json = version_info.to_json(self.alloc)?;
        self.put_json(url, &json)
    }

    // Keeps a module of JSON at a key that is its name.
    fn put_json(
        &mut self,
        key: ModuleSpecifier,
        json: &Value,
    ) -> Result<(), Refusal<InvalidSpecifier>>
        ensures added { OnOk result (KeepsFile key (view json.now) self.old self.new) }
        ensures memory { IfErr result (λ e. e ≡ Memory) }
        ensures refused { OnErr result (self.new ≡ self.old) }
        ensures opened { open_in self.new ≡ open_in self.old }
        ensures asked { asked_of self.new ≡ asked_of self.old }
    {
        let text = written(self.alloc, json)?;
        let name = key.clone()?;
        let content = Bytes::from(text.into_bytes());
        self.put(key, module_response(content, None, name))
    }
}

impl MemoryLoader {
    ghost use Rattle.std.specs.Prelude.{Ok, Some, IfErr};
    ghost use Rattle.source_io.specs.declared.types.Answer.TheVariants.{Load};
    ghost use Rattle.spec_base.specs.declared.refusal.Refusal.TheVariants.{Memory};
    ghost use Rattle.memory_loader.specs.Sources.{with_answer};
    ghost use Rattle.memory_loader.specs.Loaders.{LeavesAnswers, answers_in, open_in, asked_of};

    // Keeps a response at a key, in the place of an earlier answer.
    fn put(
        &mut self,
        key: ModuleSpecifier,
        response: LoadResponse,
    ) -> Result<(), Refusal<InvalidSpecifier>>
        ensures put { let answer = Load (Ok (Some response))
            in LeavesAnswers self.new result (Ok (with_answer (answers_in self.old) key answer)) }
        ensures memory { IfErr result (λ e. e ≡ Memory) }
        ensures refused { OnErr result (self.new ≡ self.old) }
        ensures opened { open_in self.new ≡ open_in self.old }
        ensures asked { asked_of self.new ≡ asked_of self.old }
    {
        let _ = self.answers.insert(key, loaded(response))?;
        Ok(())
    }
}

impl LoaderCore for MemoryLoader {
    ghost use Rattle.std.specs.Prelude.{false};
    ghost use Rattle.memory_loader.specs.Loaders.{world_told, open_in, asked_of};

    ghost world = { λ l. world_told l };

    ghost open_tickets = { λ l. open_in l };

    ghost faults = { λ l. 0 };

    ghost asked = { λ l. asked_of l };

    ghost may_fail = { λ l n. false };

    ghost caches = { λ l. false };

    fn max_redirects(&self) -> usize {
        DEFAULT_MAX_REDIRECTS
    }

    fn cache_info_enabled(&self) -> bool {
        false
    }

    #[tactic(auto, unfolding(source_io::specs::Answers::listed_info))]
    fn get_cache_info(
        &self,
        _specifier: &ModuleSpecifier,
    ) -> Result<Option<CacheInfo>, AllocError> {
        Ok(None)
    }

    fn open_len(&self) -> usize {
        self.unanswered.len()
    }

    fn ask(&mut self, ticket: Ticket, question: Question) -> Result<(), AllocError> {
        self.unanswered.push_back((ticket, question))?;
        self.asked = self.asked.saturating_add(1);
        Ok(())
    }
}

impl Loader for MemoryLoader {
    ghost use Rattle.std.specs.Prelude.{◌<◌, Some, length, drop, IfErr};
    ghost use Rattle.source_io.specs.declared.types.NextRefusal.TheVariants.{Memory};
    ghost use Rattle.memory_loader.specs.Loaders.{IsAnsweredIn, open_in, asked_of, answers_in, answer_in};

    /// The answer to the first open question. The only refusal is want of memory, after which the loader is
    /// unchanged.
    fn next(&mut self) -> Result<(Ticket, Answer), NextRefusal>
        requires { 0 < length (open_in self.old) }
        ensures first { IfOk result (λ r. answer_in self.old ≡ Some r) }
        ensures removed { OnOk result (open_in self.new ≡ drop 1 (open_in self.old)) }
        ensures answered { IfOk result (IsAnsweredIn self.old self.new) }
        ensures memory { IfErr result (λ e. e ≡ Memory) }
        ensures unchanged { OnErr result (self.new ≡ self.old) }
        ensures sources { answers_in self.new ≡ answers_in self.old }
        ensures uncounted { asked_of self.new ≡ asked_of self.old }
    {
        let (ticket, question) = &self.unanswered[0];
        let ticket = *ticket;
        let kept = self.answers.as_map().get(&question.specifier);
        let answer = kept_or_read(self.alloc, question, kept)?;
        let _ = self.unanswered.pop_front();
        Ok((ticket, answer))
    }
}
