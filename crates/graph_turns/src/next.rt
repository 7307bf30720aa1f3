// What comes next in a build: what needs no answer is done at once, the rest is asked about.
ghost use Rattle.std.specs.Prelude.{◌≡◌, OnOk};
ghost use Rattle.graph_turns.specs.Machine.Next.{next_entry, next_in, next_of};
ghost use Rattle.graph_turns.specs.Machine.Turns.{gone_on};

use crate::registry::Registry;
use crate::state::State;
use build_reports::Reporter;
use source_io::JsrUrlProvider;
use std::alloc::{AllocError, Global};

/// What comes next.
#[derive(Clone, Copy, PartialEq, Eq, Debug)]
pub enum Next {
    /// Packages get the dependencies that were noted.
    Notes,
    /// The first open load is asked about.
    Load,
    /// The first file of the registry that the pass asks about is asked about.
    Wanted,
    /// The build begins once more.
    Restart,
    /// The first specifier of the pass is judged.
    Item,
    /// The files of the versions that the pass chose are to be asked about.
    Versions,
    /// What the exports of these versions lead to enters.
    Exports,
    /// Deferred loads enter.
    Deferred,
    /// A pass begins.
    Waiting,
    /// The dynamic phase begins.
    Dynamic,
    /// The first content that comes later is asked about.
    Content,
    /// Nothing is left.
    End,
}

impl State {
    // What comes next where nothing is open and no pass goes on.
    #[tactic(auto, using(crate::proofs::Entering::Next::where_some, crate::proofs::Entering::Next::where_none))]
    fn next_entry(&self) -> Next
        ensures { result ≡ next_entry self.now }
    {
        if self.deferred.len() != 0 {
            Next::Deferred
        } else if self.waiting.len() != 0 {
            Next::Waiting
        } else if self.dynamic.len() != 0 {
            Next::Dynamic
        } else if self.contents.len() != 0 {
            Next::Content
        } else {
            Next::End
        }
    }

    // What comes next where no load is open and no file is to be asked about.
    #[tactic(auto, using(crate::proofs::Entering::Next::where_some, crate::proofs::Entering::Next::where_none))]
    fn next_step(&self) -> Next
        ensures { result ≡ next_in self.now self.now.pass }
    {
        match &self.pass {
            None => self.next_entry(),
            Some(pass) => {
                if pass.is_entering {
                    Next::Exports
                } else if pass.items.len() == 0 {
                    Next::Versions
                } else {
                    Next::Item
                }
            }
        }
    }

    /// What comes next.
    #[tactic(auto, using(crate::proofs::Entering::Next::where_some, crate::proofs::Entering::Next::where_none))]
    pub fn next(&self) -> Next
        ensures { result ≡ next_of self.now }
    {
        if self.notes.len() != 0 {
            Next::Notes
        } else if self.loads.len() != 0 {
            Next::Load
        } else if self.wanted.len() != 0 {
            Next::Wanted
        } else if self.run.is_due() {
            Next::Restart
        } else {
            self.next_step()
        }
    }

    /// What comes next is done, where it needs no answer.
    pub fn go_on<U: JsrUrlProvider, R: Reporter>(
        &mut self,
        alloc: Global,
        registry: &Registry<'_, U, R>,
        next: Next,
    ) -> Result<(), AllocError>
        ensures { OnOk result
            (self.new
            ≡ gone_on (U.meaning registry.now.urls.now)
            registry.now.versions.now.newest_dependency_date_options self.old next) }
    {
        match next {
            Next::Notes => self.add_dependencies(alloc, registry.urls),
            Next::Item => self.judge(alloc, registry),
            Next::Versions => self.ask_versions(alloc),
            Next::Exports => self.enter_exports(alloc),
            Next::Deferred => self.enter_deferred(alloc),
            Next::Waiting => self.begin_pass(alloc),
            Next::Dynamic => self.enter_dynamic(alloc),
            Next::Restart => self.restart(alloc),
            Next::Load | Next::Wanted | Next::Content | Next::End => Ok(()),
        }
    }
}
