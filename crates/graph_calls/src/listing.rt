// A loader that lists what is asked of it.
ghost use Rattle.std.specs.Prelude.{◌≡◌};

use crate::ended::Left;
use source_io::{
    Answer, CacheInfo, CacheSetting, Loader, LoaderCore, NextRefusal, Question, Ticket,
};
use spec_base::ModuleSpecifier;
use std::alloc::{AllocError, Global};

/// A loader that lists the questions that are put to it, in order, one line each: how many other questions are open; how it is to be
/// loaded, `ensure` where it is to be kept at hand alone; the specifier; the sum that goes with it; `branch` in a dynamic branch, and
/// `root` of a build that begins in the dynamic phase.
#[derive(Drop)]
pub struct Listing<L: Loader + Drop> {
    pub inner: L,
    pub lines: String,
    alloc: Global,
}

// How a module is to be loaded.
fn setting_word(question: &Question) -> &'static str {
    if question.asset {
        return "ensure";
    }
    match question.options.cache_setting {
        CacheSetting::Only => "only",
        CacheSetting::Use => "use",
        CacheSetting::Reload => "reload",
    }
}

fn push_sum(lines: &mut String, question: &Question) -> Result<(), AllocError> {
    if let Some(sum) = &question.options.maybe_checksum {
        lines.push_str(" ")?;
        lines.push_str(sum.as_str())?;
    }
    Ok(())
}

fn push_flags(lines: &mut String, question: &Question) -> Result<(), AllocError> {
    lines.push_str(if question.options.in_dynamic_branch {
        " branch"
    } else {
        ""
    })?;
    lines.push_str(if question.options.was_dynamic_root {
        " root"
    } else {
        ""
    })?;
    Ok(())
}

fn push_line(
    alloc: Global,
    lines: &mut String,
    open: usize,
    question: &Question,
) -> Result<(), AllocError> {
    let setting = setting_word(question);
    let line = Left::new(format!(in alloc; "{open} {setting} {}", question.specifier)?);
    lines.push_str(line.as_str())?;
    push_sum(lines, question)?;
    push_flags(lines, question)?;
    lines.push_str("\n")
}

impl<L: Loader + Drop> Listing<L> {
    /// Lists nothing yet.
    pub fn new(alloc: Global, inner: L) -> Listing<L>
        ensures { result.inner ≡ inner }
    {
        Listing {
            inner,
            lines: String::new(alloc),
            alloc,
        }
    }

    /// The lines.
    pub fn into_lines(self) -> String {
        self.lines
    }
}

impl<L: Loader + Drop> LoaderCore for Listing<L> {
    ghost world = { λ n. L.world n.inner };

    ghost open_tickets = { λ n. L.open_tickets n.inner };

    ghost faults = { λ n. L.faults n.inner };

    ghost asked = { λ n. L.asked n.inner };

    ghost may_fail = { λ n. L.may_fail n.inner };

    ghost caches = { λ n. L.caches n.inner };

    fn max_redirects(&self) -> usize {
        self.inner.max_redirects()
    }

    fn cache_info_enabled(&self) -> bool {
        self.inner.cache_info_enabled()
    }

    fn get_cache_info(&self, specifier: &ModuleSpecifier) -> Result<Option<CacheInfo>, AllocError> {
        self.inner.get_cache_info(specifier)
    }

    fn open_len(&self) -> usize {
        self.inner.open_len()
    }

    fn ask(&mut self, ticket: Ticket, question: Question) -> Result<(), AllocError> {
        let open = self.inner.open_len();
        push_line(self.alloc, &mut self.lines, open, &question)?;
        self.inner.ask(ticket, question)
    }
}

impl<L: Loader + Drop> Loader for Listing<L> {
    fn next(&mut self) -> Result<(Ticket, Answer), NextRefusal> {
        self.inner.next()
    }
}
