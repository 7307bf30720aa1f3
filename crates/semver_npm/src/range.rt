// One range of a requirement: simples that a version meets all of.
ghost use Rattle.std.specs.Prelude.{◌≡◌};
ghost use Rattle.std.specs.List.{list_all, list_any};
ghost use Rattle.semver.specs.Identifiers.{parts_of};
ghost use Rattle.semver_npm.specs.Meaning.{in_range, in_simple, names_pre};

use crate::simple::Simple;
use semver::Version;
use spec_base::Items;
use std::alloc::AllocError;
use std::marker::Model;

/// A range, which contracts see as the list of its simples.
#[derive(Debug, Drop)]
pub struct Range {
    simples: Items<Simple>,
}

impl Model for Range {
    ghost use Rattle.std.specs.Prelude.{List};
    ghost use Rattle.semver_npm.specs.declared.simple.Simple.{Simple};

    ghost Value = { List Simple };

    ghost view = { λ r. r.simples };
}

impl From<Items<Simple>> for Range {
    ghost from_gives = { λ simples r. r ≡ simples };

    fn from(simples: Items<Simple>) -> Range {
        Range { simples }
    }
}

fn meets_all(simples: &[Simple], version: &Version) -> bool
    ensures { result ≡ list_all (λ s. in_simple s (parts_of version.now)) simples.now }
{
    simples.iter().all(|simple| simple.matches(version))
}

fn any_names_pre(simples: &[Simple], version: &Version) -> bool
    ensures { result ≡ list_any (λ s. names_pre s.partial (parts_of version.now)) simples.now }
{
    simples.iter().any(|simple| simple.names_pre(version))
}

impl Range {
    /// The simples.
    pub fn as_slice(&self) -> &[Simple]
        ensures { result.now ≡ self.now }
    {
        self.simples.as_slice()
    }

    /// Whether a version meets all simples, and a pre-release one that names its three numbers.
    pub(crate) fn matches(&self, version: &Version) -> bool
        ensures { result ≡ in_range self.now (parts_of version.now) }
    {
        let simples = self.simples.as_slice();
        meets_all(simples, version) && (version.pre.is_empty() || any_names_pre(simples, version))
    }
}

impl Clone for Range {
    ghost is_clone = { λ r copy. copy ≡ r };

    fn clone(&self) -> Result<Range, AllocError> {
        let simples = self.simples.try_clone()?;
        Ok(Range { simples })
    }
}
