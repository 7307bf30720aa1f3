// The numbers of a world file that bound a build, and those that order and fail its answers.
ghost use Rattle.json_documents.specs.Documents as documents;
ghost use Rattle.spec_base.specs.Refusal.{Reads};
ghost use Rattle.world_file.specs.WorldFile.{limits_of};

use json_documents::Json;
use json_forms::{Misfit, or_default, or_empty};
use source_io::DEFAULT_MAX_REDIRECTS;
use spec_base::{Items, Refusal};
use std::alloc::Global;

/// How many questions a build may put where nothing else is said.
pub const DEFAULT_MAX_LOADS: u64 = 100_000;

/// The numbers of a world file.
#[derive(Drop)]
pub struct Limits {
    pub max_redirects: usize,
    pub max_loads: u64,
    pub arrival: Items<u64>,
    pub fail_next: Items<u64>,
}

/// The numbers of a world file, each by its default where it is absent.
pub fn read_limits(alloc: Global, value: &Json<'_, '_>) -> Result<Limits, Refusal<Misfit>>
    ensures { Reads result (limits_of (documents.view value.now)) }
{
    let max_redirects = or_default(alloc, value, "max_redirects", DEFAULT_MAX_REDIRECTS)?;
    let max_loads = or_default(alloc, value, "max_loads", DEFAULT_MAX_LOADS)?;
    let arrival = or_empty(alloc, value, "arrival")?;
    let fail_next = or_empty(alloc, value, "fail_next")?;
    Ok(Limits {
        max_redirects,
        max_loads,
        arrival,
        fail_next,
    })
}
