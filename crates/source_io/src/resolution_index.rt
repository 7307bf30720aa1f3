// A world's resolutions, found by their referrers.
ghost use Rattle.std.specs.Prelude.{◌≡◌, IfOk};
ghost use Rattle.spec_base.specs.Places.{IsIndex};
ghost use Rattle.source_io.specs.Places.{is_from, links_from};

use crate::types::WorldResolution;
use spec_base::Items;
use specifier_index::SpecifierIndex;
use std::alloc::{AllocError, Global};
use std::collections::VecDeque;

/// Resolutions, found by their referrers.
#[derive(Drop)]
pub(crate) struct ResolutionIndex {
    pub(crate) entries: Items<WorldResolution>,
    /// The place of the first entry of each referrer.
    pub(crate) heads: SpecifierIndex<usize>,
    /// From each entry the place of the next one of its referrer.
    pub(crate) links: VecDeque<Option<usize>>,
    ghost indexed: { IsIndex is_from entries heads },
    ghost linked: { links.items ≡ links_from 0 entries },
}

impl ResolutionIndex {
    /// The index of these resolutions. The only refusal is want of memory.
    pub(crate) fn new(
        alloc: Global,
        entries: Items<WorldResolution>,
    ) -> Result<ResolutionIndex, AllocError>
        ensures { IfOk result (λ i. i.entries ≡ entries) }
    {
        let (heads, links) = chains_of(alloc, entries.as_slice())?;
        Ok(ResolutionIndex {
            entries,
            heads,
            links,
        })
    }
}

// The first places of referrers, and the links between the entries of each.
fn chains_of(
    alloc: Global,
    entries: &[WorldResolution],
) -> Result<(SpecifierIndex<usize>, VecDeque<Option<usize>>), AllocError>
    ensures heads { IfOk result (λ r. IsIndex is_from entries.now r.0) }
    ensures links { IfOk result (λ r. r.1.items ≡ links_from 0 entries.now) }
{
    let mut heads = SpecifierIndex::new(alloc);
    let mut links = VecDeque::new(alloc);
    let mut left = entries;
    while let Some((entry, others)) = left.split_last() {
        links.push_front(heads.get(&entry.referrer).copied())?;
        let referrer = entry.referrer.clone()?;
        let _ = heads.insert(referrer, others.len())?;
        left = others;
    }
    Ok((heads, links))
}
