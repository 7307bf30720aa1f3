// Under what an answer stands.
ghost use Rattle.std.specs.Prelude.{Some, refl};
ghost use Rattle.std.specs.Ordering.{eq_by_cmp};
ghost use Rattle.std.specs.Cmp.{eq_by_cmp_equiv, partial_equiv_from_equiv, partial_order_from_total};
ghost use Rattle.graph_store.specs.AnswerMap.{entry_key_cmp, entry_key_total};

use crate::order::keys_compared;
use source_io::Purpose;
use spec_base::ModuleSpecifier;
use std::cmp::Ordering;

/// Under what an answer stands: a specifier and a purpose, in the order of a store's entries.
#[derive(Drop)]
pub(crate) struct EntryKey {
    pub(crate) specifier: ModuleSpecifier,
    pub(crate) purpose: Purpose,
}

impl PartialEq for EntryKey {
    ghost eq = { eq_by_cmp entry_key_cmp };

    ghost laws = { partial_equiv_from_equiv (eq_by_cmp_equiv entry_key_total) };

    fn eq(&self, other: &EntryKey) -> bool {
        self.cmp(other) == Ordering::Equal
    }
}

impl Eq for EntryKey {
    ghost laws = { eq_by_cmp_equiv entry_key_total };
}

impl PartialOrd for EntryKey {
    ghost partial_cmp = { λ a b. Some (entry_key_cmp a b) };

    ghost laws = { partial_order_from_total entry_key_total };

    fn partial_cmp(&self, other: &EntryKey) -> Option<Ordering> {
        Some(self.cmp(other))
    }
}

impl Ord for EntryKey {
    ghost cmp = { entry_key_cmp };

    ghost total = { entry_key_total };

    ghost matches_partial_cmp = { λ a b. refl };

    ghost matches_eq = { λ a b. refl };

    fn cmp(&self, other: &EntryKey) -> Ordering {
        keys_compared(
            &self.specifier,
            self.purpose,
            &other.specifier,
            other.purpose,
        )
    }
}
