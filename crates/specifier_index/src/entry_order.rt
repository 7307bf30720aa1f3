// Whether entries stand in the order of their specifiers.
ghost use Rattle.std.specs.Bool.{Decides};
ghost use Rattle.specifier_index.specs.EntryOrder.{AreRising};

use url::Url;

/// Whether each entry's specifier stands before the next one's by its text, so that the entries are in order and no two are of one
/// specifier.
pub fn entries_rise<T>(entries: &[(Url, T)]) -> bool
    ensures { Decides result (AreRising entries.now) }
{
    entries.is_sorted_by(|first, second| first.0.cmp(&second.0).is_lt())
}
