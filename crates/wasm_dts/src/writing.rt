// Pieces of text.
ghost use Rattle.std.specs.Prelude.{◌≡◌};
ghost use Rattle.wasm_dts.specs.Declarations.{comma};

/// What stands in front of the element of a list with a number, counted from zero: nothing in front of the
/// first, and a comma and a space in front of any other.
pub fn comma(number: usize) -> &'static str
    ensures { result.now ≡ comma number }
{
    if number == 0 { "" } else { ", " }
}
