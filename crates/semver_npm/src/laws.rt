// Laws of the definitions, each the contract of a function that does nothing.
ghost use Rattle.std.specs.Prelude.{◌≡◌, ◌<◌, ◌+◌, ◌^◌, ◌&&◌, ◌∷◌, [], List, Some, length, ℕ};
ghost use Rattle.std.specs.Ordering.{is_ge, is_le, is_lt};
ghost use Rattle.semver_npm.specs.Grammar.{IsPartial, IsRangeSet};
ghost use Rattle.semver_npm.specs.Meaning.{in_range, release};
ghost use Rattle.semver_npm.specs.Reader.{between, partial_of, ranges_of};
ghost use Rattle.semver_npm.specs.Versions.{Ver, precedence};
ghost use Rattle.semver_npm.specs.declared.simple.Operator.TheVariants.{Caret, Plain, Tilde};
ghost use Rattle.semver_npm.specs.declared.simple.Partial.TheVariants.{Full, Major};
ghost use Rattle.semver_npm.specs.declared.simple.Partial.{Partial};
ghost use Rattle.semver_npm.specs.declared.simple.Simple.{Simple};

/// A word is read as a partial version exactly where npm's grammar has it as one.
pub fn reads_partials()
    ensures sound { (w : List ℕ) (p : Partial) → partial_of w ≡ Some p → IsPartial p w }
    ensures complete { (p : Partial) (w : List ℕ) → IsPartial p w → partial_of w ≡ Some p }
{}

/// A text is read as a range set exactly where npm's grammar has it as one.
pub fn reads_the_grammar()
    ensures sound { (text : List ℕ) (rs : List (List Simple)) → ranges_of text ≡ Some rs
        → IsRangeSet rs text }
    ensures complete { (rs : List (List Simple)) (text : List ℕ) → IsRangeSet rs text
        → ranges_of text ≡ Some rs }
{}

/// A version without pre-release lies in `^a.b.c`, where `a` isn't 0, exactly where it is at least
/// `a.b.c` and below `(a+1).0.0`.
pub fn caret_keeps_the_major_number()
    ensures { (a b c : ℕ) (v : Ver) → 0 < a → a + 1 < 2 ^ 64 → length v.3 ≡ 0
        → in_range (record { operator = Caret; partial = Full (release a b c) } ∷ []) v
        ≡ (is_ge (precedence v (release a b c)) && is_lt (precedence v (release (a + 1) 0 0))) }
{}

/// A version without pre-release lies in `~a.b.c` exactly where it is at least `a.b.c` and below
/// `a.(b+1).0`.
pub fn tilde_keeps_the_minor_number()
    ensures { (a b c : ℕ) (v : Ver) → b + 1 < 2 ^ 64 → length v.3 ≡ 0
        → in_range (record { operator = Tilde; partial = Full (release a b c) } ∷ []) v
        ≡ (is_ge (precedence v (release a b c)) && is_lt (precedence v (release a (b + 1) 0))) }
{}

/// A version without pre-release lies in `a.x` exactly where it is at least `a.0.0` and below
/// `(a+1).0.0`.
pub fn x_range_keeps_the_given_numbers()
    ensures { (a : ℕ) (v : Ver) → a + 1 < 2 ^ 64 → length v.3 ≡ 0
        → in_range (record { operator = Plain; partial = Major a } ∷ []) v
        ≡ (is_ge (precedence v (release a 0 0)) && is_lt (precedence v (release (a + 1) 0 0))) }
{}

/// A version without pre-release lies in `p - q` of two whole versions exactly where it is at least
/// `p` and at most `q`.
pub fn hyphen_range_has_both_its_ends()
    ensures { (p q v : Ver) → length v.3 ≡ 0 → in_range (between (Full p) (Full q)) v
        ≡ (is_ge (precedence v p) && is_le (precedence v q)) }
{}
