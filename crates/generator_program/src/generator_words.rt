// The words of the command `gen`.
ghost use Rattle.std.specs.Prelude.{◌≡◌, ◌≤◌, IfSome, map, string_bytes};
ghost use Rattle.generator_program.specs.Words.{digit_of, digits_after, generator_in, generator_of, number_of};

/// What a world is generated from: a number that the generator begins with, and the number of its modules.
#[derive(Clone, Copy, PartialEq, Eq, Debug)]
pub struct Generator {
    pub start: u32,
    pub count: u32,
}

/// The most modules that the command generates.
pub const MOST_MODULES: u32 = 20000;

// The number that a decimal digit is.
fn digit_of(byte: u8) -> Option<u64>
    ensures digit { result ≡ digit_of byte }
    ensures small { IfSome result (λ digit. digit ≤ 9) }
{
    if byte.is_ascii_digit() {
        Some(u64::from(byte - 48))
    } else {
        None
    }
}

// The number whose digits are those of a number and these behind them, if it is at most so great.
#[tactic(auto, unfolding(crate::specs::Words::digits_after))]
fn digits_after(most: u32, before: u32, digits: &[u8]) -> Option<u32>
    ensures { result ≡ digits_after most before digits.now }
{
    let mut number = before;
    for byte in digits {
        let longer = 10 * u64::from(number) + digit_of(*byte)?;
        if longer > u64::from(most) {
            return None;
        }
        number = longer as u32;
    }
    Some(number)
}

// The number that a word names, in decimal digits without a leading zero, if it is at most so great.
fn number_of(most: u32, word: &[u8]) -> Option<u32>
    ensures { result ≡ number_of most word.now }
{
    match word {
        [] => None,
        [48, _, ..] => None,
        _ => digits_after(most, 0, word),
    }
}

// What two words name.
fn generator_in(start: &[u8], count: &[u8]) -> Option<Generator>
    ensures { result ≡ generator_in start.now count.now }
{
    let start = number_of(u32::MAX, start)?;
    let count = number_of(MOST_MODULES, count)?;
    if count == 0 {
        None
    } else {
        Some(Generator { start, count })
    }
}

/// What a world is generated from, by the words `gen START COUNT`, where START is a number from 0 to 4294967295 and COUNT one
/// from 1 to 20000, both in decimal digits without a leading zero. None for all other words.
pub fn generator_of(words: &[String]) -> Option<Generator>
    ensures { result ≡ generator_of (map (λ w. string_bytes w) words.now) }
{
    match words {
        [word, start, count] => {
            if word.as_str() == "gen" {
                generator_in(start.as_str().as_bytes(), count.as_str().as_bytes())
            } else {
                None
            }
        }
        _ => None,
    }
}
