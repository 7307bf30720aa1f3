// The words of a command that has workers.
ghost use Rattle.std.specs.Prelude.{◌≡◌, ◌≤◌, IfSome, map, string_bytes};
ghost use Rattle.graph_info.specs.Words.{digit_of, number_of, workers_in, workers_of};

// The number that a decimal digit is.
fn digit_of(byte: u8) -> Option<usize>
    ensures digit { result ≡ digit_of byte }
    ensures small { IfSome result (λ digit. digit ≤ 9) }
{
    if 48 <= byte && byte <= 57 {
        Some(usize::from(byte - 48))
    } else {
        None
    }
}

// The number of workers that a word names.
fn number_of(word: &[u8]) -> Option<usize>
    ensures { result ≡ number_of word.now }
{
    match word {
        [only] => digit_of(*only),
        [first, second] => {
            let tens = digit_of(*first)?;
            let ones = digit_of(*second)?;
            let number = 10 * tens + ones;
            if 0 < tens && number <= 64 {
                Some(number)
            } else {
                None
            }
        }
        _ => None,
    }
}

// The number of workers in the words after `build`.
fn workers_in(words: &[String]) -> Option<usize>
    ensures { result ≡ workers_in (map (λ w. string_bytes w) words.now) }
{
    match words {
        [flag, number] => {
            if flag.as_str() == "--workers" {
                number_of(number.as_str().as_bytes())
            } else {
                None
            }
        }
        _ => None,
    }
}

/// The number of workers in the words `build --workers N`, where N is a number from 0 to 64 in decimal digits, without a
/// leading zero. None for all other words.
pub fn workers_of(words: &[String]) -> Option<usize>
    ensures { result ≡ workers_of (map (λ w. string_bytes w) words.now) }
{
    match words {
        [word, rest @ ..] => {
            if word.as_str() == "build" {
                workers_in(rest)
            } else {
                None
            }
        }
        _ => None,
    }
}
