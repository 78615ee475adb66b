//! Reads the number N from the words `gen N` of the command line.

ghost use Rattle.std.specs.Prelude.{◌≡◌};
ghost use Rattle.std.specs.Str.{all_ascii_digits};
ghost use Rattle.canon_cli.specs.Gen as spec;

/// The most records that `gen` makes.
const MAX_COUNT: u32 = 20_000;

/// The number of the words `gen N`.
pub(crate) fn gen_of(words: &[String]) -> Option<u32>
    ensures { result ≡ spec.gen_of words.now }
{
    match words {
        [word, count] if word.as_str() == "gen" => count_of(count.as_str()),
        _ => None,
    }
}

/// The number of one to five digits with no zero at their front but in 0 itself, at most 20,000.
fn count_of(word: &str) -> Option<u32>
    ensures { result ≡ spec.count_of word.now }
{
    if !is_count(word.as_bytes()) {
        return None;
    }
    match word.parse::<u32>() {
        Ok(count) if count <= MAX_COUNT => Some(count),
        _ => None,
    }
}

fn is_count(word: &[u8]) -> bool
    ensures { result ≡ spec.is_count word.now }
{
    starts_well(word) && word.len() <= 5 && are_digits(word)
}

fn starts_well(word: &[u8]) -> bool
    ensures { result ≡ spec.starts_well word.now }
{
    match word {
        [] => false,
        [_] => true,
        [first, ..] => *first != b'0',
    }
}

fn are_digits(word: &[u8]) -> bool
    ensures { result ≡ all_ascii_digits word.now }
{
    for byte in word {
        if !byte.is_ascii_digit() {
            return false;
        }
    }
    true
}
