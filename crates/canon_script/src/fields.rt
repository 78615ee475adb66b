//! Reads numbers that are members of an object, each of which may be missing.

ghost use Rattle.std.specs.Prelude.{◌≡◌, Some, option_map, option_and_then};
ghost use Rattle.std.specs.Option.{option_map_or};
ghost use Rattle.serde_json.specs.View.{view};
ghost use Rattle.canon_json.specs.Json.{u32_of, word_of};
ghost use Rattle.canon_script.specs.Numbers.{number_to};

use canon_json::u32_of;
use serde_json::Value;

/// A number below 2^32, if it is there.
pub(crate) fn u32_in(v: Option<&Value>) -> Option<u32>
    ensures { result ≡ option_and_then u32_of (option_map (λ x. view x.now) v.entry) }
{
    u32_of(v?)
}

/// A number, if it is there.
pub(crate) fn word_in(v: Option<&Value>) -> Option<u64>
    ensures { result ≡ option_and_then word_of (option_map (λ x. view x.now) v.entry) }
{
    v?.as_u64()
}

/// A number, or what it is where it is missing.
pub(crate) fn word_or(v: Option<&Value>, default: u64) -> Option<u64>
    ensures { result ≡ option_map_or word_of (option_map (λ x. view x.now) v.entry) (Some default) }
{
    match v {
        Some(v) => v.as_u64(),
        None => Some(default),
    }
}

/// A number that is at most so much, or what it is where it is missing.
pub(crate) fn number_or(v: Option<&Value>, most: u64, default: u64) -> Option<u64>
    ensures { result ≡ option_map_or (number_to most) (option_map (λ x. view x.now) v.entry) (Some default) }
{
    let Some(v) = v else {
        return Some(default);
    };
    match v.as_u64() {
        Some(n) if n <= most => Some(n),
        _ => None,
    }
}
