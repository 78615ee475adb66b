//! How a demand and a reply are spelled: as numbers of 8 bytes, the lowest byte first. The page `docs/ENGINE.md` has them as tables.

ghost use Rattle.std.specs.Prelude.{◌≡◌, ◌++◌, ◌∷◌, ◌+◌, ◌*◌, ◌≤◌, IfOk, OnOk, length};
ghost use Rattle.canon_relay.specs.Wire as spec;

use crate::Demand;
use canon_memory::ValRaw;
use std::alloc::{AllocError, Global};

/// The most words that a reply has: 16 that are passed in a row, and a pointer to the results.
pub const MAX_WORDS: u64 = 17;

/// Adds a number at the end.
pub fn put_number(to: &mut Vec<u8>, number: u64) -> Result<(), AllocError>
    ensures { OnOk result (to.new.items ≡ to.old.items ++ spec.number_bytes number) }
{
    to.extend_from_slice(&number.to_le_bytes())?;
    Ok(())
}

/// Adds several numbers.
pub fn put_numbers(to: &mut Vec<u8>, numbers: &[u64]) -> Result<(), AllocError>
    ensures { OnOk result (to.new.items ≡ to.old.items ++ spec.numbers_bytes numbers.now) }
{
    for number in numbers {
        put_number(to, *number)?;
    }
    Ok(())
}

/// Adds the numbers of words.
fn put_words(to: &mut Vec<u8>, words: &[ValRaw]) -> Result<(), AllocError>
    ensures { OnOk result (to.new.items ≡ to.old.items ++ spec.numbers_bytes words.now) }
{
    for word in words {
        put_number(to, word.get_u64())?;
    }
    Ok(())
}

/// A demand with its words, in a memory of `len` bytes.
pub(crate) fn bytes_of(
    alloc: Global,
    demand: Demand,
    len: u64,
    words: &[ValRaw],
) -> Result<Vec<u8>, AllocError>
    ensures { IfOk result (λ bytes. bytes.items ≡ spec.demand_bytes demand len words.now) }
{
    let mut bytes = Vec::new(alloc);
    put_numbers(&mut bytes, &head_of(demand))?;
    put_number(&mut bytes, len)?;
    put_number(&mut bytes, words.len() as u64)?;
    put_words(&mut bytes, words)?;
    Ok(bytes)
}

/// The number of what is demanded, and its operands.
fn head_of(demand: Demand) -> [u64; 5]
    ensures { result ≡ spec.demand_head demand }
{
    match demand {
        Demand::Start { func } => [0, u64::from(func), 0, 0, 0],
        Demand::Resume => [1, 0, 0, 0, 0],
        Demand::Realloc {
            old,
            old_size,
            align,
            new_size,
        } => [2, old, old_size, u64::from(align), new_size],
        Demand::PostReturn { func } => [3, u64::from(func), 0, 0, 0],
        Demand::Dtor { func, rep } => [4, u64::from(func), u64::from(rep), 0, 0],
        Demand::Instantiate => [5, 0, 0, 0, 0],
    }
}
