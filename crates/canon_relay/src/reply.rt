//! What an engine answered to a demand. It is tested before it is taken for anything.

ghost use Rattle.std.specs.Prelude.{◌≡◌, ◌≤◌, ◌+◌, ◌*◌, drop, length, Ok, OnOk};
ghost use Rattle.canon_relay.specs.Wire as spec;

use crate::wire::MAX_WORDS;
use canon_memory::{MemoryError, ValRaw, Words};
use std::alloc::Global;

/// How many bytes a reply has: four numbers, and room for the words.
pub(crate) const REPLY_BYTES: usize = 168;

/// The number in the 8 bytes at a place.
pub fn number_at(bytes: &[u8], at: usize) -> u64
    requires { at + 8 ≤ length bytes.now }
    ensures { result ≡ spec.number_at bytes.now at }
{
    let mut number = [0u8; 8];
    number.copy_from_slice(&bytes[at..at + 8]);
    u64::from_le_bytes(number)
}

/// How the engine ended.
pub(crate) fn kind_of(reply: &[u8]) -> u64
    requires { length reply.now ≡ 168 }
    ensures { result ≡ spec.reply_kind reply.now }
{
    number_at(reply, 0)
}

/// The import that is asked for, or the address of the block.
pub(crate) fn number_of(reply: &[u8]) -> u64
    requires { length reply.now ≡ 168 }
    ensures { result ≡ spec.reply_number reply.now }
{
    number_at(reply, 8)
}

/// By how many bytes memory is to be longer.
pub(crate) fn grown_of(reply: &[u8]) -> u64
    requires { length reply.now ≡ 168 }
    ensures { result ≡ spec.reply_grown reply.now }
{
    number_at(reply, 16)
}

/// How many words it says that it has.
pub(crate) fn count_of(reply: &[u8]) -> u64
    requires { length reply.now ≡ 168 }
    ensures { result ≡ spec.reply_count reply.now }
{
    number_at(reply, 24)
}

/// Its words, where there are no more than it has room for.
pub(crate) fn words_of(alloc: Global, reply: &[u8]) -> Result<Words, MemoryError>
    requires whole { length reply.now ≡ 168 }
    requires few { spec.reply_count reply.now ≤ 17 }
    ensures { OnOk result (result ≡ Ok (spec.reply_words reply.now)) }
{
    let mut words = Words::new(alloc);
    let count = count_of(reply);
    for i in 0..count {
        let at = 32 + 8 * i as usize;
        words.push(ValRaw::u64(number_at(reply, at)))?;
    }
    Ok(words)
}
