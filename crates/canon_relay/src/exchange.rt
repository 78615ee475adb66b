//! One exchange with an engine: a demand is told, memory is lent, and the reply is heard.

ghost use Rattle.std.specs.Prelude.{◌≡◌, ◌≤◌, ◌<◌, ◌++◌, ◌∷◌, [], IfErr, IfOk, IfNone, IfSome, OnErr, OnOk, length, replicate};
ghost use Rattle.canon_relay.specs.Channel.{AddsMessages, heard, lent, told};
ghost use Rattle.canon_relay.specs.Ends.{end_kind};
ghost use Rattle.canon_relay.specs.Relay.{IsAsGivenBack, IsNoReply, PassesMessages, Replied, StopsDemand, StopsExchange, adds_none, lent_again};
ghost use Rattle.canon_relay.specs.Wire.{reply_kind};

use crate::Channel;
use crate::reply::{REPLY_BYTES, grown_of, kind_of};
use canon_memory::{GuestFault, Memory, MemoryError};

/// How an engine ended that didn't trap.
#[derive(Clone, Copy, Debug, PartialEq, Eq)]
pub(crate) enum End {
    Return,
    Ask,
}

/// Tells the engine a demand, lends it memory, hears its reply, and lends it memory again where that is to be longer. Any failure of the
/// channel is a trap.
pub(crate) fn exchange<C: Channel>(
    channel: &mut C,
    asked: &[u8],
    memory: &mut Memory,
) -> Result<(End, [u8; 168]), GuestFault>
    ensures longer { length memory.old.bytes ≤ length memory.new.bytes }
    ensures width { memory.new.wide ≡ memory.old.wide }
    ensures replied { IfOk result (λ r. PassesMessages (C.log channel.old) (C.log channel.new) (Replied (end_kind r.0) asked.now memory.old.bytes memory.new.bytes r.1)) }
    ensures stops { IfErr result (StopsDemand (C.log channel.old) (C.log channel.new) asked.now memory.old.bytes IsNoReply) }
{
    let Some(reply) = pass(channel, asked, memory) else {
        return Err(GuestFault::Trap);
    };
    if let Err(fault) = lengthen(channel, memory, grown_of(&reply)) {
        return Err(fault);
    }
    match end_of(&reply) {
        Ok(end) => Ok((end, reply)),
        Err(fault) => Err(fault),
    }
}

/// Tells the engine a demand, lends it memory, and hears its reply.
fn pass<C: Channel>(channel: &mut C, asked: &[u8], memory: &mut Memory) -> Option<[u8; 168]>
    ensures length { length memory.new.bytes ≡ length memory.old.bytes }
    ensures width { memory.new.wide ≡ memory.old.wide }
    ensures replied { IfSome result (λ reply. AddsMessages (C.log channel.old) (C.log channel.new) (told asked.now ∷ lent memory.old.bytes memory.new.bytes ∷ heard reply ∷ []) × (length reply ≡ 168)) }
    ensures stops { IfNone result (PassesMessages (C.log channel.old) (C.log channel.new) (StopsExchange asked.now memory.old.bytes (λ reply. ⊥))) }
{
    let mut reply = [0u8; REPLY_BYTES];
    if !channel.tell(asked) {
        return None;
    }
    if !channel.lend(memory) {
        return None;
    }
    if !channel.hear(&mut reply) {
        return None;
    }
    Some(reply)
}

/// Makes memory longer by so many zeros, and lends it again, where there are any.
fn lengthen<C: Channel>(channel: &mut C, memory: &mut Memory, by: u64) -> Result<(), GuestFault>
    ensures longer { length memory.old.bytes ≤ length memory.new.bytes }
    ensures width { memory.new.wide ≡ memory.old.wide }
    ensures lent { OnOk result (AddsMessages (C.log channel.old) (C.log channel.new) (lent_again by memory.old.bytes memory.new.bytes) × IsAsGivenBack by memory.old.bytes memory.new.bytes) }
    ensures none { OnErr result (AddsMessages (C.log channel.old) (C.log channel.new) []) }
    ensures some { OnErr result (0 < by) }
{
    if by == 0 {
        return Ok(());
    }
    if let Err(fault) = grow(memory, by) {
        return Err(fault);
    }
    if !channel.lend(memory) {
        return Err(GuestFault::Trap);
    }
    Ok(())
}

/// Makes memory longer by zeros.
fn grow(memory: &mut Memory, by: u64) -> Result<(), GuestFault>
    ensures longer { OnOk result (memory.new ≡ record memory.old { bytes = memory.old.bytes ++ replicate by 0 }) }
    ensures same { OnErr result (memory.new ≡ memory.old) }
{
    match memory.grow(by) {
        Ok(()) => Ok(()),
        Err(MemoryError::TooLarge) => Err(GuestFault::Trap),
        Err(MemoryError::OutOfMemory) => Err(GuestFault::OutOfMemory),
    }
}

/// How the engine ended, unless it trapped.
fn end_of(reply: &[u8]) -> Result<End, GuestFault>
    requires { length reply.now ≡ 168 }
    ensures ok { IfOk result (λ end. reply_kind reply.now ≡ end_kind end) }
    ensures trap { IfErr result (λ fault. fault ≡ GuestFault.Trap → IsNoReply reply.now) }
{
    match kind_of(reply) {
        0 => Ok(End::Return),
        1 => Ok(End::Ask),
        3 => Err(GuestFault::OutOfMemory),
        _ => Err(GuestFault::Trap),
    }
}
