//! The guest behind a channel. It may lie in all that it answers.

ghost use Rattle.std.specs.Prelude.{◌≡◌, ◌≤◌, ◌<◌, ◌^◌, [], IfErr, IfOk, OnErr, length};
ghost use Rattle.std.proofs.Common.{refl};
ghost use Rattle.canon_relay.specs.Ends.{BlockRefused, IsStepOf, StepRefused, end_kind};
ghost use Rattle.canon_relay.specs.Relay.{IsNoReply, OnBlock, OnDone, OnStep, PassesMessages, RelayMoves, Relaying, Replied, StopsDemand, adds_none, says_both, says_nothing};
ghost use Rattle.canon_relay.specs.Wire.{demand_bytes, reply_count, reply_number, reply_words};

use crate::counts::Counts;
use crate::exchange::{End, exchange};
use crate::reply::{count_of, number_of, words_of};
use crate::wire::{MAX_WORDS, bytes_of};
use crate::{Channel, Demand};
use canon_memory::{Guest, GuestFault, Memory, Step, ValRaw, Words};
use std::alloc::{AllocError, Global};
use std::marker::Model;

/// A guest whose code runs at the other end of a channel. Contracts see the channel and the counts.
#[derive(Drop)]
pub struct Relay<C> {
    alloc: Global,
    channel: C,
    counts: Counts,
}

impl<C> Model for Relay<C> {
    ghost use Rattle.canon_relay.specs.Relay.{Relaying};

    ghost Value = { Relaying C };

    ghost view = { λ r. record { channel = r.channel; counts = r.counts } };
}

impl<C> Relay<C> {
    ghost use Rattle.std.specs.Prelude.{◌≡◌, ◌+◌, ◌<◌, ◌≤◌, ◌^◌};
    ghost use Rattle.canon_memory.specs.Counts.{Rose};

    /// A guest at the other end of this channel.
    pub fn new(alloc: Global, channel: C) -> Self
        ensures { result ≡ record { channel = channel; counts = record { blocks = 0; traps = 0; shortages = 0 } } }
    {
        Relay {
            alloc,
            channel,
            counts: Counts {
                blocks: 0,
                traps: 0,
                shortages: 0,
            },
        }
    }

    /// Counts a fault.
    fn count(&mut self, fault: GuestFault) -> GuestFault
        ensures same { result ≡ fault }
        ensures channel { self.new.channel ≡ self.old.channel }
        ensures blocks { self.new.counts.blocks ≡ self.old.counts.blocks }
        ensures traps { self.old.counts.traps ≤ self.new.counts.traps }
        ensures shortages { self.old.counts.shortages ≤ self.new.counts.shortages }
        ensures trap { fault ≡ GuestFault.Trap → Rose self.old.counts.traps self.new.counts.traps }
        ensures shortage { fault ≡ GuestFault.OutOfMemory → Rose self.old.counts.shortages self.new.counts.shortages }
    {
        self.counts.add(fault)
    }

    /// Counts a block.
    fn count_block(&mut self)
        requires { self.old.counts.blocks + 1 < 2 ^ 64 }
        ensures { self.new ≡ record self.old { counts = record self.old.counts { blocks = self.old.counts.blocks + 1 } } }
    {
        self.counts.blocks += 1;
    }

    /// The channel to the engine.
    pub fn channel(&self) -> &C
        ensures { result.now ≡ self.now.channel }
    {
        &self.channel
    }
}

impl<C: Channel> Relay<C> {
    /// Has the engine put the data of the component's code into memory.
    pub fn instantiate(&mut self, memory: &mut Memory) -> Result<(), GuestFault>
        ensures longer { length memory.old.bytes ≤ length memory.new.bytes }
        ensures width { memory.new.wide ≡ memory.old.wide }
        ensures counts { self.new.counts ≡ self.old.counts }
        ensures relays { OnDone (C.log self.old.channel) (C.log self.new.channel) Demand.Instantiate [] memory.old.bytes memory.new.bytes result }
    {
        self.finish(memory, Demand::Instantiate, &[])
    }

    /// Has the engine carry out a demand.
    fn ask(
        &mut self,
        memory: &mut Memory,
        demand: Demand,
        words: &[ValRaw],
    ) -> Result<(End, [u8; 168]), GuestFault>
        ensures longer { length memory.old.bytes ≤ length memory.new.bytes }
        ensures width { memory.new.wide ≡ memory.old.wide }
        ensures counts { self.new.counts ≡ self.old.counts }
        ensures replied { IfOk result (λ r. PassesMessages (C.log self.old.channel) (C.log self.new.channel) (Replied (end_kind r.0) (demand_bytes demand (length memory.old.bytes) words.now) memory.old.bytes memory.new.bytes r.1)) }
        ensures stops { IfErr result (StopsDemand (C.log self.old.channel) (C.log self.new.channel) (demand_bytes demand (length memory.old.bytes) words.now) memory.old.bytes IsNoReply) }
    {
        let Ok(asked) = bytes_of(self.alloc, demand, memory.len(), words) else {
            return Err(GuestFault::OutOfMemory);
        };
        exchange(&mut self.channel, &asked, memory)
    }

    /// Has the engine run until it returns or asks for an import.
    fn run(
        &mut self,
        memory: &mut Memory,
        demand: Demand,
        words: &[ValRaw],
    ) -> Result<Step, GuestFault>
        ensures longer { length memory.old.bytes ≤ length memory.new.bytes }
        ensures width { memory.new.wide ≡ memory.old.wide }
        ensures counts { self.new.counts ≡ self.old.counts }
        ensures relays { OnStep (C.log self.old.channel) (C.log self.new.channel) demand words.now memory.old.bytes memory.new.bytes result }
    {
        let (end, reply) = self.ask(memory, demand, words)?;
        step_of(self.alloc, end, &reply)
    }

    /// Has the engine do something that returns nothing.
    fn finish(
        &mut self,
        memory: &mut Memory,
        demand: Demand,
        words: &[ValRaw],
    ) -> Result<(), GuestFault>
        ensures longer { length memory.old.bytes ≤ length memory.new.bytes }
        ensures width { memory.new.wide ≡ memory.old.wide }
        ensures counts { self.new.counts ≡ self.old.counts }
        ensures relays { OnDone (C.log self.old.channel) (C.log self.new.channel) demand words.now memory.old.bytes memory.new.bytes result }
    {
        let (end, _reply) = self.ask(memory, demand, words)?;
        match end {
            End::Return => Ok(()),
            End::Ask => Err(GuestFault::Trap),
        }
    }

    /// Has the engine give a block.
    fn block(&mut self, memory: &mut Memory, demand: Demand) -> Result<u64, GuestFault>
        ensures longer { length memory.old.bytes ≤ length memory.new.bytes }
        ensures width { memory.new.wide ≡ memory.old.wide }
        ensures counts { self.new.counts ≡ self.old.counts }
        ensures narrow { IfOk result (λ at. at < 2 ^ 32) }
        ensures relays { OnBlock (C.log self.old.channel) (C.log self.new.channel) demand memory.old.bytes memory.new.bytes result }
    {
        let (end, reply) = self.ask(memory, demand, &[])?;
        block_of(end, &reply)
    }
}

/// What a reply to a start or a resume says that the guest did.
fn step_of(alloc: Global, end: End, reply: &[u8]) -> Result<Step, GuestFault>
    requires { length reply.now ≡ 168 }
    ensures ok { IfOk result (IsStepOf end reply.now) }
    ensures trap { IfErr result (λ fault. fault ≡ GuestFault.Trap → StepRefused end reply.now) }
{
    let words = words_in(alloc, reply)?;
    match end {
        End::Return => Ok(Step::Return(words)),
        End::Ask => import_of(number_of(reply), words),
    }
}

/// An ask of the import of this number.
fn import_of(index: u64, words: Words) -> Result<Step, GuestFault>
    ensures ok { IfOk result (λ step. step ≡ Step.Import index words) }
    ensures trap { OnErr result (2 ^ 32 ≤ index) }
{
    if index > 0xffff_ffff {
        return Err(GuestFault::Trap);
    }
    Ok(Step::Import {
        index: index as u32,
        words,
    })
}

/// The address of the block that a reply to a realloc gives.
fn block_of(end: End, reply: &[u8]) -> Result<u64, GuestFault>
    requires { length reply.now ≡ 168 }
    ensures ok { IfOk result (λ at. (end ≡ End.Return) × (reply_number reply.now ≡ at) × (reply_count reply.now ≡ 0) × (at < 2 ^ 32)) }
    ensures trap { IfErr result (λ _. BlockRefused end reply.now) }
{
    let at = number_of(reply);
    if end != End::Return || count_of(reply) != 0 || at > 0xffff_ffff {
        return Err(GuestFault::Trap);
    }
    Ok(at)
}

/// The words of a reply, which traps where it says that it has more than there is room for.
fn words_in(alloc: Global, reply: &[u8]) -> Result<Words, GuestFault>
    requires { length reply.now ≡ 168 }
    ensures ok { IfOk result (λ words. (words ≡ reply_words reply.now) × (reply_count reply.now ≤ 17)) }
    ensures trap { IfErr result (λ fault. fault ≡ GuestFault.Trap → 17 < reply_count reply.now) }
{
    if count_of(reply) > MAX_WORDS {
        return Err(GuestFault::Trap);
    }
    match words_of(alloc, reply) {
        Ok(words) => Ok(words),
        Err(_) => Err(GuestFault::OutOfMemory),
    }
}

impl<C: Channel> Guest for Relay<C> {
    ghost use Rattle.std.specs.Prelude.{◌≡◌, ◌<◌, ◌^◌, [], IfOk, IsFalse, OnOk};
    ghost use Rattle.canon_memory.specs.Guest.{Goes, HasCause, OnAnswer, Reallocates, guest_in, moment};
    ghost use Rattle.canon_memory.specs.Journal.{dtor_events, post_events, realloc_events, resume_events, start_events};
    ghost use Rattle.canon_memory.specs.Realloc.{call};
    ghost use Rattle.canon_relay.specs.Relay.{OnBlock, OnDone, OnStep, RelayMoves, relay_seen, says_both, says_nothing};

    ghost seen = { λ g. relay_seen g };

    ghost moves = { λ g events h. RelayMoves C.log g events h };

    ghost leaves = { λ _ _. Unit {0} };

    ghost stays = { λ g. says_nothing (C.log g.guest.channel) };

    ghost goes_on = { λ g h k xs ys p q. says_both (C.log g.guest.channel) (C.log h.guest.channel) (C.log k.guest.channel) xs ys p q };

    fn start(
        &mut self,
        memory: &mut Memory,
        func: u32,
        words: &[ValRaw],
    ) -> Result<Step, GuestFault>
        ensures width { memory.new.wide ≡ memory.old.wide }
        ensures goes { Goes (moment (relay_seen self.old) memory.old.bytes) (moment (relay_seen self.new) memory.new.bytes) [] (start_events func words.now memory.old.bytes memory.new.bytes result) }
        ensures moves { OnAnswer result (RelayMoves C.log (guest_in self.old memory.old) (start_events func words.now memory.old.bytes memory.new.bytes result) (guest_in self.new memory.new)) }
        ensures cause { HasCause (relay_seen self.old) (relay_seen self.new) result }
        ensures relays { OnStep (C.log self.old.channel) (C.log self.new.channel) (Demand.Start func) words.now memory.old.bytes memory.new.bytes result }
    {
        match self.run(memory, Demand::Start { func }, words) {
            Ok(step) => Ok(step),
            Err(fault) => Err(self.count(fault)),
        }
    }

    fn resume(&mut self, memory: &mut Memory, words: &[ValRaw]) -> Result<Step, GuestFault>
        ensures width { memory.new.wide ≡ memory.old.wide }
        ensures goes { Goes (moment (relay_seen self.old) memory.old.bytes) (moment (relay_seen self.new) memory.new.bytes) [] (resume_events words.now memory.old.bytes memory.new.bytes result) }
        ensures moves { OnAnswer result (RelayMoves C.log (guest_in self.old memory.old) (resume_events words.now memory.old.bytes memory.new.bytes result) (guest_in self.new memory.new)) }
        ensures cause { HasCause (relay_seen self.old) (relay_seen self.new) result }
        ensures relays { OnStep (C.log self.old.channel) (C.log self.new.channel) Demand.Resume words.now memory.old.bytes memory.new.bytes result }
    {
        match self.run(memory, Demand::Resume, words) {
            Ok(step) => Ok(step),
            Err(fault) => Err(self.count(fault)),
        }
    }

    fn realloc(
        &mut self,
        memory: &mut Memory,
        old: u64,
        old_size: u64,
        align: u32,
        new_size: u64,
    ) -> Result<u64, GuestFault>
        requires aligned { 0 < align }
        requires narrow { old < 2 ^ 32 }
        requires old_sized { old_size < 2 ^ 32 }
        requires new_sized { new_size < 2 ^ 32 }
        ensures narrow { IsFalse memory.old.wide → IfOk result (λ answer. answer < 2 ^ 32) }
        ensures width { memory.new.wide ≡ memory.old.wide }
        ensures does { Reallocates (moment (relay_seen self.old) memory.old.bytes) (moment (relay_seen self.new) memory.new.bytes) (call old old_size align new_size) result }
        ensures moves { OnAnswer result (RelayMoves C.log (guest_in self.old memory.old) (realloc_events (call old old_size align new_size) memory.old.bytes result) (guest_in self.new memory.new)) }
        ensures relays { OnBlock (C.log self.old.channel) (C.log self.new.channel) (Demand.Realloc old old_size align new_size) memory.old.bytes memory.new.bytes result }
    {
        if self.counts.blocks == u64::MAX {
            return Err(self.count(GuestFault::Trap));
        }
        let demand = Demand::Realloc {
            old,
            old_size,
            align,
            new_size,
        };
        match self.block(memory, demand) {
            Ok(at) => {
                self.count_block();
                Ok(at)
            }
            Err(fault) => Err(self.count(fault)),
        }
    }

    fn hold(&mut self, _start: u64, _size: u32) -> Result<(), AllocError> {
        Ok(())
    }

    fn post_return(
        &mut self,
        memory: &mut Memory,
        func: u32,
        words: &[ValRaw],
    ) -> Result<(), GuestFault>
        ensures width { memory.new.wide ≡ memory.old.wide }
        ensures goes { Goes (moment (relay_seen self.old) memory.old.bytes) (moment (relay_seen self.new) memory.new.bytes) [] (post_events func words.now memory.old.bytes result) }
        ensures moves { OnAnswer result (RelayMoves C.log (guest_in self.old memory.old) (post_events func words.now memory.old.bytes result) (guest_in self.new memory.new)) }
        ensures leaves { OnOk result (Unit {0}) }
        ensures cause { HasCause (relay_seen self.old) (relay_seen self.new) result }
        ensures relays { OnDone (C.log self.old.channel) (C.log self.new.channel) (Demand.PostReturn func) words.now memory.old.bytes memory.new.bytes result }
    {
        match self.finish(memory, Demand::PostReturn { func }, words) {
            Ok(()) => Ok(()),
            Err(fault) => Err(self.count(fault)),
        }
    }

    fn dtor(&mut self, memory: &mut Memory, func: u32, rep: u32) -> Result<(), GuestFault>
        ensures width { memory.new.wide ≡ memory.old.wide }
        ensures goes { Goes (moment (relay_seen self.old) memory.old.bytes) (moment (relay_seen self.new) memory.new.bytes) [] (dtor_events func rep memory.old.bytes result) }
        ensures moves { OnAnswer result (RelayMoves C.log (guest_in self.old memory.old) (dtor_events func rep memory.old.bytes result) (guest_in self.new memory.new)) }
        ensures leaves { OnOk result (Unit {0}) }
        ensures cause { HasCause (relay_seen self.old) (relay_seen self.new) result }
        ensures relays { OnDone (C.log self.old.channel) (C.log self.new.channel) (Demand.Dtor func rep) [] memory.old.bytes memory.new.bytes result }
    {
        match self.finish(memory, Demand::Dtor { func, rep }, &[]) {
            Ok(()) => Ok(()),
            Err(fault) => Err(self.count(fault)),
        }
    }
}
