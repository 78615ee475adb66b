//! A guest that carries out the actions of a script.

ghost use Rattle.std.specs.Prelude.{◌≡◌, ◌≤◌, ◌<◌, ◌+◌, ◌++◌, ◌^◌, ◌∷◌, [], Bool, None, false, length, IfOk, OnErr};
ghost use Rattle.std.specs.Vec.{vec_len, vec_capacity};
ghost use Rattle.canon_memory.specs.Realloc.{call};
ghost use Rattle.canon_scripted.specs.Allocator.{DoesPlace, InRow, allocate, copied};
ghost use Rattle.canon_scripted.specs.Scripted.{ScriptMoves, breaches, marks_of_origins, moves_nothing, moves_then, seen_of};

use crate::actions::{Action, Actions};
use crate::allocator::Allocator;
use crate::orders::{Ordered, Orders};
use canon_memory::{Guest, GuestFault, Memory, Step, ValRaw};
use std::alloc::{AllocError, Global};
use std::marker::Model;

/// A guest that does what a script says, with an allocator that goes up. Contracts see what it is still to do, a mark
/// for each answer of `realloc` in its life, and how often it trapped and answered want of memory.
#[derive(Drop)]
pub struct ScriptedGuest {
    actions: Actions,
    orders: Orders,
    post_trap: bool,
    dtor_trap: bool,
    allocator: Allocator,
    // of each answer, whether the allocator gave it
    answers: Vec<bool>,
    traps: u64,
    shortages: u64,
}

impl Model for ScriptedGuest {
    ghost use Rattle.canon_scripted.specs.Scripted.{Doing, marks_of_origins};

    ghost Value = { Doing };

    ghost view = { λ g. record {
      plan = record { actions = g.actions; reallocs = g.orders; post_trap = g.post_trap; dtor_trap = g.dtor_trap; allocator = g.allocator };
      marks = marks_of_origins g.answers.items;
      traps = g.traps;
      shortages = g.shortages;
    } };
}

impl ScriptedGuest {
    ghost use Rattle.std.specs.Prelude.{◌≡◌, ◌≤◌, ◌<◌, ◌^◌, [], false, length, IfOk, IsTrue};
    ghost use Rattle.canon_memory.specs.Guest.{OnAnswer};
    ghost use Rattle.canon_memory.specs.Realloc.{IsTidy, ReallocLaw, call, new_block};
    ghost use Rattle.canon_scripted.specs.Actions.{carry_out, turn};
    ghost use Rattle.canon_scripted.specs.Orders.{AreNarrow, next_order};
    ghost use Rattle.canon_scripted.specs.Leaves.{DoesRealloc, counted, with_fault_counted, with_actions};
    ghost use Rattle.canon_scripted.specs.Scripted.{breaches, ended, is_free};

    /// A guest with nothing to do, whose allocator goes up from `heap`.
    pub fn new(alloc: Global, heap: u64) -> Self
        ensures { result ≡ record {
          plan = record { actions = []; reallocs = []; post_trap = false; dtor_trap = false; allocator = record { top = heap; live = [] } };
          marks = [];
          traps = 0;
          shortages = 0;
        } }
    {
        ScriptedGuest {
            actions: Actions::new(Vec::new(alloc)),
            orders: Orders::new(Vec::new(alloc)),
            post_trap: false,
            dtor_trap: false,
            allocator: Allocator::new(alloc, heap),
            answers: Vec::new(alloc),
            traps: 0,
            shortages: 0,
        }
    }

    /// Puts these in the place of what was left to do. An ordered answer is below 2^32.
    pub fn load(
        &mut self,
        actions: Vec<Action>,
        reallocs: Vec<Ordered>,
        post_trap: bool,
        dtor_trap: bool,
    )
        requires { AreNarrow reallocs.items }
        ensures { self.new ≡ record self.old { plan = record { actions = actions.items; reallocs = reallocs.items; post_trap = post_trap; dtor_trap = dtor_trap; allocator = self.old.plan.allocator } } }
    {
        self.actions = Actions::new(actions);
        self.orders = Orders::new(reallocs);
        self.post_trap = post_trap;
        self.dtor_trap = dtor_trap;
    }

    /// How many answers of `realloc` broke its law: those that were ordered.
    pub fn breaches(&self) -> u64
        ensures { result ≡ breaches self.now.marks }
    {
        count_ordered(&self.answers)
    }

    /// Counts a fault.
    fn count(&mut self, fault: GuestFault) -> GuestFault
        ensures same { result ≡ fault }
        ensures counts { self.new ≡ with_fault_counted fault self.old }
        ensures later { (self.old.traps ≤ self.new.traps) × (self.old.shortages ≤ self.new.shortages) }
    {
        match fault {
            GuestFault::Trap => self.traps = self.traps.saturating_add(1),
            GuestFault::OutOfMemory => self.shortages = self.shortages.saturating_add(1),
        }
        fault
    }

    /// Carries out actions.
    fn act(&mut self, memory: &mut Memory) -> Result<Step, GuestFault>
        ensures turn { OnAnswer result (carry_out self.old.plan.actions memory.old.bytes ≡ turn memory.new.bytes result self.new.plan.actions) }
        ensures counts { self.new ≡ counted result (with_actions self.old self.new.plan.actions) }
        ensures later { (self.old.traps ≤ self.new.traps) × (self.old.shortages ≤ self.new.shortages) }
        ensures no_shorter { length memory.old.bytes ≤ length memory.new.bytes }
        ensures width { memory.new.wide ≡ memory.old.wide }
    {
        match self.actions.carry_out(memory) {
            Ok(step) => Ok(step),
            Err(fault) => Err(self.count(fault)),
        }
    }

    /// Traps where it is to.
    fn end(&mut self, traps: bool) -> Result<(), GuestFault>
        ensures ends { result ≡ ended traps }
        ensures counts { self.new ≡ counted result self.old }
        ensures later { (self.old.traps ≤ self.new.traps) × (self.old.shortages ≤ self.new.shortages) }
    {
        if traps {
            Err(self.count(GuestFault::Trap))
        } else {
            Ok(())
        }
    }

    /// Answers a call of `realloc`, by the next order. Its fault isn't counted yet.
    fn answer(
        &mut self,
        memory: &mut Memory,
        old: u64,
        old_size: u64,
        align: u32,
        new_size: u64,
    ) -> Result<u64, GuestFault>
        requires aligned { 0 < align }
        requires narrow { old < 2 ^ 32 }
        requires old_sized { old_size < 2 ^ 32 }
        requires new_sized { new_size < 2 ^ 32 }
        ensures narrow { IfOk result (λ answer. answer < 2 ^ 32) }
        ensures does { DoesRealloc self.old memory.old.bytes (call old old_size align new_size) self.new memory.new.bytes result }
        ensures counts { (self.new.traps ≡ self.old.traps) × (self.new.shortages ≡ self.old.shortages) }
        ensures lawful { IfOk result (λ answer. IsTrue (is_free (next_order self.old.plan.reallocs)) → ReallocLaw self.old.plan.allocator.live self.new.plan.allocator.live memory.old.bytes memory.new.bytes (call old old_size align new_size) answer) }
        ensures tidy { IfOk result (λ answer. IsTidy memory.old.bytes memory.new.bytes (new_block (call old old_size align new_size) answer)) }
        ensures same_length { length memory.new.bytes ≡ length memory.old.bytes }
        ensures width { memory.new.wide ≡ memory.old.wide }
    {
        if self.answers.reserve(1).is_err() {
            return Err(GuestFault::OutOfMemory);
        }
        match self.orders.next() {
            Ordered::Answer(answer) => {
                push_reserved(&mut self.answers, false);
                return Ok(answer);
            }
            Ordered::Trap => return Err(GuestFault::Trap),
            Ordered::Free => {}
        }
        let answer = match place(&mut self.allocator, memory, old, old_size, align, new_size) {
            Ok(answer) => answer,
            Err(fault) => return Err(fault),
        };
        push_reserved(&mut self.answers, true);
        Ok(answer)
    }
}

impl Guest for ScriptedGuest {
    ghost seen = { seen_of };

    ghost moves = { λ g events h. ScriptMoves g events h };

    ghost leaves = { λ m n. n ≡ m };

    ghost stays = { λ g. moves_nothing g };

    ghost goes_on = { λ g h k xs ys f e. moves_then g h k xs ys f e };

    fn start(
        &mut self,
        memory: &mut Memory,
        _func: u32,
        _words: &[ValRaw],
    ) -> Result<Step, GuestFault> {
        self.act(memory)
    }

    fn resume(&mut self, memory: &mut Memory, _words: &[ValRaw]) -> Result<Step, GuestFault> {
        self.act(memory)
    }

    fn realloc(
        &mut self,
        memory: &mut Memory,
        old: u64,
        old_size: u64,
        align: u32,
        new_size: u64,
    ) -> Result<u64, GuestFault> {
        match self.answer(memory, old, old_size, align, new_size) {
            Ok(answer) => Ok(answer),
            Err(fault) => Err(self.count(fault)),
        }
    }

    fn hold(&mut self, _start: u64, _size: u32) -> Result<(), AllocError> {
        Ok(())
    }

    fn post_return(
        &mut self,
        _memory: &mut Memory,
        _func: u32,
        _words: &[ValRaw],
    ) -> Result<(), GuestFault> {
        self.end(self.post_trap)
    }

    fn dtor(&mut self, _memory: &mut Memory, _func: u32, _rep: u32) -> Result<(), GuestFault> {
        self.end(self.dtor_trap)
    }
}

/// Answers a call of `realloc` by the allocator, and copies the first bytes of the old block where it moved.
fn place(
    allocator: &mut Allocator,
    memory: &mut Memory,
    old: u64,
    old_size: u64,
    align: u32,
    new_size: u64,
) -> Result<u64, GuestFault>
    requires aligned { 0 < align }
    requires narrow { old < 2 ^ 32 }
    requires old_sized { old_size < 2 ^ 32 }
    requires new_sized { new_size < 2 ^ 32 }
    ensures narrow { IfOk result (λ answer. answer < 2 ^ 32) }
    ensures does { DoesPlace (allocate (length memory.old.bytes) allocator.old (call old old_size align new_size)) allocator.old allocator.new result }
    ensures copies { IfOk result (λ answer. memory.new ≡ record memory.old { bytes = copied memory.old.bytes (call old old_size align new_size) answer }) }
    ensures stays { OnErr result (memory.new ≡ memory.old) }
    ensures row { InRow 0 allocator.old.live allocator.old.top }
{
    let len = memory.len();
    let answer = match allocator.allocate(len, old, old_size, align, new_size) {
        Ok(answer) => answer,
        Err(fault) => return Err(fault),
    };
    let kept = old_size.min(new_size);
    if kept > 0 && answer != old {
        let from = old as usize;
        memory
            .as_slice_mut()
            .copy_within(from..from + kept as usize, answer as usize);
    }
    Ok(answer)
}

/// Adds an item for which there is room.
fn push_reserved(items: &mut Vec<bool>, item: bool)
    requires { vec_len items.old < vec_capacity items.old }
    ensures { items.new.items ≡ items.old.items ++ item ∷ [] }
{
    let _ = items.push(item);
}

/// How many of these answers the allocator didn't give.
fn count_ordered(answers: &[bool]) -> u64
    ensures { result ≡ breaches (marks_of_origins answers.now) }
{
    let mut count = 0;
    for own in answers {
        if !*own {
            count += 1;
        }
    }
    count
}
