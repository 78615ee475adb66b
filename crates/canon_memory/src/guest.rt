//! The trait of a component's code: it starts, resumes, reallocates, and runs post-return and destructors.

ghost use Rattle.std.specs.Prelude.{ℕ, IsFalse, ◌≡◌, ◌<◌, ◌^◌, ◌++◌, List, [], IfOk, OnOk};
ghost use Rattle.canon_memory.specs.declared.event.Event.{Event};
ghost use Rattle.canon_memory.specs.Guest.{Goes, GuestIn, HasCause, HoldsPlace, MovesByNone, OnAnswer, Reallocates, Seen, guest_in, moment};
ghost use Rattle.canon_memory.specs.Journal.{dtor_events, post_events, realloc_events, resume_events, start_events};
ghost use Rattle.canon_memory.specs.Realloc.{block, call};

use crate::{GuestFault, Memory, ValRaw, Words};
use std::alloc::AllocError;

/// What a guest does once it is let go: it returns these words, or asks for an import with them.
#[derive(Debug, Drop)]
pub enum Step {
    /// It returns these words.
    Return(Words),
    /// It asks for the import of this number, with these words.
    Import { index: u32, words: Words },
}

/// The code of a component, which runs in its memory. It may lie in all that it answers, but it doesn't make memory
/// shorter, nor changes how wide its pointers are.
pub trait Guest {
    /// Its journal, marks, live blocks and counts, and whether it holds places.
    ghost seen: { Self → Seen };

    /// What it may do from one state and length of memory to others, as the events that tell it. The host writes bytes of
    /// memory between two calls, and leaves its length.
    ghost moves: { GuestIn Self → List Event → GuestIn Self → Type 0 };

    /// What its post-return or a destructor may make of memory, from before to after.
    ghost leaves: { List ℕ → List ℕ → Type 0 };

    /// Starts a core function with these words.
    fn start(
        &mut self,
        memory: &mut Memory,
        func: u32,
        words: &[ValRaw],
    ) -> Result<Step, GuestFault>
        ensures width { memory.new.wide ≡ memory.old.wide }
        ensures goes { Goes (moment (seen self.old) memory.old.bytes) (moment (seen self.new) memory.new.bytes) [] (start_events func words.now memory.old.bytes memory.new.bytes result) }
        ensures moves { OnAnswer result (moves (guest_in self.old memory.old) (start_events func words.now memory.old.bytes memory.new.bytes result) (guest_in self.new memory.new)) }
        ensures cause { HasCause (seen self.old) (seen self.new) result };

    /// Lets a guest that asked for an import go on with these words.
    fn resume(&mut self, memory: &mut Memory, words: &[ValRaw]) -> Result<Step, GuestFault>
        ensures width { memory.new.wide ≡ memory.old.wide }
        ensures goes { Goes (moment (seen self.old) memory.old.bytes) (moment (seen self.new) memory.new.bytes) [] (resume_events words.now memory.old.bytes memory.new.bytes result) }
        ensures moves { OnAnswer result (moves (guest_in self.old memory.old) (resume_events words.now memory.old.bytes memory.new.bytes result) (guest_in self.new memory.new)) }
        ensures cause { HasCause (seen self.old) (seen self.new) result };

    /// Asks for a block of `new_size` bytes, in the place of the block of `old_size` bytes at `old` (CanonicalABI.md,
    /// "realloc"). An `old_size` of 0 names no block.
    fn realloc(
        &mut self,
        memory: &mut Memory,
        old: u64,
        old_size: u64,
        align: u32,
        new_size: u64,
    ) -> Result<u64, GuestFault>
        requires aligned { 0 < align }
        requires narrow { old < 2 ^ 32 }
        requires old_sized { old_size < 2 ^ 32 }
        requires new_sized { new_size < 2 ^ 32 }
        ensures narrow { IsFalse memory.old.wide → IfOk result (λ answer. answer < 2 ^ 32) }
        ensures width { memory.new.wide ≡ memory.old.wide }
        ensures does { Reallocates (moment (seen self.old) memory.old.bytes) (moment (seen self.new) memory.new.bytes) (call old old_size align new_size) result }
        ensures moves { OnAnswer result (moves (guest_in self.old memory.old) (realloc_events (call old old_size align new_size) memory.old.bytes result) (guest_in self.new memory.new)) };

    /// Tells it that these bytes may be written before it runs again: the place that it gave for an import's results. None of its
    /// code runs. A guest that doesn't watch its answers does nothing. An error is want of memory to list the place.
    fn hold(&mut self, start: u64, size: u32) -> Result<(), AllocError>
        ensures holds { HoldsPlace (seen self.old) (seen self.new) (block start size) result }
        ensures moves { OnOk result (MovesByNone moves self.old self.new) };

    /// Tells a guest that its returned words were read (CanonicalABI.md, "post-return").
    fn post_return(
        &mut self,
        memory: &mut Memory,
        func: u32,
        words: &[ValRaw],
    ) -> Result<(), GuestFault>
        ensures width { memory.new.wide ≡ memory.old.wide }
        ensures goes { Goes (moment (seen self.old) memory.old.bytes) (moment (seen self.new) memory.new.bytes) [] (post_events func words.now memory.old.bytes result) }
        ensures moves { OnAnswer result (moves (guest_in self.old memory.old) (post_events func words.now memory.old.bytes result) (guest_in self.new memory.new)) }
        ensures leaves { OnOk result (leaves memory.old.bytes memory.new.bytes) }
        ensures cause { HasCause (seen self.old) (seen self.new) result };

    /// Runs the destructor of a resource of this representation.
    fn dtor(&mut self, memory: &mut Memory, func: u32, rep: u32) -> Result<(), GuestFault>
        ensures width { memory.new.wide ≡ memory.old.wide }
        ensures goes { Goes (moment (seen self.old) memory.old.bytes) (moment (seen self.new) memory.new.bytes) [] (dtor_events func rep memory.old.bytes result) }
        ensures moves { OnAnswer result (moves (guest_in self.old memory.old) (dtor_events func rep memory.old.bytes result) (guest_in self.new memory.new)) }
        ensures leaves { OnOk result (leaves memory.old.bytes memory.new.bytes) }
        ensures cause { HasCause (seen self.old) (seen self.new) result };

    /// It may do nothing.
    ghost stays: { (g : GuestIn Self) → moves g [] g };

    /// It may do one thing after another.
    ghost goes_on: { (g h k : GuestIn Self) (xs ys : List Event) → moves g xs h → moves h ys k → moves g (xs ++ ys) k };
}
