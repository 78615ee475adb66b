//! The guest: a plug-in that keeps notes. It stands for the code that an embedder's engine runs in the guest's memory.

ghost use Rattle.std.specs.Prelude.{◌≡◌, ◌≤◌, ◌<◌, ◌+◌, ◌++◌, ◌^◌, [], MatchOption, None, SomeIff, drop, false, length, replicate, take};
ghost use Rattle.std.specs.Int.{next_multiple_of, to_le_bytes, w32};
ghost use Rattle.canon_memory.specs.Counts.{Rose};

use canon_memory::{Guest, GuestFault, Memory, Step, ValRaw, Words};
use std::alloc::{AllocError, Global};

/// The core function that adds a note.
pub const ADD: u32 = 0;

/// The core function that counts the notes.
pub const COUNT: u32 = 1;

/// The core function that points past the end of memory.
pub const BROKEN: u32 = 2;

/// The number of the import that gives the time.
const CLOCK: u32 = 0;

/// The number of the import that ends a handle of a notebook.
const DROP: u32 = 1;

/// The size of a note in memory: the title's pointer and length, the words and the time.
const NOTE_SIZE: u64 = 16;

/// The alignment of a note in memory.
const NOTE_ALIGN: u32 = 4;

/// A note that has no time yet.
#[derive(Drop)]
struct Draft {
    title: u32,
    title_len: u32,
    words: u32,
}

/// What the guest has asked its host for.
#[derive(Drop)]
enum Asked {
    /// The time of this note.
    Time(Draft),
    /// The end of a handle.
    Ending,
}

/// What contracts see of the guest: how many blocks it gave, how often it trapped, and how often it was out of memory.
#[derive(Drop)]
struct Counts {
    blocks: u64,
    traps: u64,
    shortages: u64,
}

impl Counts {
    /// Counts a fault.
    fn add(&mut self, fault: GuestFault) -> GuestFault
        ensures same { result ≡ fault }
        ensures blocks { self.new.blocks ≡ self.old.blocks }
        ensures traps { self.old.traps ≤ self.new.traps }
        ensures shortages { self.old.shortages ≤ self.new.shortages }
        ensures trap { fault ≡ GuestFault.Trap → Rose self.old.traps self.new.traps }
        ensures shortage { fault ≡ GuestFault.OutOfMemory → Rose self.old.shortages self.new.shortages }
    {
        match fault {
            GuestFault::Trap => self.traps = self.traps.saturating_add(1),
            GuestFault::OutOfMemory => self.shortages = self.shortages.saturating_add(1),
        }
        fault
    }
}

/// The guest. Its allocator goes up through memory and takes nothing back.
#[derive(Drop)]
pub struct Notes {
    alloc: Global,
    asked: Option<Asked>,
    notes: u32,
    top: u64,
    counts: Counts,
}

impl Notes {
    /// A guest that has no notes yet. Its first block is given from 8 on.
    pub fn new(alloc: Global) -> Self
        ensures empty { (result.asked ≡ None) × (result.notes ≡ 0) × (result.top ≡ 8) }
        ensures counts { result.counts ≡ record { blocks = 0; traps = 0; shortages = 0 } }
    {
        Notes {
            alloc,
            asked: None,
            notes: 0,
            top: 8,
            counts: Counts {
                blocks: 0,
                traps: 0,
                shortages: 0,
            },
        }
    }

    /// The address of a block, the first multiple of the alignment from the top on, where memory has room for it before its last byte.
    fn place(&mut self, len: u64, align: u32, size: u64) -> Option<u64>
        requires aligned { 0 < align }
        requires few { len ≤ 2 ^ 32 }
        ensures place { SomeIff result (next_multiple_of self.old.top align + size < len) (next_multiple_of self.old.top align) }
        ensures raises { MatchOption result (self.new ≡ self.old) (λ at. self.new ≡ record self.old { top = at + size }) }
    {
        let at = self.top.checked_next_multiple_of(u64::from(align))?;
        let end = at.checked_add(size)?;
        if end >= len {
            return None;
        }
        self.top = end;
        Some(at)
    }

    /// Reads the text that was passed by its pointer and its length, and asks for the time.
    fn begin(&mut self, memory: &Memory, words: &[ValRaw]) -> Result<Step, GuestFault>
        ensures counts { self.new.counts ≡ self.old.counts }
    {
        let [pointer, len] = words else {
            return Err(GuestFault::Trap);
        };
        let (title, len) = (pointer.get_u32(), len.get_u32());
        let start = title as usize;
        let Some(text) = memory.as_slice().get(start..start + len as usize) else {
            return Err(GuestFault::Trap);
        };
        // The title is the first line.
        let line = text.iter().position(|byte| *byte == b'\n');
        self.asked = Some(Asked::Time(Draft {
            title,
            title_len: line.map_or(len, |end| end as u32),
            words: count_words(text),
        }));
        Ok(Step::Import {
            index: CLOCK,
            words: Words::new(self.alloc),
        })
    }

    /// Gives up the handle of a notebook, as each guest must that was lent one.
    fn give_up(&mut self, words: &[ValRaw]) -> Result<Step, GuestFault>
        ensures counts { self.new.counts ≡ self.old.counts }
    {
        match Words::from_slice(self.alloc, words) {
            Ok(words) => {
                self.asked = Some(Asked::Ending);
                Ok(Step::Import { index: DROP, words })
            }
            Err(_) => Err(GuestFault::OutOfMemory),
        }
    }

    /// Writes the note with its time, and returns its address.
    fn finish(
        &mut self,
        memory: &mut Memory,
        draft: &Draft,
        words: &[ValRaw],
    ) -> Result<Step, GuestFault>
        ensures length { length memory.new.bytes ≡ length memory.old.bytes }
        ensures width { memory.new.wide ≡ memory.old.wide }
        ensures counts { self.new.counts ≡ self.old.counts }
    {
        let [time] = words else {
            return Err(GuestFault::Trap);
        };
        let Some(at) = self.place(memory.len(), NOTE_ALIGN, NOTE_SIZE) else {
            return Err(GuestFault::Trap);
        };
        put_u32(memory, at, draft.title);
        put_u32(memory, at + 4, draft.title_len);
        put_u32(memory, at + 8, draft.words);
        put_u32(memory, at + 12, time.get_u32());
        self.notes = self.notes.saturating_add(1);
        return_word(self.alloc, at as u32)
    }

    /// Goes on with what the host answered.
    fn go_on(&mut self, memory: &mut Memory, words: &[ValRaw]) -> Result<Step, GuestFault>
        ensures length { length memory.new.bytes ≡ length memory.old.bytes }
        ensures width { memory.new.wide ≡ memory.old.wide }
        ensures counts { self.new.counts ≡ self.old.counts }
    {
        match self.asked.take() {
            Some(Asked::Time(draft)) => self.finish(memory, &draft, words),
            Some(Asked::Ending) => return_word(self.alloc, self.notes),
            None => Err(GuestFault::Trap),
        }
    }
}

impl Guest for Notes {
    ghost seen = { λ g. record { journal = None; marks = replicate g.counts.blocks (record { lawful = false; tidy = false }); live = []; holds = false; traps = g.counts.traps; shortages = g.counts.shortages } };

    ghost moves = { λ _ _ _. Unit {0} };

    ghost leaves = { λ before after. after ≡ before };

    ghost stays = { λ _. record {} };

    ghost goes_on = { λ _ _ _ _ _ _ _. record {} };

    fn start(
        &mut self,
        memory: &mut Memory,
        func: u32,
        words: &[ValRaw],
    ) -> Result<Step, GuestFault> {
        let step = if func == ADD {
            self.begin(memory, words)
        } else if func == COUNT {
            self.give_up(words)
        } else {
            return_word(self.alloc, 0xffff_fff0)
        };
        match step {
            Ok(step) => Ok(step),
            Err(fault) => Err(self.counts.add(fault)),
        }
    }

    fn resume(&mut self, memory: &mut Memory, words: &[ValRaw]) -> Result<Step, GuestFault> {
        match self.go_on(memory, words) {
            Ok(step) => Ok(step),
            Err(fault) => Err(self.counts.add(fault)),
        }
    }

    fn realloc(
        &mut self,
        memory: &mut Memory,
        _old: u64,
        old_size: u64,
        align: u32,
        new_size: u64,
    ) -> Result<u64, GuestFault> {
        // It grows no block.
        if old_size > 0 || self.counts.blocks == u64::MAX {
            return Err(self.counts.add(GuestFault::Trap));
        }
        let Some(at) = self.place(memory.len(), align, new_size) else {
            return Err(self.counts.add(GuestFault::Trap));
        };
        self.counts.blocks += 1;
        Ok(at)
    }

    fn hold(&mut self, _start: u64, _size: u32) -> Result<(), AllocError> {
        Ok(())
    }

    fn post_return(
        &mut self,
        _memory: &mut Memory,
        _func: u32,
        _words: &[ValRaw],
    ) -> Result<(), GuestFault> {
        Ok(())
    }

    fn dtor(&mut self, _memory: &mut Memory, _func: u32, _rep: u32) -> Result<(), GuestFault> {
        Ok(())
    }
}

/// How many words a text has.
fn count_words(text: &[u8]) -> u32 {
    let mut count: u32 = 0;
    let mut in_word = false;
    for byte in text {
        let is_letter = !byte.is_ascii_whitespace();
        if is_letter && !in_word {
            count = count.saturating_add(1);
        }
        in_word = is_letter;
    }
    count
}

/// Writes a number at an address.
fn put_u32(memory: &mut Memory, at: u64, number: u32)
    requires { at + 4 ≤ length memory.old.bytes }
    ensures length { length memory.new.bytes ≡ length memory.old.bytes }
    ensures width { memory.new.wide ≡ memory.old.wide }
    ensures bytes { memory.new.bytes ≡ take at memory.old.bytes ++ to_le_bytes w32 number ++ drop (at + 4) memory.old.bytes }
{
    let at = at as usize;
    memory.as_slice_mut()[at..at + 4].copy_from_slice(&number.to_le_bytes());
}

/// Returns one word.
fn return_word(alloc: Global, word: u32) -> Result<Step, GuestFault> {
    match Words::from_slice(alloc, &[ValRaw::u32(word)]) {
        Ok(words) => Ok(Step::Return(words)),
        Err(_) => Err(GuestFault::OutOfMemory),
    }
}
