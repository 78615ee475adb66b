//! A channel in memory whose other side keeps to a text: what it is told has to be what stands there, and what it says stands there too.

ghost use Rattle.std.specs.Prelude.{None};

use canon_memory::Memory;
use canon_relay::{Channel, put_numbers};
use std::alloc::Global;

/// One message.
#[derive(Clone, Copy, Debug)]
pub enum Line {
    /// The other side is told these numbers.
    Told(&'static [u64]),
    /// It is told these bytes.
    ToldBytes(&'static [u8]),
    /// The caller is told an answer of these numbers.
    Answer([u64; 8]),
    /// The caller says the numbers of a command.
    Command([u64; 4]),
    /// The other side says these numbers.
    Says(&'static [u64]),
    /// It says these bytes.
    SaysBytes(&'static [u8]),
    /// The engine says a reply that begins with these numbers, and has ones in all other bits.
    Replies([u64; 5]),
    /// It is lent a memory of so many bytes, in which it finds these at an address, and writes these at another.
    Lent {
        len: u64,
        found: (usize, &'static [u8]),
        written: (usize, &'static [u8]),
    },
}

/// A channel whose other side keeps to these lines. It fails where another message is to pass, and after the last one.
#[derive(Clone, Copy, Debug)]
pub struct Dialogue<'a> {
    alloc: Global,
    lines: &'a [Line],
    at: usize,
}

impl<'a> Dialogue<'a> {
    pub fn new(alloc: Global, lines: &'a [Line]) -> Self {
        Dialogue {
            alloc,
            lines,
            at: 0,
        }
    }

    /// Whether each line passed.
    pub fn is_done(&self) -> bool {
        self.at >= self.lines.len()
    }

    /// The line that is to pass.
    fn line(&self) -> Option<Line> {
        Some(*self.lines.get(self.at)?)
    }

    /// Goes on to the next line, if this one passed.
    fn pass(&mut self, is_right: bool) -> bool {
        if is_right {
            self.at = self.at.saturating_add(1);
        }
        is_right
    }

    /// Whether the bytes spell these numbers.
    fn spell(&self, bytes: &[u8], numbers: &[u64]) -> bool {
        let mut spelled = Vec::new(self.alloc);
        put_numbers(&mut spelled, numbers).is_ok() && spelled.as_slice() == bytes
    }

    /// Fills the buffer with these numbers, if it has as many bytes.
    fn fill(&self, into: &mut [u8], numbers: &[u64]) -> bool {
        let mut spelled = Vec::new(self.alloc);
        put_numbers(&mut spelled, numbers).is_ok() && fill(into, &spelled)
    }
}

/// The numbers of a reply that begins with these, and has ones in all other bits.
fn reply(head: [u64; 5]) -> [u64; 21] {
    let [a, b, c, d, e] = head;
    let x = u64::MAX;
    [
        a, b, c, d, e, x, x, x, x, x, x, x, x, x, x, x, x, x, x, x, x,
    ]
}

/// Fills the buffer with these bytes, if they are as many.
fn fill(into: &mut [u8], bytes: &[u8]) -> bool {
    if into.len() != bytes.len() {
        return false;
    }
    into.copy_from_slice(bytes);
    true
}

/// Whether these bytes stand at the address.
fn finds(memory: &[u8], at: usize, bytes: &[u8]) -> bool {
    match memory.get(at..) {
        Some(rest) => rest.starts_with(bytes),
        None => false,
    }
}

/// Writes these bytes at the address. Answers whether there is room for them.
fn write(memory: &mut [u8], at: usize, bytes: &[u8]) -> bool {
    match memory.get_mut(at..) {
        Some(rest) => match rest.get_mut(..bytes.len()) {
            Some(place) => fill(place, bytes),
            None => false,
        },
        None => false,
    }
}

impl Channel for Dialogue<'_> {
    ghost log = { λ _. None };

    fn tell(&mut self, bytes: &[u8]) -> bool {
        let is_right = match self.line() {
            Some(Line::Told(numbers)) => self.spell(bytes, numbers),
            Some(Line::ToldBytes(wanted)) => bytes == wanted,
            Some(Line::Answer(numbers)) => self.spell(bytes, &numbers),
            _ => false,
        };
        self.pass(is_right)
    }

    fn hear(&mut self, into: &mut [u8]) -> bool {
        let is_right = match self.line() {
            Some(Line::Command(numbers)) => self.fill(into, &numbers),
            Some(Line::Says(numbers)) => self.fill(into, numbers),
            Some(Line::SaysBytes(bytes)) => fill(into, bytes),
            Some(Line::Replies(head)) => self.fill(into, &reply(head)),
            _ => false,
        };
        self.pass(is_right)
    }

    fn lend(&mut self, memory: &mut Memory) -> bool {
        let is_right = match self.line() {
            Some(
                Line::Lent {
                    len,
                    found,
                    written,
                },
            ) => {
                memory.len() == len
                    && finds(memory.as_slice(), found.0, found.1)
                    && write(memory.as_slice_mut(), written.0, written.1)
            }
            _ => false,
        };
        self.pass(is_right)
    }
}
