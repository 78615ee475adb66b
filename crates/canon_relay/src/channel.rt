//! The trait of a channel: it carries bytes to an engine and back, and lends it memory.

ghost use Rattle.std.specs.Prelude.{◌≡◌, List, Option, length};
ghost use Rattle.canon_relay.specs.Channel.{AddsMessages, Message, heard, lent, message_if, told};

use canon_memory::Memory;

/// Two ways of bytes, one to the other side and one from it. Each call passes a message whole, or fails. What comes from the other side
/// may be anything.
pub trait Channel {
    /// The messages that passed, in order, where they are exposed.
    ghost log: { Self → Option (List Message) };

    /// Tells the other side these bytes. Answers whether it took them all.
    fn tell(&mut self, bytes: &[u8]) -> bool
        ensures { AddsMessages (log self.old) (log self.new) (message_if result (told bytes.now)) };

    /// Fills the buffer with bytes of the other side. Answers whether it is full.
    fn hear(&mut self, into: &mut [u8]) -> bool
        ensures log { AddsMessages (log self.old) (log self.new) (message_if result (heard into.new)) }
        ensures length { length into.new ≡ length into.old };

    /// Lends the other side the bytes of memory, until it gives them back. Answers whether it did so whole.
    fn lend(&mut self, memory: &mut Memory) -> bool
        ensures log { AddsMessages (log self.old) (log self.new) (message_if result (lent memory.old.bytes memory.new.bytes)) }
        ensures length { length memory.new.bytes ≡ length memory.old.bytes }
        ensures width { memory.new.wide ≡ memory.old.wide };
}
