//! What contracts see of the faults of a guest behind a channel.

ghost use Rattle.std.specs.Prelude.{◌≡◌, ◌≤◌};
ghost use Rattle.canon_memory.specs.Counts.{Rose};

use canon_memory::GuestFault;

/// How many blocks it gave, how often it trapped, and how often it was out of memory.
#[derive(Debug, Drop)]
pub struct Counts {
    /// How many blocks the guest gave.
    pub blocks: u64,
    /// How often it trapped.
    pub traps: u64,
    /// How often it was out of memory.
    pub shortages: u64,
}

impl Counts {
    /// Counts a fault.
    pub(crate) fn add(&mut self, fault: GuestFault) -> GuestFault
        ensures same { result ≡ fault }
        ensures blocks { self.new.blocks ≡ self.old.blocks }
        ensures traps { self.old.traps ≤ self.new.traps }
        ensures shortages { self.old.shortages ≤ self.new.shortages }
        ensures trap { fault ≡ GuestFault.Trap → Rose self.old.traps self.new.traps }
        ensures shortage { fault ≡ GuestFault.OutOfMemory → Rose self.old.shortages self.new.shortages }
    {
        match fault {
            GuestFault::Trap => self.traps = self.traps.saturating_add(1),
            GuestFault::OutOfMemory => self.shortages = self.shortages.saturating_add(1),
        }
        fault
    }
}
