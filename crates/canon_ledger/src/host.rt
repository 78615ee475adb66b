//! What the host keeps of the indexes of its table.

ghost use Rattle.std.specs.Prelude.{◌≡◌, ◌≤◌, ◌<◌, OnOk, length};

use crate::fault::ResourceFault;
use canon_abi::{OutOfMemory, RuntimeInstance};
use std::alloc::Global;
use std::marker::Model;

/// The greatest generation. A handle of the host is not removed in it.
const LAST_GENERATION: u32 = 4_294_967_292;

/// What the host keeps of an index of its table: the generation of the last insertion there, and
/// the instance and the destructor of the resource.
#[derive(Clone, Copy, Debug, PartialEq, Eq)]
pub struct TableSlot {
    /// The generation of the last insertion there.
    pub generation: u32,
    /// The instance that defines the resource, where one does.
    pub instance: Option<RuntimeInstance>,
    /// The core function that is its destructor, where it has one.
    pub dtor: Option<u32>,
}

/// The slots of the host's table, and the current generation. Each removal from the table raises
/// it, so that an index that is given again is kept apart from the one before.
#[derive(Debug, Drop)]
pub struct HostResourceData {
    slots: Vec<TableSlot>,
    generation: u32,
}

impl Model for HostResourceData {
    ghost use Rattle.std.specs.Prelude.{◌∷◌, ◌-◌, ◌≤◌, None, Some, map, length};
    ghost use Rattle.std.specs.Vec.{vec_capacity};
    ghost use Rattle.canon_ledger.specs.Books.{KeptIndexes, indexes_of};
    ghost use Rattle.canon_ledger.specs.Ledger.{last_generation};

    ghost Value = { KeptIndexes };

    ghost view = { λ a. record { indexes = indexes_of (None ∷ map Some a.slots.items) a.generation; room = vec_capacity a.slots - length a.slots.items } };

    ghost invariant = { λ a. a.generation ≤ last_generation };
}

impl HostResourceData {
    ghost use Rattle.canon_handles.specs.Step.{refuse_if};
    ghost use Rattle.std.specs.Prelude.{Ok, nat_le, if◌then◌else◌};
    ghost use Rattle.canon_ledger.specs.Ledger.{last_generation, raised, slot_at, with_slot};
    ghost use Rattle.canon_ledger.specs.Books.{is_spent, no_indexes, raised_at, written_at};
    ghost use Rattle.canon_ledger.specs.declared.fault.ResourceFault.TheVariants.{GenerationExhausted};

    /// No slots, and the first generation.
    pub fn new(alloc: Global) -> Self
        ensures { result.indexes ≡ no_indexes 0 }
    {
        HostResourceData::with_generation(alloc, 0)
    }

    /// No slots, and this generation, at most 4,294,967,292.
    pub fn with_generation(alloc: Global, generation: u32) -> Self
        requires { generation ≤ last_generation }
        ensures { result.indexes ≡ no_indexes generation }
    {
        HostResourceData {
            slots: Vec::new(alloc),
            generation,
        }
    }

    /// The current generation.
    pub(crate) fn generation(&self) -> u32
        ensures generation { result ≡ self.now.indexes.generation }
        ensures last { result ≤ last_generation }
    {
        self.generation
    }

    /// The slot of an index, if it has one.
    pub(crate) fn slot(&self, index: u32) -> Option<TableSlot>
        ensures { result ≡ slot_at self.now.indexes index }
    {
        let slots = &self.slots;
        if index == 0 {
            return None;
        }
        slots.get(index as usize - 1).copied()
    }

    /// Makes room for one slot.
    pub(crate) fn reserve(&mut self) -> Result<(), OutOfMemory>
        ensures indexes { self.new.indexes ≡ self.old.indexes }
        ensures room { OnOk result (0 < self.new.room) }
    {
        if self.slots.reserve(1).is_err() {
            return Err(OutOfMemory);
        }
        Ok(())
    }

    /// Writes the slot of an index, which has one or is the next to have one.
    #[tactic(auto, using(crate::proofs::ContextLemmas::slots_written, crate::proofs::ContextLemmas::slots_pushed))]
    pub(crate) fn write(&mut self, index: u32, instance: Option<RuntimeInstance>, dtor: Option<u32>)
        requires positive { 0 < index }
        requires next { index ≤ length self.old.indexes.slots }
        requires room { 0 < self.old.room }
        ensures { self.new.indexes ≡ with_slot self.old.indexes index instance dtor }
    {
        let slot = TableSlot {
            generation: self.generation,
            instance,
            dtor,
        };
        let place = index as usize - 1;
        if place < self.slots.len() {
            self.slots[place] = slot;
        } else {
            self.slots.push_reserved(slot);
        }
    }

    /// Raises the generation, before a handle is removed.
    pub(crate) fn raise(&mut self) -> Result<(), ResourceFault>
        ensures answer { result ≡ refuse_if (nat_le last_generation self.old.indexes.generation) GenerationExhausted (Ok tt) }
        ensures after { self.new.indexes ≡ (if nat_le last_generation self.old.indexes.generation then self.old.indexes else raised self.old.indexes) }
    {
        if self.generation >= LAST_GENERATION {
            return Err(ResourceFault::GenerationExhausted);
        }
        self.generation += 1;
        Ok(())
    }

    /// Makes room for the slot of an insertion into a table, which the host's alone has.
    pub(crate) fn reserve_at(&mut self, table: u32) -> Result<(), OutOfMemory>
        ensures indexes { self.new.indexes ≡ self.old.indexes }
        ensures room { OnOk result (table ≡ 0 → 0 < self.new.room) }
    {
        if table != 0 {
            return Ok(());
        }
        self.reserve()
    }

    /// Writes the slot of an insertion into a table.
    pub(crate) fn write_at(&mut self, table: u32, index: u32)
        requires { table ≡ 0 → (0 < index) × (index ≤ length self.old.indexes.slots) × (0 < self.old.room) }
        ensures { self.new.indexes ≡ written_at table index self.old.indexes }
    {
        if table == 0 {
            self.write(index, None, None);
        }
    }

    /// Raises the generation, before a handle is removed from the host's table.
    pub(crate) fn raise_at(&mut self, table: u32) -> Result<(), ResourceFault>
        ensures answer { result ≡ refuse_if (is_spent table self.old.indexes) GenerationExhausted (Ok tt) }
        ensures after { self.new.indexes ≡ (if is_spent table self.old.indexes then self.old.indexes else raised_at table self.old.indexes) }
    {
        if table != 0 {
            return Ok(());
        }
        self.raise()
    }
}
