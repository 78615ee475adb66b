//! The contexts that values are lowered and lifted in: `LowerContext`, `LiftContext`, and the source of a lift.

ghost use Rattle.std.specs.Prelude.{◌≡◌, ◌<◌, ◌≤◌, ◌+◌, ◌*◌, ◌^◌, IfSome, Some, drop, length, slice_get, take};
ghost use Rattle.canon_lowering.specs.Lowering.{Reallocated};
ghost use Rattle.canon_lowering.specs.Stages.{bare};
ghost use Rattle.canon_memory.specs.Guest.{OnAnswer};
ghost use Rattle.canon_memory.specs.Journal.{realloc_events};
ghost use Rattle.canon_memory.specs.Realloc.{call};
ghost use Rattle.canon_model.specs.Laws.{IsAlignment};
ghost use Rattle.canon_context.specs.Component.{HasOptions};
ghost use Rattle.canon_abi.specs.Options.{encoding_of};
ghost use Rattle.canon_context.specs.Core.{encoding_by, guest_of, moment_of, component_types};
ghost use Rattle.canon_context.specs.Fuel.{Charged};
ghost use Rattle.canon_context.specs.Lifter.{IsAfterSteps, origin_in};
ghost use Rattle.canon_context.specs.Lowers.{answer_of, ending_of, guest_answer};

use crate::fuel::{charge, charge_each};
use crate::{Core, Fault, Lifter};
use canon_memory::Guest;
use canon_types::{
    CanonicalOptions, ComponentTypes, InstanceType, OptionsIndex, RuntimeInstance, StoreId,
    StringEncoding,
};
use std::alloc::Global;

/// Where values are lowered to: a core, under some of its options.
#[derive(Drop)]
pub struct LowerContext<'a, T, G> {
    /// The core, whose guest is asked for blocks and whose memory is written.
    pub core: &'a mut Core<T, G>,
    /// The number of the options among the component's.
    pub options: OptionsIndex,
}

impl<'a, T, G: Guest> LowerContext<'a, T, G> {
    ghost use Rattle.std.specs.Borrow.{Array, Lends, sem, u8};
    ghost use mir.Syntax.{named};
    ghost use Rattle.std.specs.Prelude.{[]};
    ghost use Rattle.canon_memory.specs.Memory.{written_over};
    ghost use Rattle.canon_context.specs.contracts.context.LowerContext.{the_row};

    /// A context of the core under these options.
    pub fn new(core: &'a mut Core<T, G>, options: OptionsIndex) -> Self
        requires { HasOptions core.old.component options }
        ensures same_reference { result.core.ghost_name ≡ core.entry.ghost_name }
        ensures core { result.core.now ≡ core.old }
        ensures options { result.options ≡ options }
    {
        LowerContext { core, options }
    }

    /// The options that values are lowered under.
    pub fn options(&self) -> &CanonicalOptions
        requires { HasOptions self.now.core.now.component self.now.options }
        ensures { slice_get self.now.core.now.component.options.items self.now.options ≡ Some result.now }
    {
        &self.core.component().options[self.options.as_u32() as usize]
    }

    /// The instance of the options.
    pub fn instance_handle(&self) -> RuntimeInstance
        requires { HasOptions self.now.core.now.component self.now.options }
        ensures { IfSome (slice_get self.now.core.now.component.options.items self.now.options) (λ o. result ≡ o.instance) }
    {
        self.options().instance
    }

    /// The component's type table.
    pub fn types(&self) -> &ComponentTypes
        ensures { result.now ≡ component_types self.now.core.now }
    {
        self.core.types()
    }

    /// The component's types, in their store.
    pub fn instance_type(&self) -> &InstanceType
        ensures { result.now ≡ self.now.core.now.component.types }
    {
        &self.core.component().types
    }

    /// Asks the guest once for a block of `new_size` bytes in the place of the block of `old_size` bytes at `old`
    /// (CanonicalABI.md, "realloc"), and tests its answer: first that it is a multiple of the alignment
    /// (`ReallocMisaligned`), then that the block ends inside memory (`ReallocOutOfBounds`).
    pub fn realloc(
        &mut self,
        old: u64,
        old_size: u64,
        old_align: u32,
        new_size: u64,
    ) -> Result<u64, Fault>
        requires alignment { IsAlignment old_align }
        requires narrow { old < 2 ^ 32 }
        requires old_sized { old_size < 2 ^ 32 }
        requires new_sized { new_size < 2 ^ 32 }
        ensures does { Reallocated (bare (moment_of G.seen self.old.core.now)) (bare (moment_of G.seen self.new.core.now)) (call old old_size old_align new_size) (ending_of result) (answer_of result) }
        ensures moves { OnAnswer (guest_answer result) (G.moves (guest_of self.old.core.now) (realloc_events (call old old_size old_align new_size) self.old.core.now.memory (guest_answer result)) (guest_of self.new.core.now)) }
        ensures small { length self.new.core.now.memory ≤ 2 ^ 32 }
        ensures same { self.new.core.now ≡ record self.old.core.now { guest = self.new.core.now.guest; memory = self.new.core.now.memory } }
        ensures same_reference { self.new.core.ghost_name ≡ self.old.core.ghost_name }
        ensures same_options { self.new.options ≡ self.old.options }
    {
        self.core.realloc(old, old_size, old_align, new_size)
    }

    /// The whole memory.
    pub fn as_slice_mut(&mut self) -> &mut [u8]
        ensures* writes_back { sem 𝓛 (Lends (the_row (record { mir = named 1; lft = [] }) T.row G.row) (Array u8 0) self.entry result (λ w. record self.old { core = record self.old.core { now = record self.old.core.now { memory = written_over self.old.core.now.memory w } } })) }
        ensures value { result.now ≡ self.old.core.now.memory }
        ensures small { length self.old.core.now.memory ≤ 2 ^ 32 }
    {
        self.core.as_slice_mut()
    }

    /// The `N` bytes at an address. What becomes of the core once they are written no clause says; `as_slice_mut` does.
    pub fn get<const N: usize>(&mut self, offset: u64) -> &mut [u8; N]
        requires { offset + N ≤ length self.old.core.now.memory }
        ensures bytes { result.now ≡ take N (drop offset self.old.core.now.memory) }
        ensures small { length self.old.core.now.memory ≤ 2 ^ 32 }
    {
        let tail = &mut self.core.as_slice_mut()[offset as usize..];
        tail.first_chunk_mut().unwrap()
    }
}

/// What values are lifted from: the types, the memory, and how texts are spelled there.
#[derive(Clone, Copy)]
pub struct Source<'a> {
    /// The types in their store.
    pub instance: &'a InstanceType,
    /// The same types, as a table.
    pub types: &'a ComponentTypes,
    /// The whole memory.
    pub memory: &'a [u8],
    /// How texts are spelled in it.
    pub encoding: StringEncoding,
}

/// Where values are lifted from: a core, under some of its options, and the fuel that is left.
#[derive(Drop)]
pub struct LiftContext<'a, T, G> {
    /// The core, whose memory is read and whose ledger takes the handles.
    pub core: &'a mut Core<T, G>,
    /// The number of the options among the component's.
    pub options: OptionsIndex,
    /// What lifting may still cost.
    pub fuel: u64,
}

impl<'a, T, G> LiftContext<'a, T, G> {
    /// Begins with the core's whole fuel.
    pub fn new(core: &'a mut Core<T, G>, options: OptionsIndex) -> Self
        requires { HasOptions core.old.component options }
        ensures same_reference { result.core.ghost_name ≡ core.entry.ghost_name }
        ensures core { result.core.now ≡ core.old }
        ensures options { result.options ≡ options }
        ensures fuel { result.fuel ≡ core.old.fuel }
    {
        let fuel = core.fuel();
        LiftContext {
            core,
            options,
            fuel,
        }
    }

    /// The fuel that is left.
    pub fn fuel(&self) -> u64
        ensures { result ≡ self.now.fuel }
    {
        self.fuel
    }

    /// Takes an amount from the fuel. A refused charge leaves the fuel as it was (wasmtime's `consume_fuel`).
    pub fn consume_fuel(&mut self, amt: u64) -> Result<(), Fault>
        ensures charged { Charged amt self.old.fuel self.new.fuel result }
        ensures same { self.new ≡ record self.old { fuel = self.new.fuel } }
    {
        charge(&mut self.fuel, amt)
    }

    /// Takes `len` times `size` from the fuel, as a product without bound (wasmtime's `consume_fuel_array`).
    pub fn consume_fuel_array(&mut self, len: u64, size: u64) -> Result<(), Fault>
        ensures charged { Charged (len * size) self.old.fuel self.new.fuel result }
        ensures same { self.new ≡ record self.old { fuel = self.new.fuel } }
    {
        charge_each(&mut self.fuel, len, size)
    }

    /// Has something lifted from the core, with the fuel that is left.
    pub fn lift_by<L: Lifter>(&mut self, alloc: Global, lifter: &L) -> Result<L::Lifted, Fault>
        requires ready { L.ready lifter.now (origin_in self.old.core.now self.old.options) }
        ensures gives { L.gives lifter.now (origin_in self.old.core.now self.old.options) self.old.core.now.ledger self.old.fuel result self.new.core.now.ledger self.new.fuel }
        ensures steps { IsAfterSteps self.old.core.now.ledger self.new.core.now.ledger }
        ensures same_core { self.new.core.now ≡ record self.old.core.now { ledger = self.new.core.now.ledger } }
        ensures same_reference { self.new.core.ghost_name ≡ self.old.core.ghost_name }
        ensures same_options { self.new.options ≡ self.old.options }
    {
        let mut fuel = self.fuel;
        let answer = self.core.lift_by(alloc, self.options, lifter, &mut fuel);
        self.fuel = fuel;
        answer
    }

    /// The options that values are lifted under.
    pub fn options(&self) -> &CanonicalOptions
        requires { HasOptions self.now.core.now.component self.now.options }
        ensures { slice_get self.now.core.now.component.options.items self.now.options ≡ Some result.now }
    {
        &self.core.component().options[self.options.as_u32() as usize]
    }

    /// The number of the options.
    pub fn options_index(&self) -> OptionsIndex
        ensures { result ≡ self.now.options }
    {
        self.options
    }

    /// The instance of the options.
    pub fn instance_handle(&self) -> RuntimeInstance
        requires { HasOptions self.now.core.now.component self.now.options }
        ensures { IfSome (slice_get self.now.core.now.component.options.items self.now.options) (λ o. result ≡ o.instance) }
    {
        self.options().instance
    }

    /// The guest's memory.
    pub fn memory(&self) -> &[u8]
        ensures { result.now ≡ self.now.core.now.memory }
    {
        self.core.memory().as_slice()
    }

    /// The number of the store.
    pub fn store_id(&self) -> StoreId
        ensures { result ≡ self.now.core.now.id }
    {
        self.core.id()
    }

    /// The component's type table.
    pub fn types(&self) -> &ComponentTypes
        ensures { result.now ≡ component_types self.now.core.now }
    {
        self.core.types()
    }

    /// The component's types, in their store.
    pub fn instance_type(&self) -> &InstanceType
        ensures { result.now ≡ self.now.core.now.component.types }
    {
        &self.core.component().types
    }
}
