//! What a store has of its component: the host's data, the guest and its memory, the ledger, and the fuel.

ghost use Rattle.std.specs.Prelude.{◌≡◌, ◌≤◌, ◌<◌, ◌^◌, [], IfErr, IfOk, IsFalse, OnOk, length};
ghost use Rattle.canon_lowering.specs.Lowering.{Reallocated};
ghost use Rattle.canon_lowering.specs.Stages.{bare};
ghost use Rattle.canon_memory.specs.Guest.{Goes, HasCause, HoldsPlace, MovesByNone, OnAnswer};
ghost use Rattle.canon_memory.specs.Journal.{dtor_events, post_events, realloc_events, resume_events, start_events};
ghost use Rattle.canon_memory.specs.Realloc.{block, call};
ghost use Rattle.canon_model.specs.Laws.{IsAlignment};
ghost use Rattle.canon_context.specs.Component.{IsComponent};
ghost use Rattle.canon_abi.specs.Options.{encoding_of};
ghost use Rattle.canon_context.specs.Core.{Parts, component_types, encoding_by, guest_of, moment_of};
ghost use Rattle.canon_context.specs.declared.fault.Fault.TheVariants as fault;
ghost use Rattle.canon_context.specs.Lowers.{answer_of, ending_of, guest_answer};

mod handles;
mod hosting;

use crate::{Component, Fault, Lifter, Source};
use canon_bytes::ends_inside;
use canon_ledger::{HostResourceData, Ledger};
use canon_memory::{Guest, GuestFault, Memory, Step, ValRaw};
use canon_types::{ComponentTypes, OptionsIndex, OutOfMemory, StoreId, StringEncoding};
use std::alloc::Global;
use std::marker::Model;

/// What a store has of its component: the host's data, the guest, its memory, the component, the ledger of its handles, and the
/// fuel that each lifting begins with. Contracts see these.
#[derive(Drop)]
pub struct Core<T, G> {
    id: StoreId,
    state: T,
    guest: G,
    memory: Memory,
    component: Component,
    ledger: Ledger,
    fuel: u64,
}

impl<T, G> Model for Core<T, G> {
    ghost Value = { Parts T G };

    ghost view = { λ c. record { id = c.id; state = c.state; guest = c.guest; memory = c.memory.bytes; wide = c.memory.wide; component = c.component; ledger = c.ledger; fuel = c.fuel } };

    ghost invariant = { λ c. IsComponent c.component × IsFalse c.memory.wide };
}

impl<T: Drop, G: Drop> Core<T, G> {
    ghost use Rattle.std.specs.Prelude.{◌≡◌, IfOk, IsFalse};
    ghost use Rattle.canon_ledger.specs.Ledger.{new_ledger};
    ghost use Rattle.canon_context.specs.Component.{IsComponent};

    /// A core with empty handle tables, over a memory whose pointers have 32 bits.
    pub fn new(
        alloc: Global,
        id: StoreId,
        state: T,
        guest: G,
        memory: Memory,
        component: Component,
        handle_limit: u64,
        fuel: u64,
    ) -> Result<Self, OutOfMemory>
        requires component { IsComponent component }
        requires narrow { IsFalse memory.wide }
        ensures { IfOk result (λ core. core ≡ record { id = id; state = state; guest = guest; memory = memory.bytes; wide = memory.wide; component = component; ledger = new_ledger 256 handle_limit 0; fuel = fuel }) }
    {
        let ledger = Ledger::new(alloc, handle_limit, HostResourceData::new(alloc))?;
        Ok(Core {
            id,
            state,
            guest,
            memory,
            component,
            ledger,
            fuel,
        })
    }
}

impl<T, G> Core<T, G> {
    ghost use Rattle.std.specs.Prelude.{◌≡◌, ◌≤◌, ◌^◌, IsFalse, length};
    ghost use Rattle.std.specs.Borrow.{Array, Lends, sem, u8};
    ghost use Rattle.canon_memory.specs.Memory.{written_over};
    ghost use Rattle.canon_context.specs.Component.{IsComponent};
    ghost use Rattle.canon_context.specs.contracts.core_data.Core.{the_row};

    /// The number of the store.
    pub fn id(&self) -> StoreId
        ensures { result ≡ self.now.id }
    {
        self.id
    }

    /// The host's data, to be changed.
    pub fn data_mut(&mut self) -> &mut T
        ensures* writes_back { sem 𝓛 (Lends (the_row T.row G.row) T.row self.entry result (λ x. record self.old { state = x })) }
        ensures value { result.now ≡ self.old.state }
    {
        &mut self.state
    }

    /// The guest, to be changed.
    pub fn guest_mut(&mut self) -> &mut G
        ensures* writes_back { sem 𝓛 (Lends (the_row T.row G.row) G.row self.entry result (λ g. record self.old { guest = g })) }
        ensures value { result.now ≡ self.old.guest }
    {
        &mut self.guest
    }

    /// The fuel that each lifting begins with.
    pub fn fuel(&self) -> u64
        ensures { result ≡ self.now.fuel }
    {
        self.fuel
    }

    /// Sets the fuel that each lifting begins with.
    pub fn set_fuel(&mut self, v: u64)
        ensures { self.new ≡ record self.old { fuel = v } }
    {
        self.fuel = v;
    }

    /// The component, whose indexes are all inside their tables.
    pub fn component(&self) -> &Component
        ensures component { result.now ≡ self.now.component }
        ensures sound { IsComponent result.now }
    {
        &self.component
    }

    /// The component's type table.
    pub fn types(&self) -> &ComponentTypes
        ensures { result.now ≡ component_types self.now }
    {
        self.component.types.types()
    }

    /// How texts are spelled under the options of a number: as UTF-8 where there are none of that number.
    pub fn encoding(&self, options: OptionsIndex) -> StringEncoding
        ensures { encoding_of result ≡ encoding_by self.now options }
    {
        match self.component.options.get(options.as_u32() as usize) {
            Some(options) => options.string_encoding,
            None => StringEncoding::Utf8,
        }
    }

    /// The guest's memory.
    pub fn memory(&self) -> &Memory
        ensures memory { result.now.bytes ≡ self.now.memory }
        ensures wide { result.now.wide ≡ self.now.wide }
        ensures narrow { IsFalse result.now.wide }
        ensures small { length self.now.memory ≤ 2 ^ 32 }
    {
        let _len = self.memory.len(); // memory has at most 2^32 bytes
        &self.memory
    }

    /// The bytes of memory, to be written.
    pub fn as_slice_mut(&mut self) -> &mut [u8]
        ensures* writes_back { sem 𝓛 (Lends (the_row T.row G.row) (Array u8 0) self.entry result (λ w. record self.old { memory = written_over self.old.memory w })) }
        ensures value { result.now ≡ self.old.memory }
        ensures small { length self.old.memory ≤ 2 ^ 32 }
    {
        let _len = self.memory.len(); // memory has at most 2^32 bytes
        self.memory.as_slice_mut()
    }
}

impl<T, G> Core<T, G> {
    ghost use Rattle.canon_context.specs.Lifter.{IsAfterSteps, origin_in};

    /// Has something lifted, with the ledger lent to it.
    pub fn lift_by<L: Lifter>(
        &mut self,
        alloc: Global,
        options: OptionsIndex,
        lifter: &L,
        fuel: &mut u64,
    ) -> Result<L::Lifted, Fault>
        requires ready { L.ready lifter.now (origin_in self.old options) }
        ensures gives { L.gives lifter.now (origin_in self.old options) self.old.ledger fuel.old result self.new.ledger fuel.new }
        ensures steps { IsAfterSteps self.old.ledger self.new.ledger }
        ensures same { self.new ≡ record self.old { ledger = self.new.ledger } }
    {
        let encoding = self.encoding(options);
        let source = Source {
            instance: &self.component.types,
            types: self.component.types.types(),
            memory: self.memory.as_slice(),
            encoding,
        };
        lifter.lift(alloc, &source, &mut self.ledger, fuel)
    }
}

impl<T, G: Guest> Core<T, G> {
    /// Starts a core function in the core's memory, as `Guest::start`.
    pub fn start(&mut self, func: u32, words: &[ValRaw]) -> Result<Step, GuestFault>
        ensures goes { Goes (moment_of G.seen self.old) (moment_of G.seen self.new) [] (start_events func words.now self.old.memory self.new.memory result) }
        ensures moves { OnAnswer result (G.moves (guest_of self.old) (start_events func words.now self.old.memory self.new.memory result) (guest_of self.new)) }
        ensures cause { HasCause (G.seen self.old.guest) (G.seen self.new.guest) result }
        ensures same { self.new ≡ record self.old { guest = self.new.guest; memory = self.new.memory } }
    {
        self.guest.start(&mut self.memory, func, words)
    }

    /// Lets a guest that asked for an import go on, as `Guest::resume`.
    pub fn resume(&mut self, words: &[ValRaw]) -> Result<Step, GuestFault>
        ensures goes { Goes (moment_of G.seen self.old) (moment_of G.seen self.new) [] (resume_events words.now self.old.memory self.new.memory result) }
        ensures moves { OnAnswer result (G.moves (guest_of self.old) (resume_events words.now self.old.memory self.new.memory result) (guest_of self.new)) }
        ensures cause { HasCause (G.seen self.old.guest) (G.seen self.new.guest) result }
        ensures same { self.new ≡ record self.old { guest = self.new.guest; memory = self.new.memory } }
    {
        self.guest.resume(&mut self.memory, words)
    }

    /// Tells a guest that its returned words were read, as `Guest::post_return`.
    pub fn post_return(&mut self, func: u32, words: &[ValRaw]) -> Result<(), GuestFault>
        ensures goes { Goes (moment_of G.seen self.old) (moment_of G.seen self.new) [] (post_events func words.now self.old.memory result) }
        ensures moves { OnAnswer result (G.moves (guest_of self.old) (post_events func words.now self.old.memory result) (guest_of self.new)) }
        ensures leaves { OnOk result (G.leaves self.old.memory self.new.memory) }
        ensures cause { HasCause (G.seen self.old.guest) (G.seen self.new.guest) result }
        ensures same { self.new ≡ record self.old { guest = self.new.guest; memory = self.new.memory } }
    {
        self.guest.post_return(&mut self.memory, func, words)
    }

    /// Runs the destructor of a resource of this representation, as `Guest::dtor`.
    pub fn dtor(&mut self, func: u32, rep: u32) -> Result<(), GuestFault>
        ensures goes { Goes (moment_of G.seen self.old) (moment_of G.seen self.new) [] (dtor_events func rep self.old.memory result) }
        ensures moves { OnAnswer result (G.moves (guest_of self.old) (dtor_events func rep self.old.memory result) (guest_of self.new)) }
        ensures leaves { OnOk result (G.leaves self.old.memory self.new.memory) }
        ensures cause { HasCause (G.seen self.old.guest) (G.seen self.new.guest) result }
        ensures same { self.new ≡ record self.old { guest = self.new.guest; memory = self.new.memory } }
    {
        self.guest.dtor(&mut self.memory, func, rep)
    }

    /// Tells the guest of a place that will be written before it runs again, as `Guest::hold`.
    pub fn hold(&mut self, start: u64, size: u32) -> Result<(), Fault>
        ensures holds { HoldsPlace (G.seen self.old.guest) (G.seen self.new.guest) (block start size) result }
        ensures moves { OnOk result (MovesByNone G.moves self.old.guest self.new.guest) }
        ensures fault { IfErr result (λ e. e ≡ fault.OutOfMemory) }
        ensures same { self.new ≡ record self.old { guest = self.new.guest } }
    {
        match self.guest.hold(start, size) {
            Ok(()) => Ok(()),
            Err(_) => Err(Fault::OutOfMemory),
        }
    }

    /// Asks the guest for a block once, and tests its answer, as `LowerContext::realloc`.
    pub fn realloc(
        &mut self,
        old: u64,
        old_size: u64,
        old_align: u32,
        new_size: u64,
    ) -> Result<u64, Fault>
        requires alignment { IsAlignment old_align }
        requires narrow { old < 2 ^ 32 }
        requires old_sized { old_size < 2 ^ 32 }
        requires new_sized { new_size < 2 ^ 32 }
        ensures does { Reallocated (bare (moment_of G.seen self.old)) (bare (moment_of G.seen self.new)) (call old old_size old_align new_size) (ending_of result) (answer_of result) }
        ensures moves { OnAnswer (guest_answer result) (G.moves (guest_of self.old) (realloc_events (call old old_size old_align new_size) self.old.memory (guest_answer result)) (guest_of self.new)) }
        ensures small { length self.new.memory ≤ 2 ^ 32 }
        ensures same { self.new ≡ record self.old { guest = self.new.guest; memory = self.new.memory } }
    {
        let answer = self
            .guest
            .realloc(&mut self.memory, old, old_size, old_align, new_size);
        let _len = self.memory.len(); // memory has at most 2^32 bytes
        let answer = match answer {
            Ok(answer) => answer,
            Err(GuestFault::Trap) => return Err(Fault::GuestTrap),
            Err(GuestFault::OutOfMemory) => return Err(Fault::OutOfMemory),
        };
        if answer % u64::from(old_align) != 0 {
            return Err(Fault::ReallocMisaligned(answer));
        }
        if !ends_inside(self.memory.as_slice(), answer, new_size, 1) {
            return Err(Fault::ReallocOutOfBounds(answer));
        }
        Ok(answer)
    }
}
