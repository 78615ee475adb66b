//! The store: a core with its imports, its limits, and whether a call has trapped it.

ghost use Rattle.std.specs.Prelude.{◌≡◌, ◌<◌, ◌↔◌, length, false, IfErr, IfOk, IsTrue, IfSome, IsSome};
ghost use Rattle.canon_context.specs.Component.{IsInside};
ghost use Rattle.canon_func.specs.Called.{CallsIn};
ghost use Rattle.canon_func.specs.Steps.{IsLate, SameButHost, map_ok};
ghost use Rattle.canon_func.specs.Stores.{IsOwned, StoreView, export_callee};

use crate::call::call_core;
use crate::passing::{Params, Results};
use crate::{Error, Func};
use canon_host::Imports;
use canon_memory::Guest;
use canon_types::ExportIndex;
use canon_value::{Core, Export};
use std::alloc::Global;
use std::marker::Model;

/// A core, the functions that its component imports, how many asks of imports a call may have served, and whether a call trapped it.
/// Contracts see these.
#[derive(Drop)]
pub struct Store<T, G, I> {
    core: Core<T, G>,
    imports: I,
    turns: u64,
    trapped: bool,
}

impl<T, G, I> Model for Store<T, G, I> {
    ghost Value = { StoreView T G I };

    ghost view = { λ s. record { core = s.core; imports = s.imports; turns = s.turns; trapped = s.trapped } };
}

impl<T, G, I> Store<T, G, I> {
    ghost use Rattle.std.specs.Prelude.{◌≡◌, ◌<◌, ◌↔◌, length, false, true, IsTrue, IfSome, IsSome};
    ghost use Rattle.std.specs.Borrow.{Lends, sem};
    ghost use Rattle.canon_func.specs.Stores.{IsOwned};
    ghost use Rattle.canon_func.specs.contracts.store.Store.{the_row};
    ghost use Rattle.canon_context.specs.contracts.core_data.Core as core_type;
    ghost use Rattle.canon_ledger.specs.Ledger.{set_limit};

    /// A store that no call has trapped, whose calls may have so many asks of imports served.
    pub fn new(core: Core<T, G>, imports: I, turns: u64) -> Self
        ensures { result ≡ record { core = core; imports = imports; turns = turns; trapped = false } }
    {
        Store {
            core,
            imports,
            turns,
            trapped: false,
        }
    }

    /// The core: the component with its guest, memory and handles, and the data of the host.
    pub fn core(&self) -> &Core<T, G>
        ensures { result.now ≡ self.now.core }
    {
        &self.core
    }

    /// The core, to be changed between calls.
    pub fn core_mut(&mut self) -> &mut Core<T, G>
        ensures* writes_back { sem 𝓛 (Lends (the_row T.row G.row I.row) (core_type.the_row T.row G.row) self.entry result (λ c. record self.old { core = c })) }
        ensures value { result.now ≡ self.old.core }
    {
        &mut self.core
    }

    /// The functions that the component imports.
    pub fn imports(&self) -> &I
        ensures { result.now ≡ self.now.imports }
    {
        &self.imports
    }

    /// The fuel that each call has for lifting its results.
    pub fn fuel(&self) -> u64
        ensures { result ≡ self.now.core.fuel }
    {
        self.core.fuel()
    }

    /// Sets the fuel that each call after this has for lifting.
    pub fn set_fuel(&mut self, v: u64)
        ensures { self.new ≡ record self.old { core = record self.old.core { fuel = v } } }
    {
        self.core.set_fuel(v);
    }

    /// How many asks of imports each call may have served.
    pub fn turns(&self) -> u64
        ensures { result ≡ self.now.turns }
    {
        self.turns
    }

    /// Sets how many asks of imports each call after this may have served.
    pub fn set_turns(&mut self, v: u64)
        ensures { self.new ≡ record self.old { turns = v } }
    {
        self.turns = v;
    }

    /// The number of the live handles.
    pub fn live_handles(&self) -> u64
        ensures { result ≡ self.now.core.ledger.handles.counter.live }
    {
        self.core.live()
    }

    /// Sets how many live handles there may be. A lower limit refuses nothing that exists.
    pub fn set_handle_limit(&mut self, v: u64)
        ensures { self.new ≡ record self.old { core = record self.old.core { ledger = set_limit self.old.core.ledger v } } }
    {
        self.core.set_handle_limit(v);
    }

    /// Whether a call was refused after it entered the guest; no call enters it any more.
    pub fn is_trapped(&self) -> bool
        ensures { result ≡ self.now.trapped }
    {
        self.trapped
    }

    pub(crate) fn trap(&mut self)
        ensures { self.new ≡ record self.old { trapped = true } }
    {
        self.trapped = true;
    }

    /// The function of an export, where there is one.
    pub fn func(&self, i: ExportIndex) -> Option<Func>
        ensures found { IsSome result ↔ (i < length self.now.core.component.exports.items) }
        ensures func { IfSome result (λ f. f ≡ record { store = self.now.core.id; export = i }) }
    {
        if (i.as_u32() as usize) < self.core.component().exports.len() {
            Some(Func::of(self.core.id(), i))
        } else {
            None
        }
    }

    /// Whether the function is one of this store, as `func` gives it.
    pub fn owns(&self, f: &Func) -> bool
        ensures { IsTrue result ↔ IsOwned self.now f.now }
    {
        f.store_id() == self.core.id()
            && (f.export().as_u32() as usize) < self.core.component().exports.len()
    }
}

impl<T, G: Guest, I: Imports<T, G>> Store<T, G, I> {
    /// Calls the function of an export, which its imports serve.
    pub(crate) fn call_core<P: Params, R: Results>(
        &mut self,
        alloc: Global,
        export: &Export,
        params: &mut P,
    ) -> Result<R, Error>
        requires ready { I.ready self.old.imports }
        requires inside { IsInside self.old.core.component export.now }
        requires params { P.fit params.old self.old.core.component export.now }
        requires results { R.fit self.old.core.component export.now }
        ensures call { CallsIn G.seen G.moves G.leaves I.plan I.gives I.log I.refusals (P.args params.old (export_callee self.old.core.component export.now))
            (R.returns (export_callee self.old.core.component export.now) export.now.options self.old.core.id) (export_callee self.old.core.component export.now) self.old.turns
            self.old.core self.old.imports self.new.core self.new.imports result (map_ok R.out result) }
        ensures late { IfErr result IsLate }
        ensures counted { IfOk result (R.counted (export_callee self.old.core.component export.now)) }
        ensures same { SameButHost self.old.core self.new.core }
        ensures rest { self.new ≡ record self.old { core = self.new.core; imports = self.new.imports } }
        ensures plan { I.plan self.new.imports ≡ I.plan self.old.imports }
        ensures still_ready { I.ready self.new.imports }
    {
        call_core(
            alloc,
            &mut self.core,
            &mut self.imports,
            export,
            self.turns,
            params,
        )
    }
}
