//! What a function of the host reaches while it is called.

ghost use Rattle.std.specs.Prelude.{◌≡◌, ◌↔◌, IsTrue, Some, length, slice_get};
ghost use Rattle.canon_ledger.specs.Reached.{ledger_in, reference_in};
ghost use Rattle.canon_context.specs.Component.{HasOptions};
ghost use Rattle.canon_context.specs.Host.{HostSteps, IsOutside, Keeps, Returns, StaticKeeps, StaticReturns, lenders_in};

use crate::Component;
use canon_ledger::HostResourceTables;
use canon_types::{CanonicalOptions, InstanceType, OptionsIndex, StoreId, TypeFunc};

/// Why a function of the host gave no results.
#[derive(Clone, Copy, Debug, PartialEq, Eq)]
pub enum HostStop {
    /// It refused.
    Refused,
    /// Memory ran out.
    OutOfMemory,
}

/// The memory of a core, with its component and the number of its store.
#[derive(Clone, Copy)]
pub struct MemoryView<'a> {
    pub(crate) bytes: &'a [u8],
    pub(crate) component: &'a Component,
    pub(crate) id: StoreId,
}

impl<'a> MemoryView<'a> {
    /// The bytes of memory.
    pub fn memory(&self) -> &'a [u8]
        ensures { result.now ≡ self.now.bytes.now }
    {
        self.bytes
    }

    /// The options of a number.
    pub fn options(&self, i: OptionsIndex) -> &'a CanonicalOptions
        requires { HasOptions self.now.component.now i }
        ensures { slice_get self.now.component.now.options.items i ≡ Some result.now }
    {
        &self.component.options[i.as_u32() as usize]
    }

    /// Whether the component has options of this number, which is the condition of `options`.
    pub fn has_options(&self, i: OptionsIndex) -> bool
        ensures { IsTrue result ↔ HasOptions self.now.component.now i }
    {
        (i.as_u32() as usize) < self.component.options.len()
    }

    /// The types of the component.
    pub fn types(&self) -> &'a InstanceType
        ensures { result.now ≡ self.now.component.now.types }
    {
        &self.component.types
    }

    /// The number of the store.
    pub fn store_id(&self) -> StoreId
        ensures { result ≡ self.now.id }
    {
        self.id
    }
}

/// What a function of the host reaches: the data of its store, the resource tables outside any call, and the memory. The data and the
/// tables are the core's own, which the function must leave in their places.
#[derive(Drop)]
pub struct HostView<'a, 'b, T> {
    /// The data of the store.
    pub state: &'a mut T,
    /// The store's resource tables, outside any call.
    pub tables: HostResourceTables<'b>,
    /// The guest's memory.
    pub memory: MemoryView<'a>,
}

/// Calls a function of the host once.
pub(crate) fn call<
    T,
    X,
    F: Fn(&mut HostView<'_, '_, T>, &TypeFunc, &[X], &mut [X]) -> Result<(), HostStop>,
>(
    f: &F,
    view: &mut HostView<'_, '_, T>,
    ty: &TypeFunc,
    params: &[X],
    results: &mut [X],
) -> Result<(), HostStop>
    requires keeps { Keeps F.Fn f.now }
    requires outside { IsOutside view.old }
    ensures same_state { view.new.state.ghost_name ≡ view.old.state.ghost_name }
    ensures same_ledger { reference_in view.new.tables ≡ reference_in view.old.tables }
    ensures steps { HostSteps (ledger_in view.old.tables) (ledger_in view.new.tables) }
    ensures scopes { lenders_in (ledger_in view.new.tables) ≡ lenders_in (ledger_in view.old.tables) }
    ensures slots { length results.new ≡ length results.old }
    ensures returns { Returns F.Fn f.now view.old ty.now params.now results.old result view.new results.new }
{
    f(view, ty, params, results)
}

/// The same of a function over Rust types.
pub(crate) fn call_static<T, P, R, F: Fn(&mut HostView<'_, '_, T>, P) -> Result<R, HostStop>>(
    f: &F,
    view: &mut HostView<'_, '_, T>,
    params: P,
) -> Result<R, HostStop>
    requires keeps { StaticKeeps F.Fn f.now }
    requires outside { IsOutside view.old }
    ensures same_state { view.new.state.ghost_name ≡ view.old.state.ghost_name }
    ensures same_ledger { reference_in view.new.tables ≡ reference_in view.old.tables }
    ensures steps { HostSteps (ledger_in view.old.tables) (ledger_in view.new.tables) }
    ensures scopes { lenders_in (ledger_in view.new.tables) ≡ lenders_in (ledger_in view.old.tables) }
    ensures returns { StaticReturns F.Fn f.now view.old params result view.new }
{
    f(view, params)
}
