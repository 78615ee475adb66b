//! A function that a component exports, and how it is called: `Func`.

ghost use Rattle.std.specs.Prelude.{◌≡◌, Err, Ok, Some, IfOk, IfSome, IsNone, OnErr, OnOk, length, slice_get, true};
ghost use Rattle.canon_types.specs.Table.{IsOver};
ghost use Rattle.canon_context.specs.Component.{IsInside};
ghost use Rattle.canon_context.specs.Core.{component_types};
ghost use Rattle.canon_func.specs.Call.{call_refusal, entry_refusal, refused_by};
ghost use Rattle.canon_func.specs.Called.{CallOf};
ghost use Rattle.canon_func.specs.Steps.{SameButHost};
ghost use Rattle.canon_func.specs.Stores.{IsOwned, Named, callee_of, type_of};
ghost use Rattle.canon_func.specs.Typed.{FitsParams, FitsResults};

use crate::dynamic::Values;
use crate::steps::{has_counts, options_of};
use crate::{Error, Store, TypedFunc};
use canon_host::Imports;
use canon_lift::Lift;
use canon_lower::Lower;
use canon_memory::Guest;
use canon_typed::{ComponentNamedList, TypecheckFailed};
use canon_types::{ExportIndex, InterfaceType, StoreId, TypeFunc};
use canon_value::{Export, Val};
use std::alloc::Global;
use std::marker::Model;

/// A function of a store's component. Contracts see the store's number and that of the export.
#[derive(Clone, Copy, Debug, PartialEq, Eq)]
pub struct Func {
    store: StoreId,
    export: ExportIndex,
}

impl Model for Func {
    ghost Value = { Named };

    ghost view = { λ f. record { store = f.store; export = f.export } };

    ghost inverse = { λ n. record { store = n.store; export = n.export } };
}

impl Func {
    pub(crate) fn of(store: StoreId, export: ExportIndex) -> Self
        ensures { result ≡ record { store = store; export = export } }
    {
        Func { store, export }
    }

    /// The number that was given to `Store::func`.
    pub fn export(&self) -> ExportIndex
        ensures { result ≡ self.now.export }
    {
        self.export
    }

    pub(crate) fn store_id(&self) -> StoreId
        ensures { result ≡ self.now.store }
    {
        self.store
    }

    /// The function's type.
    pub fn ty<'a, T, G, I>(&self, store: &'a Store<T, G, I>) -> &'a TypeFunc
        requires { IsOwned store.now self.now }
        ensures found { type_of store.now self.now ≡ Some result.now }
        ensures known { IsOver (component_types store.now.core) result.now }
    {
        let export = self.export_in(store);
        store.core().component().types.types().func(export.ty)
    }

    /// Does nothing, since `call` has already run post-return.
    pub fn post_return<T, G, I>(&self, store: &mut Store<T, G, I>) -> Result<(), Error>
        requires { IsOwned store.old self.now }
        ensures answers { result ≡ Ok tt }
        ensures same { store.new ≡ store.old }
    {
        Ok(())
    }

    /// The function with Rust types for its parameters and its results: two tuples, of types that have the traits (`docs/TYPED.md`). Answers
    /// `TypecheckFailed` exactly where the tuple of the parameters' types, or that of the results', isn't the Rust type's.
    pub fn typed<P: ComponentNamedList + Lower, R: ComponentNamedList + Lift, T, G, I>(
        &self,
        store: &Store<T, G, I>,
    ) -> Result<TypedFunc<P, R>, TypecheckFailed>
        requires { IsOwned store.now self.now }
        ensures ok { OnOk result (FitsParams P.fits store.now.core.component.types (type_of store.now self.now) × FitsResults R.fits store.now.core.component.types (type_of store.now self.now)) }
        ensures err { OnErr result (FitsParams P.fits store.now.core.component.types (type_of store.now self.now) × FitsResults R.fits store.now.core.component.types (type_of store.now self.now) → ⊥) }
        ensures func { IfOk result (λ f. f.func ≡ self.now) }
    {
        let ty = self.ty(store);
        let types = &store.core().component().types;
        P::typecheck(&InterfaceType::Tuple(ty.params), types)?;
        R::typecheck(&InterfaceType::Tuple(ty.results), types)?;
        Ok(TypedFunc::new_unchecked(*self))
    }

    // The export that the function is.
    pub(crate) fn export_in<T, G, I>(&self, store: &Store<T, G, I>) -> Export
        requires { IsOwned store.now self.now }
        ensures found { slice_get store.now.core.component.exports.items self.now.export ≡ Some result }
        ensures inside { IsInside store.now.core.component result }
    {
        store.core().component().exports[self.export.as_u32() as usize]
    }

    // Why a call with so many parameters and results is refused before the guest is entered, if it is.
    fn refusal<T, G, I>(
        &self,
        store: &Store<T, G, I>,
        params: usize,
        results: usize,
    ) -> Option<Error>
        requires { IsOwned store.now self.now }
        ensures { result ≡ call_refusal (callee_of store.now self.now) params results store.now.trapped }
    {
        let component = store.core().component();
        let export = self.export_in(store);
        if !has_counts(component.types.types(), &export, params, results) {
            return Some(Error::WrongCount);
        }
        self.entry_refusal(store)
    }

    // Why any call is refused before the guest is entered, whatever is passed, if it is.
    pub(crate) fn entry_refusal<T, G, I>(&self, store: &Store<T, G, I>) -> Option<Error>
        requires { IsOwned store.now self.now }
        ensures { result ≡ entry_refusal (callee_of store.now self.now) store.now.trapped }
    {
        let export = self.export_in(store);
        if options_of(store.core().component(), &export).async_ {
            return Some(Error::AsyncLifted);
        }
        if store.is_trapped() {
            return Some(Error::CannotEnterComponent);
        }
        None
    }

    /// Calls the function, as CanonicalABI.md's "canon_lift": opens a scope, lowers the parameters, starts the guest, serves
    /// what it asks for until it returns, ends the scope, lifts what the guest returned, runs post-return, and leaves the scope. `results` are
    /// written together, last. What is lent to the call is given back when its scope ends.
    ///
    /// Answers `WrongCount`, `AsyncLifted` and `CannotEnterComponent`, in this order, before anything is done. Any later
    /// refusal, out of memory included, traps the store and leaves `results` and the scope: the faults of a parameter, of
    /// the guest's `realloc` and of a result; a refusal of a handle; `GuestTrap`; at each ask of the guest `TurnsExhausted`
    /// where it is one more than the store's calls may have served, `UnknownImport` where the component has no such import,
    /// `WrongWords` where there are more or fewer words than its import takes, `HostRefused` where its function refuses, and
    /// `ImportFault` where the ask can't be served otherwise, in this order;
    /// `WrongWords` where it returns another number of words than the results take; `BorrowsRemain` where it
    /// then keeps a borrow handle; `HostcallFuelExhausted` where the results cost more than the store's fuel, which each
    /// call has anew.
    pub fn call<T, G: Guest, I: Imports<T, G>>(
        &self,
        alloc: Global,
        store: &mut Store<T, G, I>,
        params: &[Val],
        results: &mut [Val],
    ) -> Result<(), Error>
        requires owned { IsOwned store.old self.now }
        requires ready { I.ready store.old.imports }

        // Before the guest is entered.
        ensures refused { refused_by result ≡ call_refusal (callee_of store.old self.now) (length params.now) (length results.old) store.old.trapped }
        ensures unchanged { IfSome (refused_by result) (λ e. store.new ≡ store.old) }

        // From then on.
        ensures call { IsNone (refused_by result) → CallOf G.seen G.moves G.leaves I.plan I.gives I.log I.refusals store.old self.now params.now result results.new store.new }
        ensures trapped { IsNone (refused_by result) → OnErr result (store.new.trapped ≡ true) }

        // What it leaves.
        ensures runs { OnOk result (store.new.trapped ≡ store.old.trapped) }
        ensures left { OnErr result (results.new ≡ results.old) }
        ensures same { SameButHost store.old.core store.new.core }
        ensures turns { store.new.turns ≡ store.old.turns }
        ensures plan { I.plan store.new.imports ≡ I.plan store.old.imports }
        ensures still_ready { I.ready store.new.imports }
    {
        if let Some(error) = self.refusal(store, params.len(), results.len()) {
            return Err(error);
        }
        let export = self.export_in(store);
        let called: Result<Vec<Val>, Error> = store.call_core(alloc, &export, &mut Values(params));
        match called {
            Ok(mut values) => {
                results.swap_with_slice(&mut values);
                Ok(())
            }
            Err(error) => {
                store.trap();
                Err(error)
            }
        }
    }
}
