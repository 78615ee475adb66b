//! A function with Rust types for its parameters and its results: `TypedFunc`.

ghost use Rattle.std.specs.Prelude.{◌≡◌, Err, Ok, IfSome, IsNone, OnErr, OnOk, true};
ghost use Rattle.canon_func.specs.Call.{entry_refusal, refused_by};
ghost use Rattle.canon_func.specs.Called.{CallsIn};
ghost use Rattle.canon_func.specs.Steps.{SameButHost};
ghost use Rattle.canon_func.specs.Stores.{IsOwned, callee_of, type_of};
ghost use Rattle.canon_func.specs.Typed.{FitsParams, FitsResults, done_by, options_in, params_shape, typed_args, typed_results};

use crate::tuples::Typed;
use crate::{Error, Func, Store};
use canon_host::Imports;
use canon_lift::Lift;
use canon_lower::Lower;
use canon_memory::Guest;
use canon_typed::ComponentNamedList;
use std::alloc::Global;
use std::marker::PhantomData;

/// A function with Rust types for its parameters and its results, as `Func::typed` gives it.
#[derive_where(Clone, Copy)]
pub struct TypedFunc<P, R> {
    func: Func,
    marker: PhantomData<(P, R)>,
}

impl<P, R> TypedFunc<P, R> {
    /// The function with these types, unchecked: that they are the function's is a condition of `call`.
    pub fn new_unchecked(func: Func) -> TypedFunc<P, R>
        ensures { result.func ≡ func }
    {
        TypedFunc {
            func,
            marker: PhantomData,
        }
    }

    /// The function without the types.
    pub fn func(&self) -> &Func
        ensures { result.now ≡ self.now.func }
    {
        &self.func
    }

    /// Does nothing, since `call` has already run post-return.
    pub fn post_return<T, G, I>(&self, store: &mut Store<T, G, I>) -> Result<(), Error>
        requires { IsOwned store.old self.now.func }
        ensures answers { result ≡ Ok tt }
        ensures same { store.new ≡ store.old }
    {
        Ok(())
    }
}

impl<P: ComponentNamedList + Lower, R: ComponentNamedList + Lift> TypedFunc<P, R> {
    /// Calls the function as `Func::call` does, in the same order and with the same errors but those on counts and on dynamic values,
    /// and returns its results. A resource of the host that was taken is refused `HostConsumed`. The results are charged by their Rust
    /// types: the spelled bytes of a text, and for each item of a list or a map the bytes that it takes in the host.
    pub fn call<T, G: Guest, I: Imports<T, G>>(
        &self,
        alloc: Global,
        store: &mut Store<T, G, I>,
        params: P,
    ) -> Result<R, Error>
        requires owned { IsOwned store.old self.now.func }
        requires ready { I.ready store.old.imports }
        requires params { FitsParams P.fits store.old.core.component.types (type_of store.old self.now.func) }
        requires results { FitsResults R.fits store.old.core.component.types (type_of store.old self.now.func) }

        // Before the guest is entered.
        ensures refused { refused_by (done_by result) ≡ entry_refusal (callee_of store.old self.now.func) store.old.trapped }
        ensures unchanged { IfSome (refused_by (done_by result)) (λ e. store.new ≡ store.old) }

        // From then on.
        ensures call { IsNone (refused_by (done_by result)) → CallsIn G.seen G.moves G.leaves I.plan I.gives I.log I.refusals
            (typed_args (P.walks params) (P.gives store.old.core.component.types (params_shape (callee_of store.old self.now.func)) params) (callee_of store.old self.now.func))
            (typed_results R.reading (options_in store.old self.now.func) store.old.core.id (callee_of store.old self.now.func)) (callee_of store.old self.now.func) store.old.turns
            store.old.core store.old.imports store.new.core store.new.imports result result }
        ensures trapped { IsNone (refused_by (done_by result)) → OnErr result (store.new.trapped ≡ true) }

        // What it leaves.
        ensures runs { OnOk result (store.new.trapped ≡ store.old.trapped) }
        ensures same { SameButHost store.old.core store.new.core }
        ensures turns { store.new.turns ≡ store.old.turns }
        ensures plan { I.plan store.new.imports ≡ I.plan store.old.imports }
        ensures still_ready { I.ready store.new.imports }
    {
        if let Some(error) = self.func.entry_refusal(store) {
            return Err(error);
        }
        let export = self.func.export_in(store);
        let called: Result<Typed<R>, Error> = store.call_core(alloc, &export, &mut Typed(params));
        match called {
            Ok(results) => Ok(results.0),
            Err(error) => {
                store.trap();
                Err(error)
            }
        }
    }
}
