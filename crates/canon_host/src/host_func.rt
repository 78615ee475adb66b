//! Functions of the host.

ghost use Rattle.std.specs.Prelude.{◌≡◌, IfErr, IfSome, List, OnOk, Result, false, slice_get, true, ℕ};
ghost use Rattle.canon_types.specs.Instance.{Instance};
ghost use Rattle.canon_types.specs.Table.{HasFunc};
ghost use Rattle.canon_context.specs.Component.{HasOptions};
ghost use Rattle.canon_context.specs.Core.{Parts, component_types};
ghost use Rattle.canon_host.specs.Asked.{HasRoomFor};
ghost use Rattle.canon_host.specs.declared.asked.Asked.{Asked};
ghost use Rattle.canon_host.specs.declared.error.HostError.{HostError};

use crate::asked::asked_of;
use crate::serve::serve;
use crate::{HostCx, HostError, HostStop, HostView, TypecheckFailed};
use canon_memory::{Guest, ValRaw};
use canon_types::{InstanceType, TypeFunc, TypeFuncIndex};
use canon_value::Val;
use std::alloc::Global;
use std::fmt;
use std::marker::Model;

/// A function in one of its forms, over data of the type `T` and a guest of the type `G`.
pub trait HostFn<T, G: Guest> {
    /// What the log keeps of an ask that was served.
    type Log;

    /// It may be called, and keeps what it must.
    ghost ready: { Self → Type 0 };

    /// It may serve asks for functions of this type of an instance.
    ghost fits: { Self → Instance → ℕ → Type 0 };

    /// What is asked for, the core and the words before, the answer, and the core and the words after.
    ghost serves: { Self → Asked → Parts T G → List ℕ → Result Self.Log HostError → Parts T G → List ℕ → Type 0 };

    /// Serves one ask: lifts the parameters, calls the function, and lowers its results into words or memory.
    fn serve(
        &self,
        alloc: Global,
        cx: HostCx<'_, T, G>,
        storage: &mut [ValRaw],
    ) -> Result<Self::Log, HostError>
        requires ready { ready self.now }
        requires fits { fits self.now cx.core.now.component.types cx.ty }
        requires func { HasFunc (component_types cx.core.now) cx.ty }
        requires options { HasOptions cx.core.now.component cx.options }
        requires room { HasRoomFor (component_types cx.core.now) cx.ty storage.old }
        ensures serves { IfSome (slice_get (component_types cx.entry.core.now).funcs cx.entry.ty) (λ t. serves self.now (record { ty = cx.entry.ty; func = t; options = cx.entry.options }) cx.entry.core.now storage.old result cx.exit.0.now storage.new) }
        ensures same { cx.exit.0.now ≡ record cx.entry.core.now { state = cx.exit.0.now.state; guest = cx.exit.0.now.guest; memory = cx.exit.0.now.memory; ledger = cx.exit.0.now.ledger } };
}

/// A function over values of any types. Contracts see the function.
#[derive(Drop)]
pub struct DynamicHostFn<F> {
    f: F,
}

impl<F> Model for DynamicHostFn<F> {
    ghost Value = { F };

    ghost view = { λ h. h.f };
}

impl<
    T,
    G: Guest,
    F: Fn(&mut HostView<'_, '_, T>, &TypeFunc, &[Val], &mut [Val]) -> Result<(), HostStop>,
> HostFn<T, G> for DynamicHostFn<F> {
    ghost use Rattle.std.specs.Prelude.{◌≡◌, IfSome, slice_get};
    ghost use Rattle.canon_types.specs.Table.{HasFunc};
    ghost use Rattle.canon_context.specs.Component.{HasOptions};
    ghost use Rattle.canon_context.specs.Core.{component_types};
    ghost use Rattle.canon_context.specs.Host.{Keeps};
    ghost use Rattle.canon_host.specs.Asked.{HasRoomFor};
    ghost use Rattle.canon_host.specs.Serves.{ServesInRow};

    type Log = Vec<Val>;

    ghost ready = { λ f. Keeps F.Fn f };

    ghost fits = { λ f i ty. Unit {0} };

    ghost serves = { λ f asked before words r after words2. ServesInRow F.Fn f G.seen G.moves asked before words r after words2 };

    fn serve(
        &self,
        alloc: Global,
        cx: HostCx<'_, T, G>,
        storage: &mut [ValRaw],
    ) -> Result<Vec<Val>, HostError>
        requires ready { Keeps F.Fn self.now }
        requires fits { Unit {0} }
        requires func { HasFunc (component_types cx.core.now) cx.ty }
        requires options { HasOptions cx.core.now.component cx.options }
        requires room { HasRoomFor (component_types cx.core.now) cx.ty storage.old }
        ensures serves { IfSome (slice_get (component_types cx.entry.core.now).funcs cx.entry.ty) (λ t. ServesInRow F.Fn self.now G.seen G.moves (record { ty = cx.entry.ty; func = t; options = cx.entry.options }) cx.entry.core.now storage.old result cx.exit.0.now storage.new) }
        ensures same { cx.exit.0.now ≡ record cx.entry.core.now { state = cx.exit.0.now.state; guest = cx.exit.0.now.guest; memory = cx.exit.0.now.memory; ledger = cx.exit.0.now.ledger } }
    {
        let HostCx { core, ty, options } = cx;
        let asked = asked_of(core, ty, options);
        serve(alloc, &self.f, core, &asked, storage)
    }
}

/// A function of the host. Contracts see its form.
#[derive(Drop)]
pub struct HostFunc<H> {
    pub(crate) h: H,
}

impl<H> Model for HostFunc<H> {
    ghost Value = { H };

    ghost view = { λ f. f.h };
}

impl<F> HostFunc<DynamicHostFn<F>> {
    /// A function over values of any types.
    pub fn func_new(f: F) -> Self
        ensures { result ≡ f }
    {
        HostFunc {
            h: DynamicHostFn { f },
        }
    }

    /// Whether the function may be of this type: any that isn't async.
    pub fn typecheck(&self, ty: TypeFuncIndex, types: &InstanceType) -> Result<(), TypecheckFailed>
        requires { HasFunc types.now.types ty }
        ensures refused { IfErr result (λ _. IfSome (slice_get types.now.types.funcs ty) (λ t. t.async_ ≡ true)) }
        ensures passed { OnOk result (IfSome (slice_get types.now.types.funcs ty) (λ t. t.async_ ≡ false)) }
    {
        if types.types().func(ty).async_ {
            return Err(TypecheckFailed);
        }
        Ok(())
    }
}

impl<H> HostFunc<H> {
    /// Serves one ask.
    pub fn entrypoint<T, G: Guest>(
        &self,
        alloc: Global,
        cx: HostCx<'_, T, G>,
        storage: &mut [ValRaw],
    ) -> Result<H::Log, HostError>
    where
        H: HostFn<T, G>,
        requires ready { H.ready self.now }
        requires fits { H.fits self.now cx.core.now.component.types cx.ty }
        requires func { HasFunc (component_types cx.core.now) cx.ty }
        requires options { HasOptions cx.core.now.component cx.options }
        requires room { HasRoomFor (component_types cx.core.now) cx.ty storage.old }
        ensures serves { IfSome (slice_get (component_types cx.entry.core.now).funcs cx.entry.ty) (λ t. H.serves self.now (record { ty = cx.entry.ty; func = t; options = cx.entry.options }) cx.entry.core.now storage.old result cx.exit.0.now storage.new) }
        ensures same { cx.exit.0.now ≡ record cx.entry.core.now { state = cx.exit.0.now.state; guest = cx.exit.0.now.guest; memory = cx.exit.0.now.memory; ledger = cx.exit.0.now.ledger } }
    {
        self.h.serve(alloc, cx, storage)
    }
}

impl<H> fmt::Debug for HostFunc<H> {
    fn fmt<W: fmt::Write>(&self, f: &mut fmt::Formatter<W>) -> fmt::Result {
        f.write_str("HostFunc { .. }")
    }
}
