//! Functions of the host over Rust types.

ghost use Rattle.std.specs.Prelude.{◌≡◌, IfSome, OnErr, OnOk, false, slice_get};
ghost use Rattle.canon_types.specs.Table.{HasFunc};
ghost use Rattle.canon_host.specs.ServesTyped.{FitRustTypes, FitsFunc};

use crate::asked::asked_of;
use crate::serve_typed::serve_typed;
use crate::{HostCx, HostError, HostFn, HostFunc, HostStop, HostView, TypecheckFailed};
use canon_lift::Lift;
use canon_lower::Lower;
use canon_memory::{Guest, ValRaw};
use canon_typed::ComponentNamedList;
use canon_types::{InstanceType, InterfaceType, TypeFuncIndex};
use std::alloc::Global;
use std::marker::{Model, PhantomData};

/// A function over Rust types: P for its parameters and R for its results, which are tuples. Contracts see the function.
#[derive(Drop)]
pub struct StaticHostFn<F, P, R> {
    f: F,
    marker: PhantomData<(P, R)>,
}

impl<F, P, R> Model for StaticHostFn<F, P, R> {
    ghost Value = { F };

    ghost view = { λ h. h.f };
}

impl<
    T,
    G: Guest,
    P: ComponentNamedList + Lift,
    R: ComponentNamedList + Lower,
    F: Fn(&mut HostView<'_, '_, T>, P) -> Result<R, HostStop>,
> HostFn<T, G> for StaticHostFn<F, P, R> {
    ghost use Rattle.std.specs.Prelude.{◌≡◌, IfSome, slice_get};
    ghost use Rattle.canon_types.specs.Table.{HasFunc};
    ghost use Rattle.canon_context.specs.Component.{HasOptions};
    ghost use Rattle.canon_context.specs.Core.{component_types};
    ghost use Rattle.canon_host.specs.Asked.{HasRoomFor};
    ghost use Rattle.canon_host.specs.ServesTyped.{FitsFunc, ServesTyped};
    ghost use Rattle.canon_context.specs.Host.{StaticKeeps};

    type Log = ();

    ghost ready = { λ f. StaticKeeps F.Fn f };

    ghost fits = { λ f i ty. FitsFunc P.fits R.fits i ty };

    ghost serves = { λ f asked before words r after words2. ServesTyped F.Fn f P.reading R.walks R.gives G.seen G.moves asked before words r after words2 };

    fn serve(
        &self,
        alloc: Global,
        cx: HostCx<'_, T, G>,
        storage: &mut [ValRaw],
    ) -> Result<(), HostError>
        requires ready { StaticKeeps F.Fn self.now }
        requires fits { FitsFunc P.fits R.fits cx.core.now.component.types cx.ty }
        requires func { HasFunc (component_types cx.core.now) cx.ty }
        requires options { HasOptions cx.core.now.component cx.options }
        requires room { HasRoomFor (component_types cx.core.now) cx.ty storage.old }
        ensures serves { IfSome (slice_get (component_types cx.entry.core.now).funcs cx.entry.ty)
            (λ t. ServesTyped F.Fn self.now P.reading R.walks R.gives G.seen G.moves (record { ty = cx.entry.ty; func = t; options = cx.entry.options }) cx.entry.core.now storage.old result cx.exit.0.now storage.new) }
        ensures same { cx.exit.0.now ≡ record cx.entry.core.now { state = cx.exit.0.now.state; guest = cx.exit.0.now.guest; memory = cx.exit.0.now.memory; ledger = cx.exit.0.now.ledger } }
    {
        let HostCx { core, ty, options } = cx;
        let asked = asked_of(core, ty, options);
        serve_typed(alloc, &self.f, core, &asked, storage)
    }
}

impl<F, P: ComponentNamedList + Lift, R: ComponentNamedList + Lower> HostFunc<
    StaticHostFn<F, P, R>,
> {
    /// A function over Rust types.
    pub fn func_wrap(f: F) -> Self
        ensures { result ≡ f }
    {
        HostFunc {
            h: StaticHostFn {
                f,
                marker: PhantomData,
            },
        }
    }

    /// Whether the function may be of this type: one that isn't async, and whose parameters' and results' tuples are the Rust types'.
    pub fn typecheck(&self, ty: TypeFuncIndex, types: &InstanceType) -> Result<(), TypecheckFailed>
        requires { HasFunc types.now.types ty }
        ensures passed { OnOk result (IfSome (slice_get types.now.types.funcs ty) (λ t. t.async_ ≡ false)) }
        ensures fits { OnOk result (FitsFunc P.fits R.fits types.now ty) }
        ensures refused { OnErr result (IfSome (slice_get types.now.types.funcs ty) (λ t. t.async_ ≡ false → FitRustTypes P.fits R.fits types.now t → ⊥)) }
    {
        let func = *types.types().func(ty);
        if func.async_ {
            return Err(TypecheckFailed);
        }
        P::typecheck(&InterfaceType::Tuple(func.params), types)?;
        R::typecheck(&InterfaceType::Tuple(func.results), types)?;
        Ok(())
    }
}
