//! Imports of one function over Rust types.

ghost use Rattle.std.specs.Prelude.{◌≡◌, ◌≤◌, IfSome, None, slice_get};
ghost use Rattle.canon_types.specs.Table.{HasFunc};
ghost use Rattle.canon_context.specs.Component.{HasOptions};
ghost use Rattle.canon_context.specs.Core.{component_types};
ghost use Rattle.canon_context.specs.Host.{StaticKeeps};
ghost use Rattle.canon_host.specs.Asked.{HasRoomFor};
ghost use Rattle.canon_host.specs.Forms.{MayGive, rust_types};
ghost use Rattle.canon_host.specs.HostSide.{gives_types};
ghost use Rattle.canon_host.specs.Imports.{CountsOnce, ServedByTyped, ServesImport};

use canon_host::{
    HostCx, HostError, HostFunc, HostStop, HostView, Imports, StaticHostFn, serve_typed_import,
};
use canon_lift::Lift;
use canon_lower::Lower;
use canon_memory::{Guest, ValRaw};
use canon_typed::ComponentNamedList;
use std::alloc::Global;

/// Each import is this function over Rust types, which is their plan. No log is exposed.
#[derive(Drop)]
pub struct OneTyped<F, P, R> {
    pub func: HostFunc<StaticHostFn<F, P, R>>,
    pub refusals: u64,
}

impl<
    T,
    G: Guest,
    P: ComponentNamedList + Lift,
    R: ComponentNamedList + Lower,
    F: Fn(&mut HostView<'_, '_, T>, P) -> Result<R, HostStop>,
> Imports<T, G> for OneTyped<F, P, R> {
    ghost use Rattle.std.specs.Prelude.{◌≡◌, ◌≤◌, IfSome, None, slice_get};
    ghost use Rattle.canon_types.specs.Table.{HasFunc};
    ghost use Rattle.canon_context.specs.Component.{HasOptions};
    ghost use Rattle.canon_context.specs.Core.{component_types};
    ghost use Rattle.canon_context.specs.Host.{StaticKeeps};
    ghost use Rattle.canon_host.specs.Asked.{HasRoomFor};
    ghost use Rattle.canon_host.specs.Forms.{MayGive, rust_types};
    ghost use Rattle.canon_host.specs.HostSide.{gives_types};
    ghost use Rattle.canon_host.specs.Imports.{CountsOnce, ServedByTyped, ServesImport};

    type Plan = F;

    // The function keeps what it must.
    ghost ready = { λ s. StaticKeeps F.Fn s.func };

    ghost plan = { λ s. s.func };

    ghost log = { λ s. None };

    ghost refusals = { λ s. s.refusals };

    ghost gives = { λ f. gives_types (rust_types P.fits R.fits P.reading P.is_told P.lifts P.cost R.means R.walks R.gives) (MayGive F.Fn f) };

    fn serve(
        &mut self,
        alloc: Global,
        _n: u32,
        cx: HostCx<'_, T, G>,
        storage: &mut [ValRaw],
    ) -> Result<(), HostError>
        requires ready { StaticKeeps F.Fn self.old.func }
        requires func { HasFunc (component_types cx.core.now) cx.ty }
        requires options { HasOptions cx.core.now.component cx.options }
        requires room { HasRoomFor (component_types cx.core.now) cx.ty storage.old }
        ensures still_ready { StaticKeeps F.Fn self.new.func }
        ensures plan { self.new.func ≡ self.old.func }
        ensures refusals { self.old.refusals ≤ self.new.refusals }
        ensures serves { IfSome (slice_get (component_types cx.entry.core.now).funcs cx.entry.ty)
            (λ t. ServesImport (gives_types (rust_types P.fits R.fits P.reading P.is_told P.lifts P.cost R.means R.walks R.gives)
            (MayGive F.Fn self.old.func)) None _n G.seen G.moves (record { ty = cx.entry.ty; func = t; options = cx.entry.options }) None
            self.old.refusals self.new.refusals cx.entry.core.now storage.old result cx.exit.0.now storage.new) }
        ensures served { IfSome (slice_get (component_types cx.entry.core.now).funcs cx.entry.ty)
            (λ t. ServedByTyped F.Fn self.old.func (rust_types P.fits R.fits P.reading P.is_told P.lifts P.cost R.means R.walks R.gives) G.seen
            G.moves (record { ty = cx.entry.ty; func = t; options = cx.entry.options }) cx.entry.core.now storage.old result cx.exit.0.now
            storage.new) }
        ensures counts { CountsOnce result self.old.refusals self.new.refusals }
        ensures same { cx.exit.0.now ≡ record cx.entry.core.now { state = cx.exit.0.now.state; guest = cx.exit.0.now.guest; memory = cx.exit.0.now.memory; ledger = cx.exit.0.now.ledger } }
    {
        serve_typed_import(&self.func, &mut self.refusals, alloc, cx, storage)
    }

    ghost lawful = { λ plan n. record { taken = P.taken; apart = P.apart; faulted = P.faulted; priced = P.priced; of_trees = P.told; typed = R.typed; walked = R.walked; walkable = R.walkable; given = R.given } };
}
