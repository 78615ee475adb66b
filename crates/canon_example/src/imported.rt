//! What serves the imports of a component.

ghost use Rattle.std.specs.Prelude.{◌≡◌, ◌≤◌, IfSome, None, slice_get};
ghost use Rattle.canon_types.specs.Table.{HasFunc};
ghost use Rattle.canon_context.specs.Component.{HasOptions};
ghost use Rattle.canon_context.specs.Core.{component_types};
ghost use Rattle.canon_context.specs.Host.{Keeps};
ghost use Rattle.canon_host.specs.Asked.{HasRoomFor};
ghost use Rattle.canon_host.specs.Forms.{MayGiveValues};
ghost use Rattle.canon_host.specs.HostSide.{gives_unlogged};
ghost use Rattle.canon_host.specs.Imports.{CountsOnce, ServedBy, ServesImport};

use canon_host::{
    DynamicHostFn, HostCx, HostError, HostFunc, HostStop, HostView, Imports, serve_values_import,
};
use canon_memory::{Guest, ValRaw};
use canon_types::TypeFunc;
use canon_value::Val;
use std::alloc::Global;

/// The imports of a component that has one function of the host. Contracts see which function serves an ask, that it answers what this
/// function may, and how often asks were refused, but no log of the asks.
#[derive(Drop)]
pub struct OneImport<F> {
    pub func: HostFunc<DynamicHostFn<F>>,
    pub refusals: u64,
}

impl<
    T,
    G: Guest,
    F: Fn(&mut HostView<'_, '_, T>, &TypeFunc, &[Val], &mut [Val]) -> Result<(), HostStop>,
> Imports<T, G> for OneImport<F> {
    ghost use Rattle.std.specs.Prelude.{◌≡◌, ◌≤◌, IfSome, None, slice_get};
    ghost use Rattle.canon_types.specs.Table.{HasFunc};
    ghost use Rattle.canon_context.specs.Component.{HasOptions};
    ghost use Rattle.canon_context.specs.Core.{component_types};
    ghost use Rattle.canon_context.specs.Host.{Keeps};
    ghost use Rattle.canon_host.specs.Asked.{HasRoomFor};
    ghost use Rattle.canon_host.specs.Forms.{MayGiveValues};
    ghost use Rattle.canon_host.specs.HostSide.{gives_unlogged};
    ghost use Rattle.canon_host.specs.Imports.{CountsOnce, ServedBy, ServesImport};

    type Plan = F;

    // The function keeps what it must.
    ghost ready = { λ s. Keeps F.Fn s.func };

    ghost plan = { λ s. s.func };

    ghost log = { λ s. None };

    ghost refusals = { λ s. s.refusals };

    // Each import answers what the function may.
    ghost gives = { λ f. gives_unlogged (MayGiveValues F.Fn f) };

    fn serve(
        &mut self,
        alloc: Global,
        n: u32,
        cx: HostCx<'_, T, G>,
        storage: &mut [ValRaw],
    ) -> Result<(), HostError>
        requires ready { Keeps F.Fn self.old.func }
        requires func { HasFunc (component_types cx.core.now) cx.ty }
        requires options { HasOptions cx.core.now.component cx.options }
        requires room { HasRoomFor (component_types cx.core.now) cx.ty storage.old }
        ensures still_ready { Keeps F.Fn self.new.func }
        ensures plan { self.new.func ≡ self.old.func }
        ensures served { IfSome (slice_get (component_types cx.entry.core.now).funcs cx.entry.ty) (λ t. ServedBy F.Fn self.old.func G.seen G.moves (record { ty = cx.entry.ty; func = t; options = cx.entry.options }) cx.entry.core.now storage.old result cx.exit.0.now storage.new) }
        ensures counts { CountsOnce result self.old.refusals self.new.refusals }
        ensures refusals { self.old.refusals ≤ self.new.refusals }
        ensures serves { IfSome (slice_get (component_types cx.entry.core.now).funcs cx.entry.ty)
            (λ t. ServesImport (gives_unlogged (MayGiveValues F.Fn self.old.func)) None n G.seen G.moves (record { ty = cx.entry.ty; func = t; options = cx.entry.options }) None
            self.old.refusals self.new.refusals cx.entry.core.now storage.old result cx.exit.0.now storage.new) }
        ensures same { cx.exit.0.now ≡ record cx.entry.core.now { state = cx.exit.0.now.state; guest = cx.exit.0.now.guest; memory = cx.exit.0.now.memory; ledger = cx.exit.0.now.ledger } }
    {
        // A component with several functions has a field for each, and `n` says which import is asked for.
        serve_values_import(&self.func, &mut self.refusals, alloc, n, cx, storage)
    }

    ghost lawful = { λ plan n. tt {0} };
}
