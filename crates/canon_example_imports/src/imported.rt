//! What serves the imports of a component: two functions of the host.

ghost use Rattle.std.specs.Prelude.{◌≡◌, ◌≢◌, ◌≤◌, IfSome, None, slice_get};
ghost use Rattle.canon_types.specs.Table.{HasFunc};
ghost use Rattle.canon_context.specs.Component.{HasOptions};
ghost use Rattle.canon_context.specs.Core.{component_types};
ghost use Rattle.canon_context.specs.Host.{Keeps};
ghost use Rattle.canon_host.specs.Asked.{HasRoomFor};
ghost use Rattle.canon_host.specs.Forms.{MayGiveValues};
ghost use Rattle.canon_host.specs.Imports.{CountsOnce, ServedBy, ServesImport};
ghost use Rattle.canon_example_imports.specs.Imports.{gives_two};

use crate::component::CLOCK;
use canon_host::{
    DynamicHostFn, HostCx, HostError, HostFunc, HostStop, HostView, Imports, serve_values_import,
};
use canon_memory::{Guest, ValRaw};
use canon_types::TypeFunc;
use canon_value::Val;
use std::alloc::Global;

/// The imports of a component that has two functions of the host. Contracts see which function serves an ask, that it answers what this
/// function may, and how often asks were refused, but no log of the asks.
#[derive(Drop)]
pub struct TwoImports<C, D> {
    pub clock: HostFunc<DynamicHostFn<C>>,
    pub diary: HostFunc<DynamicHostFn<D>>,
    pub refusals: u64,
}

impl<
    T,
    G: Guest,
    C: Fn(&mut HostView<'_, '_, T>, &TypeFunc, &[Val], &mut [Val]) -> Result<(), HostStop>,
    D: Fn(&mut HostView<'_, '_, T>, &TypeFunc, &[Val], &mut [Val]) -> Result<(), HostStop>,
> Imports<T, G> for TwoImports<C, D> {
    ghost use Rattle.std.specs.Prelude.{◌≡◌, ◌≢◌, ◌≤◌, IfSome, None, slice_get};
    ghost use Rattle.canon_types.specs.Table.{HasFunc};
    ghost use Rattle.canon_context.specs.Component.{HasOptions};
    ghost use Rattle.canon_context.specs.Core.{component_types};
    ghost use Rattle.canon_context.specs.Host.{Keeps};
    ghost use Rattle.canon_host.specs.Asked.{HasRoomFor};
    ghost use Rattle.canon_host.specs.Forms.{MayGiveValues};
    ghost use Rattle.canon_host.specs.Imports.{CountsOnce, ServedBy, ServesImport};
    ghost use Rattle.canon_example_imports.specs.Imports.{gives_two};

    type Plan = (C, D);

    // Each function keeps what it must.
    ghost ready = { λ s. Keeps C.Fn s.clock × Keeps D.Fn s.diary };

    ghost plan = { λ s. (s.clock, s.diary) };

    ghost log = { λ s. None };

    ghost refusals = { λ s. s.refusals };

    // The first import answers what the clock may, the other what the diary may.
    ghost gives = { λ plan. gives_two (MayGiveValues C.Fn plan.0) (MayGiveValues D.Fn plan.1) };

    fn serve(
        &mut self,
        alloc: Global,
        n: u32,
        cx: HostCx<'_, T, G>,
        storage: &mut [ValRaw],
    ) -> Result<(), HostError>
        requires ready { Keeps C.Fn self.old.clock × Keeps D.Fn self.old.diary }
        requires func { HasFunc (component_types cx.core.now) cx.ty }
        requires options { HasOptions cx.core.now.component cx.options }
        requires room { HasRoomFor (component_types cx.core.now) cx.ty storage.old }
        ensures still_ready { Keeps C.Fn self.new.clock × Keeps D.Fn self.new.diary }
        ensures plan { (self.new.clock ≡ self.old.clock) × (self.new.diary ≡ self.old.diary) }
        ensures by_clock { n ≡ 0 → IfSome (slice_get (component_types cx.entry.core.now).funcs cx.entry.ty) (λ t. ServedBy C.Fn self.old.clock G.seen G.moves (record { ty = cx.entry.ty; func = t; options = cx.entry.options }) cx.entry.core.now storage.old result cx.exit.0.now storage.new) }
        ensures by_diary { n ≢ 0 → IfSome (slice_get (component_types cx.entry.core.now).funcs cx.entry.ty) (λ t. ServedBy D.Fn self.old.diary G.seen G.moves (record { ty = cx.entry.ty; func = t; options = cx.entry.options }) cx.entry.core.now storage.old result cx.exit.0.now storage.new) }
        ensures counts { CountsOnce result self.old.refusals self.new.refusals }
        ensures refusals { self.old.refusals ≤ self.new.refusals }
        ensures serves { IfSome (slice_get (component_types cx.entry.core.now).funcs cx.entry.ty)
            (λ t. ServesImport (gives_two (MayGiveValues C.Fn self.old.clock) (MayGiveValues D.Fn self.old.diary)) None n G.seen G.moves (record { ty = cx.entry.ty; func = t; options = cx.entry.options }) None
            self.old.refusals self.new.refusals cx.entry.core.now storage.old result cx.exit.0.now storage.new) }
        ensures same { cx.exit.0.now ≡ record cx.entry.core.now { state = cx.exit.0.now.state; guest = cx.exit.0.now.guest; memory = cx.exit.0.now.memory; ledger = cx.exit.0.now.ledger } }
    {
        // `n` says which import is asked for. The last function is the `else` arm.
        if n == CLOCK {
            serve_values_import(&self.clock, &mut self.refusals, alloc, n, cx, storage)
        } else {
            serve_values_import(&self.diary, &mut self.refusals, alloc, n, cx, storage)
        }
    }

    ghost lawful = { λ plan n. tt {0} };
}
