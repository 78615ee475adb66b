//! What serves the imports of a component: the other end of a channel.

ghost use Rattle.std.specs.Prelude.{◌≡◌, ◌≤◌, IfSome, None, slice_get};
ghost use Rattle.canon_types.specs.Table.{HasFunc};
ghost use Rattle.canon_context.specs.Component.{HasOptions};
ghost use Rattle.canon_context.specs.Core.{component_types};
ghost use Rattle.canon_context.specs.Host.{HostSteps, IsOutside, Keeps};
ghost use Rattle.canon_host.specs.Asked.{HasRoomFor};
ghost use Rattle.canon_host.specs.Forms.{outcome};
ghost use Rattle.canon_host.specs.Imports.{AnswersOnly, ServesImport};
ghost use Rattle.canon_ledger.specs.Reached.{ledger_in, reference_in};
ghost use Rattle.canon_serve.specs.Asks.{AsksHost, DropsBorrows, MayServe, serves_imports};

use crate::asking::serve_ask;
use crate::hosting::HostState;
use canon_host::{
    DynamicHostFn, HostCx, HostError, HostFunc, HostStop, HostView, Imports, serve_values_import,
};
use canon_memory::{Guest, ValRaw};
use canon_relay::Channel;
use canon_types::TypeFunc;
use canon_value::Val;
use std::alloc::Global;

/// Imports that are served over a channel, which stands in the data of the store. They expose no log.
#[derive(Debug, Drop)]
pub struct ChannelImports {
    refusals: u64,
}

impl ChannelImports {
    /// Imports that refused nothing.
    pub fn new() -> Self
        ensures { result ≡ record { refusals = 0 } }
    {
        ChannelImports { refusals: 0 }
    }
}

/// Serves one ask by a function that asks the other end of the channel.
fn serve_by<
    H: Channel,
    G: Guest,
    F: Fn(
        &mut HostView<'_, '_, HostState<H>>,
        &TypeFunc,
        &[Val],
        &mut [Val],
    ) -> Result<(), HostStop>,
>(
    func: &HostFunc<DynamicHostFn<F>>,
    refusals: &mut u64,
    alloc: Global,
    n: u32,
    cx: HostCx<'_, HostState<H>, G>,
    storage: &mut [ValRaw],
) -> Result<(), HostError>
    requires ready { Keeps F.Fn func.now }
    requires answers { AnswersOnly F.Fn func.now (MayServe H.log n) }
    requires func { HasFunc (component_types cx.core.now) cx.ty }
    requires options { HasOptions cx.core.now.component cx.options }
    requires room { HasRoomFor (component_types cx.core.now) cx.ty storage.old }
    ensures refusals { refusals.old ≤ refusals.new }
    ensures serves { IfSome (slice_get (component_types cx.entry.core.now).funcs cx.entry.ty)
        (λ t. ServesImport (serves_imports H.log) None n G.seen G.moves (record { ty = cx.entry.ty; func = t; options = cx.entry.options }) None refusals.old
        refusals.new cx.entry.core.now storage.old result cx.exit.0.now storage.new) }
    ensures same { cx.exit.0.now ≡ record cx.entry.core.now { state = cx.exit.0.now.state; guest = cx.exit.0.now.guest; memory = cx.exit.0.now.memory; ledger = cx.exit.0.now.ledger } }
{
    serve_values_import(func, refusals, alloc, n, cx, storage)
}

impl<H: Channel, G: Guest> Imports<HostState<H>, G> for ChannelImports {
    ghost use Rattle.std.specs.Prelude.{◌≡◌, ◌≤◌, IfSome, None, slice_get};
    ghost use Rattle.canon_types.specs.Table.{HasFunc};
    ghost use Rattle.canon_context.specs.Component.{HasOptions};
    ghost use Rattle.canon_context.specs.Core.{component_types};
    ghost use Rattle.canon_host.specs.Asked.{HasRoomFor};
    ghost use Rattle.canon_host.specs.Imports.{ServesImport};
    ghost use Rattle.canon_serve.specs.Asks.{serves_imports};

    type Plan = ();

    ghost ready = { λ s. Unit {0} };

    ghost plan = { λ s. tt {0} };

    ghost log = { λ s. None };

    ghost refusals = { λ s. s.refusals };

    ghost gives = { λ plan. (serves_imports H.log) };

    fn serve(
        &mut self,
        alloc: Global,
        n: u32,
        cx: HostCx<'_, HostState<H>, G>,
        storage: &mut [ValRaw],
    ) -> Result<(), HostError>
        requires ready { Unit {0} }
        requires func { HasFunc (component_types cx.core.now) cx.ty }
        requires options { HasOptions cx.core.now.component cx.options }
        requires room { HasRoomFor (component_types cx.core.now) cx.ty storage.old }
        ensures still_ready { Unit {0} }
        ensures plan { tt {0} ≡ tt {0} }
        ensures refusals { self.old.refusals ≤ self.new.refusals }
        ensures serves { IfSome (slice_get (component_types cx.entry.core.now).funcs cx.entry.ty)
            (λ t. ServesImport (serves_imports H.log) None n G.seen G.moves (record { ty = cx.entry.ty; func = t; options = cx.entry.options }) None
            self.old.refusals self.new.refusals cx.entry.core.now storage.old result cx.exit.0.now storage.new) }
        ensures same { cx.exit.0.now ≡ record cx.entry.core.now { state = cx.exit.0.now.state; guest = cx.exit.0.now.guest; memory = cx.exit.0.now.memory; ledger = cx.exit.0.now.ledger } }
    {
        let func = HostFunc::func_new(
            move |view: &mut HostView<
                '_,
                '_,
                HostState<H>,
            >, ty: &TypeFunc, params: &[Val], slots: &mut [Val]| -> Result<(), HostStop>
                requires outside { IsOutside view.old }
                ensures state { view.new.state.ghost_name ≡ view.old.state.ghost_name }
                ensures reference { reference_in view.new.tables ≡ reference_in view.old.tables }
                ensures steps { HostSteps (ledger_in view.old.tables) (ledger_in view.new.tables) }
                ensures asks { AsksHost H.log n view.old.memory.component.now.types.types ty.now view.old.state.now params.now (outcome result slots.new) view.new.state.now }
                ensures drops { DropsBorrows (outcome result slots.new) params.now (ledger_in view.old.tables) (ledger_in view.new.tables) }
            {
                let types = view.memory.types().types();
                serve_ask(
                    alloc,
                    view.state,
                    &mut view.tables,
                    n,
                    types,
                    ty,
                    params,
                    slots,
                )
            },
        );
        serve_by(&func, &mut self.refusals, alloc, n, cx, storage)
    }

    ghost lawful = { λ plan n. tt {0} };
}
