//! An import that a function over values serves.

ghost use Rattle.std.specs.Prelude.{◌≡◌, ◌≤◌, IfSome, None, slice_get};
ghost use Rattle.canon_types.specs.Table.{HasFunc};
ghost use Rattle.canon_context.specs.Component.{HasOptions};
ghost use Rattle.canon_context.specs.Core.{component_types};
ghost use Rattle.canon_context.specs.Host.{Keeps};
ghost use Rattle.canon_host.specs.Asked.{HasRoomFor};
ghost use Rattle.canon_host.specs.Forms.{MayGiveValues};
ghost use Rattle.canon_host.specs.HostSide.{gives_unlogged};
ghost use Rattle.canon_host.specs.Imports.{CountsOnce, ServedBy, ServesImport};

use crate::{DynamicHostFn, HostCx, HostError, HostFunc, HostStop, HostView};
use canon_memory::{Guest, ValRaw};
use canon_types::TypeFunc;
use canon_val::Val;
use std::alloc::Global;

/// Serves one ask of the import of this number by a function over values, and counts a refusal once, up to the greatest count. What it answers is what
/// this very function may give (`MayGiveValues`). The imports expose no log.
pub fn serve_values_import<
    T,
    G: Guest,
    F: Fn(&mut HostView<'_, '_, T>, &TypeFunc, &[Val], &mut [Val]) -> Result<(), HostStop>,
>(
    func: &HostFunc<DynamicHostFn<F>>,
    refusals: &mut u64,
    alloc: Global,
    n: u32,
    cx: HostCx<'_, T, G>,
    storage: &mut [ValRaw],
) -> Result<(), HostError>
    requires ready { Keeps F.Fn func.now }
    requires func { HasFunc (component_types cx.core.now) cx.ty }
    requires options { HasOptions cx.core.now.component cx.options }
    requires room { HasRoomFor (component_types cx.core.now) cx.ty storage.old }
    ensures refusals { refusals.old ≤ refusals.new }
    ensures counts { CountsOnce result refusals.old refusals.new }
    ensures serves { IfSome (slice_get (component_types cx.entry.core.now).funcs cx.entry.ty)
        (λ t. ServesImport (gives_unlogged (MayGiveValues F.Fn func.now)) None n G.seen G.moves (record { ty = cx.entry.ty; func = t; options = cx.entry.options }) None refusals.old
        refusals.new cx.entry.core.now storage.old result cx.exit.0.now storage.new) }
    ensures served { IfSome (slice_get (component_types cx.entry.core.now).funcs cx.entry.ty)
        (λ t. ServedBy F.Fn func.now G.seen G.moves (record { ty = cx.entry.ty; func = t; options = cx.entry.options }) cx.entry.core.now storage.old result cx.exit.0.now storage.new) }
    ensures same { cx.exit.0.now ≡ record cx.entry.core.now { state = cx.exit.0.now.state; guest = cx.exit.0.now.guest; memory = cx.exit.0.now.memory; ledger = cx.exit.0.now.ledger } }
{
    match func.entrypoint(alloc, cx, storage) {
        Ok(_values) => Ok(()),
        Err(HostError::Refused) => {
            *refusals = refusals.saturating_add(1);
            Err(HostError::Refused)
        }
        Err(HostError::Fault(fault)) => Err(HostError::Fault(fault)),
    }
}
