//! The imports of a component without functions of the host.

ghost use Rattle.std.specs.Prelude.{◌≡◌, ◌≢◌, [], Err, IfSome, None, Ok, Some, slice_get, ℕ};
ghost use Rattle.canon_types.specs.Table.{HasFunc};
ghost use Rattle.canon_context.specs.Component.{HasOptions};
ghost use Rattle.canon_context.specs.Core.{component_types};
ghost use Rattle.canon_context.specs.Host.{Keeps};
ghost use Rattle.canon_host.specs.Asked.{HasRoomFor};
ghost use Rattle.canon_host.specs.Forms.{AnyValues};
ghost use Rattle.canon_host.specs.Imports.{GivesOnly, Refuses, RefusesAll, ServesWith};

use crate::{DynamicHostFn, HostCx, HostError, HostFunc, HostStop, HostView, Imports};
use canon_memory::{Guest, ValRaw};
use canon_types::TypeFunc;
use canon_value::Val;
use std::alloc::Global;

/// No functions: each ask for one is refused, and counted.
#[derive(Drop)]
pub struct NoImports {
    refusals: u64,
}

impl NoImports {
    /// No functions, and no ask refused yet.
    pub fn new() -> Self
        ensures { result.refusals ≡ 0 }
    {
        NoImports { refusals: 0 }
    }
}

/// Refuses one ask by a function that refuses all.
fn refuse_by<
    T,
    G: Guest,
    F: Fn(&mut HostView<'_, '_, T>, &TypeFunc, &[Val], &mut [Val]) -> Result<(), HostStop>,
>(
    func: &HostFunc<DynamicHostFn<F>>,
    alloc: Global,
    cx: HostCx<'_, T, G>,
    storage: &mut [ValRaw],
) -> HostError
    requires keeps { Keeps F.Fn func.now }
    requires gives { GivesOnly F.Fn func.now (Refuses [] 0) }
    requires func { HasFunc (component_types cx.core.now) cx.ty }
    requires options { HasOptions cx.core.now.component cx.options }
    requires room { HasRoomFor (component_types cx.core.now) cx.ty storage.old }
    ensures serves { (n : ℕ) → IfSome (slice_get (component_types cx.entry.core.now).funcs cx.entry.ty) (λ t. ServesWith RefusesAll (Some []) n G.seen G.moves (record { ty = cx.entry.ty; func = t; options = cx.entry.options }) AnyValues cx.entry.core.now storage.old (Err result) cx.exit.0.now storage.new) }
    ensures same { cx.exit.0.now ≡ record cx.entry.core.now { state = cx.exit.0.now.state; guest = cx.exit.0.now.guest; memory = cx.exit.0.now.memory; ledger = cx.exit.0.now.ledger } }
{
    let Err(error) = func.entrypoint(alloc, cx, storage) else {
        return HostError::Refused;
    };
    error
}

/// Refuses one ask.
fn refuse<T, G: Guest>(alloc: Global, cx: HostCx<'_, T, G>, storage: &mut [ValRaw]) -> HostError
    requires func { HasFunc (component_types cx.core.now) cx.ty }
    requires options { HasOptions cx.core.now.component cx.options }
    requires room { HasRoomFor (component_types cx.core.now) cx.ty storage.old }
    ensures serves { (n : ℕ) → IfSome (slice_get (component_types cx.entry.core.now).funcs cx.entry.ty) (λ t. ServesWith RefusesAll (Some []) n G.seen G.moves (record { ty = cx.entry.ty; func = t; options = cx.entry.options }) AnyValues cx.entry.core.now storage.old (Err result) cx.exit.0.now storage.new) }
    ensures same { cx.exit.0.now ≡ record cx.entry.core.now { state = cx.exit.0.now.state; guest = cx.exit.0.now.guest; memory = cx.exit.0.now.memory; ledger = cx.exit.0.now.ledger } }
{
    let func = HostFunc::func_new(|_view: &mut HostView<
        '_,
        '_,
        T,
    >, _ty: &TypeFunc, _params: &[Val], _slots: &mut [Val]| -> Result<(), HostStop> {
        Err(HostStop::Refused)
    });
    refuse_by(&func, alloc, cx, storage)
}

impl<T, G: Guest> Imports<T, G> for NoImports {
    ghost use Rattle.std.specs.Prelude.{◌≡◌, ◌≤◌, IfSome, Some, [], slice_get};
    ghost use Rattle.canon_types.specs.Table.{HasFunc};
    ghost use Rattle.canon_context.specs.Component.{HasOptions};
    ghost use Rattle.canon_context.specs.Core.{component_types};
    ghost use Rattle.canon_host.specs.Asked.{HasRoomFor};
    ghost use Rattle.canon_host.specs.Imports.{RefusesAll, ServesImport};

    type Plan = ();

    ghost ready = { λ s. Unit {0} };

    ghost plan = { λ s. tt {0} };

    ghost log = { λ s. Some [] };

    ghost refusals = { λ s. s.refusals };

    ghost gives = { λ plan. RefusesAll };

    fn serve(
        &mut self,
        alloc: Global,
        n: u32,
        cx: HostCx<'_, T, G>,
        storage: &mut [ValRaw],
    ) -> Result<(), HostError>
        requires ready { Unit {0} }
        requires func { HasFunc (component_types cx.core.now) cx.ty }
        requires options { HasOptions cx.core.now.component cx.options }
        requires room { HasRoomFor (component_types cx.core.now) cx.ty storage.old }
        ensures still_ready { Unit {0} }
        ensures plan { tt {0} ≡ tt {0} }
        ensures refusals { self.old.refusals ≤ self.new.refusals }
        ensures serves { IfSome (slice_get (component_types cx.entry.core.now).funcs cx.entry.ty)
            (λ t. ServesImport RefusesAll (Some []) n G.seen G.moves (record { ty = cx.entry.ty; func = t; options = cx.entry.options }) (Some [])
            self.old.refusals self.new.refusals cx.entry.core.now storage.old result cx.exit.0.now storage.new) }
        ensures same { cx.exit.0.now ≡ record cx.entry.core.now { state = cx.exit.0.now.state; guest = cx.exit.0.now.guest; memory = cx.exit.0.now.memory; ledger = cx.exit.0.now.ledger } }
    {
        match refuse(alloc, cx, storage) {
            HostError::Refused => {
                self.refusals = self.refusals.saturating_add(1);
                Err(HostError::Refused)
            }
            HostError::Fault(fault) => Err(HostError::Fault(fault)),
        }
    }

    ghost lawful = { λ plan n. tt {0} };
}
