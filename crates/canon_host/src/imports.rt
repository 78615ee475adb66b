//! The imports of a component.

ghost use Rattle.std.specs.Prelude.{◌≡◌, ◌≤◌, IfSome, List, Option, slice_get, ℕ};
ghost use Rattle.canon_types.specs.Table.{HasFunc};
ghost use Rattle.canon_context.specs.Component.{HasOptions};
ghost use Rattle.canon_context.specs.Core.{component_types};
ghost use Rattle.canon_host.specs.Asked.{HasRoomFor};
ghost use Rattle.canon_host.specs.Forms.{IsLawful};
ghost use Rattle.canon_host.specs.HostSide.{LoggedEntry, Giving};
ghost use Rattle.canon_host.specs.Imports.{ServesImport};

use crate::{HostCx, HostError};
use canon_memory::{Guest, ValRaw};
use std::alloc::Global;

/// The functions that a component imports, over data of the type `T` and a guest of the type `G`.
pub trait Imports<T, G: Guest> {
    /// Plain data that no call changes.
    type Plan;

    /// They may be called, and keep what they must.
    ghost ready: { Self → Type 0 };

    ghost plan: { Self → Self.Plan };

    /// The asks that were served, where they are logged.
    ghost log: { Self → Option (List LoggedEntry) };

    /// How many asks were refused for no fault.
    ghost refusals: { Self → ℕ };

    /// By this plan the import of a number has this form, which says what its function may answer, whether a log is exposed or not. And
    /// by this plan and the log so far, the function of an import over values may answer so: for the data of the store and these
    /// parameters with these results, also where they aren't of their types, or with why there are none, leaving this data. Functions
    /// over Rust types expose no log.
    ghost gives: { Self.Plan → Giving T };

    /// Serves one ask of the import of this number.
    fn serve(
        &mut self,
        alloc: Global,
        n: u32,
        cx: HostCx<'_, T, G>,
        storage: &mut [ValRaw],
    ) -> Result<(), HostError>
        requires ready { ready self.old }
        requires func { HasFunc (component_types cx.core.now) cx.ty }
        requires options { HasOptions cx.core.now.component cx.options }
        requires room { HasRoomFor (component_types cx.core.now) cx.ty storage.old }
        ensures still_ready { ready self.new }
        ensures plan { plan self.new ≡ plan self.old }
        ensures refusals { refusals self.old ≤ refusals self.new }
        ensures serves { IfSome (slice_get (component_types cx.entry.core.now).funcs cx.entry.ty)
            (λ t. ServesImport (gives (plan self.old)) (log self.old) n G.seen G.moves
            (record { ty = cx.entry.ty; func = t; options = cx.entry.options }) (log self.new) (refusals self.old) (refusals self.new)
            cx.entry.core.now storage.old result cx.exit.0.now storage.new) }
        ensures same { cx.exit.0.now ≡ record cx.entry.core.now { state = cx.exit.0.now.state; guest = cx.exit.0.now.guest; memory = cx.exit.0.now.memory; ledger = cx.exit.0.now.ledger } };

    // those over Rust types keep the laws of the traits `ComponentType`, `Lift` and `Lower`
    ghost lawful: { (p : Self.Plan) (n : ℕ) → IsLawful ((gives p).form n) };
}
