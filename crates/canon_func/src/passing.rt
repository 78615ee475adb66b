//! Parameters that are passed to a call, and results that it returns, whatever they are: dynamic values or a Rust tuple.

ghost use Rattle.std.specs.Prelude.{◌≡◌, IfOk, Result, ℕ, length};
ghost use Rattle.canon_context.specs.Asks.{SameButHandles};
ghost use Rattle.canon_context.specs.Component.{IsInside};
ghost use Rattle.canon_context.specs.Core.{SameButLedger, guest_of, moment_of};
ghost use Rattle.canon_context.specs.declared.component.Component as component;
ghost use Rattle.canon_context.specs.declared.component.Export as exports;
ghost use Rattle.canon_func.specs.Call.{Adding, OnAnswered, result_words};
ghost use Rattle.canon_func.specs.Passed.{BlamesRightly, ReadsRightly};
ghost use Rattle.canon_func.specs.Passing.{Arguments, ReturnedValues};
ghost use Rattle.canon_func.specs.Steps.{Lifted, LoweredArgs, map_ok};
ghost use Rattle.canon_func.specs.Stores.{Callee, export_callee};

use crate::Error;
use canon_memory::{Guest, ValRaw};
use canon_value::{Core, Export, Fault};
use std::alloc::Global;

/// Parameters that are lowered into the words of a call.
pub(crate) trait Params {
    // what is said of them
    ghost args: { Self → Callee → Arguments };

    // they may be passed to an export of a component
    ghost fit: { Self → component.Component → exports.Export → Type 0 };

    /// Lowers them into words: in a row, or one that points to their block.
    fn lower<T, G: Guest>(
        &mut self,
        alloc: Global,
        core: &mut Core<T, G>,
        export: &Export,
    ) -> Result<Vec<ValRaw>, Error>
        requires inside { IsInside core.old.component export.now }
        requires fit { fit self.old core.old.component export.now }
        ensures lowered { Adding (moment_of G.seen core.old) (moment_of G.seen core.new)
            (λ events. OnAnswered result (G.moves (guest_of core.old) events (guest_of core.new)))
            (λ events. LoweredArgs (args self.old (export_callee core.old.component export.now)) (export_callee core.old.component export.now) (moment_of G.seen core.old) (moment_of G.seen core.new) core.old.ledger core.new.ledger result events) }
        ensures same { SameButHandles core.old core.new };

    ghost blames: { (params : Self) (callee : Callee) → BlamesRightly (args params callee) };
}

/// Results that are lifted from the words that a call returned.
pub(crate) trait Results: Drop {
    // what they are told as
    ghost Out: { Type 0 };

    ghost out: { Self → Out };

    // what is said of them, by the callee, the number of its options and that of its store
    ghost returns: { Callee → ℕ → ℕ → ReturnedValues Out };

    // an export of a component may return them
    ghost fit: { component.Component → exports.Export → Type 0 };

    // what else holds of those that were lifted
    ghost counted: { Callee → Self → Type 0 };

    /// Lifts them from the words that the guest returned, which are as many as the results take. The core's fuel bounds their cost.
    fn lift<T, G: Guest>(
        alloc: Global,
        core: &mut Core<T, G>,
        export: &Export,
        words: &[ValRaw],
    ) -> Result<Self, Fault>
    where
        Self: Sized,
        requires inside { IsInside core.old.component export.now }
        requires fit { fit core.old.component export.now }
        requires words { length words.now ≡ result_words (export_callee core.old.component export.now).results }
        ensures lifted { Lifted (returns (export_callee core.old.component export.now) export.now.options core.old.id) core.old.fuel words.now core.old.memory core.old.ledger core.new.ledger (map_ok out result) }
        ensures counted { IfOk result (counted (export_callee core.old.component export.now)) }
        ensures same { SameButLedger core.old core.new };

    ghost law: { (callee : Callee) (options store : ℕ) → ReadsRightly callee (returns callee options store) };
}
