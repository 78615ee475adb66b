//! Imports that give the recorded answers.

ghost use Rattle.std.specs.Prelude.{◌≡◌, [], IfSome, List, Some, slice_get, ℕ};
ghost use Rattle.canon_types.specs.Table.{HasFunc};
ghost use Rattle.canon_context.specs.Component.{HasOptions};
ghost use Rattle.canon_context.specs.Core.{component_types};
ghost use Rattle.canon_context.specs.Host.{Keeps};
ghost use Rattle.canon_host.specs.Asked.{HasRoomFor};
ghost use Rattle.canon_host.specs.Forms.{AnyValues, outcome};
ghost use Rattle.canon_host.specs.HostSide.{LoggedEntry};
ghost use Rattle.canon_host.specs.Imports.{GivesOnly, ServesWith};
ghost use Rattle.canon_host.specs.Serves.{AnswersInRow};
ghost use Rattle.canon_imports.specs.Imports.{GivesAnswer, IsAnsweredBy, answer_told, entries_of};
ghost use Rattle.canon_recording.specs.Recordings.{ServedAsk, served_asks};
ghost use Rattle.canon_replay.specs.Imports.{GivesNext, recorded_answer};

use canon_host::{
    DynamicHostFn, HostCx, HostError, HostFunc, HostStop, HostView, Imports, param_count,
};
use canon_imports::Line;
use canon_literals::copies_of;
use canon_memory::{Guest, ValRaw};
use canon_recording::Served;
use canon_types::TypeFunc;
use canon_value::{Fault, Val};
use std::alloc::Global;

/// Functions of the host that answer as recorded: to an ask an import gives the results of the recorded ask of that place, if it was
/// one of that import, and else refuses.
#[derive(Drop)]
pub struct ReplayImports {
    asks: Vec<Served>,
    lines: Vec<Line>,
    refusals: u64,
}

impl ReplayImports {
    /// Imports that served nothing, with the recorded asks.
    pub fn new(alloc: Global, asks: Vec<Served>) -> Self
        ensures asks { result.asks ≡ asks }
        ensures lines { result.lines.items ≡ [] }
        ensures refusals { result.refusals ≡ 0 }
    {
        ReplayImports {
            asks,
            lines: Vec::new(alloc),
            refusals: 0,
        }
    }

    /// What this import gives next: none where it refuses.
    fn next(&self, n: u32) -> Option<&[Val]>
        ensures { answer_told result ≡ recorded_answer (served_asks self.now.asks.items) (entries_of self.now.lines.items) n }
    {
        let ask = self.asks.get(self.lines.len())?;
        if ask.import == n {
            Some(ask.results.as_slice())
        } else {
            None
        }
    }
}

/// Writes copies of an answer's values into slots. A recorded answer has as many; of another nothing is written, as if memory ran out.
fn give(alloc: Global, answer: Option<&[Val]>, slots: &mut [Val]) -> Result<(), HostStop>
    ensures { IsAnsweredBy (answer_told answer.entry) (outcome result slots.new) }
{
    let Some(values) = answer else {
        return Err(HostStop::Refused);
    };
    let Ok(mut copies) = copies_of(alloc, values) else {
        return Err(HostStop::OutOfMemory);
    };
    if copies.len() != slots.len() {
        return Err(HostStop::OutOfMemory);
    }
    slots.swap_with_slice(&mut copies);
    Ok(())
}

/// Serves one ask by a function that gives this answer.
fn answer_with<
    T,
    G: Guest,
    F: Fn(&mut HostView<'_, '_, T>, &TypeFunc, &[Val], &mut [Val]) -> Result<(), HostStop>,
>(
    func: &HostFunc<DynamicHostFn<F>>,
    answer: Option<&[Val]>,
    alloc: Global,
    cx: HostCx<'_, T, G>,
    storage: &mut [ValRaw],
) -> Result<Vec<Val>, HostError>
    requires keeps { Keeps F.Fn func.now }
    requires gives { GivesOnly F.Fn func.now (GivesAnswer (answer_told answer)) }
    requires func { HasFunc (component_types cx.core.now) cx.ty }
    requires options { HasOptions cx.core.now.component cx.options }
    requires room { HasRoomFor (component_types cx.core.now) cx.ty storage.old }
    ensures serves { (asks : List ServedAsk) (log : List LoggedEntry) (n : ℕ) → answer_told answer.entry ≡ recorded_answer asks log n
        → IfSome (slice_get (component_types cx.entry.core.now).funcs cx.entry.ty)
        (λ t. AnswersInRow (λ told. ServesWith (GivesNext asks) (Some log) n G.seen G.moves (record { ty = cx.entry.ty; func = t; options = cx.entry.options })
        AnyValues cx.entry.core.now storage.old told cx.exit.0.now storage.new) result) }
    ensures same { cx.exit.0.now ≡ record cx.entry.core.now { state = cx.exit.0.now.state; guest = cx.exit.0.now.guest; memory = cx.exit.0.now.memory; ledger = cx.exit.0.now.ledger } }
{
    func.entrypoint(alloc, cx, storage)
}

/// Serves one ask with this answer.
fn answer_by<T, G: Guest>(
    answer: Option<&[Val]>,
    alloc: Global,
    cx: HostCx<'_, T, G>,
    storage: &mut [ValRaw],
) -> Result<Vec<Val>, HostError>
    requires func { HasFunc (component_types cx.core.now) cx.ty }
    requires options { HasOptions cx.core.now.component cx.options }
    requires room { HasRoomFor (component_types cx.core.now) cx.ty storage.old }
    ensures serves { (asks : List ServedAsk) (log : List LoggedEntry) (n : ℕ) → answer_told answer.entry ≡ recorded_answer asks log n
        → IfSome (slice_get (component_types cx.entry.core.now).funcs cx.entry.ty)
        (λ t. AnswersInRow (λ told. ServesWith (GivesNext asks) (Some log) n G.seen G.moves (record { ty = cx.entry.ty; func = t; options = cx.entry.options })
        AnyValues cx.entry.core.now storage.old told cx.exit.0.now storage.new) result) }
    ensures same { cx.exit.0.now ≡ record cx.entry.core.now { state = cx.exit.0.now.state; guest = cx.exit.0.now.guest; memory = cx.exit.0.now.memory; ledger = cx.exit.0.now.ledger } }
{
    let func = HostFunc::func_new(move |_view: &mut HostView<
        '_,
        '_,
        T,
    >, _ty: &TypeFunc, _params: &[Val], slots: &mut [Val]| -> Result<(), HostStop> {
        give(alloc, answer, slots)
    });
    answer_with(&func, answer, alloc, cx, storage)
}

impl<T, G: Guest> Imports<T, G> for ReplayImports {
    ghost use Rattle.std.specs.Prelude.{◌≡◌, ◌≤◌, IfSome, Some, slice_get};
    ghost use Rattle.canon_types.specs.Table.{HasFunc};
    ghost use Rattle.canon_context.specs.Component.{HasOptions};
    ghost use Rattle.canon_context.specs.Core.{component_types};
    ghost use Rattle.canon_host.specs.Asked.{HasRoomFor};
    ghost use Rattle.canon_host.specs.Imports.{ServesImport};
    ghost use Rattle.canon_imports.specs.Imports.{entries_of};
    ghost use Rattle.canon_recording.specs.Recordings.{served_asks};
    ghost use Rattle.canon_replay.specs.Imports.{GivesNext};

    type Plan = Vec<Served>;

    ghost ready = { λ s. Unit {0} };

    ghost plan = { λ s. s.asks };

    ghost log = { λ s. Some (entries_of s.lines.items) };

    ghost refusals = { λ s. s.refusals };

    ghost gives = { λ plan. GivesNext (served_asks plan.items) };

    fn serve(
        &mut self,
        alloc: Global,
        n: u32,
        cx: HostCx<'_, T, G>,
        storage: &mut [ValRaw],
    ) -> Result<(), HostError>
        requires ready { Unit {0} }
        requires func { HasFunc (component_types cx.core.now) cx.ty }
        requires options { HasOptions cx.core.now.component cx.options }
        requires room { HasRoomFor (component_types cx.core.now) cx.ty storage.old }
        ensures still_ready { Unit {0} }
        ensures plan { self.new.asks ≡ self.old.asks }
        ensures refusals { self.old.refusals ≤ self.new.refusals }
        ensures serves { IfSome (slice_get (component_types cx.entry.core.now).funcs cx.entry.ty)
            (λ t. ServesImport (GivesNext (served_asks self.old.asks.items)) (Some (entries_of self.old.lines.items)) n G.seen G.moves
            (record { ty = cx.entry.ty; func = t; options = cx.entry.options }) (Some (entries_of self.new.lines.items)) self.old.refusals
            self.new.refusals cx.entry.core.now storage.old result cx.exit.0.now storage.new) }
        ensures same { cx.exit.0.now ≡ record cx.entry.core.now { state = cx.exit.0.now.state; guest = cx.exit.0.now.guest; memory = cx.exit.0.now.memory; ledger = cx.exit.0.now.ledger } }
    {
        if self.lines.reserve(1).is_err() {
            return Err(HostError::Fault(Fault::OutOfMemory));
        }
        let HostCx { core, ty, options } = cx;
        let given = param_count(core.component().types.types(), ty);
        let cx = HostCx { core, ty, options };
        let values = match answer_by(self.next(n), alloc, cx, storage) {
            Ok(values) => values,
            Err(HostError::Refused) => {
                self.refusals = self.refusals.saturating_add(1);
                return Err(HostError::Refused);
            }
            Err(HostError::Fault(fault)) => return Err(HostError::Fault(fault)),
        };
        let line = Line {
            index: n,
            given,
            values,
        };
        self.lines.push_reserved(line);
        Ok(())
    }

    ghost lawful = { λ plan n. tt {0} };
}
