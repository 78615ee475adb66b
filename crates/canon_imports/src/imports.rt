//! Imports that give the answers of a script.

ghost use Rattle.std.specs.Prelude.{◌≡◌, [], IfSome, List, Some, slice_get, ℕ};
ghost use Rattle.canon_types.specs.Table.{HasFunc};
ghost use Rattle.canon_context.specs.Component.{HasOptions};
ghost use Rattle.canon_context.specs.Core.{component_types};
ghost use Rattle.canon_host.specs.Asked.{HasRoomFor};
ghost use Rattle.canon_context.specs.Host.{Keeps};
ghost use Rattle.canon_host.specs.Forms.{AnyValues, outcome};
ghost use Rattle.canon_host.specs.HostSide.{LoggedEntry};
ghost use Rattle.canon_host.specs.Imports.{GivesOnly, ServesWith};
ghost use Rattle.canon_host.specs.Serves.{AnswersInRow};
ghost use Rattle.canon_script.specs.Imports.{HostAnswer, answers_view};
ghost use Rattle.canon_imports.specs.Imports.{GivesAnswer, GivesAnswers, IsAnsweredBy, answer_next, answer_told, entries_of, times};

use canon_host::{
    DynamicHostFn, HostCx, HostError, HostFunc, HostStop, HostView, Imports, param_count,
};
use canon_memory::{Guest, ValRaw};
use canon_script::copies_of;
use canon_types::TypeFunc;
use canon_value::{Fault, Val};
use std::alloc::Global;

/// An ask that was served: the number of its import, how many parameters it had, and these and then its results.
#[derive(Drop)]
pub struct Line {
    /// The number of the import.
    pub index: u32,
    /// How many of the values are parameters.
    pub given: usize,
    /// The parameters, and then the results.
    pub values: Vec<Val>,
}

/// Functions of the host that give the answers of a script. To the ask after its last served one an import gives its answer of that
/// place, and refuses where a refusal stands there, or nothing.
#[derive(Drop)]
pub struct ScriptedImports {
    answers: Vec<Vec<Option<Vec<Val>>>>,
    lines: Vec<Line>,
    refusals: u64,
}

impl ScriptedImports {
    /// Imports that served nothing, with the answers of each.
    pub fn new(alloc: Global, answers: Vec<Vec<Option<Vec<Val>>>>) -> Self
        ensures answers { result.answers ≡ answers }
        ensures lines { result.lines.items ≡ [] }
        ensures refusals { result.refusals ≡ 0 }
    {
        ScriptedImports {
            answers,
            lines: Vec::new(alloc),
            refusals: 0,
        }
    }

    /// The asks that were served.
    pub fn lines(&self) -> &[Line]
        ensures { result.now ≡ self.now.lines.items }
    {
        &self.lines
    }

    /// How many asks were refused for no fault.
    pub fn refusals(&self) -> u64
        ensures { result ≡ self.now.refusals }
    {
        self.refusals
    }

    /// What this import gives next: none where it refuses.
    fn next(&self, n: u32) -> Option<&[Val]>
        ensures { answer_told result ≡ answer_next (answers_view self.now.answers.items) (entries_of self.now.lines.items) n }
    {
        let given = self.answers.get(n as usize)?;
        given.get(times(&self.lines, n))?.as_deref()
    }
}

/// How many of these asks were of this import.
fn times(lines: &[Line], n: u32) -> usize
    ensures { result ≡ times n (entries_of lines.now) }
{
    let mut count = 0;
    for line in lines {
        if line.index == n {
            count += 1;
        }
    }
    count
}

/// Writes copies of an answer's values into slots. An answer of a script has as many; of another nothing is written, as if memory ran out.
fn give(alloc: Global, answer: Option<&[Val]>, slots: &mut [Val]) -> Result<(), HostStop>
    ensures { IsAnsweredBy (answer_told answer.entry) (outcome result slots.new) }
{
    let Some(values) = answer else {
        return Err(HostStop::Refused);
    };
    let Ok(mut copies) = copies_of(alloc, values) else {
        return Err(HostStop::OutOfMemory);
    };
    if copies.len() != slots.len() {
        return Err(HostStop::OutOfMemory);
    }
    slots.swap_with_slice(&mut copies);
    Ok(())
}

/// Serves one ask by a function that gives this answer.
fn answer_with<
    T,
    G: Guest,
    F: Fn(&mut HostView<'_, '_, T>, &TypeFunc, &[Val], &mut [Val]) -> Result<(), HostStop>,
>(
    func: &HostFunc<DynamicHostFn<F>>,
    answer: Option<&[Val]>,
    alloc: Global,
    cx: HostCx<'_, T, G>,
    storage: &mut [ValRaw],
) -> Result<Vec<Val>, HostError>
    requires keeps { Keeps F.Fn func.now }
    requires gives { GivesOnly F.Fn func.now (GivesAnswer (answer_told answer)) }
    requires func { HasFunc (component_types cx.core.now) cx.ty }
    requires options { HasOptions cx.core.now.component cx.options }
    requires room { HasRoomFor (component_types cx.core.now) cx.ty storage.old }
    ensures serves { (answers : List (List HostAnswer)) (log : List LoggedEntry) (n : ℕ) → answer_told answer.entry ≡ answer_next answers log n
        → IfSome (slice_get (component_types cx.entry.core.now).funcs cx.entry.ty)
        (λ t. AnswersInRow (λ told. ServesWith (GivesAnswers answers) (Some log) n G.seen G.moves (record { ty = cx.entry.ty; func = t; options = cx.entry.options }) AnyValues cx.entry.core.now storage.old told cx.exit.0.now storage.new) result) }
    ensures same { cx.exit.0.now ≡ record cx.entry.core.now { state = cx.exit.0.now.state; guest = cx.exit.0.now.guest; memory = cx.exit.0.now.memory; ledger = cx.exit.0.now.ledger } }
{
    func.entrypoint(alloc, cx, storage)
}

/// Serves one ask with this answer.
fn answer_by<T, G: Guest>(
    answer: Option<&[Val]>,
    alloc: Global,
    cx: HostCx<'_, T, G>,
    storage: &mut [ValRaw],
) -> Result<Vec<Val>, HostError>
    requires func { HasFunc (component_types cx.core.now) cx.ty }
    requires options { HasOptions cx.core.now.component cx.options }
    requires room { HasRoomFor (component_types cx.core.now) cx.ty storage.old }
    ensures serves { (answers : List (List HostAnswer)) (log : List LoggedEntry) (n : ℕ) → answer_told answer.entry ≡ answer_next answers log n
        → IfSome (slice_get (component_types cx.entry.core.now).funcs cx.entry.ty)
        (λ t. AnswersInRow (λ told. ServesWith (GivesAnswers answers) (Some log) n G.seen G.moves (record { ty = cx.entry.ty; func = t; options = cx.entry.options }) AnyValues cx.entry.core.now storage.old told cx.exit.0.now storage.new) result) }
    ensures same { cx.exit.0.now ≡ record cx.entry.core.now { state = cx.exit.0.now.state; guest = cx.exit.0.now.guest; memory = cx.exit.0.now.memory; ledger = cx.exit.0.now.ledger } }
{
    let func = HostFunc::func_new(move |_view: &mut HostView<
        '_,
        '_,
        T,
    >, _ty: &TypeFunc, _params: &[Val], slots: &mut [Val]| -> Result<(), HostStop> {
        give(alloc, answer, slots)
    });
    answer_with(&func, answer, alloc, cx, storage)
}

impl<T, G: Guest> Imports<T, G> for ScriptedImports {
    ghost use Rattle.std.specs.Prelude.{◌≡◌, ◌≤◌, IfSome, Some, slice_get};
    ghost use Rattle.canon_types.specs.Table.{HasFunc};
    ghost use Rattle.canon_context.specs.Component.{HasOptions};
    ghost use Rattle.canon_context.specs.Core.{component_types};
    ghost use Rattle.canon_host.specs.Asked.{HasRoomFor};
    ghost use Rattle.canon_host.specs.Imports.{ServesImport};
    ghost use Rattle.canon_script.specs.Imports.{answers_view};
    ghost use Rattle.canon_imports.specs.Imports.{GivesAnswers, entries_of};

    type Plan = Vec<Vec<Option<Vec<Val>>>>;

    ghost ready = { λ s. Unit {0} };

    ghost plan = { λ s. s.answers };

    ghost log = { λ s. Some (entries_of s.lines.items) };

    ghost refusals = { λ s. s.refusals };

    ghost gives = { λ plan. GivesAnswers (answers_view plan.items) };

    fn serve(
        &mut self,
        alloc: Global,
        n: u32,
        cx: HostCx<'_, T, G>,
        storage: &mut [ValRaw],
    ) -> Result<(), HostError>
        requires ready { Unit {0} }
        requires func { HasFunc (component_types cx.core.now) cx.ty }
        requires options { HasOptions cx.core.now.component cx.options }
        requires room { HasRoomFor (component_types cx.core.now) cx.ty storage.old }
        ensures still_ready { Unit {0} }
        ensures plan { self.new.answers ≡ self.old.answers }
        ensures refusals { self.old.refusals ≤ self.new.refusals }
        ensures serves { IfSome (slice_get (component_types cx.entry.core.now).funcs cx.entry.ty)
            (λ t. ServesImport (GivesAnswers (answers_view self.old.answers.items)) (Some (entries_of self.old.lines.items)) n G.seen G.moves
            (record { ty = cx.entry.ty; func = t; options = cx.entry.options }) (Some (entries_of self.new.lines.items)) self.old.refusals
            self.new.refusals cx.entry.core.now storage.old result cx.exit.0.now storage.new) }
        ensures same { cx.exit.0.now ≡ record cx.entry.core.now { state = cx.exit.0.now.state; guest = cx.exit.0.now.guest; memory = cx.exit.0.now.memory; ledger = cx.exit.0.now.ledger } }
    {
        if self.lines.reserve(1).is_err() {
            return Err(HostError::Fault(Fault::OutOfMemory));
        }
        let HostCx { core, ty, options } = cx;
        let given = param_count(core.component().types.types(), ty);
        let cx = HostCx { core, ty, options };
        let values = match answer_by(self.next(n), alloc, cx, storage) {
            Ok(values) => values,
            Err(HostError::Refused) => {
                self.refusals = self.refusals.saturating_add(1);
                return Err(HostError::Refused);
            }
            Err(HostError::Fault(fault)) => return Err(HostError::Fault(fault)),
        };
        let line = Line {
            index: n,
            given,
            values,
        };
        self.lines.push_reserved(line);
        Ok(())
    }

    ghost lawful = { λ plan n. tt {0} };
}
