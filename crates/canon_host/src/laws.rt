//! Laws of the definitions.

ghost use Rattle.std.specs.Prelude.{IsTrue};
ghost use Rattle.canon_host.specs.TypedAsks.{AnswersAreGiven, AskedIsEnough, OnlyAsked, RefusedIsPartway, ServedIsAnswered, ServedIsThrough};

use crate::{HostFunc, HostStop, HostView, StaticHostFn};
use canon_lift::Lift;
use canon_lower::Lower;
use canon_memory::Guest;
use canon_typed::ComponentNamedList;

/// The parameters of an ask whose Rust type has trees mean trees that its words and memory represent, at a cost within the fuel, and
/// the ledger accepted their handles. And where words and memory represent such trees, their parameters are lifted, or memory runs out.
pub fn typed_asks_are_exact<T, G, P: ComponentNamedList + Lift>()
    ensures only { IsTrue P.is_told → OnlyAsked T G P.fits P.reading P.lifts P.cost }
    ensures enough { IsTrue P.is_told → AskedIsEnough T G P.fits P.reading P.lifts P.cost }
{}

/// The ledger of an ask that a function over Rust types served goes through the steps that its parameters and its results determine, and
/// through no other but those that the function takes itself; that of a refused ask goes through them up to some step.
pub fn typed_ask_is_steps<
    T,
    G: Guest,
    P: ComponentNamedList + Lift,
    R: ComponentNamedList + Lower,
    F: Fn(&mut HostView<'_, '_, T>, P) -> Result<R, HostStop>,
>(_func: &HostFunc<StaticHostFn<F, P, R>>)
    ensures whole { ServedIsThrough F.Fn _func.now P.reading R.walks R.gives G.seen G.moves }
    ensures part { RefusedIsPartway F.Fn _func.now P.reading R.walks R.gives G.seen G.moves }
{}

/// An ask that a function over Rust types served is answered with what the function gave, as a tree that it walks: `realloc` got all of the
/// tree's requests, and the handles are those that the ledger gave, each as a handle of its type is given. As far as the answers of `realloc` kept its law, the words in a row, or
/// memory where the pointer says, represent the tree, as a lowering writes it.
pub fn typed_answers_are_represented<
    T,
    G: Guest,
    P: ComponentNamedList + Lift,
    R: ComponentNamedList + Lower,
    F: Fn(&mut HostView<'_, '_, T>, P) -> Result<R, HostStop>,
>(_func: &HostFunc<StaticHostFn<F, P, R>>)
    ensures answered { ServedIsAnswered F.Fn _func.now P.reading R.walks R.gives G.seen G.moves }
    ensures given { AnswersAreGiven T G R.fits R.walks R.gives }
{}
