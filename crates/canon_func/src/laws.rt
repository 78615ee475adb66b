//! Laws of the definitions.

ghost use Rattle.std.specs.Prelude.{IsTrue, List, ℕ};
ghost use Rattle.canon_func.specs.Alike.{AsksAlike, StartsAlike};
ghost use Rattle.canon_func.specs.AskExactly.{IsExact};
ghost use Rattle.canon_func.specs.Laws.{CallIsThrough, OnlyRepresented, ParamsAreGiven, RefusedAskStands, RefusedTurnIsPartway, RepresentedIsEnough, TypedIsPartway, TypedIsThrough};
ghost use Rattle.canon_func.specs.Call.{dynamic};
ghost use Rattle.canon_func.specs.Letting.{LetsGoSeldom};
ghost use Rattle.canon_func.specs.Stores.{Callee};
ghost use Rattle.canon_func.specs.Typed.{params_shape, typed_args};
ghost use Rattle.canon_val.specs.declared.val.Val.{Val};

use crate::Store;
use canon_host::Imports;
use canon_lift::Lift;
use canon_lower::Lower;
use canon_memory::Guest;
use canon_typed::ComponentNamedList;

/// The ledger of a call that is Ok goes through the steps that its parameters, its asks and its results determine, and through no other; that of
/// a refused call goes through them up to some step. What a function of the host does to the ledger itself stands between the steps of its
/// ask. This is so whatever the imports give.
pub fn call_is_steps<T, G: Guest, I: Imports<T, G>>(_imports: &I)
    ensures whole { CallIsThrough (I.gives (I.plan _imports.now)) }
    ensures part { RefusedTurnIsPartway (I.gives (I.plan _imports.now)) }
{}

/// The same of a typed call; and the handles of its parameters are given as those of the trees that they walk.
pub fn typed_call_is_steps<
    T,
    G: Guest,
    I: Imports<T, G>,
    P: ComponentNamedList + Lower,
    R: ComponentNamedList + Lift,
>(_imports: &I)
    ensures whole { TypedIsThrough (I.gives (I.plan _imports.now)) P.walks P.gives R.reading }
    ensures part { TypedIsPartway (I.gives (I.plan _imports.now)) P.walks P.gives R.reading }
    ensures given { ParamsAreGiven P.fits P.walks P.gives }
{}

/// An ask that a function over Rust types serves has parameters that mean trees which its words and memory represent, at a cost within the
/// fuel and with these trees' handles, where their type has trees; and words that represent such trees are lifted, or memory runs out. Of any
/// type, parameters that were lifted have no fault; and its results mean the trees that they walk, whose handles they give.
pub fn asks_are_exact<T, G: Guest, I: Imports<T, G>>(_imports: &I)
    ensures { (n : ℕ) → IsExact ((I.gives (I.plan _imports.now)).form n) }
{}

/// After a call that was refused at an ask, but for out of memory, and in which no count of the guest's faults rose, memory is as at that ask
/// outside the place to which the ask points for its results: outside the answered blocks if the answers changed nothing else, and in the
/// blocks that lived if they kept the law of `realloc`.
pub fn refused_asks_keep_memory<T, G: Guest, I: Imports<T, G>>(_imports: &I)
    ensures { RefusedAskStands (I.gives (I.plan _imports.now)) }
{}

/// The results of a typed call whose type has trees mean trees that the returned words and memory represent, at exactly their cost, and
/// their handles do what lifting these trees' handles does. And of any type, words that represent trees of a cost within the fuel are results
/// with which a valid call answers.
pub fn typed_results_are_exact<R: ComponentNamedList + Lift>()
    ensures only { IsTrue R.is_told → OnlyRepresented R.fits R.reading R.cost R.lifts }
    ensures enough { RepresentedIsEnough R.fits R.reading R.cost }
{}

/// Two starts that name the same trees have the same words and the same stored fields, where `realloc` gives both the same answers and keeps its
/// law, whatever `Val`s were passed: trees and answers leave no word open. And two that met the same requests and were answered the same made
/// the same ones, also the one that trapped.
pub fn starts_are_alike()
    ensures dynamic { (callee : Callee) (params others : List Val) → StartsAlike callee (dynamic callee params) (dynamic callee others) }
    ensures asked { AsksAlike }
{}

/// The same of a typed start beside a dynamic one, and of two typed ones.
pub fn typed_starts_are_alike<P: ComponentNamedList + Lower, Q: ComponentNamedList + Lower>()
    ensures dynamic { (callee : Callee) (params : P) (values : List Val) → StartsAlike callee (typed_args (P.walks params) (P.gives callee.types (params_shape callee) params) callee) (dynamic callee values) }
    ensures typed { (callee : Callee) (params : P) (others : Q) → StartsAlike callee (typed_args (P.walks params) (P.gives callee.types (params_shape callee) params) callee)
        (typed_args (Q.walks others) (Q.gives callee.types (params_shape callee) others) callee) }
{}

/// A call, however it ends, starts its guest once at most, and resumes it once for each ask that was served: together at most once more than the
/// store's calls may have asks served.
pub fn calls_let_go_seldom<T, G: Guest, I: Imports<T, G>>(_store: &Store<T, G, I>)
    ensures { LetsGoSeldom G.seen G.moves G.leaves I.plan I.gives I.log I.refusals }
{}
