//! Tuples of up to six members.

ghost use Rattle.std.specs.Prelude.{◌&&◌, ◌∷◌, []};
ghost use Rattle.canon_reading.specs.Apart.{end_apart, more_apart, product_apart};
ghost use Rattle.canon_lift.specs.Firsts.{FirstHave, NoneHave, first_and, first_in, no_more, rest_in};
ghost use Rattle.canon_reading.specs.OfTrees.{left_true, right_true};
ghost use Rattle.canon_reading.specs.Readings.{first_reading, none_reading, product_reading};
ghost use Rattle.canon_reading.specs.RowsOfTrees.{end_faulted, end_priced, end_told, more_faulted, more_priced, more_told, tuple_faulted, tuple_priced, tuple_told};
ghost use Rattle.canon_reading.specs.Scopes.{end_kept, more_kept, tuple_kept};
ghost use Rattle.canon_reading.specs.Taken.{end_taken, more_taken, product_taken};

use crate::Lift;
use crate::members::{First, OfMembers, lift_tuple, lift_tuple_words};
use canon_context::{Fault, LiftContext};
use canon_memory::ValRaw;
use canon_types::InterfaceType;
use std::alloc::Global;

impl OfMembers for () {
    type Members = ();

    ghost members = { λ p. no_more };

    fn of_members(_parts: ()) -> () {
        ()
    }
}

impl Lift for () {
    ghost reading = { product_reading (λ p. no_more) none_reading };

    ghost kept = { tuple_kept (λ p. no_more) end_kept };

    fn unit_value() -> Option<()> {
        Some(())
    }

    fn linear_lift_from_memory<U, G>(
        alloc: Global,
        cx: &mut LiftContext<'_, U, G>,
        ty: InterfaceType,
        at: u64,
    ) -> Result<(), Fault> {
        lift_tuple(alloc, cx, ty, at)
    }

    fn lift_words<U, G>(
        alloc: Global,
        cx: &mut LiftContext<'_, U, G>,
        ty: InterfaceType,
        src: &[ValRaw],
        at: usize,
    ) -> Result<(), Fault> {
        lift_tuple_words(alloc, cx, ty, src, at)
    }

    ghost taken = { product_taken (λ p. no_more) none_reading end_taken };

    ghost apart = { product_apart (λ p. no_more) end_apart };

    ghost faulted = { tuple_faulted (λ p. no_more) end_faulted };

    ghost priced = { tuple_priced (λ p. no_more) end_priced };

    ghost told = { λ h. tuple_told (λ p. no_more) end_told };
}

impl<A: Lift> OfMembers for (A,) {
    type Members = First<A, ()>;

    ghost members = { λ p. (first_and p.0 no_more) };

    fn of_members(parts: First<A, ()>) -> (A,) {
        let First { first: a, rest: () } = parts;
        (a,)
    }
}

impl<A: Lift> Lift for (A,) {
    ghost reading = { product_reading (λ p. (first_and p.0 no_more)) (first_reading first_in rest_in A.reading none_reading) };

    ghost kept = { tuple_kept (λ p. (first_and p.0 no_more)) (more_kept A.kept end_kept) };

    fn unit_value() -> Option<(A,)> {
        None
    }

    fn linear_lift_from_memory<U, G>(
        alloc: Global,
        cx: &mut LiftContext<'_, U, G>,
        ty: InterfaceType,
        at: u64,
    ) -> Result<(A,), Fault> {
        lift_tuple(alloc, cx, ty, at)
    }

    fn lift_words<U, G>(
        alloc: Global,
        cx: &mut LiftContext<'_, U, G>,
        ty: InterfaceType,
        src: &[ValRaw],
        at: usize,
    ) -> Result<(A,), Fault> {
        lift_tuple_words(alloc, cx, ty, src, at)
    }

    ghost taken = { product_taken (λ p. (first_and p.0 no_more)) (first_reading first_in rest_in A.reading none_reading) (more_taken first_in rest_in
        A.reading none_reading A.taken end_taken) };

    ghost apart = { product_apart (λ p. (first_and p.0 no_more)) (more_apart A.apart end_apart) };

    ghost faulted = { tuple_faulted (λ p. (first_and p.0 no_more)) (more_faulted A.faulted end_faulted) };

    ghost priced = { tuple_priced (λ p. (first_and p.0 no_more)) (more_priced A.priced end_priced) };

    ghost told = { λ h. tuple_told (λ p. (first_and p.0 no_more)) (more_told (A.told h) end_told) };
}

impl<A: Lift, B: Lift> OfMembers for (A, B) {
    type Members = First<A, First<B, ()>>;

    ghost members = { λ p. (first_and p.0 (first_and p.1 no_more)) };

    fn of_members(parts: First<A, First<B, ()>>) -> (A, B) {
        let First {
            first: a,
            rest: First { first: b, rest: () },
        } = parts;
        (a, b)
    }
}

impl<A: Lift, B: Lift> Lift for (A, B) {
    ghost reading = { product_reading (λ p. (first_and p.0 (first_and p.1 no_more))) (first_reading first_in rest_in A.reading (first_reading first_in
        rest_in B.reading none_reading)) };

    ghost kept = { tuple_kept (λ p. (first_and p.0 (first_and p.1 no_more))) (more_kept A.kept (more_kept B.kept end_kept)) };

    fn unit_value() -> Option<(A, B)> {
        None
    }

    fn linear_lift_from_memory<U, G>(
        alloc: Global,
        cx: &mut LiftContext<'_, U, G>,
        ty: InterfaceType,
        at: u64,
    ) -> Result<(A, B), Fault> {
        lift_tuple(alloc, cx, ty, at)
    }

    fn lift_words<U, G>(
        alloc: Global,
        cx: &mut LiftContext<'_, U, G>,
        ty: InterfaceType,
        src: &[ValRaw],
        at: usize,
    ) -> Result<(A, B), Fault> {
        lift_tuple_words(alloc, cx, ty, src, at)
    }

    ghost taken = { product_taken (λ p. (first_and p.0 (first_and p.1 no_more))) (first_reading first_in rest_in A.reading (first_reading first_in
        rest_in B.reading none_reading)) (more_taken first_in rest_in A.reading (first_reading first_in rest_in B.reading none_reading) A.taken
        (more_taken first_in rest_in B.reading none_reading B.taken end_taken)) };

    ghost apart = { product_apart (λ p. (first_and p.0 (first_and p.1 no_more))) (more_apart A.apart (more_apart B.apart end_apart)) };

    ghost faulted = { tuple_faulted (λ p. (first_and p.0 (first_and p.1 no_more))) (more_faulted A.faulted (more_faulted B.faulted end_faulted)) };

    ghost priced = { tuple_priced (λ p. (first_and p.0 (first_and p.1 no_more))) (more_priced A.priced (more_priced B.priced end_priced)) };

    ghost told = { λ h. tuple_told (λ p. (first_and p.0 (first_and p.1 no_more))) (more_told (A.told (left_true A.is_told B.is_told h)) (more_told
        (B.told (right_true A.is_told B.is_told h)) end_told)) };
}

impl<A: Lift, B: Lift, C: Lift> OfMembers for (A, B, C) {
    type Members = First<A, First<B, First<C, ()>>>;

    ghost members = { λ p. (first_and p.0 (first_and p.1 (first_and p.2 no_more))) };

    fn of_members(parts: First<A, First<B, First<C, ()>>>) -> (A, B, C) {
        let First {
            first: a,
            rest: First {
                first: b,
                rest: First { first: c, rest: () },
            },
        } = parts;
        (a, b, c)
    }
}

impl<A: Lift, B: Lift, C: Lift> Lift for (A, B, C) {
    ghost reading = { product_reading (λ p. (first_and p.0 (first_and p.1 (first_and p.2 no_more)))) (first_reading first_in rest_in A.reading
        (first_reading first_in rest_in B.reading (first_reading first_in rest_in C.reading none_reading))) };

    ghost kept = { tuple_kept (λ p. (first_and p.0 (first_and p.1 (first_and p.2 no_more)))) (more_kept A.kept (more_kept B.kept (more_kept C.kept end_kept))) };

    fn unit_value() -> Option<(A, B, C)> {
        None
    }

    fn linear_lift_from_memory<U, G>(
        alloc: Global,
        cx: &mut LiftContext<'_, U, G>,
        ty: InterfaceType,
        at: u64,
    ) -> Result<(A, B, C), Fault> {
        lift_tuple(alloc, cx, ty, at)
    }

    fn lift_words<U, G>(
        alloc: Global,
        cx: &mut LiftContext<'_, U, G>,
        ty: InterfaceType,
        src: &[ValRaw],
        at: usize,
    ) -> Result<(A, B, C), Fault> {
        lift_tuple_words(alloc, cx, ty, src, at)
    }

    ghost taken = { product_taken (λ p. (first_and p.0 (first_and p.1 (first_and p.2 no_more)))) (first_reading first_in rest_in A.reading
        (first_reading first_in rest_in B.reading (first_reading first_in rest_in C.reading none_reading))) (more_taken first_in rest_in A.reading
        (first_reading first_in rest_in B.reading (first_reading first_in rest_in C.reading none_reading)) A.taken (more_taken first_in rest_in
        B.reading (first_reading first_in rest_in C.reading none_reading) B.taken (more_taken first_in rest_in C.reading none_reading C.taken
        end_taken))) };

    ghost apart = { product_apart (λ p. (first_and p.0 (first_and p.1 (first_and p.2 no_more)))) (more_apart A.apart (more_apart B.apart (more_apart
        C.apart end_apart))) };

    ghost faulted = { tuple_faulted (λ p. (first_and p.0 (first_and p.1 (first_and p.2 no_more)))) (more_faulted A.faulted (more_faulted B.faulted
        (more_faulted C.faulted end_faulted))) };

    ghost priced = { tuple_priced (λ p. (first_and p.0 (first_and p.1 (first_and p.2 no_more)))) (more_priced A.priced (more_priced B.priced
        (more_priced C.priced end_priced))) };

    ghost told = { λ h. tuple_told (λ p. (first_and p.0 (first_and p.1 (first_and p.2 no_more)))) (more_told (A.told (left_true A.is_told B.is_told
        (left_true (A.is_told && B.is_told) C.is_told h))) (more_told (B.told (right_true A.is_told B.is_told (left_true (A.is_told && B.is_told)
        C.is_told h))) (more_told (C.told (right_true (A.is_told && B.is_told) C.is_told h)) end_told))) };
}

impl<A: Lift, B: Lift, C: Lift, D: Lift> OfMembers for (A, B, C, D) {
    type Members = First<A, First<B, First<C, First<D, ()>>>>;

    ghost members = { λ p. (first_and p.0 (first_and p.1 (first_and p.2 (first_and p.3 no_more)))) };

    fn of_members(parts: First<A, First<B, First<C, First<D, ()>>>>) -> (A, B, C, D) {
        let First {
            first: a,
            rest: First {
                first: b,
                rest: First {
                    first: c,
                    rest: First { first: d, rest: () },
                },
            },
        } = parts;
        (a, b, c, d)
    }
}

impl<A: Lift, B: Lift, C: Lift, D: Lift> Lift for (A, B, C, D) {
    ghost reading = { product_reading (λ p. (first_and p.0 (first_and p.1 (first_and p.2 (first_and p.3 no_more))))) (first_reading first_in rest_in
        A.reading (first_reading first_in rest_in B.reading (first_reading first_in rest_in C.reading (first_reading first_in rest_in D.reading
        none_reading)))) };

    ghost kept = { tuple_kept (λ p. (first_and p.0 (first_and p.1 (first_and p.2 (first_and p.3 no_more))))) (more_kept A.kept (more_kept B.kept (more_kept C.kept (more_kept D.kept end_kept)))) };

    fn unit_value() -> Option<(A, B, C, D)> {
        None
    }

    fn linear_lift_from_memory<U, G>(
        alloc: Global,
        cx: &mut LiftContext<'_, U, G>,
        ty: InterfaceType,
        at: u64,
    ) -> Result<(A, B, C, D), Fault> {
        lift_tuple(alloc, cx, ty, at)
    }

    fn lift_words<U, G>(
        alloc: Global,
        cx: &mut LiftContext<'_, U, G>,
        ty: InterfaceType,
        src: &[ValRaw],
        at: usize,
    ) -> Result<(A, B, C, D), Fault> {
        lift_tuple_words(alloc, cx, ty, src, at)
    }

    ghost taken = { product_taken (λ p. (first_and p.0 (first_and p.1 (first_and p.2 (first_and p.3 no_more))))) (first_reading first_in rest_in
        A.reading (first_reading first_in rest_in B.reading (first_reading first_in rest_in C.reading (first_reading first_in rest_in D.reading
        none_reading)))) (more_taken first_in rest_in A.reading (first_reading first_in rest_in B.reading (first_reading first_in rest_in C.reading
        (first_reading first_in rest_in D.reading none_reading))) A.taken (more_taken first_in rest_in B.reading (first_reading first_in rest_in
        C.reading (first_reading first_in rest_in D.reading none_reading)) B.taken (more_taken first_in rest_in C.reading (first_reading first_in
        rest_in D.reading none_reading) C.taken (more_taken first_in rest_in D.reading none_reading D.taken end_taken)))) };

    ghost apart = { product_apart (λ p. (first_and p.0 (first_and p.1 (first_and p.2 (first_and p.3 no_more))))) (more_apart A.apart (more_apart
        B.apart (more_apart C.apart (more_apart D.apart end_apart)))) };

    ghost faulted = { tuple_faulted (λ p. (first_and p.0 (first_and p.1 (first_and p.2 (first_and p.3 no_more))))) (more_faulted A.faulted
        (more_faulted B.faulted (more_faulted C.faulted (more_faulted D.faulted end_faulted)))) };

    ghost priced = { tuple_priced (λ p. (first_and p.0 (first_and p.1 (first_and p.2 (first_and p.3 no_more))))) (more_priced A.priced (more_priced
        B.priced (more_priced C.priced (more_priced D.priced end_priced)))) };

    ghost told = { λ h. tuple_told (λ p. (first_and p.0 (first_and p.1 (first_and p.2 (first_and p.3 no_more))))) (more_told (A.told (left_true
        A.is_told B.is_told (left_true (A.is_told && B.is_told) C.is_told (left_true ((A.is_told && B.is_told) && C.is_told) D.is_told h))))
        (more_told (B.told (right_true A.is_told B.is_told (left_true (A.is_told && B.is_told) C.is_told (left_true ((A.is_told && B.is_told) &&
        C.is_told) D.is_told h)))) (more_told (C.told (right_true (A.is_told && B.is_told) C.is_told (left_true ((A.is_told && B.is_told) &&
        C.is_told) D.is_told h))) (more_told (D.told (right_true ((A.is_told && B.is_told) && C.is_told) D.is_told h)) end_told)))) };
}

impl<A: Lift, B: Lift, C: Lift, D: Lift, E: Lift> OfMembers for (A, B, C, D, E) {
    type Members = First<A, First<B, First<C, First<D, First<E, ()>>>>>;

    ghost members = { λ p. (first_and p.0 (first_and p.1 (first_and p.2 (first_and p.3 (first_and p.4 no_more))))) };

    fn of_members(parts: First<A, First<B, First<C, First<D, First<E, ()>>>>>) -> (A, B, C, D, E) {
        let First {
            first: a,
            rest: First {
                first: b,
                rest: First {
                    first: c,
                    rest: First {
                        first: d,
                        rest: First { first: e, rest: () },
                    },
                },
            },
        } = parts;
        (a, b, c, d, e)
    }
}

impl<A: Lift, B: Lift, C: Lift, D: Lift, E: Lift> Lift for (A, B, C, D, E) {
    ghost reading = { product_reading (λ p. (first_and p.0 (first_and p.1 (first_and p.2 (first_and p.3 (first_and p.4 no_more)))))) (first_reading
        first_in rest_in A.reading (first_reading first_in rest_in B.reading (first_reading first_in rest_in C.reading (first_reading first_in rest_in
        D.reading (first_reading first_in rest_in E.reading none_reading))))) };

    ghost kept = { tuple_kept (λ p. (first_and p.0 (first_and p.1 (first_and p.2 (first_and p.3 (first_and p.4 no_more)))))) (more_kept A.kept (more_kept B.kept (more_kept C.kept (more_kept D.kept (more_kept E.kept end_kept))))) };

    fn unit_value() -> Option<(A, B, C, D, E)> {
        None
    }

    fn linear_lift_from_memory<U, G>(
        alloc: Global,
        cx: &mut LiftContext<'_, U, G>,
        ty: InterfaceType,
        at: u64,
    ) -> Result<(A, B, C, D, E), Fault> {
        lift_tuple(alloc, cx, ty, at)
    }

    fn lift_words<U, G>(
        alloc: Global,
        cx: &mut LiftContext<'_, U, G>,
        ty: InterfaceType,
        src: &[ValRaw],
        at: usize,
    ) -> Result<(A, B, C, D, E), Fault> {
        lift_tuple_words(alloc, cx, ty, src, at)
    }

    ghost taken = { product_taken (λ p. (first_and p.0 (first_and p.1 (first_and p.2 (first_and p.3 (first_and p.4 no_more)))))) (first_reading
        first_in rest_in A.reading (first_reading first_in rest_in B.reading (first_reading first_in rest_in C.reading (first_reading first_in rest_in
        D.reading (first_reading first_in rest_in E.reading none_reading))))) (more_taken first_in rest_in A.reading (first_reading first_in rest_in
        B.reading (first_reading first_in rest_in C.reading (first_reading first_in rest_in D.reading (first_reading first_in rest_in E.reading
        none_reading)))) A.taken (more_taken first_in rest_in B.reading (first_reading first_in rest_in C.reading (first_reading first_in rest_in
        D.reading (first_reading first_in rest_in E.reading none_reading))) B.taken (more_taken first_in rest_in C.reading (first_reading first_in
        rest_in D.reading (first_reading first_in rest_in E.reading none_reading)) C.taken (more_taken first_in rest_in D.reading (first_reading
        first_in rest_in E.reading none_reading) D.taken (more_taken first_in rest_in E.reading none_reading E.taken end_taken))))) };

    ghost apart = { product_apart (λ p. (first_and p.0 (first_and p.1 (first_and p.2 (first_and p.3 (first_and p.4 no_more)))))) (more_apart A.apart
        (more_apart B.apart (more_apart C.apart (more_apart D.apart (more_apart E.apart end_apart))))) };

    ghost faulted = { tuple_faulted (λ p. (first_and p.0 (first_and p.1 (first_and p.2 (first_and p.3 (first_and p.4 no_more)))))) (more_faulted
        A.faulted (more_faulted B.faulted (more_faulted C.faulted (more_faulted D.faulted (more_faulted E.faulted end_faulted))))) };

    ghost priced = { tuple_priced (λ p. (first_and p.0 (first_and p.1 (first_and p.2 (first_and p.3 (first_and p.4 no_more)))))) (more_priced A.priced
        (more_priced B.priced (more_priced C.priced (more_priced D.priced (more_priced E.priced end_priced))))) };

    ghost told = { λ h. tuple_told (λ p. (first_and p.0 (first_and p.1 (first_and p.2 (first_and p.3 (first_and p.4 no_more)))))) (more_told (A.told
        (left_true A.is_told B.is_told (left_true (A.is_told && B.is_told) C.is_told (left_true ((A.is_told && B.is_told) && C.is_told) D.is_told
        (left_true (((A.is_told && B.is_told) && C.is_told) && D.is_told) E.is_told h))))) (more_told (B.told (right_true A.is_told B.is_told
        (left_true (A.is_told && B.is_told) C.is_told (left_true ((A.is_told && B.is_told) && C.is_told) D.is_told (left_true (((A.is_told &&
        B.is_told) && C.is_told) && D.is_told) E.is_told h))))) (more_told (C.told (right_true (A.is_told && B.is_told) C.is_told (left_true
        ((A.is_told && B.is_told) && C.is_told) D.is_told (left_true (((A.is_told && B.is_told) && C.is_told) && D.is_told) E.is_told h)))) (more_told
        (D.told (right_true ((A.is_told && B.is_told) && C.is_told) D.is_told (left_true (((A.is_told && B.is_told) && C.is_told) && D.is_told)
        E.is_told h))) (more_told (E.told (right_true (((A.is_told && B.is_told) && C.is_told) && D.is_told) E.is_told h)) end_told))))) };
}

impl<A: Lift, B: Lift, C: Lift, D: Lift, E: Lift, F: Lift> OfMembers for (A, B, C, D, E, F) {
    type Members = First<A, First<B, First<C, First<D, First<E, First<F, ()>>>>>>;

    ghost members = { λ p. (first_and p.0 (first_and p.1 (first_and p.2 (first_and p.3 (first_and p.4 (first_and p.5 no_more)))))) };

    fn of_members(
        parts: First<A, First<B, First<C, First<D, First<E, First<F, ()>>>>>>,
    ) -> (A, B, C, D, E, F) {
        let First {
            first: a,
            rest: First {
                first: b,
                rest: First {
                    first: c,
                    rest: First {
                        first: d,
                        rest: First {
                            first: e,
                            rest: First { first: f, rest: () },
                        },
                    },
                },
            },
        } = parts;
        (a, b, c, d, e, f)
    }
}

impl<A: Lift, B: Lift, C: Lift, D: Lift, E: Lift, F: Lift> Lift for (A, B, C, D, E, F) {
    ghost reading = { product_reading (λ p. (first_and p.0 (first_and p.1 (first_and p.2 (first_and p.3 (first_and p.4 (first_and p.5 no_more)))))))
        (first_reading first_in rest_in A.reading (first_reading first_in rest_in B.reading (first_reading first_in rest_in C.reading (first_reading
        first_in rest_in D.reading (first_reading first_in rest_in E.reading (first_reading first_in rest_in F.reading none_reading)))))) };

    ghost kept = { tuple_kept (λ p. (first_and p.0 (first_and p.1 (first_and p.2 (first_and p.3 (first_and p.4 (first_and p.5 no_more))))))) (more_kept A.kept (more_kept B.kept (more_kept C.kept (more_kept D.kept (more_kept E.kept (more_kept F.kept end_kept)))))) };

    fn unit_value() -> Option<(A, B, C, D, E, F)> {
        None
    }

    fn linear_lift_from_memory<U, G>(
        alloc: Global,
        cx: &mut LiftContext<'_, U, G>,
        ty: InterfaceType,
        at: u64,
    ) -> Result<(A, B, C, D, E, F), Fault> {
        lift_tuple(alloc, cx, ty, at)
    }

    fn lift_words<U, G>(
        alloc: Global,
        cx: &mut LiftContext<'_, U, G>,
        ty: InterfaceType,
        src: &[ValRaw],
        at: usize,
    ) -> Result<(A, B, C, D, E, F), Fault> {
        lift_tuple_words(alloc, cx, ty, src, at)
    }

    ghost taken = { product_taken (λ p. (first_and p.0 (first_and p.1 (first_and p.2 (first_and p.3 (first_and p.4 (first_and p.5 no_more)))))))
        (first_reading first_in rest_in A.reading (first_reading first_in rest_in B.reading (first_reading first_in rest_in C.reading (first_reading
        first_in rest_in D.reading (first_reading first_in rest_in E.reading (first_reading first_in rest_in F.reading none_reading)))))) (more_taken
        first_in rest_in A.reading (first_reading first_in rest_in B.reading (first_reading first_in rest_in C.reading (first_reading first_in rest_in
        D.reading (first_reading first_in rest_in E.reading (first_reading first_in rest_in F.reading none_reading))))) A.taken (more_taken first_in
        rest_in B.reading (first_reading first_in rest_in C.reading (first_reading first_in rest_in D.reading (first_reading first_in rest_in
        E.reading (first_reading first_in rest_in F.reading none_reading)))) B.taken (more_taken first_in rest_in C.reading (first_reading first_in
        rest_in D.reading (first_reading first_in rest_in E.reading (first_reading first_in rest_in F.reading none_reading))) C.taken (more_taken
        first_in rest_in D.reading (first_reading first_in rest_in E.reading (first_reading first_in rest_in F.reading none_reading)) D.taken
        (more_taken first_in rest_in E.reading (first_reading first_in rest_in F.reading none_reading) E.taken (more_taken first_in rest_in F.reading
        none_reading F.taken end_taken)))))) };

    ghost apart = { product_apart (λ p. (first_and p.0 (first_and p.1 (first_and p.2 (first_and p.3 (first_and p.4 (first_and p.5 no_more)))))))
        (more_apart A.apart (more_apart B.apart (more_apart C.apart (more_apart D.apart (more_apart E.apart (more_apart F.apart end_apart)))))) };

    ghost faulted = { tuple_faulted (λ p. (first_and p.0 (first_and p.1 (first_and p.2 (first_and p.3 (first_and p.4 (first_and p.5 no_more)))))))
        (more_faulted A.faulted (more_faulted B.faulted (more_faulted C.faulted (more_faulted D.faulted (more_faulted E.faulted (more_faulted
        F.faulted end_faulted)))))) };

    ghost priced = { tuple_priced (λ p. (first_and p.0 (first_and p.1 (first_and p.2 (first_and p.3 (first_and p.4 (first_and p.5 no_more)))))))
        (more_priced A.priced (more_priced B.priced (more_priced C.priced (more_priced D.priced (more_priced E.priced (more_priced F.priced
        end_priced)))))) };

    ghost told = { λ h. tuple_told (λ p. (first_and p.0 (first_and p.1 (first_and p.2 (first_and p.3 (first_and p.4 (first_and p.5 no_more)))))))
        (more_told (A.told (left_true A.is_told B.is_told (left_true (A.is_told && B.is_told) C.is_told (left_true ((A.is_told && B.is_told) &&
        C.is_told) D.is_told (left_true (((A.is_told && B.is_told) && C.is_told) && D.is_told) E.is_told (left_true ((((A.is_told && B.is_told) &&
        C.is_told) && D.is_told) && E.is_told) F.is_told h)))))) (more_told (B.told (right_true A.is_told B.is_told (left_true (A.is_told &&
        B.is_told) C.is_told (left_true ((A.is_told && B.is_told) && C.is_told) D.is_told (left_true (((A.is_told && B.is_told) && C.is_told) &&
        D.is_told) E.is_told (left_true ((((A.is_told && B.is_told) && C.is_told) && D.is_told) && E.is_told) F.is_told h)))))) (more_told (C.told
        (right_true (A.is_told && B.is_told) C.is_told (left_true ((A.is_told && B.is_told) && C.is_told) D.is_told (left_true (((A.is_told &&
        B.is_told) && C.is_told) && D.is_told) E.is_told (left_true ((((A.is_told && B.is_told) && C.is_told) && D.is_told) && E.is_told) F.is_told
        h))))) (more_told (D.told (right_true ((A.is_told && B.is_told) && C.is_told) D.is_told (left_true (((A.is_told && B.is_told) && C.is_told) &&
        D.is_told) E.is_told (left_true ((((A.is_told && B.is_told) && C.is_told) && D.is_told) && E.is_told) F.is_told h)))) (more_told (E.told
        (right_true (((A.is_told && B.is_told) && C.is_told) && D.is_told) E.is_told (left_true ((((A.is_told && B.is_told) && C.is_told) &&
        D.is_told) && E.is_told) F.is_told h))) (more_told (F.told (right_true ((((A.is_told && B.is_told) && C.is_told) && D.is_told) && E.is_told)
        F.is_told h)) end_told)))))) };
}
