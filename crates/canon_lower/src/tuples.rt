//! Tuples: a member at a time.

ghost use Rattle.std.specs.Prelude.{◌∷◌, []};
ghost use Rattle.canon_lower_parts.specs.Given.{empty_given, first_given, none_given, tuple_given};
ghost use Rattle.canon_lower_parts.specs.Gives.{no_handles, product_gives};
ghost use Rattle.canon_lower_parts.specs.Walkable.{first_walkable, none_walkable, product_walkable};

use crate::members::LowerMembers;
use crate::{Lower, LowerShared};
use canon_context::{Fault, LowerContext};
use canon_memory::{Guest, ValRaw};
use canon_types::InterfaceType;

impl Lower for () {
    ghost gives = { no_handles };

    fn linear_lower_to_flat<D, G: Guest>(
        &mut self,
        cx: &mut LowerContext<'_, D, G>,
        _ty: InterfaceType,
        _dst: &mut [ValRaw],
    ) -> Result<(), Fault> {
        let _memory = cx.core.memory(); // memory has at most 2^32 bytes
        Ok(())
    }

    fn linear_lower_to_memory<D, G: Guest>(
        &mut self,
        cx: &mut LowerContext<'_, D, G>,
        _ty: InterfaceType,
        _offset: u64,
    ) -> Result<(), Fault> {
        let _memory = cx.core.memory(); // memory has at most 2^32 bytes
        Ok(())
    }

    ghost walkable = { λ p. product_walkable none_walkable };

    ghost given = { empty_given };
}

impl LowerShared for () {
    ghost gives = { no_handles };

    fn linear_lower_to_flat<D, G: Guest>(
        &self,
        cx: &mut LowerContext<'_, D, G>,
        _ty: InterfaceType,
        _dst: &mut [ValRaw],
    ) -> Result<(), Fault> {
        let _memory = cx.core.memory(); // memory has at most 2^32 bytes
        Ok(())
    }

    fn linear_lower_to_memory<D, G: Guest>(
        &self,
        cx: &mut LowerContext<'_, D, G>,
        _ty: InterfaceType,
        _offset: u64,
    ) -> Result<(), Fault> {
        let _memory = cx.core.memory(); // memory has at most 2^32 bytes
        Ok(())
    }

    ghost walkable = { λ p. product_walkable none_walkable };

    ghost given = { empty_given };
}

impl<A: Lower> Lower for (A,) {
    ghost gives = { λ i s p. product_gives ((λ u. A.gives i u p.0) ∷ []) s };

    fn linear_lower_to_flat<D, G: Guest>(
        &mut self,
        cx: &mut LowerContext<'_, D, G>,
        ty: InterfaceType,
        dst: &mut [ValRaw],
    ) -> Result<(), Fault> {
        (&mut self.0, ()).lower_members(cx, &ty, 0, dst, 0)
    }

    fn linear_lower_to_memory<D, G: Guest>(
        &mut self,
        cx: &mut LowerContext<'_, D, G>,
        ty: InterfaceType,
        offset: u64,
    ) -> Result<(), Fault> {
        (&mut self.0, ()).store_members(cx, &ty, 0, offset, 0)
    }

    ghost walkable = { λ p. product_walkable (first_walkable (A.walkable p.0) none_walkable) };

    ghost given = { tuple_given (A.fits ∷ []) _ (λ p. first_given [] _ _ (A.given p.0) none_given) };
}

impl<A: LowerShared> LowerShared for (A,) {
    ghost gives = { λ i s p. product_gives ((λ u. A.gives i u p.0) ∷ []) s };

    fn linear_lower_to_flat<D, G: Guest>(
        &self,
        cx: &mut LowerContext<'_, D, G>,
        ty: InterfaceType,
        dst: &mut [ValRaw],
    ) -> Result<(), Fault> {
        Lower::linear_lower_to_flat(&mut (&self.0,), cx, ty, dst)
    }

    fn linear_lower_to_memory<D, G: Guest>(
        &self,
        cx: &mut LowerContext<'_, D, G>,
        ty: InterfaceType,
        offset: u64,
    ) -> Result<(), Fault> {
        Lower::linear_lower_to_memory(&mut (&self.0,), cx, ty, offset)
    }

    ghost walkable = { λ p. product_walkable (first_walkable (A.walkable p.0) none_walkable) };

    ghost given = { tuple_given (A.fits ∷ []) _ (λ p. first_given [] _ _ (A.given p.0) none_given) };
}

impl<A: Lower, B: Lower> Lower for (A, B) {
    ghost gives = { λ i s p. product_gives ((λ u. A.gives i u p.0) ∷ (λ u. B.gives i u p.1) ∷ []) s };

    fn linear_lower_to_flat<D, G: Guest>(
        &mut self,
        cx: &mut LowerContext<'_, D, G>,
        ty: InterfaceType,
        dst: &mut [ValRaw],
    ) -> Result<(), Fault> {
        (&mut self.0, (&mut self.1, ())).lower_members(cx, &ty, 0, dst, 0)
    }

    fn linear_lower_to_memory<D, G: Guest>(
        &mut self,
        cx: &mut LowerContext<'_, D, G>,
        ty: InterfaceType,
        offset: u64,
    ) -> Result<(), Fault> {
        (&mut self.0, (&mut self.1, ())).store_members(cx, &ty, 0, offset, 0)
    }

    ghost walkable = { λ p. product_walkable (first_walkable (A.walkable p.0) (first_walkable (B.walkable p.1) none_walkable)) };

    ghost given = { tuple_given (A.fits ∷ B.fits ∷ []) _ (λ p. first_given (B.fits ∷ []) _ _ (A.given p.0)
        (first_given [] _ _ (B.given p.1) none_given)) };
}

impl<A: LowerShared, B: LowerShared> LowerShared for (A, B) {
    ghost gives = { λ i s p. product_gives ((λ u. A.gives i u p.0) ∷ (λ u. B.gives i u p.1) ∷ []) s };

    fn linear_lower_to_flat<D, G: Guest>(
        &self,
        cx: &mut LowerContext<'_, D, G>,
        ty: InterfaceType,
        dst: &mut [ValRaw],
    ) -> Result<(), Fault> {
        Lower::linear_lower_to_flat(&mut (&self.0, &self.1), cx, ty, dst)
    }

    fn linear_lower_to_memory<D, G: Guest>(
        &self,
        cx: &mut LowerContext<'_, D, G>,
        ty: InterfaceType,
        offset: u64,
    ) -> Result<(), Fault> {
        Lower::linear_lower_to_memory(&mut (&self.0, &self.1), cx, ty, offset)
    }

    ghost walkable = { λ p. product_walkable (first_walkable (A.walkable p.0) (first_walkable (B.walkable p.1) none_walkable)) };

    ghost given = { tuple_given (A.fits ∷ B.fits ∷ []) _ (λ p. first_given (B.fits ∷ []) _ _ (A.given p.0)
        (first_given [] _ _ (B.given p.1) none_given)) };
}

impl<A: Lower, B: Lower, C: Lower> Lower for (A, B, C) {
    ghost gives = { λ i s p. product_gives ((λ u. A.gives i u p.0) ∷ (λ u. B.gives i u p.1) ∷ (λ u. C.gives i u p.2) ∷ []) s };

    fn linear_lower_to_flat<D, G: Guest>(
        &mut self,
        cx: &mut LowerContext<'_, D, G>,
        ty: InterfaceType,
        dst: &mut [ValRaw],
    ) -> Result<(), Fault> {
        (&mut self.0, (&mut self.1, (&mut self.2, ()))).lower_members(cx, &ty, 0, dst, 0)
    }

    fn linear_lower_to_memory<D, G: Guest>(
        &mut self,
        cx: &mut LowerContext<'_, D, G>,
        ty: InterfaceType,
        offset: u64,
    ) -> Result<(), Fault> {
        (&mut self.0, (&mut self.1, (&mut self.2, ()))).store_members(cx, &ty, 0, offset, 0)
    }

    ghost walkable = { λ p. product_walkable (first_walkable (A.walkable p.0) (first_walkable (B.walkable p.1)
        (first_walkable (C.walkable p.2) none_walkable))) };

    ghost given = { tuple_given (A.fits ∷ B.fits ∷ C.fits ∷ []) _ (λ p. first_given (B.fits ∷ C.fits ∷ []) _ _ (A.given p.0)
        (first_given (C.fits ∷ []) _ _ (B.given p.1) (first_given [] _ _ (C.given p.2) none_given))) };
}

impl<A: LowerShared, B: LowerShared, C: LowerShared> LowerShared for (A, B, C) {
    ghost gives = { λ i s p. product_gives ((λ u. A.gives i u p.0) ∷ (λ u. B.gives i u p.1) ∷ (λ u. C.gives i u p.2) ∷ []) s };

    fn linear_lower_to_flat<D, G: Guest>(
        &self,
        cx: &mut LowerContext<'_, D, G>,
        ty: InterfaceType,
        dst: &mut [ValRaw],
    ) -> Result<(), Fault> {
        Lower::linear_lower_to_flat(&mut (&self.0, &self.1, &self.2), cx, ty, dst)
    }

    fn linear_lower_to_memory<D, G: Guest>(
        &self,
        cx: &mut LowerContext<'_, D, G>,
        ty: InterfaceType,
        offset: u64,
    ) -> Result<(), Fault> {
        Lower::linear_lower_to_memory(&mut (&self.0, &self.1, &self.2), cx, ty, offset)
    }

    ghost walkable = { λ p. product_walkable (first_walkable (A.walkable p.0) (first_walkable (B.walkable p.1)
        (first_walkable (C.walkable p.2) none_walkable))) };

    ghost given = { tuple_given (A.fits ∷ B.fits ∷ C.fits ∷ []) _ (λ p. first_given (B.fits ∷ C.fits ∷ []) _ _ (A.given p.0)
        (first_given (C.fits ∷ []) _ _ (B.given p.1) (first_given [] _ _ (C.given p.2) none_given))) };
}

impl<A: Lower, B: Lower, C: Lower, E: Lower> Lower for (A, B, C, E) {
    ghost gives = { λ i s p. product_gives ((λ u. A.gives i u p.0) ∷ (λ u. B.gives i u p.1) ∷ (λ u. C.gives i u p.2) ∷ (λ u. E.gives i u p.3) ∷ []) s };

    fn linear_lower_to_flat<D, G: Guest>(
        &mut self,
        cx: &mut LowerContext<'_, D, G>,
        ty: InterfaceType,
        dst: &mut [ValRaw],
    ) -> Result<(), Fault> {
        (&mut self.0, (&mut self.1, (&mut self.2, (&mut self.3, ())))).lower_members(
            cx, &ty, 0, dst, 0,
        )
    }

    fn linear_lower_to_memory<D, G: Guest>(
        &mut self,
        cx: &mut LowerContext<'_, D, G>,
        ty: InterfaceType,
        offset: u64,
    ) -> Result<(), Fault> {
        (&mut self.0, (&mut self.1, (&mut self.2, (&mut self.3, ())))).store_members(
            cx, &ty, 0, offset, 0,
        )
    }

    ghost walkable = { λ p. product_walkable (first_walkable (A.walkable p.0) (first_walkable (B.walkable p.1) (first_walkable (C.walkable p.2)
        (first_walkable (E.walkable p.3) none_walkable)))) };

    ghost given = { tuple_given (A.fits ∷ B.fits ∷ C.fits ∷ E.fits ∷ []) _ (λ p. first_given (B.fits ∷ C.fits ∷ E.fits ∷ []) _ _ (A.given p.0)
        (first_given (C.fits ∷ E.fits ∷ []) _ _ (B.given p.1) (first_given (E.fits ∷ []) _ _ (C.given p.2)
        (first_given [] _ _ (E.given p.3) none_given)))) };
}

impl<A: LowerShared, B: LowerShared, C: LowerShared, E: LowerShared> LowerShared for (A, B, C, E) {
    ghost gives = { λ i s p. product_gives ((λ u. A.gives i u p.0) ∷ (λ u. B.gives i u p.1) ∷ (λ u. C.gives i u p.2) ∷ (λ u. E.gives i u p.3) ∷ []) s };

    fn linear_lower_to_flat<D, G: Guest>(
        &self,
        cx: &mut LowerContext<'_, D, G>,
        ty: InterfaceType,
        dst: &mut [ValRaw],
    ) -> Result<(), Fault> {
        Lower::linear_lower_to_flat(&mut (&self.0, &self.1, &self.2, &self.3), cx, ty, dst)
    }

    fn linear_lower_to_memory<D, G: Guest>(
        &self,
        cx: &mut LowerContext<'_, D, G>,
        ty: InterfaceType,
        offset: u64,
    ) -> Result<(), Fault> {
        Lower::linear_lower_to_memory(&mut (&self.0, &self.1, &self.2, &self.3), cx, ty, offset)
    }

    ghost walkable = { λ p. product_walkable (first_walkable (A.walkable p.0) (first_walkable (B.walkable p.1) (first_walkable (C.walkable p.2)
        (first_walkable (E.walkable p.3) none_walkable)))) };

    ghost given = { tuple_given (A.fits ∷ B.fits ∷ C.fits ∷ E.fits ∷ []) _ (λ p. first_given (B.fits ∷ C.fits ∷ E.fits ∷ []) _ _ (A.given p.0)
        (first_given (C.fits ∷ E.fits ∷ []) _ _ (B.given p.1) (first_given (E.fits ∷ []) _ _ (C.given p.2)
        (first_given [] _ _ (E.given p.3) none_given)))) };
}

impl<A: Lower, B: Lower, C: Lower, E: Lower, F: Lower> Lower for (A, B, C, E, F) {
    ghost gives = { λ i s p. product_gives ((λ u. A.gives i u p.0) ∷ (λ u. B.gives i u p.1) ∷ (λ u. C.gives i u p.2) ∷ (λ u. E.gives i u p.3) ∷ (λ u. F.gives i u p.4) ∷ []) s };

    fn linear_lower_to_flat<D, G: Guest>(
        &mut self,
        cx: &mut LowerContext<'_, D, G>,
        ty: InterfaceType,
        dst: &mut [ValRaw],
    ) -> Result<(), Fault> {
        (
            &mut self.0,
            (&mut self.1, (&mut self.2, (&mut self.3, (&mut self.4, ())))),
        )
            .lower_members(cx, &ty, 0, dst, 0)
    }

    fn linear_lower_to_memory<D, G: Guest>(
        &mut self,
        cx: &mut LowerContext<'_, D, G>,
        ty: InterfaceType,
        offset: u64,
    ) -> Result<(), Fault> {
        (
            &mut self.0,
            (&mut self.1, (&mut self.2, (&mut self.3, (&mut self.4, ())))),
        )
            .store_members(cx, &ty, 0, offset, 0)
    }

    ghost walkable = { λ p. product_walkable (first_walkable (A.walkable p.0) (first_walkable (B.walkable p.1) (first_walkable (C.walkable p.2)
        (first_walkable (E.walkable p.3) (first_walkable (F.walkable p.4) none_walkable))))) };

    ghost given = { tuple_given (A.fits ∷ B.fits ∷ C.fits ∷ E.fits ∷ F.fits ∷ []) _ (λ p. first_given (B.fits ∷ C.fits ∷ E.fits ∷ F.fits ∷ []) _ _ (A.given p.0)
        (first_given (C.fits ∷ E.fits ∷ F.fits ∷ []) _ _ (B.given p.1) (first_given (E.fits ∷ F.fits ∷ []) _ _ (C.given p.2)
        (first_given (F.fits ∷ []) _ _ (E.given p.3) (first_given [] _ _ (F.given p.4) none_given))))) };
}

impl<A: LowerShared, B: LowerShared, C: LowerShared, E: LowerShared, F: LowerShared> LowerShared
    for (A, B, C, E, F) {
    ghost gives = { λ i s p. product_gives ((λ u. A.gives i u p.0) ∷ (λ u. B.gives i u p.1) ∷ (λ u. C.gives i u p.2) ∷ (λ u. E.gives i u p.3) ∷ (λ u. F.gives i u p.4) ∷ []) s };

    fn linear_lower_to_flat<D, G: Guest>(
        &self,
        cx: &mut LowerContext<'_, D, G>,
        ty: InterfaceType,
        dst: &mut [ValRaw],
    ) -> Result<(), Fault> {
        Lower::linear_lower_to_flat(
            &mut (&self.0, &self.1, &self.2, &self.3, &self.4),
            cx,
            ty,
            dst,
        )
    }

    fn linear_lower_to_memory<D, G: Guest>(
        &self,
        cx: &mut LowerContext<'_, D, G>,
        ty: InterfaceType,
        offset: u64,
    ) -> Result<(), Fault> {
        Lower::linear_lower_to_memory(
            &mut (&self.0, &self.1, &self.2, &self.3, &self.4),
            cx,
            ty,
            offset,
        )
    }

    ghost walkable = { λ p. product_walkable (first_walkable (A.walkable p.0) (first_walkable (B.walkable p.1) (first_walkable (C.walkable p.2)
        (first_walkable (E.walkable p.3) (first_walkable (F.walkable p.4) none_walkable))))) };

    ghost given = { tuple_given (A.fits ∷ B.fits ∷ C.fits ∷ E.fits ∷ F.fits ∷ []) _ (λ p. first_given (B.fits ∷ C.fits ∷ E.fits ∷ F.fits ∷ []) _ _ (A.given p.0)
        (first_given (C.fits ∷ E.fits ∷ F.fits ∷ []) _ _ (B.given p.1) (first_given (E.fits ∷ F.fits ∷ []) _ _ (C.given p.2)
        (first_given (F.fits ∷ []) _ _ (E.given p.3) (first_given [] _ _ (F.given p.4) none_given))))) };
}

impl<A: Lower, B: Lower, C: Lower, E: Lower, F: Lower, H: Lower> Lower for (A, B, C, E, F, H) {
    ghost gives = { λ i s p. product_gives ((λ u. A.gives i u p.0) ∷ (λ u. B.gives i u p.1) ∷ (λ u. C.gives i u p.2) ∷ (λ u. E.gives i u p.3) ∷ (λ u. F.gives i u p.4) ∷ (λ u. H.gives i u p.5) ∷ []) s };

    fn linear_lower_to_flat<D, G: Guest>(
        &mut self,
        cx: &mut LowerContext<'_, D, G>,
        ty: InterfaceType,
        dst: &mut [ValRaw],
    ) -> Result<(), Fault> {
        (
            &mut self.0,
            (
                &mut self.1,
                (&mut self.2, (&mut self.3, (&mut self.4, (&mut self.5, ())))),
            ),
        )
            .lower_members(cx, &ty, 0, dst, 0)
    }

    fn linear_lower_to_memory<D, G: Guest>(
        &mut self,
        cx: &mut LowerContext<'_, D, G>,
        ty: InterfaceType,
        offset: u64,
    ) -> Result<(), Fault> {
        (
            &mut self.0,
            (
                &mut self.1,
                (&mut self.2, (&mut self.3, (&mut self.4, (&mut self.5, ())))),
            ),
        )
            .store_members(cx, &ty, 0, offset, 0)
    }

    ghost walkable = { λ p. product_walkable (first_walkable (A.walkable p.0) (first_walkable (B.walkable p.1) (first_walkable (C.walkable p.2)
        (first_walkable (E.walkable p.3) (first_walkable (F.walkable p.4) (first_walkable (H.walkable p.5) none_walkable)))))) };

    ghost given = { tuple_given (A.fits ∷ B.fits ∷ C.fits ∷ E.fits ∷ F.fits ∷ H.fits ∷ []) _ (λ p. first_given (B.fits ∷ C.fits ∷ E.fits ∷ F.fits ∷ H.fits ∷ []) _ _ (A.given p.0)
        (first_given (C.fits ∷ E.fits ∷ F.fits ∷ H.fits ∷ []) _ _ (B.given p.1)
        (first_given (E.fits ∷ F.fits ∷ H.fits ∷ []) _ _ (C.given p.2) (first_given (F.fits ∷ H.fits ∷ []) _ _ (E.given p.3)
        (first_given (H.fits ∷ []) _ _ (F.given p.4) (first_given [] _ _ (H.given p.5) none_given)))))) };
}

impl<
    A: LowerShared,
    B: LowerShared,
    C: LowerShared,
    E: LowerShared,
    F: LowerShared,
    H: LowerShared,
> LowerShared for (A, B, C, E, F, H) {
    ghost gives = { λ i s p. product_gives ((λ u. A.gives i u p.0) ∷ (λ u. B.gives i u p.1) ∷ (λ u. C.gives i u p.2) ∷ (λ u. E.gives i u p.3) ∷ (λ u. F.gives i u p.4) ∷ (λ u. H.gives i u p.5) ∷ []) s };

    fn linear_lower_to_flat<D, G: Guest>(
        &self,
        cx: &mut LowerContext<'_, D, G>,
        ty: InterfaceType,
        dst: &mut [ValRaw],
    ) -> Result<(), Fault> {
        Lower::linear_lower_to_flat(
            &mut (&self.0, &self.1, &self.2, &self.3, &self.4, &self.5),
            cx,
            ty,
            dst,
        )
    }

    fn linear_lower_to_memory<D, G: Guest>(
        &self,
        cx: &mut LowerContext<'_, D, G>,
        ty: InterfaceType,
        offset: u64,
    ) -> Result<(), Fault> {
        Lower::linear_lower_to_memory(
            &mut (&self.0, &self.1, &self.2, &self.3, &self.4, &self.5),
            cx,
            ty,
            offset,
        )
    }

    ghost walkable = { λ p. product_walkable (first_walkable (A.walkable p.0) (first_walkable (B.walkable p.1) (first_walkable (C.walkable p.2)
        (first_walkable (E.walkable p.3) (first_walkable (F.walkable p.4) (first_walkable (H.walkable p.5) none_walkable)))))) };

    ghost given = { tuple_given (A.fits ∷ B.fits ∷ C.fits ∷ E.fits ∷ F.fits ∷ H.fits ∷ []) _ (λ p. first_given (B.fits ∷ C.fits ∷ E.fits ∷ F.fits ∷ H.fits ∷ []) _ _ (A.given p.0)
        (first_given (C.fits ∷ E.fits ∷ F.fits ∷ H.fits ∷ []) _ _ (B.given p.1)
        (first_given (E.fits ∷ F.fits ∷ H.fits ∷ []) _ _ (C.given p.2) (first_given (F.fits ∷ H.fits ∷ []) _ _ (E.given p.3)
        (first_given (H.fits ∷ []) _ _ (F.given p.4) (first_given [] _ _ (H.given p.5) none_given)))))) };
}
