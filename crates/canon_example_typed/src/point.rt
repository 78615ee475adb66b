//! A point, which crosses as the tuple of its coordinates.

ghost use Rattle.std.specs.Prelude.{false, refl};
ghost use Rattle.canon_example_typed.specs.Points.{point_apart, point_faulted, point_given, point_kept, point_priced, point_taken, point_told, point_typed};
ghost use Rattle.canon_reading.specs.Readings.{read_as};
ghost use Rattle.canon_lower_parts.specs.Walkable.{first_walkable, none_walkable, product_walkable};

use canon_context::{Fault, LiftContext, LowerContext};
use canon_lift::Lift;
use canon_lower::{Lower, LowerShared};
use canon_memory::{Guest, ValRaw};
use canon_typed::{ComponentType, TypecheckFailed};
use canon_types::{CanonicalAbiInfo, InstanceType, InterfaceType};
use std::alloc::Global;

/// A point of a plane.
#[derive(Clone, Copy, Debug, PartialEq, Eq)]
pub struct Point {
    pub x: u32,
    pub y: u32,
}

/// The type as which a point crosses.
type Pair = (u32, u32);

impl ComponentType for Point {
    const MAY_REQUIRE_REALLOC: bool = false;

    const IS_RUST_UNIT_TYPE: bool = false;

    ghost is_unit = { false };

    ghost fits = { ⟦<Pair as ComponentType>⟧.fits };

    ghost means = { λ p. ⟦<Pair as ComponentType>⟧.means (p.x, p.y) };

    ghost walks = { λ p. ⟦<Pair as ComponentType>⟧.walks (p.x, p.y) };

    ghost is_told = { ⟦<Pair as ComponentType>⟧.is_told };

    ghost lifts = { λ p. ⟦<Pair as ComponentType>⟧.lifts (p.x, p.y) };

    ghost cost = { ⟦<Pair as ComponentType>⟧.cost };

    ghost host_bytes = { ⟦<Pair as ComponentType>⟧.host_bytes };

    fn is_unit_type() -> bool {
        false
    }

    fn host_size() -> u64 {
        Pair::host_size()
    }

    fn abi() -> Option<CanonicalAbiInfo> {
        Pair::abi()
    }

    fn typecheck(ty: &InterfaceType, types: &InstanceType) -> Result<(), TypecheckFailed> {
        Pair::typecheck(ty, types)
    }

    ghost typed = { point_typed };

    ghost walked = { λ p t h. h };
}

impl Lower for Point {
    ghost gives = { λ i s p. ⟦<Pair as Lower>⟧.gives i s (p.x, p.y) };

    fn linear_lower_to_flat<D, G: Guest>(
        &mut self,
        cx: &mut LowerContext<'_, D, G>,
        ty: InterfaceType,
        dst: &mut [ValRaw],
    ) -> Result<(), Fault> {
        Lower::linear_lower_to_flat(&mut (self.x, self.y), cx, ty, dst)
    }

    fn linear_lower_to_memory<D, G: Guest>(
        &mut self,
        cx: &mut LowerContext<'_, D, G>,
        ty: InterfaceType,
        offset: u64,
    ) -> Result<(), Fault> {
        Lower::linear_lower_to_memory(&mut (self.x, self.y), cx, ty, offset)
    }

    ghost walkable = { λ p. product_walkable (first_walkable (_, refl) (first_walkable (_, refl) none_walkable)) };

    ghost given = { point_given };
}

impl LowerShared for Point {
    ghost gives = { λ i s p. ⟦<Pair as LowerShared>⟧.gives i s (p.x, p.y) };

    fn linear_lower_to_flat<D, G: Guest>(
        &self,
        cx: &mut LowerContext<'_, D, G>,
        ty: InterfaceType,
        dst: &mut [ValRaw],
    ) -> Result<(), Fault> {
        LowerShared::linear_lower_to_flat(&(self.x, self.y), cx, ty, dst)
    }

    fn linear_lower_to_memory<D, G: Guest>(
        &self,
        cx: &mut LowerContext<'_, D, G>,
        ty: InterfaceType,
        offset: u64,
    ) -> Result<(), Fault> {
        LowerShared::linear_lower_to_memory(&(self.x, self.y), cx, ty, offset)
    }

    ghost walkable = { λ p. product_walkable (first_walkable (_, refl) (first_walkable (_, refl) none_walkable)) };

    ghost given = { point_given };
}

impl Lift for Point {
    ghost reading = { read_as (λ p. (p.x, p.y)) ⟦<Pair as Lift>⟧.reading };

    fn unit_value() -> Option<Point> {
        None
    }

    fn linear_lift_from_memory<U, G>(
        alloc: Global,
        cx: &mut LiftContext<'_, U, G>,
        ty: InterfaceType,
        at: u64,
    ) -> Result<Point, Fault> {
        match Pair::linear_lift_from_memory(alloc, cx, ty, at) {
            Ok((x, y)) => Ok(Point { x, y }),
            Err(fault) => Err(fault),
        }
    }

    fn lift_words<U, G>(
        alloc: Global,
        cx: &mut LiftContext<'_, U, G>,
        ty: InterfaceType,
        src: &[ValRaw],
        at: usize,
    ) -> Result<Point, Fault> {
        match Pair::lift_words(alloc, cx, ty, src, at) {
            Ok((x, y)) => Ok(Point { x, y }),
            Err(fault) => Err(fault),
        }
    }

    ghost kept = { point_kept };

    ghost taken = { point_taken };

    ghost apart = { point_apart };

    ghost faulted = { point_faulted };

    ghost priced = { point_priced };

    ghost told = { λ h. point_told };
}
