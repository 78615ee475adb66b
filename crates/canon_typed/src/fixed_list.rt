//! Lists of fixed length.

ghost use Rattle.std.specs.Prelude.{◌≡◌, IsNone, IfSome, Some, length, ◌≢◌, false};
ghost use Rattle.canon_typed.specs.Charges.{row_cost};
ghost use Rattle.canon_typed.specs.Meaning.{RowMeans};
ghost use Rattle.canon_typed.specs.Typed.{fixed_typed};
ghost use Rattle.canon_typed.specs.Types.{IsFixedOf};
ghost use Rattle.canon_typed.specs.Walked.{row_walked};

use crate::{ComponentType, TypecheckFailed};
use canon_types::{CanonicalAbiInfo, InstanceType, InterfaceType};

/// A list of `N` items.
#[derive(Drop)]
pub struct FixedList<T, const N: usize> {
    items: Vec<T>,
    ghost count: { length items.items ≡ N },
}

impl<T, const N: usize> FixedList<T, N> {
    ghost use Rattle.std.specs.Borrow.{sem};
    ghost use Rattle.canon_typed.specs.Lending.{LendsRow};

    /// The list of these items, or none where they are not `N`.
    pub fn new(items: Vec<T>) -> Option<Self>
    where
        T: Drop,
        ensures some { IfSome result (λ list. (list.items ≡ items) × (length items.items ≡ N)) }
        ensures none { IsNone result → length items.items ≢ N }
    {
        if items.len() == N {
            Some(FixedList { items })
        } else {
            None
        }
    }

    /// The items, of which there are `N`.
    pub fn items(&self) -> &[T]
        ensures items { result.now ≡ self.now.items.items }
        ensures count { length result.now ≡ N }
    {
        self.items.as_slice()
    }

    /// The items, to be changed: what is written to them is what the list holds afterwards.
    pub fn items_mut(&mut self) -> &mut [T]
        ensures* writes_back { sem 𝓛 (LendsRow T.row N.row self.entry result) }
        ensures items { result.now ≡ self.old.items.items }
        ensures count { length result.now ≡ N }
    {
        self.items.as_mut_slice()
    }

    /// The items alone.
    pub fn into_items(self) -> Vec<T>
        ensures items { result ≡ self.items }
        ensures count { length result.items ≡ N }
    {
        self.items
    }
}

impl<T: ComponentType, const N: usize> ComponentType for FixedList<T, N> {
    const MAY_REQUIRE_REALLOC: bool = true;

    const IS_RUST_UNIT_TYPE: bool = false;

    ghost is_unit = { false };

    ghost fits = { IsFixedOf N T.fits };

    ghost means = { λ v. RowMeans T.means v.items.items };

    ghost walks = { λ v. RowMeans T.walks v.items.items };

    ghost is_told = { T.is_told };

    ghost lifts = { λ v. RowMeans T.lifts v.items.items };

    ghost cost = { row_cost T.cost };

    ghost host_bytes = { 24 };

    fn is_unit_type() -> bool {
        false
    }

    fn host_size() -> u64 {
        24
    }

    fn abi() -> Option<CanonicalAbiInfo> {
        CanonicalAbiInfo::fixed_length_list(&T::abi()?, N as u64)
    }

    fn typecheck(ty: &InterfaceType, types: &InstanceType) -> Result<(), TypecheckFailed> {
        let InterfaceType::FixedLengthList(i) = ty else {
            return Err(TypecheckFailed);
        };
        let list = types.types().fixed_length_list(*i);
        if N == 0 || list.size as usize != N {
            return Err(TypecheckFailed);
        }
        T::typecheck(&list.element, types)
    }

    ghost typed = { λ v. fixed_typed N T.fits T.means T.typed v.items.items v.count };

    ghost walked = { λ v. row_walked T.walks T.means T.walked v.items.items };
}
