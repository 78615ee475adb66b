//! Lists that stay in memory.

ghost use Rattle.std.specs.Prelude.{◌≡◌, ◌↔◌, ◌≤◌, ◌<◌, ◌+◌, ◌*◌, ◌%◌, IfNone, IfSome, IsNone, IsTrue, false, ℕ};
ghost use Rattle.canon_context.specs.Core.{component_types};
ghost use Rattle.std.proofs.Common.{refl};
ghost use Rattle.canon_reading.specs.Scopes.{plain_kept};
ghost use Rattle.canon_types.specs.Table.{Knows, shape_of};
ghost use Rattle.canon_types.specs.declared.types.InterfaceType.TheVariants as ty;
ghost use Rattle.canon_typed.specs.Charges.{free, list_cost};
ghost use Rattle.canon_typed.specs.Types.{IsListOf};
ghost use Rattle.canon_lift.specs.RangesOfTrees.{wasm_list_apart, wasm_list_faulted, wasm_list_priced};
ghost use Rattle.canon_reading.specs.OfTrees.{untrue};
ghost use Rattle.canon_lift.specs.Ranges.{IsListFrom, IsListOfCore, ListTested, RangeTested, wasm_list_reading};
ghost use Rattle.canon_abi.specs.Abi.{HasLayout};
ghost use Rattle.canon_model.specs.Shape.{Shape};
ghost use Rattle.canon_reading.specs.Reading.{Lifts, setting_in};
ghost use Rattle.canon_reading.specs.Readings.{item_spot};
ghost use Rattle.canon_reading.specs.Spots.{stored};
ghost use Rattle.canon_lowering.specs.Storing.{narrow};
ghost use Rattle.canon_reading.specs.Taken.{none_taken};
ghost use Rattle.canon_lift.specs.Views.{ListFits};
ghost use Rattle.canon_model.specs.Memory.{bytes_at, cap};

use crate::Lift;
use canon_bytes::{ends_inside, load_u32};
use canon_context::{At, Core, Fault, LiftContext, MemoryView};
use canon_lift_parts::{is_row, word_at, word_u32};
use canon_memory::ValRaw;
use canon_typed::{ComponentType, TypecheckFailed};
use canon_types::{CanonicalAbiInfo, InstanceType, InterfaceType, OptionsIndex, StoreId};
use std::alloc::Global;
use std::marker::PhantomData;

/// A list that stays in the memory that it was lifted from.
#[derive(Drop)]
pub struct WasmList<T> {
    pub(crate) pointer: u64,
    pub(crate) count: u64,
    pub(crate) options: OptionsIndex,
    pub(crate) store: StoreId,
    pub(crate) element: InterfaceType,
    pub(crate) marker: PhantomData<T>,
}

/// Tests the range of so many items at a pointer that stands at `at`, and charges them: they end inside memory, the fuel is enough,
/// and the pointer is aligned.
pub(crate) fn test_range<T: ComponentType, U, G>(
    cx: &mut LiftContext<'_, U, G>,
    abi: &CanonicalAbiInfo,
    pointer: u64,
    count: u64,
    at: At,
) -> Result<(), Fault>
    requires aligned { 0 < abi.now.align32 }
    ensures tested { (s : Shape) → HasLayout abi.now s → RangeTested (setting_in cx.old.core.now cx.old.options) s (cap T.host_bytes) pointer count at cx.old.fuel result cx.new.fuel }
    ensures same { cx.new ≡ record cx.old { fuel = cx.new.fuel } }
{
    if !ends_inside(cx.memory(), pointer, count, abi.size32) {
        return Err(Fault::PointerOutOfBounds(at));
    }
    match cx.consume_fuel_array(count, T::host_size()) {
        Ok(()) => {}
        Err(fault) => return Err(fault),
    }
    if pointer % u64::from(abi.align32) != 0 {
        return Err(Fault::PointerMisaligned(at));
    }
    Ok(())
}

/// The list of so many items of a type at a pointer that stands at `at`, whose range is tested and charged.
pub(crate) fn list_from<T: ComponentType, U, G>(
    cx: &mut LiftContext<'_, U, G>,
    element: InterfaceType,
    pointer: u64,
    count: u64,
    at: At,
) -> Result<WasmList<T>, Fault>
    requires known { Knows (component_types cx.old.core.now) element }
    ensures tested { ListTested (setting_in cx.old.core.now cx.old.options) (shape_of (component_types cx.old.core.now) element) (cap T.host_bytes) pointer count at cx.old.fuel element result cx.new.fuel }
    ensures same { cx.new ≡ record cx.old { fuel = cx.new.fuel } }
{
    let abi = *cx.types().canonical_abi(&element);
    match test_range::<T, U, G>(cx, &abi, pointer, count, at) {
        Ok(()) => Ok(WasmList::row(cx, element, pointer, count)),
        Err(fault) => Err(fault),
    }
}

impl<T> WasmList<T> {
    /// How many items there are.
    pub fn len(&self) -> u64
        ensures { result ≡ self.now.count }
    {
        self.count
    }

    /// So many items of a type that stand in a row from an address on.
    pub(crate) fn row<U, G>(
        cx: &LiftContext<'_, U, G>,
        element: InterfaceType,
        pointer: u64,
        count: u64,
    ) -> WasmList<T>
        ensures { IsListFrom (setting_in cx.now.core.now cx.now.options) element pointer count result }
    {
        WasmList {
            pointer,
            count,
            options: cx.options,
            store: cx.store_id(),
            element,
            marker: PhantomData,
        }
    }
}

impl<T: ComponentType> WasmList<T> {
    /// Whether the list is of the view's store, its options are the component's, its items are of the Rust type, and they lie aligned inside the view's memory, which is
    /// the condition of `as_le_slice` and `to_le_vec`.
    pub fn fits(&self, view: &MemoryView<'_>) -> bool
        ensures { IsTrue result ↔ ListFits T.fits view.now self.now }
    {
        let types = view.types().types();
        if self.store == view.store_id()
            && view.has_options(self.options)
            && types.contains(&self.element)
            && T::typecheck(&self.element, view.types()).is_ok()
        {
            let abi = types.canonical_abi(&self.element);
            is_row(
                view.memory(),
                self.pointer,
                self.count,
                abi.size32,
                abi.align32,
            )
        } else {
            false
        }
    }

    /// Whether the list is of the core's store, its options are the component's, its items are of the Rust type, and they lie aligned inside memory, which is the
    /// condition of `get` and `iter`.
    pub fn fits_core<U, G>(&self, core: &Core<U, G>) -> bool
        ensures { IsTrue result ↔ IsListOfCore T.fits core.now self.now }
    {
        let component = core.component();
        let types = component.types.types();
        if self.store == core.id()
            && (self.options.as_u32() as usize) < component.options.len()
            && types.contains(&self.element)
            && T::typecheck(&self.element, &component.types).is_ok()
        {
            let abi = types.canonical_abi(&self.element);
            is_row(
                core.memory().as_slice(),
                self.pointer,
                self.count,
                abi.size32,
                abi.align32,
            )
        } else {
            false
        }
    }
}

impl WasmList<u8> {
    /// The bytes themselves.
    pub fn as_le_slice<'a>(&self, view: &MemoryView<'a>) -> &'a [u8]
        requires { ListFits (λ i t. t ≡ ty.U8) view.now self.now }
        ensures { result.now ≡ bytes_at (narrow view.now.bytes.now) self.now.pointer self.now.count }
    {
        let start = self.pointer as usize;
        &view.memory()[start..start + self.count as usize]
    }
}

impl<T: Lift> WasmList<T> {
    /// The item of an index, lifted with the core's whole fuel, or none where there is no such item.
    pub fn get<U, G>(
        &self,
        alloc: Global,
        core: &mut Core<U, G>,
        index: u64,
    ) -> Option<Result<T, Fault>>
        requires { IsListOfCore T.fits core.old self.now }
        ensures none { IsNone result ↔ (self.now.count ≤ index) }
        ensures item { IfSome result (λ r. (left : ℕ) × Lifts T.reading (setting_in core.old self.now.options)
            (item_spot (narrow core.old.memory) (shape_of (component_types core.old) self.now.element) (stored self.now.pointer) index) (shape_of (component_types core.old) self.now.element)
            core.old.ledger core.old.fuel r core.new.ledger left) }
        ensures unread { IfNone result (core.new ≡ core.old) }
        ensures same { core.new ≡ record core.old { ledger = core.new.ledger } }
    {
        if self.count <= index {
            return None;
        }
        let _memory = core.memory(); // memory has at most 2^32 bytes
        let size = core
            .component()
            .types
            .types()
            .canonical_abi(&self.element)
            .size32;
        let mut cx = LiftContext::new(core, self.options);
        Some(T::linear_lift_from_memory(
            alloc,
            &mut cx,
            self.element,
            self.pointer + index * u64::from(size),
        ))
    }
}

impl<T: ComponentType> ComponentType for WasmList<T> {
    const MAY_REQUIRE_REALLOC: bool = true;

    const IS_RUST_UNIT_TYPE: bool = false;

    ghost is_unit = { false };

    ghost fits = { IsListOf T.fits };

    ghost means = { λ v t. ⊥ };

    ghost walks = { λ v t. ⊥ };

    ghost is_told = { false };

    ghost lifts = { λ v t. ⊥ };

    ghost cost = { list_cost (cap T.host_bytes) free };

    ghost host_bytes = { 32 };

    fn is_unit_type() -> bool {
        false
    }

    fn host_size() -> u64 {
        32
    }

    fn abi() -> Option<CanonicalAbiInfo> {
        Some(CanonicalAbiInfo::POINTER_PAIR)
    }

    fn typecheck(ty: &InterfaceType, types: &InstanceType) -> Result<(), TypecheckFailed> {
        match ty {
            InterfaceType::List(i) => T::typecheck(&types.types().list(*i).element, types),
            _ => Err(TypecheckFailed),
        }
    }

    ghost typed = { λ v i type u f h. absurd h };

    ghost walked = { λ v t h. h };
}

impl<T: ComponentType> Lift for WasmList<T> {
    ghost reading = { wasm_list_reading T.fits (cap T.host_bytes) };

    ghost kept = { plain_kept (λ w at s. refl) };

    fn unit_value() -> Option<WasmList<T>> {
        None
    }

    fn linear_lift_from_memory<U, G>(
        _alloc: Global,
        cx: &mut LiftContext<'_, U, G>,
        ty: InterfaceType,
        at: u64,
    ) -> Result<WasmList<T>, Fault> {
        let InterfaceType::List(i) = ty else {
            unreachable!()
        };
        let element = cx.types().list(i).element;
        let pointer = u64::from(load_u32(cx.memory(), at));
        let count = u64::from(load_u32(cx.memory(), at + 4));
        list_from(cx, element, pointer, count, At::Address(at))
    }

    fn lift_words<U, G>(
        _alloc: Global,
        cx: &mut LiftContext<'_, U, G>,
        ty: InterfaceType,
        src: &[ValRaw],
        at: usize,
    ) -> Result<WasmList<T>, Fault> {
        let InterfaceType::List(i) = ty else {
            unreachable!()
        };
        let element = cx.types().list(i).element;
        let pointer = u64::from(word_u32(src, at));
        let count = u64::from(word_u32(src, at + 1));
        list_from(cx, element, pointer, count, word_at(at))
    }

    ghost taken = { λ w at s before after v h. none_taken before after h.1 };

    ghost apart = { wasm_list_apart T.fits (cap T.host_bytes) };

    ghost faulted = { wasm_list_faulted (cap T.host_bytes) T.fits };

    ghost priced = { wasm_list_priced (cap T.host_bytes) T.fits };

    ghost told = { λ h. untrue h };
}
