//! Texts that stay in memory.

ghost use Rattle.std.specs.Prelude.{◌≡◌, ◌↔◌, ◌%◌, IfErr, IfOk, IsTrue, false, length, refl};
ghost use Rattle.canon_context.specs.Component.{encoding_at};
ghost use Rattle.canon_abi.specs.Options.{encoding_of};
ghost use Rattle.canon_reading.specs.Scopes.{plain_kept};
ghost use Rattle.canon_model.specs.Text.{in_utf16, text_align, text_bytes};
ghost use Rattle.canon_model.specs.Tree.{text_length};
ghost use Rattle.canon_text.specs.Decoding.{Decodes, cow_text, is_borrowed};
ghost use Rattle.canon_types.specs.declared.types.InterfaceType.TheVariants as ty;
ghost use Rattle.canon_lift.specs.RangesOfTrees.{wasm_str_apart, wasm_str_faulted};
ghost use Rattle.canon_reading.specs.OfTrees.{text_priced, untrue};
ghost use Rattle.canon_lift.specs.Ranges.{TextTested, wasm_str_reading};
ghost use Rattle.canon_reading.specs.Reading.{setting_in};
ghost use Rattle.canon_reading.specs.Taken.{none_taken};
ghost use Rattle.canon_lift.specs.Views.{IsDecodedText, TextFits, TextLost, WideLost, text_in};

use crate::Lift;
use canon_bytes::{ends_inside, load_u32};
use canon_context::{At, Fault, LiftContext, MemoryView};
use canon_lift_parts::{word_at, word_u32};
use canon_memory::ValRaw;
use canon_text::{CowStr, DecodeError, UTF16_TAG, decode_latin1, decode_utf8, decode_utf16};
use canon_typed::{ComponentType, TypecheckFailed};
use canon_types::{
    CanonicalAbiInfo, InstanceType, InterfaceType, OptionsIndex, StoreId, StringEncoding,
};
use std::alloc::Global;

/// A text that stays in the memory that it was lifted from. Its spelling is tested as it is read.
#[derive(Drop)]
pub struct WasmStr {
    pub(crate) pointer: u32,
    pub(crate) count: u32,
    pub(crate) at: At, // where its pointer stands
    pub(crate) options: OptionsIndex,
    pub(crate) store: StoreId,
}

impl WasmStr {
    /// Whether the text is of the view's store, its options are the component's, and its range lies inside the view's memory, which is the
    /// condition of `to_str`.
    pub fn fits(&self, view: &MemoryView<'_>) -> bool
        ensures { IsTrue result ↔ TextFits view.now self.now }
    {
        if self.store == view.store_id() && view.has_options(self.options) {
            let (bytes, _) = text_range(view.options(self.options).string_encoding, self.count);
            ends_inside(view.memory(), u64::from(self.pointer), bytes, 1)
        } else {
            false
        }
    }

    /// The text itself, borrowed where its bytes are UTF-8 already. A bad spelling is blamed on where the text's pointer stood.
    pub fn to_str<'a>(&self, alloc: Global, view: &MemoryView<'a>) -> Result<CowStr<'a>, Fault>
        requires { TextFits view.now self.now }
        ensures text { IfOk result (IsDecodedText (encoding_at view.now.component.now self.now.options) self.now.count (text_in view.now self.now)) }
        ensures lost { IfErr result (TextLost (encoding_at view.now.component.now self.now.options) self.now.count (text_in view.now self.now) self.now.at) }
    {
        let encoding = view.options(self.options).string_encoding;
        let (count, _) = text_range(encoding, self.count);
        let start = self.pointer as usize;
        let bytes = &view.memory()[start..start + count as usize];
        decoded(alloc, encoding, self.count, bytes, self.at)
    }
}

/// The text of a length that bytes spell, whose pointer stood at `at`.
fn decoded<'a>(
    alloc: Global,
    encoding: StringEncoding,
    units: u32,
    bytes: &'a [u8],
    at: At,
) -> Result<CowStr<'a>, Fault>
    requires { length bytes.now ≡ text_bytes (encoding_of encoding) units }
    ensures text { IfOk result (IsDecodedText (encoding_of encoding) units bytes.now) }
    ensures lost { IfErr result (TextLost (encoding_of encoding) units bytes.now at) }
{
    match encoding {
        StringEncoding::Utf8 => match decode_utf8(bytes) {
            Ok(text) => Ok(text),
            Err(_) => Err(Fault::InvalidUtf8(at)),
        },
        StringEncoding::Utf16 => decoded_wide(alloc, bytes, at),
        StringEncoding::CompactUtf16 => {
            if u64::from(units) < UTF16_TAG {
                match decode_latin1(alloc, bytes) {
                    Ok(text) => Ok(text),
                    Err(_) => Err(Fault::OutOfMemory),
                }
            } else {
                decoded_wide(alloc, bytes, at)
            }
        }
    }
}

/// The text that units of 16 bits spell.
fn decoded_wide<'a>(alloc: Global, bytes: &'a [u8], at: At) -> Result<CowStr<'a>, Fault>
    requires { length bytes.now % 2 ≡ 0 }
    ensures text { IfOk result (λ t. Decodes in_utf16 bytes.now (cow_text t) × (is_borrowed t ≡ false)) }
    ensures lost { IfErr result (WideLost bytes.now at) }
{
    match decode_utf16(alloc, bytes) {
        Ok(text) => Ok(text),
        Err(DecodeError::Text(_)) => Err(Fault::InvalidUtf16(at)),
        Err(DecodeError::OutOfMemory) => Err(Fault::OutOfMemory),
    }
}

/// How many bytes spell a text of a length, and the alignment of its pointer.
fn text_range(encoding: StringEncoding, length: u32) -> (u64, u64)
    ensures bytes { result.0 ≡ text_bytes (encoding_of encoding) length }
    ensures align { result.1 ≡ text_align (encoding_of encoding) }
{
    let length = u64::from(length);
    match encoding {
        StringEncoding::Utf8 => (length, 1),
        StringEncoding::Utf16 => (2 * length, 2),
        StringEncoding::CompactUtf16 if length >= UTF16_TAG => (2 * (length - UTF16_TAG), 2),
        StringEncoding::CompactUtf16 => (length, 2),
    }
}

/// The text of this length at a pointer that stands at `at`: it is tested that the pointer is aligned and that the text ends inside
/// memory, then its bytes are charged.
fn text_from<U, G>(
    cx: &mut LiftContext<'_, U, G>,
    pointer: u32,
    length: u32,
    at: At,
) -> Result<WasmStr, Fault>
    ensures tested { TextTested (setting_in cx.old.core.now cx.old.options) pointer length at cx.old.fuel result cx.new.fuel }
    ensures same { cx.new ≡ record cx.old { fuel = cx.new.fuel } }
{
    let (bytes, align) = text_range(cx.core.encoding(cx.options), length);
    if u64::from(pointer) % align != 0 {
        return Err(Fault::PointerMisaligned(at));
    }
    if !ends_inside(cx.memory(), u64::from(pointer), bytes, 1) {
        return Err(Fault::PointerOutOfBounds(at));
    }
    match cx.consume_fuel(bytes) {
        Ok(()) => {}
        Err(fault) => return Err(fault),
    }
    Ok(WasmStr {
        pointer,
        count: length,
        at,
        options: cx.options,
        store: cx.store_id(),
    })
}

impl ComponentType for WasmStr {
    const MAY_REQUIRE_REALLOC: bool = true;

    const IS_RUST_UNIT_TYPE: bool = false;

    ghost is_unit = { false };

    ghost fits = { λ i t. t ≡ ty.String };

    ghost means = { λ v t. ⊥ };

    ghost walks = { λ v t. ⊥ };

    ghost is_told = { false };

    ghost lifts = { λ v t. ⊥ };

    ghost cost = { text_length };

    ghost host_bytes = { 32 };

    fn is_unit_type() -> bool {
        false
    }

    fn host_size() -> u64 {
        32
    }

    fn abi() -> Option<CanonicalAbiInfo> {
        Some(CanonicalAbiInfo::POINTER_PAIR)
    }

    fn typecheck(ty: &InterfaceType, _types: &InstanceType) -> Result<(), TypecheckFailed> {
        match ty {
            InterfaceType::String => Ok(()),
            _ => Err(TypecheckFailed),
        }
    }

    ghost typed = { λ v i type u f h. absurd h };

    ghost walked = { λ v t h. h };
}

impl Lift for WasmStr {
    ghost reading = { wasm_str_reading };

    ghost kept = { plain_kept (λ w at s. refl) };

    fn unit_value() -> Option<WasmStr> {
        None
    }

    fn linear_lift_from_memory<U, G>(
        _alloc: Global,
        cx: &mut LiftContext<'_, U, G>,
        _ty: InterfaceType,
        at: u64,
    ) -> Result<WasmStr, Fault> {
        let pointer = load_u32(cx.memory(), at);
        let length = load_u32(cx.memory(), at + 4);
        text_from(cx, pointer, length, At::Address(at))
    }

    fn lift_words<U, G>(
        _alloc: Global,
        cx: &mut LiftContext<'_, U, G>,
        _ty: InterfaceType,
        src: &[ValRaw],
        at: usize,
    ) -> Result<WasmStr, Fault> {
        let pointer = word_u32(src, at);
        let length = word_u32(src, at + 1);
        text_from(cx, pointer, length, word_at(at))
    }

    ghost taken = { λ w at s before after v h. none_taken before after h.3 };

    ghost apart = { wasm_str_apart };

    ghost faulted = { wasm_str_faulted };

    ghost priced = { text_priced (λ w at s. refl) };

    ghost told = { λ h. untrue h };
}
