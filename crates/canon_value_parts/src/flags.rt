//! Flags, as bits of bytes or of words: the lowest bit of the first one is the first name's.

ghost use Rattle.std.specs.Prelude.{[], AllPairs, ℕ, ◌≡◌, ◌≢◌, ◌≤◌, ◌<◌, ◌+◌, ◌/◌, ◌%◌, ◌^◌, ◌==◌, IfErr, IfOk, IfSome, IsNone, false, length, map, slice_index, slice_index_or, string_bytes, true};
ghost use Rattle.std.specs.Int.{bit_at};
ghost use Rattle.canon_lowering.specs.Steps.{Writes};
ghost use Rattle.canon_memory.specs.Realloc.{block};
ghost use Rattle.canon_model.specs.Layout.{flag_words, flat, size};
ghost use Rattle.canon_model.specs.Reach.{StoredFault, reach_cost};
ghost use Rattle.canon_lowering.specs.Storing.{narrow};
ghost use Rattle.canon_abi.specs.Options.{encoding_of};
ghost use Rattle.canon_context.specs.Told.{Exactly, IsNoRefusal, LiftBlames};
ghost use Rattle.canon_value_parts.specs.Loads.{IsLoaded};
ghost use Rattle.canon_value_parts.specs.Lifts.{LiftsTo};
ghost use Rattle.canon_ledger.specs.Ledger.{LedgerState};
ghost use Rattle.canon_model.specs.Leaves.{flat_leaves, reach_leaves};
ghost use Rattle.canon_model.specs.Memory.{low};
ghost use Rattle.canon_passing.specs.Passed.{LiftsHandles};
ghost use Rattle.canon_value_parts.specs.Resources.{resources};
ghost use Rattle.canon_model.specs.Shape.{Name};
ghost use Rattle.canon_types.specs.Table.{Knows, shape_of};
ghost use Rattle.canon_context.specs.Core.{component_types};
ghost use Rattle.canon_value_parts.specs.Flags.{AreFlags, AreSetInWords, AreUnpaid, HasPlace, MarksHaveRoom, IsFlagsType, SetsBit, SomeUnknown, digit_of, flag_names, marked_number, width_of};
ghost use Rattle.canon_value_parts.specs.Stores.{StoresTo};
ghost use Rattle.canon_val.specs.Value.{Occurs};
ghost use Rattle.canon_passing.specs.Words.{WordsWritten};
ghost use Rattle.canon_value_parts.specs.Words.{LowersTo};
ghost use Rattle.canon_val.specs.declared.val.Val.TheVariants as val;

use crate::lists::keep;
use crate::spot::Spot;
use canon_context::{Core, Fault, Source, charge};
use canon_memory::{Guest, ValRaw};
use canon_types::{ComponentTypes, InterfaceType, TypeFlagsIndex};
use canon_val::Val;
use std::alloc::Global;

/// The number of a name among those of the type. The table hashes its names, so that flags take time linear in the names
/// of the type and of the value together.
pub fn number_of(types: &ComponentTypes, i: TypeFlagsIndex, name: &String) -> Option<usize>
    requires known { Knows types.now (InterfaceType.Flags i) }
    ensures some { IfSome result (λ k. (k < length (flag_names types.now i)) × ((d : Name) → slice_index_or (flag_names types.now i) k d ≡ string_bytes name.now)) }
    ensures none { IsNone result → ¬ Occurs (string_bytes name.now) (flag_names types.now i) }
    ensures differ { AllPairs (λ a b. a ≢ b) (flag_names types.now i) }
{
    types.flags(i).names.get_index_of(name.as_str())
}

// ---- lowering

/// Stores flags of these names as a value of the type.
pub fn store_names<T, G: Guest>(
    core: &mut Core<T, G>,
    set: &Vec<String>,
    ty: &InterfaceType,
    at: u64,
    place: u64,
) -> Result<u64, Fault>
    requires known { Knows (component_types core.old) ty.now }
    requires kind { IsFlagsType ty.now }
    requires small { length core.old.memory ≤ 2 ^ 32 }
    requires room { at + size false (shape_of (component_types core.old) ty.now) ≤ length core.old.memory }
    ensures stores { (options : ℕ) → StoresTo G.seen G.moves options core.old core.new (shape_of (component_types core.old) ty.now) at (val.Flags set.now) place result }
{
    match ty {
        InterfaceType::Flags(i) => store_flags(core, set, *i, at, place),
        _ => unreachable!(),
    }
}

/// Lowers flags of these names as a value of the type.
pub fn lower_names<T, G: Guest>(
    core: &Core<T, G>,
    set: &Vec<String>,
    ty: &InterfaceType,
    dst: &mut [ValRaw],
    from: Spot,
) -> Result<Spot, Fault>
    requires known { Knows (component_types core.now) ty.now }
    requires kind { IsFlagsType ty.now }
    requires small { length core.now.memory ≤ 2 ^ 32 }
    requires room { from.word + flat (shape_of (component_types core.now) ty.now) ≤ length dst.old }
    ensures lowers { (options : ℕ) → LowersTo G.seen G.moves options core.now core.now dst.old dst.new from result (shape_of (component_types core.now) ty.now) (val.Flags set.now) }
    ensures written { WordsWritten from.word (from.word + flat (shape_of (component_types core.now) ty.now)) dst.old dst.new }
{
    match ty {
        InterfaceType::Flags(i) => lower_flags(core, set, *i, dst, from),
        _ => unreachable!(),
    }
}

/// Stores flags (CanonicalABI.md, "store_flags"). Answers `UnknownFlag` for a name that isn't one of the type's.
fn store_flags<T, G: Guest>(
    core: &mut Core<T, G>,
    set: &Vec<String>,
    i: TypeFlagsIndex,
    at: u64,
    place: u64,
) -> Result<u64, Fault>
    requires known { Knows (component_types core.old) (InterfaceType.Flags i) }
    requires small { length core.old.memory ≤ 2 ^ 32 }
    requires room { at + size false (shape_of (component_types core.old) (InterfaceType.Flags i)) ≤ length core.old.memory }
    ensures stores { (options : ℕ) → StoresTo G.seen G.moves options core.old core.new (shape_of (component_types core.old) (InterfaceType.Flags i)) at (val.Flags set.now) place result }
{
    let size = core.types().flags(i).abi.size32;
    clear_bytes(core.as_slice_mut(), at, size);
    for name in set {
        let Some(k) = number_of(core.types(), i, name) else {
            return Err(Fault::UnknownFlag(place));
        };
        mark_byte(core.as_slice_mut(), at, k);
    }
    Ok(place.saturating_add(1))
}

/// Lowers flags (CanonicalABI.md, "lower_flat_flags"), with the same fault.
fn lower_flags<T, G: Guest>(
    core: &Core<T, G>,
    set: &Vec<String>,
    i: TypeFlagsIndex,
    dst: &mut [ValRaw],
    from: Spot,
) -> Result<Spot, Fault>
    requires known { Knows (component_types core.now) (InterfaceType.Flags i) }
    requires small { length core.now.memory ≤ 2 ^ 32 }
    requires room { from.word + flat (shape_of (component_types core.now) (InterfaceType.Flags i)) ≤ length dst.old }
    ensures lowers { (options : ℕ) → LowersTo G.seen G.moves options core.now core.now dst.old dst.new from result (shape_of (component_types core.now) (InterfaceType.Flags i)) (val.Flags set.now) }
    ensures written { WordsWritten from.word (from.word + flat (shape_of (component_types core.now) (InterfaceType.Flags i))) dst.old dst.new }
{
    let types = core.types();
    let count = types.flags(i).names.len().div_ceil(32);
    if !put_flags(types, set, i, dst, from.word, count) {
        return Err(Fault::UnknownFlag(from.place));
    }
    Ok(Spot {
        word: from.word + count,
        place: from.place.saturating_add(1),
    })
}

/// Writes flags into so many words; whether each name was one of the type's.
fn put_flags(
    types: &ComponentTypes,
    set: &Vec<String>,
    i: TypeFlagsIndex,
    dst: &mut [ValRaw],
    first: usize,
    count: usize,
) -> bool
    requires known { Knows types.now (InterfaceType.Flags i) }
    requires count { count ≡ flag_words (length (flag_names types.now i)) }
    requires room { first + count ≤ length dst.old }
    ensures written { WordsWritten first (first + count) dst.old dst.new }
    ensures put { result ≡ true → AreSetInWords (flag_names types.now i) (map (λ s. string_bytes s) set.now.items) dst.new first }
    ensures unknown { result ≡ false → SomeUnknown (flag_names types.now i) (map (λ s. string_bytes s) set.now.items) }
{
    clear_words(dst, first, count);
    for name in set {
        let Some(k) = number_of(types, i, name) else {
            return false;
        };
        mark_word(dst, first, k);
    }
    true
}

/// Makes so many bytes from an address on zero.
fn clear_bytes(memory: &mut [u8], at: u64, size: u32)
    requires room { at + size ≤ length memory.old }
    ensures writes { Writes (block at size) memory.old memory.new }
    ensures none { (j : ℕ) → at ≤ j → j < at + size → slice_index memory.new j ≡ 0 }
{
    let start = at as usize;
    memory[start..start + size as usize].fill(0);
}

/// Makes so many words from one on zero.
fn clear_words(dst: &mut [ValRaw], first: usize, count: usize)
    requires room { first + count ≤ length dst.old }
    ensures written { WordsWritten first (first + count) dst.old dst.new }
    ensures none { (j : ℕ) → first ≤ j → j < first + count → slice_index dst.new j ≡ 0 }
{
    for j in first..first + count {
        dst[j] = ValRaw::u32(0);
    }
}

/// Sets the bit of this number, of those in the bytes from an address on.
pub fn mark_byte(memory: &mut [u8], at: u64, k: usize)
    requires room { at + k / 8 < length memory.old }
    ensures { SetsBit 8 (at + k / 8) (k % 8) memory.old memory.new }
{
    let index = at as usize + k / 8;
    let byte = memory[index];
    memory[index] = byte | 1 << (k % 8);
}

/// Sets it in the low halves of the words from one on.
fn mark_word(dst: &mut [ValRaw], first: usize, k: usize)
    requires room { first + k / 32 < length dst.old }
    ensures { SetsBit 32 (first + k / 32) (k % 32) dst.old dst.new }
{
    let index = first + k / 32;
    dst[index] = ValRaw::u32(dst[index].get_u32() | 1 << (k % 32));
}

// ---- lifting

/// Where the bits of flags are read: in bytes from an address on, or in the low halves of words from one on.
#[derive(Clone, Copy)]
pub enum Marks<'a> {
    /// These bytes, from this address on.
    Bytes(&'a [u8], u64),
    /// These words, from this one on.
    Words(&'a [ValRaw], usize),
}

/// Loads flags (CanonicalABI.md, "load_flags").
pub fn load_flags(
    alloc: Global,
    source: &Source<'_>,
    fuel: &mut u64,
    i: TypeFlagsIndex,
    at: u64,
) -> Result<Val, Fault>
    requires known { Knows source.now.types.now (InterfaceType.Flags i) }
    requires inside { at + size false (shape_of source.now.types.now (InterfaceType.Flags i)) ≤ length source.now.memory.now }
    ensures ok { IfOk result (IsLoaded (encoding_of source.now.encoding) (narrow source.now.memory.now) (shape_of source.now.types.now (InterfaceType.Flags i)) at fuel.old fuel.new) }
    ensures err { IfErr result (LiftBlames (Exactly (StoredFault (encoding_of source.now.encoding) (narrow source.now.memory.now) (shape_of source.now.types.now (InterfaceType.Flags i)) at))
        (fuel.old < reach_cost (encoding_of source.now.encoding) (narrow source.now.memory.now) (shape_of source.now.types.now (InterfaceType.Flags i)) at)) }
    ensures handles { (l : LedgerState) → LiftsHandles resources source.now.instance.now l l (reach_leaves (narrow source.now.memory.now) (shape_of source.now.types.now (InterfaceType.Flags i)) at) result }
    ensures falls { fuel.new ≤ fuel.old }
{
    let _flags = source.types.flags(i); // the type at this index is flags
    let marks = Marks::Bytes(source.memory, at);
    flags_of(alloc, source.types, fuel, i, &marks)
}

/// Lifts flags from the words from `at` on, which moves past them (CanonicalABI.md, "lift_flat_flags").
pub fn lift_flags(
    alloc: Global,
    source: &Source<'_>,
    fuel: &mut u64,
    i: TypeFlagsIndex,
    src: &[ValRaw],
    at: &mut usize,
) -> Result<Val, Fault>
    requires known { Knows source.now.types.now (InterfaceType.Flags i) }
    requires room { at.old + flat (shape_of source.now.types.now (InterfaceType.Flags i)) ≤ length src.now }
    ensures lifts { LiftsTo (encoding_of source.now.encoding) (narrow source.now.memory.now) src.now at.old at.new fuel.old fuel.new (shape_of source.now.types.now (InterfaceType.Flags i)) result }
    ensures handles { (l : LedgerState) → LiftsHandles resources source.now.instance.now l l (flat_leaves (narrow source.now.memory.now) src.now (shape_of source.now.types.now (InterfaceType.Flags i)) at.old) result }
    ensures falls { fuel.new ≤ fuel.old }
{
    let first = *at;
    *at += source.types.flags(i).names.len().div_ceil(32);
    let marks = Marks::Words(src, first);
    flags_of(alloc, source.types, fuel, i, &marks)
}

/// The flags whose bits are set, in the order of the type. The bytes of their names are charged. Bits past the last
/// name aren't read.
#[tactic(auto, using(crate::proofs::ResourcesOf::set_has_none))]
pub fn flags_of(
    alloc: Global,
    types: &ComponentTypes,
    fuel: &mut u64,
    i: TypeFlagsIndex,
    marks: &Marks<'_>,
) -> Result<Val, Fault>
    requires known { Knows types.now (InterfaceType.Flags i) }
    requires room { MarksHaveRoom marks.now (length (flag_names types.now i)) }
    ensures ok { IfOk result (AreFlags (shape_of types.now (InterfaceType.Flags i)) (marked_number marks.now (length (flag_names types.now i))) fuel.old fuel.new) }
    ensures err { IfErr result (AreUnpaid (shape_of types.now (InterfaceType.Flags i)) (marked_number marks.now (length (flag_names types.now i))) fuel.old) }
    ensures none { IfOk result (λ v. resources v ≡ []) }
    ensures unrefused { IfErr result IsNoRefusal }
    ensures falls { fuel.new ≤ fuel.old }
{
    let names = types.flags(i).names.as_slice();
    let mut set = Vec::new(alloc);
    for k in 0..names.len() {
        if is_set(marks, k) {
            charge(fuel, names[k].len() as u64)?;
            let name = names[k].clone()?;
            keep(&mut set, name)?;
        }
    }
    Ok(Val::Flags(set))
}

/// Whether the bit of this number is set.
fn is_set(marks: &Marks<'_>, k: usize) -> bool
    requires inside { HasPlace marks.now (k / width_of marks.now) }
    ensures bit { result ≡ (bit_at (digit_of marks.now (k / width_of marks.now)) (k % width_of marks.now) == 1) }
    ensures below { digit_of marks.now (k / width_of marks.now) < 2 ^ width_of marks.now }
{
    match marks {
        Marks::Bytes(memory, at) => is_set_byte(memory, *at, k),
        Marks::Words(words, from) => is_set_word(words, *from, k),
    }
}

fn is_set_byte(memory: &[u8], at: u64, k: usize) -> bool
    requires inside { at + k / 8 < length memory.now }
    ensures bit { result ≡ (bit_at (slice_index memory.now (at + k / 8)) (k % 8) == 1) }
    ensures below { slice_index memory.now (at + k / 8) < 2 ^ 8 }
{
    let byte = memory[at as usize + k / 8];
    byte >> (k % 8) & 1 == 1
}

fn is_set_word(words: &[ValRaw], from: usize, k: usize) -> bool
    requires inside { from + k / 32 < length words.now }
    ensures bit { result ≡ (bit_at (low (slice_index words.now (from + k / 32))) (k % 32) == 1) }
{
    words[from + k / 32].get_u32() >> (k % 32) & 1 == 1
}
