//! Each public function of canon_value, of its contexts and of its cores that no script reaches, and what no script can show. One function owns
//! each core and lends it to another, which gives back small values that a test asserts on.

ghost use Rattle.std.specs.Prelude.{◌≡◌, [], IfSome, length};

mod contexts;
mod handles;

use canon_ledger::HostResourceIndex;
use canon_memory::{Memory, ValRaw};
use canon_resources::ResourceAny;
use canon_scripted::ScriptedGuest;
use canon_types::{
    CanonicalOptions, ComponentTypes, InstanceType, InterfaceType, OptionsIndex, ResourceKind,
    ResourceType, RuntimeInstance, StoreId, StringEncoding, TypeBuilder, TypeResourceTable,
    TypeResourceTableIndex,
};
use canon_value::{
    At, Component, Core, Fault, HostcallFuelExhausted, LiftContext, LowerContext, Val,
    linear_lift_from_flat, linear_lift_from_memory, linear_lower_to_flat, linear_lower_to_memory,
};
use std::alloc::Global;

type TestCore = Core<u32, ScriptedGuest>;

/// A component of these types, with options of instance 3 alone.
fn component_of(alloc: Global, types: ComponentTypes) -> Option<Component>
    ensures options { IfSome result (λ c. length c.options.items ≡ 1) }
    ensures exports { IfSome result (λ c. c.exports.items ≡ []) }
    ensures imports { IfSome result (λ c. c.imports.items ≡ []) }
{
    let options = CanonicalOptions {
        instance: RuntimeInstance::from_u32(3),
        string_encoding: StringEncoding::Utf8,
        async_: false,
        post_return: None,
    };
    let options = vec![in alloc; options].ok()?;
    Some(Component {
        types: InstanceType::new(types, StoreId::from_u64(6)),
        options,
        exports: Vec::new(alloc),
        imports: Vec::new(alloc),
    })
}

/// The first bytes of memory.
const FRONT: [u8; 6] = [1, 2, 3, 4, 0xff, b'a'];

/// A core of these types, of 64 bytes of memory and of a guest that allocates from 16 up.
fn core_of(alloc: Global, types: ComponentTypes) -> Option<TestCore> {
    let component = component_of(alloc, types)?;
    let mut memory = Memory::new(alloc, 64).ok()?;
    memory.as_slice_mut()[..6].copy_from_slice(&FRONT);
    let guest = ScriptedGuest::new(alloc, 16);
    let id = StoreId::from_u64(6);
    Core::new(alloc, id, 5, guest, memory, component, 100, 1_000).ok()
}

/// One resource type of the host, handles of which instance 3 has in its table, and its number.
fn resource_types(alloc: Global) -> Option<(ComponentTypes, TypeResourceTableIndex)> {
    let mut builder = TypeBuilder::new(alloc);
    let table = TypeResourceTable {
        instance: RuntimeInstance::from_u32(3),
        kind: ResourceKind::HostDynamic(5),
        defined_here: false,
    };
    let number = builder.add_resource_table(table).ok()?;
    Some((builder.finish(), number))
}

/// What something answers of a core of that type, and of the type's number.
fn with_core<R, F: FnOnce(Global, &mut TestCore, TypeResourceTableIndex) -> Option<R>>(
    alloc: Global,
    ask: F,
) -> Option<R>
    requires { F.IsAlwaysCallable ask }
{
    let (types, number) = resource_types(alloc)?;
    let mut core = core_of(alloc, types)?;
    ask(alloc, &mut core, number)
}

/// An own handle of the host, by the generation of its index 1, which is the first of a table.
fn own_handle(generation: u32) -> ResourceAny {
    let index = HostResourceIndex::new(1, generation);
    ResourceAny::new(index, ResourceType::host_dynamic(5), true)
}

fn text_of(alloc: Global, text: &str) -> Option<Val> {
    Some(Val::String(String::from_str(alloc, text).ok()?))
}

/// Whether what was lifted is this text.
fn is_text(value: &Result<Val, Fault>, text: &str) -> bool {
    match value {
        Ok(Val::String(lifted)) => lifted.as_str() == text,
        _ => false,
    }
}

/// Whether a text is lowered to words, these are its address and its length, and it is lifted from them.
#[tactic(auto, unfolding(canon_model::specs::Layout::flat))]
fn text_in_words(
    alloc: Global,
    core: &mut TestCore,
    _number: TypeResourceTableIndex,
) -> Option<[bool; 3]> {
    if core.component().options.is_empty() {
        return None;
    }
    let text = text_of(alloc, "é")?;
    let mut words = [ValRaw::u64(u64::MAX); 2];
    let mut cx = LowerContext::new(core, OptionsIndex::from_u32(0));
    let lowered = linear_lower_to_flat(&text, &mut cx, InterfaceType::String, &mut words);
    let mut cx = LiftContext::new(core, OptionsIndex::from_u32(0));
    let value = linear_lift_from_flat(alloc, &mut cx, InterfaceType::String, &words, 0);
    let is_lifted = is_text(&value, "é");
    let told = words == [ValRaw::u64(16), ValRaw::u64(2)];
    Some([lowered == Ok(()), told, is_lifted])
}

#[test]
fn a_text_is_lowered_to_words_and_lifted(rt: HostRuntime) {
    assert!(rt; with_core(rt.alloc(), text_in_words) == Some([true; 3]));
}

/// Whether a text is stored, memory is what it should be then, and the text is loaded.
#[tactic(auto, unfolding(canon_model::specs::Layout::size, canon_model::specs::Layout::align))]
fn text_in_memory(
    alloc: Global,
    core: &mut TestCore,
    _number: TypeResourceTableIndex,
) -> Option<[bool; 3]> {
    if core.component().options.is_empty() || core.memory().len() < 64 {
        return None;
    }
    let text = text_of(alloc, "é")?;
    let mut cx = LowerContext::new(core, OptionsIndex::from_u32(0));
    let stored = linear_lower_to_memory(&text, &mut cx, InterfaceType::String, 8);
    let mut cx = LiftContext::new(core, OptionsIndex::from_u32(0));
    // `FRONT`; at 8, by CanonicalABI.md's store_string, the address 16 and the length 2; at 16, U+00E9 in UTF-8.
    let is_told = cx.memory().starts_with(&[
        1, 2, 3, 4, 0xff, b'a', 0, 0, 16, 0, 0, 0, 2, 0, 0, 0, 0xc3, 0xa9,
    ]);
    let value = linear_lift_from_memory(alloc, &mut cx, InterfaceType::String, 8);
    let is_loaded = is_text(&value, "é");
    Some([stored == Ok(()), is_told, is_loaded])
}

#[test]
fn a_text_is_stored_and_loaded(rt: HostRuntime) {
    assert!(rt; with_core(rt.alloc(), text_in_memory) == Some([true; 3]));
}

/// Whether values are equal: floats, a number to one of another kind, and resources.
fn equal_values() -> [bool; 8] {
    let nan = Val::Float32(0x7fc0_0000);
    let resource = Val::Resource(own_handle(0));
    [
        nan == Val::Float32(0xffc0_0001),
        nan == Val::Float32(0x7f80_0000),
        Val::Float32(0) == Val::Float32(0x8000_0000),
        Val::Float64(0x7ff0_0000_0000_0001) == Val::Float64(u64::MAX),
        Val::from(3_u8) == Val::from(3_i8),
        resource == Val::Resource(own_handle(0)),
        resource == Val::Resource(own_handle(1)),
        resource == Val::U32(1),
    ]
}

/// A variant of this name, with a NaN as its payload.
fn variant_of(alloc: Global, name: &str) -> Option<Val> {
    let name = String::from_str(alloc, name).ok()?;
    let payload = Box::new(alloc, Val::Float32(0x7fc0_0000)).ok()?;
    Some(Val::Variant(name, Some(payload)))
}

/// Whether a copy of a value is equal to it.
fn is_copied(alloc: Global, value: &Val) -> bool {
    match &value.clone(alloc) {
        Ok(copy) => copy == value,
        Err(_) => false,
    }
}

/// Whether a copy of a variant is equal to it, and whether it and a bool are called what they should be.
fn variant_told(alloc: Global) -> Option<(bool, bool)> {
    let value = variant_of(alloc, "a")?;
    let is_equal = is_copied(alloc, &value);
    let names = (value.desc(), Val::from(true).desc());
    Some((is_equal, names == ("variant", "bool")))
}

#[test]
fn values_are_equal_by_their_parts(rt: HostRuntime) {
    // As of wasmtime's Val: NaNs are equal, whatever their bits, and the two zeros differ. 0x7f80_0000 is infinity.
    assert!(rt; equal_values() == [true, false, false, true, false, true, false, false]);
    assert!(rt; variant_told(rt.alloc()) == Some((true, true)));
}

/// Whether a fault prints as this text.
fn prints(alloc: Global, fault: Fault, want: &str) -> Option<bool> {
    let text = format!(in alloc; "{fault}").ok()?;
    Some(text.as_str() == want)
}

/// Whether the error of fuel that is exhausted prints as this text.
fn exhausted_prints(alloc: Global, want: &str) -> Option<bool> {
    let error = HostcallFuelExhausted;
    let text = format!(in alloc; "{error}").ok()?;
    Some(text.as_str() == want)
}

#[test]
fn errors_are_told_by_their_texts(rt: HostRuntime) {
    for (fault, want) in [
        (Fault::TypeMismatch(3), "TypeMismatch 3"),
        (
            Fault::PointerOutOfBounds(At::Word(0)),
            "PointerOutOfBounds w0",
        ),
        (
            Fault::PointerOutOfBounds(At::Address(1024)),
            "PointerOutOfBounds @1024",
        ),
    ] {
        assert!(rt; prints(rt.alloc(), fault, want) == Some(true), "{want}");
    }
    let want =
        "too much data is being copied between the host and the guest: fuel allocated for hostcalls has been exhausted";
    assert!(rt; exhausted_prints(rt.alloc(), want) == Some(true));
}
