//! A core, what is asked of it, and whether a value of one of its types has room in its memory or in words.

ghost use Rattle.std.specs.Prelude.{◌≡◌, ◌≤◌, ◌+◌, ◌*◌, IfOk, IfSome, IsFalse, IsTrue, false, length};
ghost use Rattle.canon_context.specs.Component.{HasOptions};
ghost use Rattle.canon_context.specs.Core.{component_types};
ghost use Rattle.canon_model.specs.Layout.{flat, size};
ghost use Rattle.canon_types.specs.Table.{Knows, shape_of};

use crate::types::Typed;
use canon_context::{Component, Core};
use canon_memory::{Memory, MemoryError, ValRaw};
use canon_scripted::ScriptedGuest;
use canon_typed::ComponentType;
use canon_types::{
    CanonicalOptions, ComponentTypes, InstanceType, InterfaceType, OutOfMemory, RuntimeInstance,
    StoreId, StringEncoding, TypeError,
};
use std::alloc::Global;

/// A core of a number, over a guest that follows a script.
pub type TestCore = Core<u32, ScriptedGuest>;

/// A core of texts of this encoding, of these types and this memory, and of 1,000 of fuel. Its guest allocates from 1024 up.
pub fn core_of(
    alloc: Global,
    string_encoding: StringEncoding,
    types: ComponentTypes,
    memory: Memory,
) -> Result<TestCore, OutOfMemory>
    requires narrow { IsFalse memory.wide }
    ensures options { IfOk result (λ c. length c.component.options.items ≡ 1) }
{
    let guest = ScriptedGuest::new(alloc, 1024);
    core_over(alloc, guest, string_encoding, types, memory)
}

/// The same over this guest.
pub fn core_over<G: Drop>(
    alloc: Global,
    guest: G,
    string_encoding: StringEncoding,
    types: ComponentTypes,
    memory: Memory,
) -> Result<Core<u32, G>, OutOfMemory>
    requires narrow { IsFalse memory.wide }
    ensures types { IfOk result (λ c. component_types c ≡ types) }
    ensures options { IfOk result (λ c. length c.component.options.items ≡ 1) }
{
    let options = CanonicalOptions {
        instance: RuntimeInstance::from_u32(3),
        string_encoding,
        async_: false,
        post_return: None,
    };
    let component = Component {
        types: InstanceType::new(types, StoreId::from_u64(6)),
        options: vec![in alloc; options]?,
        exports: Vec::new(alloc),
        imports: Vec::new(alloc),
    };
    Core::new(
        alloc,
        StoreId::from_u64(6),
        5,
        guest,
        memory,
        component,
        100,
        1_000,
    )
}

/// What is answered of a core of texts of this encoding, of this memory and these types, and of the one of its types. The core is gone
/// then, so that little is alive where a test asserts. None where there is no such core, or the memory is wide.
pub fn with_core<R, F: FnOnce(Global, &mut TestCore, &InterfaceType) -> Option<R>>(
    alloc: Global,
    string_encoding: StringEncoding,
    memory: Result<Memory, MemoryError>,
    typed: Result<Typed, TypeError>,
    ask: F,
) -> Option<R>
    requires { F.IsAlwaysCallable ask }
{
    let memory = memory.ok()?;
    if memory.is_wide() {
        return None;
    }
    let (types, ty) = typed.ok()?;
    let mut core = core_of(alloc, string_encoding, types, memory).ok()?;
    ask(alloc, &mut core, &ty)
}

/// Makes each byte of a core's memory this one, and has the guest allocate from 1024 up again.
pub fn renew(alloc: Global, core: &mut TestCore, byte: u8) {
    core.as_slice_mut().fill(byte);
    *core.guest_mut() = ScriptedGuest::new(alloc, 1024);
}

/// A memory of 64 bytes that begins with these, with pointers of 32 bits. Answers `TooLarge` where these are more.
pub fn memory_of(alloc: Global, bytes: &[u8]) -> Result<Memory, MemoryError>
    ensures narrow { IfOk result (λ m. IsFalse m.wide) }
{
    if bytes.len() > 64 {
        return Err(MemoryError::TooLarge);
    }
    let mut memory = Memory::new(alloc, 64)?;
    memory.as_slice_mut()[..bytes.len()].copy_from_slice(bytes);
    Ok(memory)
}

/// Whether the core has options of the number 0, and one of its types is the Rust type's.
fn has_type<T: ComponentType>(core: &TestCore, ty: &InterfaceType) -> bool
    ensures options { IsTrue result → HasOptions core.now.component 0 }
    ensures known { IsTrue result → Knows (component_types core.now) ty.now }
    ensures fits { IsTrue result → T.fits core.now.component.types ty.now }
{
    let component = core.component();
    let types = &component.types;
    !component.options.is_empty() && types.types().contains(ty) && T::typecheck(ty, types).is_ok()
}

/// Whether a type of the core is the Rust type's, and so many values in a row have room at an address, under the options of the number 0.
pub fn has_room<T: ComponentType>(core: &TestCore, ty: &InterfaceType, at: u32, values: u32) -> bool
    ensures options { IsTrue result → HasOptions core.now.component 0 }
    ensures known { IsTrue result → Knows (component_types core.now) ty.now }
    ensures fits { IsTrue result → T.fits core.now.component.types ty.now }
    ensures room { IsTrue result → at + values * size false (shape_of (component_types core.now) ty.now) ≤ length core.now.memory }
{
    if !has_type::<T>(core, ty) {
        return false;
    }
    let size = core.component().types.types().canonical_abi(ty).size32;
    u64::from(at) + u64::from(values) * u64::from(size) <= core.memory().len()
}

/// How many words a type of the core has, where it is the Rust type's and has at most 16, and there are options of the number 0.
pub fn word_count<T: ComponentType>(core: &TestCore, ty: &InterfaceType) -> Option<u8>
    ensures options { IfSome result (λ n. HasOptions core.now.component 0) }
    ensures known { IfSome result (λ n. Knows (component_types core.now) ty.now) }
    ensures fits { IfSome result (λ n. T.fits core.now.component.types ty.now) }
    ensures count { IfSome result (λ n. n ≡ flat (shape_of (component_types core.now) ty.now)) }
{
    if !has_type::<T>(core, ty) {
        return None;
    }
    core.component().types.types().canonical_abi(ty).flat
}

/// Whether a type of the core is the Rust type's, and these are enough words for it, under the options of the number 0.
pub fn has_words<T: ComponentType>(core: &TestCore, ty: &InterfaceType, words: &[ValRaw]) -> bool
    ensures options { IsTrue result → HasOptions core.now.component 0 }
    ensures known { IsTrue result → Knows (component_types core.now) ty.now }
    ensures fits { IsTrue result → T.fits core.now.component.types ty.now }
    ensures words { IsTrue result → 0 + flat (shape_of (component_types core.now) ty.now) ≤ length words.now }
{
    match word_count::<T>(core, ty) {
        Some(count) => count as usize <= words.len(),
        None => false,
    }
}
