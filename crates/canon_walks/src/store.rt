//! Values, stored in memory.

ghost use Rattle.std.specs.Prelude.{ℕ, ◌≡◌, ◌≤◌, ◌+◌, ◌^◌, false, Ok, length};
ghost use Rattle.canon_model.specs.Layout.{members_end, size};
ghost use Rattle.canon_model.specs.Shape.{member_count, string};
ghost use Rattle.canon_types.specs.Table.{Knows, shape_of};
ghost use Rattle.canon_plan.specs.Plan.{shape_of_handle, type_of_handle};
ghost use Rattle.canon_context.specs.Core.{component_types};
ghost use Rattle.canon_plan.specs.Element.{IsKnown, list_shape};
ghost use Rattle.canon_value_parts.specs.Elements.{element_in, list_value};
ghost use Rattle.canon_value_parts.specs.Stores.{PartsStoreTo, PlacesTo, StoresTo};
ghost use Rattle.canon_val.specs.declared.val.Val.TheVariants as val;
ghost use Rattle.canon_value_parts.specs.View.{HaveKnownTypes, viewed_names, viewed_shapes, viewed_values};
ghost use Rattle.canon_value_parts.specs.Words.{IsWordOf};

use canon_bytes::{block_size, put_low_bytes, put_pair};
use canon_context::{Core, Fault};
use canon_memory::Guest;
use canon_plan::{HandleType, element_abi};
use canon_resources::ResourceAny;
use canon_types::{InterfaceType, OptionsIndex};
use canon_val::Val;
use canon_value_parts::{
    Elements, Members, Placed, View, ask_items, count_of, element_count, element_of, give_handle,
    member_of, members_in, place_text, store_names, view_of,
};

/// Stores a value that has this place among the values, and answers the next one's place.
#[cycle(store)]
pub fn store_value<T, G: Guest>(
    core: &mut Core<T, G>,
    options: OptionsIndex,
    value: &Val,
    ty: InterfaceType,
    at: u64,
    place: u64,
) -> Result<u64, Fault>
    requires known { Knows (component_types core.old) ty }
    requires small { length core.old.memory ≤ 2 ^ 32 }
    requires room { at + size false (shape_of (component_types core.old) ty) ≤ length core.old.memory }
    ensures stores { StoresTo G.seen G.moves options core.old core.new (shape_of (component_types core.old) ty) at value.now place result }
{
    match view_of(core.types(), &ty, value, place) {
        Ok(View::Scalar(word)) => Ok(store_word(core, word, value, ty, at, place)),
        Ok(View::Text(text)) => store_text(core, options, text, at, place),
        Ok(View::Handle(handle, resource)) => store_handle(core, handle, resource, at, place),
        Ok(View::List(list)) => store_list(core, options, &list, at, place),
        Ok(View::Members(members)) => {
            store_parts(core, options, &members, at, place, place.saturating_add(1))
        }
        Ok(View::Case(case)) => {
            let size = case.info.size.byte_size();
            let inner = at + u64::from(case.info.payload_offset32);
            put_low_bytes(core.as_slice_mut(), at, u64::from(case.tag), size);
            store_parts(
                core,
                options,
                &case.payload,
                inner,
                place,
                place.saturating_add(1),
            )
        }
        Ok(View::Flags(names)) => store_names(core, names, &ty, at, place),
        Err(fault) => Err(fault),
    }
}

/// Stores the members of a value that has this place, from an address on; the first has the place `first`. The name of each
/// is tested just before it.
#[cycle(store)]
pub fn store_parts<T, G: Guest>(
    core: &mut Core<T, G>,
    options: OptionsIndex,
    members: &Members<'_>,
    at: u64,
    place: u64,
    first: u64,
) -> Result<u64, Fault>
    requires known { HaveKnownTypes (component_types core.old) members.now }
    requires count { length (viewed_values members.now) ≡ member_count (viewed_shapes (component_types core.old) members.now) }
    requires small { length core.old.memory ≤ 2 ^ 32 }
    requires room { at + members_end false 0 (viewed_shapes (component_types core.old) members.now) ≤ length core.old.memory }
    ensures stores { PartsStoreTo G.seen G.moves options core.old core.new place (viewed_shapes (component_types core.old) members.now) 0 at
        (viewed_names members.now) (viewed_values members.now) first result }
{
    let mut next = first;
    let mut end = 0;
    for k in 0..count_of(members) {
        let types = core.types();
        let member = member_of(types, members, k);
        if !member.is_named {
            return Err(Fault::FieldName(place));
        }
        let start = types.canonical_abi(&member.ty).next_field32_size(&mut end);
        match store_value(core, options, member.value, member.ty, at + start, next) {
            Ok(after) => next = after,
            Err(fault) => return Err(fault),
        }
    }
    Ok(next)
}

#[cycle(store)]
fn store_list<T, G: Guest>(
    core: &mut Core<T, G>,
    options: OptionsIndex,
    list: &Elements<'_>,
    at: u64,
    place: u64,
) -> Result<u64, Fault>
    requires known { IsKnown (component_types core.old) (element_in list.now) }
    requires small { length core.old.memory ≤ 2 ^ 32 }
    requires room { at + 8 ≤ length core.old.memory }
    ensures stores { StoresTo G.seen G.moves options core.old core.new (list_shape (component_types core.old) (element_in list.now)) at (list_value list.now) place result }
{
    match place_list(core, options, list, place) {
        Ok(block) => {
            put_pair(core.as_slice_mut(), at, block.pointer, block.length);
            Ok(block.next)
        }
        Err(fault) => Err(fault),
    }
}

/// Asks for the block of a list that has this place, and stores its elements there (CanonicalABI.md, "store_list").
#[cycle(store)]
pub fn place_list<T, G: Guest>(
    core: &mut Core<T, G>,
    options: OptionsIndex,
    list: &Elements<'_>,
    place: u64,
) -> Result<Placed, Fault>
    requires known { IsKnown (component_types core.old) (element_in list.now) }
    requires small { length core.old.memory ≤ 2 ^ 32 }
    ensures places { PlacesTo G.seen G.moves options core.old core.new (list_shape (component_types core.old) (element_in list.now)) (list_value list.now) place result }
{
    let length = element_count(list);
    let element = element_of(list);
    let size = element_abi(core.types(), &element).size32;
    let Some(bytes) = block_size(length, size) else {
        return Err(Fault::SizeOverflow(length));
    };
    let pointer = match ask_items(core, &element, length, bytes) {
        Ok(pointer) => pointer,
        Err(fault) => return Err(fault),
    };
    let members = members_in(list);
    match store_parts(
        core,
        options,
        &members,
        pointer,
        place,
        place.saturating_add(1),
    ) {
        Ok(next) => Ok(Placed {
            pointer,
            length,
            next,
        }),
        Err(fault) => Err(fault),
    }
}

/// Stores the handle that the guest is given for a resource.
fn store_handle<T, G: Guest>(
    core: &mut Core<T, G>,
    handle: HandleType,
    resource: ResourceAny,
    at: u64,
    place: u64,
) -> Result<u64, Fault>
    requires known { Knows (component_types core.old) (type_of_handle handle) }
    requires small { length core.old.memory ≤ 2 ^ 32 }
    requires room { at + 4 ≤ length core.old.memory }
    ensures stores { (options : ℕ) → StoresTo G.seen G.moves options core.old core.new (shape_of_handle handle) at (val.Resource resource) place result }
{
    match give_handle(core, handle, resource) {
        Ok(number) => {
            put_low_bytes(core.as_slice_mut(), at, u64::from(number), 4);
            Ok(place.saturating_add(1))
        }
        Err(fault) => Err(fault),
    }
}

fn store_text<T, G: Guest>(
    core: &mut Core<T, G>,
    options: OptionsIndex,
    text: &String,
    at: u64,
    place: u64,
) -> Result<u64, Fault>
    requires small { length core.old.memory ≤ 2 ^ 32 }
    requires room { at + 8 ≤ length core.old.memory }
    ensures stores { StoresTo G.seen G.moves options core.old core.new string at (val.String text.now) place result }
{
    match place_text(core, options, text, place) {
        Ok(block) => {
            put_pair(core.as_slice_mut(), at, block.pointer, block.length);
            Ok(block.next)
        }
        Err(fault) => Err(fault),
    }
}

/// Stores the word of a scalar, cut to the scalar's bytes.
fn store_word<T, G: Guest>(
    core: &mut Core<T, G>,
    word: u64,
    value: &Val,
    ty: InterfaceType,
    at: u64,
    place: u64,
) -> u64
    requires known { Knows (component_types core.old) ty }
    requires word { IsWordOf ty value.now word }
    requires small { length core.old.memory ≤ 2 ^ 32 }
    requires room { at + size false (shape_of (component_types core.old) ty) ≤ length core.old.memory }
    ensures stores { (options : ℕ) → StoresTo G.seen G.moves options core.old core.new (shape_of (component_types core.old) ty) at value.now place (Ok result) }
{
    let _ = value;
    let size = core.types().canonical_abi(&ty).size32;
    put_low_bytes(core.as_slice_mut(), at, word, size);
    place.saturating_add(1)
}
