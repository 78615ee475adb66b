//! What contexts and cores tell and do, but for handles, and which components are sound.

use super::{TestCore, component_of, with_core};
use canon_memory::{Step, Words};
use canon_scripted::Action;
use canon_types::{
    ComponentTypes, InterfaceType, OptionsIndex, ResourceKind, RuntimeInstance, TypeBuilder,
    TypeFuncIndex, TypeListIndex, TypeResourceTable, TypeResourceTableIndex,
};
use canon_value::{Export, Fault, Import, LiftContext, LowerContext};
use std::alloc::Global;

/// Whether memory is written through a context, and what a request for a block of 8 bytes answers.
fn written_and_asked(
    _alloc: Global,
    core: &mut TestCore,
    _number: TypeResourceTableIndex,
) -> Option<(bool, Result<u64, Fault>)> {
    if core.component().options.is_empty() || core.memory().len() < 64 {
        return None;
    }
    let mut cx = LowerContext::new(core, OptionsIndex::from_u32(0));
    *cx.get::<2>(3) = [7, 8];
    let is_written = cx.as_slice_mut().starts_with(&[1, 2, 3, 7, 8, b'a']);
    Some((is_written, cx.realloc(0, 0, 4, 8)))
}

#[test]
fn a_context_lends_memory_and_asks_for_blocks(rt: HostRuntime) {
    assert!(rt; with_core(rt.alloc(), written_and_asked) == Some((true, Ok(16))));
}

/// Whether types have the own handles of this number, and whether they have any list.
fn knows(types: &ComponentTypes, number: TypeResourceTableIndex) -> (bool, bool) {
    let list = InterfaceType::List(TypeListIndex::from_u32(0));
    let own = InterfaceType::Own(number);
    (types.contains(&own), types.contains(&list))
}

/// What a context tells: the instance of its options and its own, and of its types twice whether they have handles and lists.
type Told = ([RuntimeInstance; 2], [(bool, bool); 2]);

fn lower_facts(
    _alloc: Global,
    core: &mut TestCore,
    number: TypeResourceTableIndex,
) -> Option<Told> {
    if core.component().options.is_empty() {
        return None;
    }
    let cx = LowerContext::new(core, OptionsIndex::from_u32(0));
    let types = [
        knows(cx.types(), number),
        knows(cx.instance_type().types(), number),
    ];
    Some(([cx.options().instance, cx.instance_handle()], types))
}

/// A context of lifting tells the number of its options and of its store too.
fn lift_facts(
    _alloc: Global,
    core: &mut TestCore,
    number: TypeResourceTableIndex,
) -> Option<(Told, u32, u64)> {
    if core.component().options.is_empty() {
        return None;
    }
    let cx = LiftContext::new(core, OptionsIndex::from_u32(0));
    let types = [
        knows(cx.types(), number),
        knows(cx.instance_type().types(), number),
    ];
    let facts = ([cx.options().instance, cx.instance_handle()], types);
    Some((facts, cx.options_index().as_u32(), cx.store_id().as_u64()))
}

/// The facts of a core of `with_core`.
fn facts() -> Told {
    ([RuntimeInstance::from_u32(3); 2], [(true, false); 2])
}

#[test]
fn a_context_gives_its_options_and_types(rt: HostRuntime) {
    assert!(rt; with_core(rt.alloc(), lower_facts) == Some(facts()));
    assert!(rt; with_core(rt.alloc(), lift_facts) == Some((facts(), 0, 6)));
}

/// What charges answer, of 70 of fuel, and how much fuel there was before and is left.
type Charges = ([Result<(), Fault>; 5], u64, u64);

fn charge_70(
    _alloc: Global,
    core: &mut TestCore,
    _number: TypeResourceTableIndex,
) -> Option<Charges> {
    if core.component().options.is_empty() {
        return None;
    }
    let before = core.fuel();
    core.set_fuel(70);
    let mut cx = LiftContext::new(core, OptionsIndex::from_u32(0));
    // 2^32 times itself is 0 in 64 bits.
    let answers = [
        cx.consume_fuel(71),
        cx.consume_fuel_array(3, 20),
        cx.consume_fuel_array(1 << 32, 1 << 32),
        cx.consume_fuel_array(u64::MAX, 0),
        cx.consume_fuel(9),
    ];
    Some((answers, before, cx.fuel()))
}

#[test]
fn fuel_is_taken_or_left_as_it_was(rt: HostRuntime) {
    let refused = Err(Fault::HostcallFuelExhausted);
    let answers = [refused, Ok(()), refused, Ok(()), Ok(())];
    assert!(rt; with_core(rt.alloc(), charge_70) == Some((answers, 1_000, 1)));
}

/// Has the guest ask for import 9 and then return.
fn load(alloc: Global, core: &mut TestCore) -> Option<()> {
    let asks = Action::Ask(9, Words::new(alloc));
    let returns = Action::Return(Words::new(alloc));
    let actions = vec![in alloc; asks, returns].ok()?;
    core.guest_mut()
        .load(actions, Vec::new(alloc), false, false);
    Some(())
}

/// Whether a core passes calls on to such a guest: a start, its resume, the end of a call, and a destructor.
fn passed_on(
    alloc: Global,
    core: &mut TestCore,
    _number: TypeResourceTableIndex,
) -> Option<[bool; 4]> {
    load(alloc, core)?;
    let asked = core.start(4, &[]);
    let returned = core.resume(&[]);
    let asks = matches!(&asked, Ok(Step::Import { index: 9, .. }));
    let returns = matches!(&returned, Ok(Step::Return(_)));
    let ended = core.post_return(4, &[]).is_ok();
    Some([asks, returns, ended, core.dtor(4, 5).is_ok()])
}

/// The number, the data and the count of options of a core.
fn parts(
    _alloc: Global,
    core: &mut TestCore,
    _number: TypeResourceTableIndex,
) -> Option<(u64, u32, usize)> {
    let id = core.id().as_u64();
    let data = *core.data_mut();
    Some((id, data, core.component().options.len()))
}

#[test]
fn a_core_gives_its_parts_and_passes_calls_on(rt: HostRuntime) {
    assert!(rt; with_core(rt.alloc(), parts) == Some((6, 5, 1)));
    assert!(rt; with_core(rt.alloc(), passed_on) == Some([true; 4]));
}

/// A function type and a resource type of a guest.
fn sound_types(alloc: Global) -> Option<ComponentTypes> {
    let mut builder = TypeBuilder::new(alloc);
    let table = TypeResourceTable {
        instance: RuntimeInstance::from_u32(3),
        kind: ResourceKind::Guest { id: 2, dtor: None },
        defined_here: true,
    };
    let resource = builder.add_resource_table(table);
    let func = builder.add_func(Vec::new(alloc), Vec::new(alloc), false);
    if resource.is_err() || func.is_err() {
        return None;
    }
    Some(builder.finish())
}

/// Whether a component of these types and of one entry of options is sound, with these exports and imports.
fn is_sound(alloc: Global, exports: &[Export], imports: &[Import]) -> Option<bool> {
    let exports = exports.to_vec(alloc).ok()?;
    let imports = imports.to_vec(alloc).ok()?;
    let mut component = component_of(alloc, sound_types(alloc)?)?;
    component.exports = exports;
    component.imports = imports;
    Some(component.check())
}

/// Whether it is with an export of a function type and of options, by their numbers.
fn has_export(alloc: Global, ty: u32, options: u32) -> Option<bool> {
    let export = Export {
        ty: TypeFuncIndex::from_u32(ty),
        func: 9,
        options: OptionsIndex::from_u32(options),
    };
    is_sound(alloc, &[export], &[])
}

/// Whether it is with the drop of a resource type of this number as an import.
fn has_import(alloc: Global, ty: u32) -> Option<bool> {
    let import = Import::ResourceDrop(TypeResourceTableIndex::from_u32(ty));
    is_sound(alloc, &[], &[import])
}

#[test]
fn a_component_is_sound_where_its_exports_are_inside(rt: HostRuntime) {
    for (ty, options, want) in [(0, 0, true), (1, 0, false), (0, 1, false)] {
        assert!(rt;
            has_export(rt.alloc(), ty, options) == Some(want),
            "{ty} {options}"
        );
    }
}

#[test]
fn a_component_is_sound_where_its_imports_are_of_its_resources(rt: HostRuntime) {
    for (ty, want) in [(0, true), (1, false)] {
        assert!(rt; has_import(rt.alloc(), ty) == Some(want), "{ty}");
    }
}
