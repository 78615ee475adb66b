//! The parameters of a call, as the guest gets them.

ghost use Rattle.std.specs.Prelude.{◌≡◌, ◌≤◌, ◌<◌, length};
ghost use Rattle.canon_args.specs.Params.{TypedParams};
ghost use Rattle.canon_context.specs.Core.{component_types};
ghost use Rattle.canon_model.specs.Flat.{max_params};
ghost use Rattle.canon_model.specs.Layout.{members_flat};
ghost use Rattle.canon_model.specs.Shape.{of_places, product};
ghost use Rattle.canon_types.specs.Table.{HasTuple, tuple_members};
ghost use Rattle.canon_types.specs.declared.types.InterfaceType.TheVariants.{Tuple};
ghost use Rattle.canon_passing.specs.Args.{args_words};

use canon_context::{Fault, LowerContext};
use canon_lower::Lower;
use canon_memory::{Guest, ValRaw};
use canon_passing::ask_tuple;
use canon_types::{InterfaceType, MAX_FLAT_PARAMS, TypeTupleIndex};

/// Lowers the parameters of a function, whose types are those of the tuple, into words (CanonicalABI.md, "lower_flat_values"): in a row
/// up to MAX_FLAT_PARAMS words, else as a tuple into a block that the guest is asked for, and one word that points to it. Answers the
/// errors of `Lower`, and those of `LowerContext::realloc` for the tuple's block. At an error `dst`, the blocks and the handles may have
/// changed.
pub fn lower_params<D, G: Guest, P: Lower>(
    cx: &mut LowerContext<'_, D, G>,
    params: &mut P,
    ty: TypeTupleIndex,
    dst: &mut [ValRaw],
) -> Result<(), Fault>
    requires tuple { HasTuple (component_types cx.old.core.now) ty }
    requires fits { P.fits cx.old.core.now.component.types (Tuple ty) }
    requires words { length dst.old ≡ args_words (tuple_members (component_types cx.old.core.now) ty) }
    ensures lowers { TypedParams G.seen G.moves cx.old.options cx.old.core.now cx.new.core.now (tuple_members (component_types cx.old.core.now) ty) dst.new (P.walks params.old)
        (P.gives cx.old.core.now.component.types (product of_places (tuple_members (component_types cx.old.core.now) ty)) params.old) result }
    ensures count { length dst.new ≡ length dst.old }
    ensures same_reference { cx.new.core.ghost_name ≡ cx.old.core.ghost_name }
    ensures same_options { cx.new.options ≡ cx.old.options }
{
    let abi = cx.types().tuple(ty).abi;
    if abi.flat_count(u64::from(MAX_FLAT_PARAMS)).is_some() {
        lower_stack_args(cx, params, ty, dst)
    } else {
        lower_heap_args(cx, params, ty, dst)
    }
}

/// Lowers them into words in a row.
fn lower_stack_args<D, G: Guest, P: Lower>(
    cx: &mut LowerContext<'_, D, G>,
    params: &mut P,
    ty: TypeTupleIndex,
    dst: &mut [ValRaw],
) -> Result<(), Fault>
    requires tuple { HasTuple (component_types cx.old.core.now) ty }
    requires fits { P.fits cx.old.core.now.component.types (Tuple ty) }
    requires near { members_flat (tuple_members (component_types cx.old.core.now) ty) ≤ max_params }
    requires words { length dst.old ≡ members_flat (tuple_members (component_types cx.old.core.now) ty) }
    ensures lowers { TypedParams G.seen G.moves cx.old.options cx.old.core.now cx.new.core.now (tuple_members (component_types cx.old.core.now) ty) dst.new (P.walks params.old)
        (P.gives cx.old.core.now.component.types (product of_places (tuple_members (component_types cx.old.core.now) ty)) params.old) result }
    ensures count { length dst.new ≡ length dst.old }
    ensures same_reference { cx.new.core.ghost_name ≡ cx.old.core.ghost_name }
    ensures same_options { cx.new.options ≡ cx.old.options }
{
    let _tuple = cx.types().tuple(ty); // its shape
    params.linear_lower_to_flat(cx, InterfaceType::Tuple(ty), dst)
}

/// Lowers them as a tuple into a block that the guest is asked for, and one word that points to it.
fn lower_heap_args<D, G: Guest, P: Lower>(
    cx: &mut LowerContext<'_, D, G>,
    params: &mut P,
    ty: TypeTupleIndex,
    dst: &mut [ValRaw],
) -> Result<(), Fault>
    requires tuple { HasTuple (component_types cx.old.core.now) ty }
    requires fits { P.fits cx.old.core.now.component.types (Tuple ty) }
    requires far { max_params < members_flat (tuple_members (component_types cx.old.core.now) ty) }
    requires words { length dst.old ≡ 1 }
    ensures lowers { TypedParams G.seen G.moves cx.old.options cx.old.core.now cx.new.core.now (tuple_members (component_types cx.old.core.now) ty) dst.new (P.walks params.old)
        (P.gives cx.old.core.now.component.types (product of_places (tuple_members (component_types cx.old.core.now) ty)) params.old) result }
    ensures count { length dst.new ≡ length dst.old }
    ensures same_reference { cx.new.core.ghost_name ≡ cx.old.core.ghost_name }
    ensures same_options { cx.new.options ≡ cx.old.options }
{
    let pointer = match ask_tuple(cx.core, ty) {
        Ok(pointer) => pointer,
        Err(fault) => return Err(fault),
    };
    let _tuple = cx.types().tuple(ty); // its shape
    match params.linear_lower_to_memory(cx, InterfaceType::Tuple(ty), pointer) {
        Ok(()) => {
            dst[0] = ValRaw::u32(pointer as u32);
            Ok(())
        }
        Err(fault) => Err(fault),
    }
}
