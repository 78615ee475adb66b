//! The payloads of cases, stored.

ghost use Rattle.std.specs.Prelude.{◌≡◌, ◌≤◌, ◌+◌, false, length};
ghost use Rattle.canon_context.specs.Core.{component_types};
ghost use Rattle.canon_lower_parts.specs.CasePuts.{PayloadTrees, part_gives, payload_type, unless_unit};
ghost use Rattle.canon_lower_parts.specs.Cases.{payload_members};
ghost use Rattle.canon_lower_parts.specs.Stores.{TypedMembersStore};
ghost use Rattle.canon_model.specs.Layout.{size};
ghost use Rattle.canon_types.specs.Table.{KnowsPayload};
ghost use Rattle.canon_typed.specs.Types.{IsPayloadOf};

use crate::Lower;
use canon_context::{Fault, LowerContext};
use canon_memory::Guest;
use canon_typed::ComponentType;
use canon_types::InterfaceType;

/// Stores the payload of a case. Where `U` is the unit, it stands for none.
pub(crate) fn store_payload<T: Lower, U: ComponentType, D, G: Guest>(
    value: &mut T,
    cx: &mut LowerContext<'_, D, G>,
    ty: Option<InterfaceType>,
    at: u64,
) -> Result<(), Fault>
    requires known { KnowsPayload (component_types cx.old.core.now) ty }
    requires fits { IsPayloadOf U.is_unit T.fits cx.old.core.now.component.types ty }
    requires room { at + size false (payload_type (component_types cx.old.core.now) ty) ≤ length cx.old.core.now.memory }
    ensures stores { TypedMembersStore G.seen G.moves cx.old.options cx.old.core.now cx.new.core.now (payload_members (unless_unit U.is_unit (payload_type (component_types cx.old.core.now) ty))) 0 at (PayloadTrees U.is_unit (T.walks value.old))
        (part_gives U.is_unit (T.gives cx.old.core.now.component.types (payload_type (component_types cx.old.core.now) ty) value.old)) result }
    ensures same_reference { cx.new.core.ghost_name ≡ cx.old.core.ghost_name }
    ensures same_options { cx.new.options ≡ cx.old.options }
{
    let _memory = cx.core.memory(); // memory has at most 2^32 bytes
    match ty {
        None => Ok(()),
        Some(ty) => value.linear_lower_to_memory(cx, ty, at),
    }
}
