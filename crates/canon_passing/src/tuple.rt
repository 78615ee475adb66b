//! The block of parameters that are passed as a tuple.

ghost use Rattle.std.specs.Prelude.{false};
ghost use Rattle.canon_lowering.specs.Attempt.{args_call};
ghost use Rattle.canon_types.specs.Table.{HasTuple, tuple_members};
ghost use Rattle.canon_context.specs.Core.{component_types};
ghost use Rattle.canon_context.specs.Asks.{AsksFor};

use canon_context::{Core, Fault, ask};
use canon_memory::Guest;
use canon_types::TypeTupleIndex;

/// The address of the block of a function's parameters as a tuple, which the guest is asked for (CanonicalABI.md,
/// "lower_flat_values"). Answers the errors of `Core::realloc`.
pub fn ask_tuple<T, G: Guest>(core: &mut Core<T, G>, ty: TypeTupleIndex) -> Result<u64, Fault>
    requires tuple { HasTuple (component_types core.old) ty }
    ensures asked { AsksFor G.seen G.moves core.old core.new (args_call false (tuple_members (component_types core.old) ty)) result }
{
    let abi = core.types().tuple(ty).abi;
    ask(core, abi.align32, u64::from(abi.size32))
}
