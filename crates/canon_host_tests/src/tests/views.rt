//! What a function of the host reaches.

ghost use Rattle.std.specs.Prelude.{◌≡◌, length};
ghost use Rattle.canon_ledger.specs.Reached.{ledger_in, reference_in};
ghost use Rattle.canon_context.specs.Host.{HostSteps, IsOutside, Keeps};

use super::{Left, ask, core_with};
use canon_host::{DynamicHostFn, HostFunc, HostStop, HostView, MemoryView};
use canon_memory::ValRaw;
use canon_test_core::TestCore;
use canon_types::{InterfaceType, OptionsIndex, StringEncoding, TypeFunc, TypeFuncIndex};
use canon_value::Val;
use std::alloc::Global;

/// Whether memory is that of `core_with`: 64 bytes of the store 6, with one entry of options.
fn is_that_of_the_core(memory: &MemoryView<'_>) -> bool {
    let first = OptionsIndex::from_u32(0);
    if !memory.has_options(first) || memory.has_options(OptionsIndex::from_u32(1)) {
        return false;
    }
    let encoding = memory.options(first).string_encoding;
    let count = memory.memory().len();
    let store = memory.store_id().as_u64();
    (count, store) == (64, 6) && encoding == StringEncoding::Utf8
}

/// Has a function serve an ask with 5. Gives whether it was told 5 and answered 9, and what it leaves.
fn ask_five<
    F: Fn(&mut HostView<'_, '_, u32>, &TypeFunc, &[Val], &mut [Val]) -> Result<(), HostStop>,
>(
    alloc: Global,
    func: &HostFunc<DynamicHostFn<F>>,
    core: &mut TestCore,
    ty: TypeFuncIndex,
) -> Option<(bool, Left)>
    requires keeps { Keeps F.Fn func.now }
    requires options { length core.old.component.options.items ≡ 1 }
{
    if !core.component().types.types().contains_func(ty) {
        return None;
    }
    let (answer, left) = ask(alloc, func, core, ty, &[ValRaw::u32(5)])?;
    let is_told = match answer {
        Ok(values) => values[..] == [Val::U32(5), Val::U32(9)],
        Err(_) => false,
    };
    Some((is_told, left))
}

/// The same of a function from a number to a number, in a core of its own.
fn ask_five_alone<
    F: Fn(&mut HostView<'_, '_, u32>, &TypeFunc, &[Val], &mut [Val]) -> Result<(), HostStop>,
>(alloc: Global, func: &HostFunc<DynamicHostFn<F>>) -> Option<(bool, Left)>
    requires { Keeps F.Fn func.now }
{
    let number = [InterfaceType::U32];
    let (mut core, ty) = core_with(alloc, &[], &number, &number)?;
    ask_five(alloc, func, &mut core, ty)
}

#[test]
#[tactic(auto, using(canon_context::proofs::HostSteps::own_lowered, canon_context::proofs::HostSteps::left_alone))]
fn a_function_makes_a_resource(rt: HostRuntime) {
    let func = HostFunc::func_new(
        |view: &mut HostView<'_, '_, u32>, _ty: &TypeFunc, _params: &[Val], results: &mut [Val]| -> Result<
            (),
            HostStop,
        >
            requires outside { IsOutside view.old }
            ensures state { view.new.state.ghost_name ≡ view.old.state.ghost_name }
            ensures tables { reference_in view.new.tables ≡ reference_in view.old.tables }
            ensures steps { HostSteps (ledger_in view.old.tables) (ledger_in view.new.tables) }
        {
            if !is_that_of_the_core(&view.memory) {
                return Err(HostStop::Refused);
            }
            *view.state = view.state.wrapping_add(1);
            if let Some(result) = results.first_mut() {
                *result = Val::U32(9);
            }
            match view.tables.host_resource_lower_own(7, None, None) {
                Ok(_) => Ok(()),
                Err(_) => Err(HostStop::Refused),
            }
        },
    );
    let answer = ask_five_alone(rt.alloc(), &func);
    let is_right = match answer {
        Some((is_told, left)) => {
            is_told && left.word == Some(ValRaw::u32(9)) && left.data == 6 && left.live == 1
        }
        None => false,
    };
    assert!(rt; is_right);
}
