//! Of which types a function may be, and how it is printed.

use super::types_of;
use canon_host::{HostFunc, StaticHostFn};
use canon_types::{InstanceType, InterfaceType, StoreId};
use std::alloc::Global;
use std::test::Fail;

/// Whether a function over values, and one from a `u32` to a `u32`, may be of this type.
fn may_be(
    alloc: Global,
    params: &[InterfaceType],
    results: &[InterfaceType],
    async_: bool,
) -> Option<[bool; 2]> {
    let (types, ty) = types_of(alloc, params, results, async_)?;
    if !types.contains_func(ty) {
        return None;
    }
    let types = InstanceType::new(types, StoreId::from_u64(1));
    let dynamic = HostFunc::func_new(0u8);
    let wrapped: HostFunc<StaticHostFn<u8, (u32,), (u32,)>> = HostFunc::func_wrap(0u8);
    let dynamic_may = dynamic.typecheck(ty, &types).is_ok();
    Some([dynamic_may, wrapped.typecheck(ty, &types).is_ok()])
}

#[test]
fn a_function_is_of_its_types(rt: HostRuntime) {
    let number = [InterfaceType::U32];
    let other = [InterfaceType::S32];
    for (params, results, async_, answer) in [
        (&number[..], &number[..], false, [true, true]),
        (&number[..], &number[..], true, [false, false]),
        (&other[..], &number[..], false, [true, false]),
        (&number[..], &other[..], false, [true, false]),
        (&number[..], &[], false, [true, false]),
    ] {
        assert!(rt; may_be(rt.alloc(), params, results, async_) == Some(answer));
    }
}

#[test]
fn a_function_prints_no_more_than_its_name(rt: HostRuntime) -> Result<(), Fail> {
    let func = HostFunc::func_new(0u8);
    let text = format!(in rt.alloc(); "{func:?}")?;
    assert!(rt; text.as_str() == "HostFunc { .. }");
    Ok(())
}
