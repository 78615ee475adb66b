//! The fuel of lifting.

ghost use Rattle.std.specs.Prelude.{◌*◌};
ghost use Rattle.canon_context.specs.Fuel.{Charged};

use crate::Fault;
use thiserror::Error;

/// The error that a caller is given where values cost more than the fuel that was left.
#[derive(Clone, Copy, Debug, PartialEq, Eq, Error)]
#[error("too much data is being copied between the host and the guest: fuel allocated for hostcalls has been exhausted")]
pub struct HostcallFuelExhausted;

/// Takes an amount from the fuel.
pub fn charge(fuel: &mut u64, amount: u64) -> Result<(), Fault>
    ensures { Charged amount fuel.old fuel.new result }
{
    match fuel.checked_sub(amount) {
        Some(left) => {
            *fuel = left;
            Ok(())
        }
        None => Err(Fault::HostcallFuelExhausted),
    }
}

/// Takes `count` times `each` from the fuel.
pub fn charge_each(fuel: &mut u64, count: u64, each: u64) -> Result<(), Fault>
    ensures { Charged (count * each) fuel.old fuel.new result }
{
    let available = *fuel;
    match count.checked_mul(each) {
        Some(amount) if amount <= available => {
            *fuel = available - amount;
            Ok(())
        }
        _ => Err(Fault::HostcallFuelExhausted),
    }
}
