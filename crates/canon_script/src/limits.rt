//! The limits of memory and work that a script has to keep.

ghost use Rattle.std.specs.Prelude.{◌≡◌, ◌≤◌, ◌<◌, ◌+◌, map, length, sum_by, MatchOption};
ghost use Rattle.canon_script.specs.Actions as acted;
ghost use Rattle.canon_script.specs.Script as spec;

use crate::script::Item;
use canon_scripted::Action;

/// The most bytes of a memory, also once it has grown.
pub(crate) const MAX_MEMORY: u64 = 67_108_864;

/// The most bytes that the events of a whole script copy.
const MAX_WORK: u64 = 1_073_741_824;

/// Whether these items keep the limits of memory and work.
pub(crate) fn fits(memory: u64, items: &[Item]) -> bool
    ensures { result ≡ spec.fits memory (map spec.item_view items.now) }
{
    let Some(bytes) = final_memory(memory, items) else {
        return false;
    };
    match times_entered(items) {
        Some(times) => bytes * 2 * times <= MAX_WORK,
        None => bytes == 0,
    }
}

/// The bytes of memory at the end, unless they are too many.
fn final_memory(memory: u64, items: &[Item]) -> Option<u64>
    ensures { MatchOption result (spec.max_memory < spec.final_memory memory (map spec.item_view items.now)) (λ n. (n ≡ spec.final_memory memory (map spec.item_view items.now)) × (n ≤ spec.max_memory)) }
{
    if memory > MAX_MEMORY {
        return None;
    }
    let mut bytes = memory;
    for item in items {
        bytes = grown(bytes, guest_of(item))?;
    }
    Some(bytes)
}

/// These bytes grown by all actions that grow, unless they become too many.
fn grown(bytes: u64, actions: &[Action]) -> Option<u64>
    requires { bytes ≤ spec.max_memory }
    ensures { MatchOption result (spec.max_memory < bytes + acted.growth actions.now) (λ n. (n ≡ bytes + acted.growth actions.now) × (n ≤ spec.max_memory)) }
{
    let mut bytes = bytes;
    for action in actions {
        let by = growth_by(action);
        if by > MAX_MEMORY - bytes {
            return None;
        }
        bytes += by;
    }
    Some(bytes)
}

fn growth_by(action: &Action) -> u64
    ensures { result ≡ acted.growth_by action.now }
{
    match action {
        Action::Grow(by) => *by,
        Action::Write(..) | Action::Return(_) | Action::Ask(..) | Action::Trap => 0,
    }
}

/// How often the guest is started or resumed, unless that alone is too much work.
fn times_entered(items: &[Item]) -> Option<u64>
    ensures { MatchOption result (spec.max_work < spec.times_entered (map spec.item_view items.now)) (λ n. (n ≡ spec.times_entered (map spec.item_view items.now)) × (n ≤ spec.max_work)) }
{
    let mut times = 0;
    for item in items {
        times = asked(started(times, item)?, guest_of(item))?;
    }
    Some(times)
}

/// This number and that of the actions that ask, unless it becomes too great.
fn asked(times: u64, actions: &[Action]) -> Option<u64>
    requires { times ≤ spec.max_work }
    ensures { MatchOption result (spec.max_work < times + acted.ask_count actions.now) (λ n. (n ≡ times + acted.ask_count actions.now) × (n ≤ spec.max_work)) }
{
    let mut times = times;
    for action in actions {
        let by = asks_by(action);
        if by > MAX_WORK - times {
            return None;
        }
        times += by;
    }
    Some(times)
}

fn asks_by(action: &Action) -> u64
    ensures { result ≡ acted.asks_by action.now }
{
    match action {
        Action::Ask(..) => 1,
        Action::Write(..) | Action::Grow(_) | Action::Return(_) | Action::Trap => 0,
    }
}

/// This number, and one more for an item that starts the guest, unless it becomes too great.
fn started(times: u64, item: &Item) -> Option<u64>
    requires { times ≤ spec.max_work }
    ensures { MatchOption result (spec.max_work < times + spec.starts (spec.item_view item.now)) (λ n. (n ≡ times + spec.starts (spec.item_view item.now)) × (n ≤ spec.max_work)) }
{
    match item {
        Item::Call(_) | Item::Typed(_) if times >= MAX_WORK => None,
        Item::Call(_) | Item::Typed(_) => Some(times + 1),
        Item::New(_) | Item::Drop(_) => Some(times),
    }
}

/// What the guest does in an item.
fn guest_of(item: &Item) -> &[Action]
    ensures { result.now ≡ spec.guest_actions_in (spec.item_view item.now) }
{
    match item {
        Item::Call(call) => &call.guest,
        Item::Typed(call) => &call.guest,
        Item::New(_) | Item::Drop(_) => &[],
    }
}
