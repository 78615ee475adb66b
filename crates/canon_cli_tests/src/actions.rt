//! What no script reaches: a list of actions that is read by itself. What scripts hold, and what is refused, stands in examples.

use canon_memory::ValRaw;
use canon_script::actions_of_json;
use canon_scripted::Action;
use serde_json::Value;
use std::alloc::Global;

const ACTIONS: &str =
    r#"[{"write":[8,"00ff"]},{"grow":16},{"ask":3,"words":[18446744073709551615]},{"return":[7,0]},{"trap":true}]"#;

/// Whether actions are these, with what they write, ask with and return.
fn tell_actions(actions: &[Action]) -> Option<[bool; 3]> {
    let [
        Action::Write(8, bytes),
        Action::Grow(16),
        Action::Ask(3, words),
        Action::Return(returned),
        Action::Trap,
    ] = actions
    else {
        return None;
    };
    Some([
        bytes.as_slice() == [0, 255].as_slice(),
        words.as_slice() == [ValRaw::u64(u64::MAX)].as_slice(),
        returned.as_slice() == [ValRaw::u64(7), ValRaw::u64(0)].as_slice(),
    ])
}

fn actions_told(alloc: Global, text: &str) -> Option<[bool; 3]> {
    let tree = Value::from_str(alloc, text).ok()?;
    let actions = actions_of_json(alloc, &tree).ok()?;
    tell_actions(actions.as_slice())
}

#[test]
fn actions_are_read_in_order(rt: HostRuntime) {
    assert!(rt; actions_told(rt.alloc(), ACTIONS) == Some([true; 3]));
}
