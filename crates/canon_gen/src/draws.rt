//! Numbers and texts that are drawn, one after another.

ghost use Rattle.std.specs.Prelude.{◌≡◌, ◌<◌, IfOk, string_bytes};
ghost use Rattle.canon_gen.specs.Draws as spec;

use canon_types::OutOfMemory;
use std::alloc::Global;

/// Draws a number below `k`. The next draw goes on from what is left in `state`.
pub(crate) fn draw(state: &mut u32, k: u32) -> u32
    requires { 0 < k }
    ensures drawn { result ≡ spec.drawn k state.old }
    ensures next { state.new ≡ spec.next state.old }
    ensures below { result < k }
{
    *state = ((u64::from(*state) * 1_103_515_245 + 12_345) % (1 << 31)) as u32;
    *state / 65_536 % k
}

/// A text whose length is drawn below `k`, and then its characters.
pub(crate) fn draw_text(alloc: Global, state: &mut u32, k: u32) -> Result<String, OutOfMemory>
    requires { 0 < k }
    ensures text { IfOk result (λ text. string_bytes text ≡ spec.text_drawn k state.old) }
    ensures next { IfOk result (λ _. state.new ≡ spec.after_text k state.old) }
{
    let len = draw(state, k);
    let mut text = String::new(alloc);
    for _ in 0..len {
        let c = draw(state, 28);
        text.push(character(c))?;
    }
    Ok(text)
}

fn character(c: u32) -> char
    requires { c < 28 }
    ensures { result ≡ spec.character c }
{
    match c {
        26 => '\u{e9}',
        27 => '\u{4e2d}',
        _ => char::from(b'a' + c as u8),
    }
}
