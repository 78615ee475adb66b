//! The asks that functions of the host served in a call.

ghost use Rattle.std.specs.Prelude.{◌≡◌, IfOk, drop, map};
ghost use Rattle.canon_imports.specs.Imports.{entries_of, line_entry};
ghost use Rattle.canon_player.specs.Session.{entry_view, served_view};

use canon_imports::Line;
use canon_script::copies_of;
use canon_transcript::Served;
use canon_types::OutOfMemory;
use std::alloc::Global;

/// Copies of the asks after the first so many, in order.
pub(crate) fn served_after(
    alloc: Global,
    lines: &[Line],
    first: usize,
) -> Result<Vec<Served>, OutOfMemory>
    ensures { IfOk result (λ served. map served_view served.items ≡ map entry_view (drop first (entries_of lines.now))) }
{
    let (_, later) = lines.split_at(first.min(lines.len()));
    let mut served = Vec::with_capacity(alloc, later.len())?;
    for line in later {
        served.push(served_of(alloc, line)?)?;
    }
    Ok(served)
}

/// A copy of an ask.
fn served_of(alloc: Global, line: &Line) -> Result<Served, OutOfMemory>
    ensures { IfOk result (λ served. served_view served ≡ entry_view (line_entry line.now)) }
{
    let (params, results) = line.values.split_at(line.given.min(line.values.len()));
    let params = copies_of(alloc, params)?;
    let results = copies_of(alloc, results)?;
    Ok((line.index, params, results))
}
