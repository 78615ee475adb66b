//! Each row is played through `run` from memory to memory: at once, a byte at a time, and with a read or a write that fails.

ghost use Rattle.std.specs.Prelude.{◌≡◌, []};

use crate::rows::{OVER_THE_LIST, ROWS, Row};
use canon_cli::{Event, MemorySink, MemorySource, Transcript, run};
use std::alloc::Global;
use std::test::Fail;

/// The bytes that a source gives or a sink takes at once, and the call that fails, counted from 1; at 0 none does.
#[derive(Clone, Copy)]
struct Moves {
    chunk: usize,
    fails: u64,
}

/// All at once, and nothing fails.
const WHOLE: Moves = Moves {
    chunk: 4096,
    fails: 0,
};

/// Plays a row's words over its input. Gives its status and what the sink took.
fn play(
    alloc: Global,
    row: &Row,
    reads: Moves,
    writes: Moves,
    transcript: &mut Transcript,
) -> Result<(u8, Vec<u8>), Fail>
    requires { transcript.old ≡ [] }
{
    let mut given = Vec::new(alloc);
    for word in row.words.split_whitespace() {
        given.push(String::from_str(alloc, word)?)?;
    }
    let bytes = row.input.as_bytes().to_vec(alloc)?;
    let mut source = MemorySource::new(bytes, reads.chunk.max(1), vec![in alloc; reads.fails]?);
    let mut sink = MemorySink::new(alloc, writes.chunk.max(1), vec![in alloc; writes.fails]?);
    let status = run(alloc, &given, &mut source, &mut sink, transcript);
    Ok((status.0, sink.taken().to_vec(alloc)?))
}

/// Whether a row ends with this status and text.
fn ends(
    alloc: Global,
    row: &Row,
    reads: Moves,
    writes: Moves,
    status: u8,
    text: &[u8],
) -> Result<bool, Fail> {
    let mut transcript = Transcript::new(alloc);
    let (ended, taken) = play(alloc, row, reads, writes, &mut transcript)?;
    Ok(ended == status && taken.as_slice() == text)
}

/// Whether a row ends as it says, where a source and a sink move so many bytes at a time.
fn ends_as_told(alloc: Global, row: &Row, chunk: usize) -> Result<bool, Fail> {
    let moves = Moves { chunk, fails: 0 };
    ends(alloc, row, moves, moves, row.status, row.text.as_bytes())
}

/// Whether a row whose source gives a byte a call, and fails its first call, its second, or that of the end, is a read fault that wrote nothing. Faulty
/// words read nothing.
fn ends_at_a_read(alloc: Global, row: &Row) -> Result<bool, Fail> {
    let wanted = if row.status == 2 { 2 } else { 3 };
    let end = (row.input.len() as u64).saturating_add(1);
    for fails in [1, end.min(2), end] {
        let reads = Moves { chunk: 1, fails };
        if !ends(alloc, row, reads, WHOLE, wanted, &[])? {
            return Ok(false);
        }
    }
    Ok(true)
}

/// Whether a row whose sink takes a byte a call and fails any one of its calls is a write fault that wrote the bytes before.
fn ends_at_each_write(alloc: Global, row: &Row) -> Result<bool, Fail> {
    let text = row.text.as_bytes();
    for taken in 0..text.len() {
        let writes = Moves {
            chunk: 1,
            fails: taken as u64 + 1,
        };
        if !ends(alloc, row, WHOLE, writes, 4, &text[..taken])? {
            return Ok(false);
        }
    }
    Ok(true)
}

/// The first way in which a row ends otherwise than it should.
fn wrong_way(alloc: Global, row: &Row) -> Result<Option<&'static str>, Fail> {
    if !ends_as_told(alloc, row, 4096)? {
        return Ok(Some("at once"));
    }
    if !ends_as_told(alloc, row, 1)? {
        return Ok(Some("a byte at a time"));
    }
    if !ends_at_a_read(alloc, row)? {
        return Ok(Some("where a read fails"));
    }
    if !ends_at_each_write(alloc, row)? {
        return Ok(Some("where a write fails"));
    }
    Ok(None)
}

#[test]
fn each_row_ends_as_it_says(rt: HostRuntime) -> Result<(), Fail> {
    for row in &ROWS {
        let wrong = wrong_way(rt.alloc(), row)?;
        assert!(rt; wrong.is_none(), "{} {}", row.tried, wrong.unwrap_or(""));
    }
    Ok(())
}

#[test]
fn a_sink_that_fails_its_second_call_took_the_first_four_bytes(
    rt: HostRuntime,
) -> Result<(), Fail> {
    let writes = Moves { chunk: 4, fails: 2 };
    let told = ends(rt.alloc(), &ROWS[0], WHOLE, writes, 4, b"call")?;
    assert!(rt; told);
    Ok(())
}

/// Whether all bytes of memory at the first start are zero, but those from `from` up to `to`.
fn is_zero_outside(transcript: &Transcript, from: usize, to: usize) -> Option<bool> {
    for event in transcript.records().first()?.events.as_slice() {
        let Event::Start { memory, .. } = event else {
            continue;
        };
        for (at, byte) in memory.as_slice().iter().enumerate() {
            if *byte != 0 && (at < from || to <= at) {
                return Some(false);
            }
        }
        return Some(true);
    }
    None
}

#[test]
fn memory_outside_the_ordered_block_stays(rt: HostRuntime) -> Result<(), Fail> {
    let mut transcript = Transcript::new(rt.alloc());
    let (status, _) = play(rt.alloc(), &OVER_THE_LIST, WHOLE, WHOLE, &mut transcript)?;
    assert!(rt; status == 0 && is_zero_outside(&transcript, 1024, 1040) == Some(true));
    Ok(())
}
