//! What no program shows: inputs of the most bytes and of the deepest nesting, and one more. And the record that a number makes, which `gen` doesn't print.

use canon_cli::{MemorySink, MemorySource, Transcript, run};
use canon_gen::gen_lines;
use canon_transcript::answer_text;
use std::alloc::Global;
use std::test::Fail;

const ONE_CALL: &str =
    r#"{"funcs":[{"params":["u32","s8"],"results":["bool"]}],"items":[{"call":0,"params":[{"u32":7},{"s8":-1}],"guest":[{"return":[2]}]}]}"#;

/// How a run over these bytes ends.
fn status_of(alloc: Global, bytes: &[u8]) -> Result<u8, Fail> {
    let mut words = Vec::new(alloc);
    words.push(String::from_str(alloc, "run")?)?;
    let bytes = bytes.to_vec(alloc)?;
    let mut source = MemorySource::new(bytes, 4096, Vec::new(alloc));
    let mut sink = MemorySink::new(alloc, 4096, Vec::new(alloc));
    let mut transcript = Transcript::new(alloc);
    Ok(run(alloc, &words, &mut source, &mut sink, &mut transcript).0)
}

#[test]
fn an_input_has_at_most_16_777_216_bytes(rt: HostRuntime) -> Result<(), Fail> {
    let mut bytes = ONE_CALL.as_bytes().to_vec(rt.alloc())?;
    bytes.resize(16_777_216, b' ')?;
    let longest = status_of(rt.alloc(), &bytes)?;
    bytes.push(b' ')?;
    let longer = status_of(rt.alloc(), &bytes)?;
    assert!(rt; longest == 0 && longer == 6);
    Ok(())
}

#[test]
fn arrays_nest_at_most_127_deep(rt: HostRuntime) -> Result<(), Fail> {
    let mut statuses = [0; 2];
    for (i, depth) in [127, 128].into_iter().enumerate() {
        let mut bytes = vec![in rt.alloc(); b'['; depth]?;
        bytes.resize(2 * depth, b']')?;
        statuses[i] = status_of(rt.alloc(), &bytes)?;
    }
    // no script, and no JSON that is read
    assert!(rt; statuses == [8, 7]);
    Ok(())
}

#[test]
fn one_record_is_drawn_and_comes_back(rt: HostRuntime) -> Result<(), Fail> {
    let alloc = rt.alloc();
    let mut transcript = Transcript::new(alloc);
    let text = gen_lines(alloc, 1, &mut transcript)?;
    let want = "gen 1\nencoding utf16\nrecords 1\nreallocs 8\nbytes 78\nequal true\nlive 0\n";
    let answer = answer_text(alloc, &transcript.records()[0], 0)?;
    let told =
        "ok [{id:0,name:\"sfp\\u{4e2d}\\u{4e2d}w\",tags:[\"\\u{e9}f\\u{4e2d}m\",\"zpbp\",\"c\"],on:some(true)}]\n";
    assert!(rt; text.as_str() == want && answer.as_str() == told);
    Ok(())
}
