//! Texts that stay in memory (CanonicalABI.md, "load_string_from_range": `latin1+utf16` without the tag is Latin-1, whose bytes are the
//! first 256 code points of Unicode, and with the tag UTF-16).

use crate::cores::stays;
use canon_context::{At, Fault};
use canon_lift::WasmStr;
use canon_test_core::{TestCore, memory_of, plain, with_core};
use canon_types::{InterfaceType, StringEncoding};
use std::alloc::Global;

/// Whether a text is the expected one, and whether it is borrowed; or its fault.
type Read = Result<(bool, bool), Fault>;

/// What reading the text at 0 of a core answers. None where it isn't lifted.
fn read_in(alloc: Global, core: &mut TestCore, ty: &InterfaceType, expected: &str) -> Option<Read> {
    let text: WasmStr = stays(alloc, core, ty)?;
    let view = core.view();
    if !text.fits(&view) {
        return None;
    }
    Some(match text.to_str(alloc, &view) {
        Ok(text) => Ok((text.as_str() == expected, text.is_borrowed())),
        Err(fault) => Err(fault),
    })
}

/// What reading a text of two bytes answers. Its spelling is the low and the high byte of its length, and then these two.
fn read(
    alloc: Global,
    encoding: StringEncoding,
    spelling: [u8; 4],
    expected: &str,
) -> Option<Read> {
    let [low, high, first, second] = spelling;
    let bytes = [8, 0, 0, 0, low, 0, 0, high, first, second];
    let text = plain(alloc, InterfaceType::String);
    with_core(
        alloc,
        encoding,
        memory_of(alloc, &bytes),
        Ok(text),
        |alloc, core, ty| read_in(alloc, core, ty, expected),
    )
}

#[test]
fn a_text_of_utf_8_or_compact_ascii_is_borrowed_and_others_are_owned(rt: HostRuntime) {
    let compact = StringEncoding::CompactUtf16;
    // the top bit of a compact text's length is its tag
    for (encoding, spelling, expected, borrowed) in [
        (StringEncoding::Utf8, [2, 0, 0xc3, 0xa9], "é", true),
        (compact, [2, 0, 0x61, 0x62], "ab", true),
        (compact, [2, 0, 0x61, 0xe9], "a\u{e9}", false),
        (compact, [1, 0x80, 0x2d, 0x4e], "\u{4e2d}", false),
        (StringEncoding::Utf16, [1, 0, 0x2d, 0x4e], "\u{4e2d}", false),
    ] {
        let answer = read(rt.alloc(), encoding, spelling, expected);
        assert!(rt; answer == Some(Ok((true, borrowed))), "{expected}");
    }
}

#[test]
fn half_a_pair_is_no_text(rt: HostRuntime) {
    let answer = read(
        rt.alloc(),
        StringEncoding::CompactUtf16,
        [1, 0x80, 0, 0xd8],
        "",
    );
    assert!(rt; answer == Some(Err(Fault::InvalidUtf16(At::Address(0)))));
}
