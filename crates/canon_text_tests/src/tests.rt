//! Worked values, and short inputs against plain decoders. A function that owns a text or a buffer has few ways out, and tells what a test
//! asserts on.

ghost use Rattle.std.specs.Prelude.{◌≡◌, ◌%◌, ◌≤◌, length};

use canon_text::{
    CowStr, DecodeError, SizePair, TextError, decode_latin1, decode_utf8, decode_utf16,
    inflate_latin1_bytes, inflate_latin1_parts, latin1_to_latin1, latin1_to_utf8, latin1_to_utf16,
    utf8_to_compact_utf16, utf8_to_latin1, utf8_to_utf8, utf8_to_utf16,
    utf16_to_compact_probably_utf16, utf16_to_compact_utf16, utf16_to_latin1, utf16_to_utf8,
    utf16_to_utf16,
};
use std::alloc::Global;

fn pair(src_read: u64, dst_written: u64) -> SizePair {
    SizePair {
        src_read,
        dst_written,
    }
}

#[test]
fn a_surrogate_pair_is_read_whole_or_not_at_all(rt: HostRuntime) {
    let mut dst = [0; 4];
    let read = utf16_to_utf8(&[0x61, 0xD83D, 0xDE00], &mut dst, false);
    let first = (read, dst);
    let read = utf16_to_utf8(&[0xD83D, 0xDE00], &mut dst, false);
    let want = (Ok(pair(1, 1)), [0x61, 0, 0, 0]);
    assert!(rt; (first, (read, dst)) == (want, (Ok(pair(2, 4)), [0xF0, 0x9F, 0x98, 0x80])));
}

#[test]
fn a_pass_stops_where_a_character_does_not_fit(rt: HostRuntime) {
    let mut dst = [0; 3];
    let read = utf16_to_utf8(&[0x61, 0x4E2D], &mut dst, false);
    assert!(rt; (read, dst) == (Ok(pair(1, 1)), [0x61, 0, 0]));
}

#[test]
fn a_first_pass_stops_above_u_007f(rt: HostRuntime) {
    let mut dst = [0; 4];
    let first = latin1_to_utf8(&[0x61, 0xE9], &mut dst, true);
    let kept = dst;
    let second = latin1_to_utf8(&[0x61, 0xE9], &mut dst, false);
    let told = ((first, kept), (second, dst));
    assert!(rt;
        told == (
            (pair(1, 1), [0x61, 0, 0, 0]),
            (pair(2, 3), [0x61, 0xC3, 0xA9, 0])
        )
    );
    assert!(rt; utf16_to_utf8(&[0x80], &mut dst, true) == Ok(pair(0, 0)));
}

#[test]
fn a_fault_keeps_what_was_written_before_it(rt: HostRuntime) {
    let mut dst = [0; 4];
    let refused = utf16_to_utf8(&[0x61, 0xD800], &mut dst, false);
    assert!(rt; (refused, dst) == (Err(TextError::InvalidUtf16(1)), [0x61, 0, 0, 0]));
    let mut units = [7; 3];
    let refused = utf16_to_utf16(&[0x61, 0xDC00, 0x62], &mut units);
    assert!(rt; (refused, units) == (Err(TextError::InvalidUtf16(1)), [0x61, 7, 7]));
    let mut bytes = [7; 2];
    let refused = utf8_to_utf8(&[0x61, 0xFF], &mut bytes);
    assert!(rt; (refused, bytes) == (Err(TextError::InvalidUtf8(1)), [7, 7]));
}

#[test]
fn latin1_stops_without_a_fault_above_u_00ff(rt: HostRuntime) {
    let mut dst = [0; 6];
    let read = utf8_to_latin1(&[0x61, 0xC3, 0xA9, 0xE4, 0xB8, 0xAD], &mut dst);
    assert!(rt; (read, dst) == (pair(3, 2), [0x61, 0xE9, 0, 0, 0, 0]));
    let mut dst = [0; 3];
    let read = utf16_to_latin1(&[0x61, 0xE9, 0x100], &mut dst);
    assert!(rt; (read, dst) == (pair(2, 2), [0x61, 0xE9, 0]));
}

#[test]
fn a_compact_text_is_latin1_where_it_can_be(rt: HostRuntime) {
    let mut dst = [0; 4];
    let plain = utf16_to_compact_probably_utf16(&[0x61, 0xE9], &mut dst);
    let first = (plain, dst);
    // The length 2 with UTF16_TAG of CanonicalABI.md, which is 2^31.
    let tagged = utf16_to_compact_probably_utf16(&[0x61, 0x4E2D], &mut dst);
    let want = (Ok(2_147_483_650), [0x61, 0, 0x2D, 0x4E]);
    assert!(rt; (first, (tagged, dst)) == ((Ok(2), [0x61, 0xE9, 0xE9, 0]), want));
}

#[test]
fn a_text_begun_in_latin1_goes_on_as_utf16(rt: HostRuntime) {
    let mut dst = [0x61, 0, 0, 0, 0, 0];
    let read = utf8_to_compact_utf16(&[0xC3, 0xA9], &mut dst, 1);
    assert!(rt; (read, dst) == (Ok(2), [0x61, 0, 0xE9, 0, 0, 0]));
    let mut dst = [0x61, 0xE9, 0, 0, 0, 0, 0, 0];
    let read = utf16_to_compact_utf16(&[0xD83D, 0xDE00], &mut dst, 2);
    assert!(rt; (read, dst) == (Ok(4), [0x61, 0, 0xE9, 0, 0x3D, 0xD8, 0, 0xDE]));
}

#[test]
fn inflation_hands_out_the_rest(rt: HostRuntime) {
    let mut dst = [0x61, 0xE9, 1, 2, 3];
    let rest = inflate_latin1_bytes(&mut dst, 2).len();
    assert!(rt; (rest, dst) == (1, [0x61, 0, 0xE9, 0, 3]));
    let mut dst = [0x61, 0xE9, 1, 2, 3];
    let (first, rest) = inflate_latin1_parts(&mut dst, 2);
    let lens = (first.len(), rest.len());
    assert!(rt; (lens, dst) == ((4, 1), [0x61, 0, 0xE9, 0, 3]));
}

#[test]
fn whole_texts_are_copied(rt: HostRuntime) {
    let mut bytes = [0; 3];
    let read = utf8_to_utf8(&[0xE4, 0xB8, 0xAD], &mut bytes);
    let utf8 = (read, bytes);
    latin1_to_latin1(&[0x61, 0xE9, 0xFF], &mut bytes);
    let want = (Ok(()), [0xE4, 0xB8, 0xAD]);
    assert!(rt; (utf8, bytes) == (want, [0x61, 0xE9, 0xFF]));
}

#[test]
fn whole_texts_are_widened(rt: HostRuntime) {
    let mut units = [7; 3];
    let read = utf8_to_utf16(&[0xE4, 0xB8, 0xAD], &mut units);
    let utf8 = (read, units);
    let read = utf16_to_utf16(&[0x61, 0xD83D, 0xDE00], &mut units);
    let utf16 = (read, units);
    latin1_to_utf16(&[0x61, 0xE9, 0xFF], &mut units);
    let want = ((Ok(1), [0x4E2D, 7, 7]), (Ok(()), [0x61, 0xD83D, 0xDE00]));
    assert!(rt; ((utf8, utf16), units) == (want, [0x61, 0xE9, 0xFF]));
}

/// Whether a text is borrowed. None where it is none, or isn't these bytes.
fn borrowed_as(text: Option<CowStr<'_>>, bytes: &[u8]) -> Option<bool> {
    match &text {
        Some(text) if text.as_str().as_bytes() == bytes => Some(text.is_borrowed()),
        _ => None,
    }
}

#[test]
fn texts_are_borrowed_where_they_can_be(rt: HostRuntime) {
    let alloc = rt.alloc();
    let utf16 = [0x61, 0, 0x3D, 0xD8, 0, 0xDE];
    let told = [
        borrowed_as(decode_utf8(&[0xE4, 0xB8, 0xAD]).ok(), "中".as_bytes()),
        borrowed_as(decode_latin1(alloc, b"ab").ok(), "ab".as_bytes()),
        borrowed_as(decode_latin1(alloc, &[0x61, 0xE9]).ok(), "aé".as_bytes()),
        borrowed_as(decode_utf16(alloc, &utf16).ok(), "a😀".as_bytes()),
    ];
    assert!(rt; told == [Some(true), Some(true), Some(false), Some(false)]);
}

// The bytes of 255 units of U+0000 and one or two more: units are made 256 at a time.
fn in_one_piece(unit: u16) -> [u8; 512] {
    let mut src = [0; 512];
    src[510] = (unit % 256) as u8;
    src[511] = (unit / 256) as u8;
    src
}

fn in_two_pieces(unit: u16, next: u16) -> [u8; 514] {
    let mut src = [0; 514];
    src[510] = (unit % 256) as u8;
    src[511] = (unit / 256) as u8;
    src[512] = (next % 256) as u8;
    src[513] = (next / 256) as u8;
    src
}

fn fault_of(alloc: Global, src: &[u8]) -> Option<u64>
    requires { length src.now % 2 ≡ 0 }
{
    match decode_utf16(alloc, src) {
        Err(DecodeError::Text(TextError::InvalidUtf16(at))) => Some(at),
        _ => None,
    }
}

#[test]
fn decoding_names_the_lone_surrogate_by_its_unit(rt: HostRuntime) {
    assert!(rt; fault_of(rt.alloc(), &[0x61, 0, 0, 0xD8]) == Some(1));
}

/// How many bytes a text has, and whether those from the 256th on are the pair.
fn has_the_pair(text: &str) -> (usize, bool) {
    let bytes = text.as_bytes();
    let is_last = match bytes.get(255..) {
        Some(last) => last == [0xF0, 0x9F, 0x98, 0x80].as_slice(),
        None => false,
    };
    (bytes.len(), is_last)
}

/// The same of a pair across two pieces.
fn pair_is_decoded(alloc: Global) -> Option<(usize, bool)> {
    let src = in_two_pieces(0xD83D, 0xDE00);
    let text = decode_utf16(alloc, &src).ok()?;
    Some(has_the_pair(text.as_str()))
}

#[test]
fn a_pair_is_decoded_across_two_pieces(rt: HostRuntime) {
    assert!(rt; pair_is_decoded(rt.alloc()) == Some((259, true)));
}

#[test]
fn a_lone_surrogate_ends_a_piece(rt: HostRuntime) {
    let leading = in_two_pieces(0xD83D, 0x62);
    assert!(rt; fault_of(rt.alloc(), &leading) == Some(255));
    let twice = in_two_pieces(0xD83D, 0xD83D);
    assert!(rt; fault_of(rt.alloc(), &twice) == Some(255));
}

#[test]
fn a_lone_surrogate_ends_a_text(rt: HostRuntime) {
    let whole = in_one_piece(0xD83D);
    assert!(rt; fault_of(rt.alloc(), &whole) == Some(255));
    let behind = in_two_pieces(0x61, 0xD83D);
    assert!(rt; fault_of(rt.alloc(), &behind) == Some(256));
}

// What two bytes are in UTF-8: their units, or the place of the fault.
fn plain_two(a: u8, b: u8) -> Result<(u16, Option<u16>), u64> {
    if a < 0x80 && b < 0x80 {
        return Ok((u16::from(a), Some(u16::from(b))));
    }
    if a < 0x80 {
        return Err(1);
    }
    if a >= 0xC2 && a < 0xE0 && b >= 0x80 && b < 0xC0 {
        return Ok((u16::from(a % 32) * 64 + u16::from(b % 64), None));
    }
    Err(0)
}

#[test]
fn two_bytes_are_read_as_a_plain_decoder_reads_them(rt: HostRuntime) {
    for a in 0..256u16 {
        for b in 0..256u16 {
            let src = [a as u8, b as u8];
            let mut units = [0; 2];
            let answer = utf8_to_utf16(&src, &mut units);
            let want = match plain_two(a as u8, b as u8) {
                Ok((one, None)) => (Ok(1), [one, 0]),
                Ok((one, Some(two))) => (Ok(2), [one, two]),
                Err(at) => (Err(TextError::InvalidUtf8(at)), [0, 0]),
            };
            assert!(rt; (answer, units) == want);
        }
    }
}

#[test]
fn one_byte_is_a_text_below_128(rt: HostRuntime) {
    for a in 0..256u16 {
        let mut unit = [7; 1];
        let answer = utf8_to_utf16(&[a as u8], &mut unit);
        let want = if a < 128 {
            (Ok(1), [a])
        } else {
            (Err(TextError::InvalidUtf8(0)), [7])
        };
        assert!(rt; (answer, unit) == want);
    }
}

// What two units are in UTF-16: their scalar values, or the place of the fault.
fn plain_units(u: u16, v: u16) -> Result<(u32, Option<u32>), u64> {
    let high = u >= 0xD800 && u < 0xDC00;
    let low = u >= 0xDC00 && u < 0xE000;
    if high && v >= 0xDC00 && v < 0xE000 {
        return Ok((
            0x1_0000 + u32::from(u % 1024) * 1024 + u32::from(v % 1024),
            None,
        ));
    }
    if high || low {
        return Err(0);
    }
    if v >= 0xD800 && v < 0xE000 {
        return Err(1);
    }
    Ok((u32::from(u), Some(u32::from(v))))
}

// The bytes of a scalar value below 2 to the 16.
fn plain_len(c: u32) -> u64
    ensures { result ≤ 3 }
{
    if c < 0x80 {
        1
    } else if c < 0x800 {
        2
    } else {
        3
    }
}

/// What a copy of two units answers and leaves, and what a pass into UTF-8 answers.
type Read = (
    (Result<(), TextError>, [u16; 2]),
    Result<SizePair, TextError>,
);

fn read_two(u: u16, v: u16) -> Read {
    let mut units = [7; 2];
    let copied = utf16_to_utf16(&[u, v], &mut units);
    let mut bytes = [0; 8];
    let passed = utf16_to_utf8(&[u, v], &mut bytes, false);
    ((copied, units), passed)
}

/// The same as a plain decoder tells it.
fn plainly_read(u: u16, v: u16) -> Read {
    match plain_units(u, v) {
        Ok((_, None)) => ((Ok(()), [u, v]), Ok(pair(2, 4))),
        Ok((one, Some(two))) => {
            let len = plain_len(one) + plain_len(two);
            ((Ok(()), [u, v]), Ok(pair(2, len)))
        }
        Err(at) => {
            let kept = if at == 0 { [7, 7] } else { [u, 7] };
            let fault = TextError::InvalidUtf16(at);
            ((Err(fault), kept), Err(fault))
        }
    }
}

#[test]
fn units_around_the_surrogates_are_read_as_a_plain_decoder_reads_them(rt: HostRuntime) {
    // The borders of UTF-8's lengths and of the surrogates, and their neighbours.
    let edges: [u16; 16] = [
        0, 0x7F, 0x80, 0x7FF, 0x800, 0xD7FE, 0xD7FF, 0xD800, 0xD801, 0xDBFF, 0xDC00, 0xDC01,
        0xDFFF, 0xE000, 0xE001, 0xFFFF,
    ];
    for u in edges {
        for v in edges {
            assert!(rt; read_two(u, v) == plainly_read(u, v));
        }
    }
}

#[test]
fn overlong_forms_and_surrogates_are_no_utf8(rt: HostRuntime) {
    let mut units = [0; 4];
    // By RFC 3629's table: E0 is followed by A0 to BF, ED by 80 to 9F, F0 by 90 to BF, F4 by 80 to 8F.
    let refused = [
        utf8_to_utf16(&[0xE0, 0x9F, 0xBF], &mut units),
        utf8_to_utf16(&[0xED, 0xA0, 0x80], &mut units),
        utf8_to_utf16(&[0xF0, 0x8F, 0xBF, 0xBF], &mut units),
        utf8_to_utf16(&[0xF4, 0x90, 0x80, 0x80], &mut units),
    ];
    assert!(rt; (refused, units) == ([Err(TextError::InvalidUtf8(0)); 4], [0, 0, 0, 0]));
    let last = utf8_to_utf16(&[0xF4, 0x8F, 0xBF, 0xBF], &mut units);
    assert!(rt; (last, units) == (Ok(2), [0xDBFF, 0xDFFF, 0, 0]));
}

// A text up to U+00FF in each form, by a plain loop.
#[derive(Drop)]
struct Forms {
    latin1: Vec<u8>,
    utf8: Vec<u8>,
    utf16: Vec<u16>,
    utf16_bytes: Vec<u8>,
}

/// Adds a character to each form.
fn add(forms: &mut Forms, byte: u8) -> Option<()> {
    forms.latin1.push(byte).ok()?;
    forms.utf16.push(u16::from(byte)).ok()?;
    forms.utf16_bytes.push(byte).ok()?;
    forms.utf16_bytes.push(0).ok()?;
    if byte < 128 {
        return forms.utf8.push(byte).ok();
    }
    forms.utf8.push(0xC3).ok()?;
    forms.utf8.push(0xA9).ok()
}

/// Adds so many letters, of which this one has an accent.
fn spell(forms: &mut Forms, count: usize, accent: usize) -> Option<()> {
    for i in 0..count {
        let byte = if i == accent {
            0xE9
        } else {
            97 + (i % 26) as u8
        };
        add(forms, byte)?;
    }
    Some(())
}

/// Whether UTF-8 is copied, and made of Latin-1, and Latin-1 of it.
fn bytes_agree(alloc: Global, forms: &Forms) -> Option<[bool; 3]> {
    let mut bytes = Vec::from_elem(alloc, 0u8, forms.utf8.len()).ok()?;
    let copied = utf8_to_utf8(&forms.utf8, &mut bytes).is_ok() && bytes == forms.utf8;
    let pass = latin1_to_utf8(&forms.latin1, &mut bytes, false);
    let spelled = pass.src_read == forms.latin1.len() as u64 && bytes == forms.utf8;
    let narrowed = utf8_to_latin1(&forms.utf8, &mut bytes).src_read == forms.utf8.len() as u64;
    bytes.truncate(forms.latin1.len());
    Some([copied, spelled, narrowed && bytes == forms.latin1])
}

/// Whether UTF-8 is widened.
fn utf8_widens(alloc: Global, forms: &Forms) -> Option<bool> {
    let mut units = Vec::from_elem(alloc, 0u16, forms.utf8.len()).ok()?;
    let widened = utf8_to_utf16(&forms.utf8, &mut units).is_ok();
    units.truncate(forms.utf16.len());
    Some(widened && units == forms.utf16)
}

/// Whether Latin-1 is.
fn latin1_widens(alloc: Global, forms: &Forms) -> Option<bool> {
    let mut units = Vec::from_elem(alloc, 0u16, forms.latin1.len()).ok()?;
    latin1_to_utf16(&forms.latin1, &mut units);
    Some(units == forms.utf16)
}

/// Whether Latin-1 is copied, and inflated in place.
fn latin1_inflates(alloc: Global, forms: &Forms) -> Option<[bool; 2]> {
    let count = forms.latin1.len();
    if count > 65 {
        return None;
    }
    let mut copy = Vec::from_elem(alloc, 0u8, count).ok()?;
    latin1_to_latin1(&forms.latin1, &mut copy);
    let copied = copy == forms.latin1;
    copy.extend_from_slice(&forms.latin1).ok()?;
    let rest = inflate_latin1_bytes(&mut copy, count as u64).len();
    Some([copied, rest == 0 && copy == forms.utf16_bytes])
}

/// Whether each form is decoded as the same text.
fn decoders_agree(alloc: Global, forms: &Forms) -> [bool; 3] {
    if forms.utf16_bytes.len() % 2 != 0 {
        return [false; 3];
    }
    let (utf8, latin1, utf16) = (&forms.utf8, &forms.latin1, &forms.utf16_bytes);
    [
        borrowed_as(decode_utf8(utf8).ok(), utf8).is_some(),
        borrowed_as(decode_latin1(alloc, latin1).ok(), utf8).is_some(),
        borrowed_as(decode_utf16(alloc, utf16).ok(), utf8).is_some(),
    ]
}

/// Whether UTF-16 is copied.
fn units_are_copied(alloc: Global, forms: &Forms) -> Option<bool> {
    let mut units = Vec::from_elem(alloc, 0u16, forms.utf16.len()).ok()?;
    let copied = utf16_to_utf16(&forms.utf16, &mut units).is_ok();
    Some(copied && units == forms.utf16)
}

/// Whether it is made UTF-8.
fn units_are_spelled(alloc: Global, forms: &Forms) -> Option<bool> {
    let mut bytes = Vec::from_elem(alloc, 0u8, forms.utf8.len()).ok()?;
    let spelled = utf16_to_utf8(&forms.utf16, &mut bytes, false).is_ok();
    Some(spelled && bytes == forms.utf8)
}

/// Whether it is made Latin-1.
fn units_are_narrowed(alloc: Global, forms: &Forms) -> Option<bool> {
    let count = forms.utf16.len();
    let mut narrow = Vec::from_elem(alloc, 0u8, count).ok()?;
    let narrowed = utf16_to_latin1(&forms.utf16, &mut narrow).src_read == count as u64;
    Some(narrowed && narrow == forms.latin1)
}

/// Whether its units stand in the compact form, and its Latin-1 where it is probably UTF-16.
fn units_are_compacted(alloc: Global, forms: &Forms) -> Option<[bool; 2]> {
    let count = forms.utf16.len();
    if count > 65 {
        return None;
    }
    let mut wide = Vec::from_elem(alloc, 0u8, 2 * count).ok()?;
    let went_on = utf16_to_compact_utf16(&forms.utf16, &mut wide, 0).is_ok();
    let kept = wide == forms.utf16_bytes;
    let compacted = utf16_to_compact_probably_utf16(&forms.utf16, &mut wide).is_ok();
    wide.truncate(count);
    Some([went_on && kept, compacted && wide == forms.latin1])
}

/// Whether the units of UTF-8 stand there.
fn utf8_is_compacted(alloc: Global, forms: &Forms) -> Option<bool> {
    let len = forms.utf8.len();
    if len > 66 {
        return None;
    }
    let mut inflated = Vec::from_elem(alloc, 0u8, 2 * len).ok()?;
    let began = utf8_to_compact_utf16(&forms.utf8, &mut inflated, 0).is_ok();
    inflated.truncate(forms.utf16_bytes.len());
    Some(began && inflated == forms.utf16_bytes)
}

/// What each conversion of one of these forms tells.
fn conversions_tell(alloc: Global, forms: &Forms) -> [bool; 10] {
    [
        bytes_agree(alloc, forms) == Some([true; 3]),
        utf8_widens(alloc, forms) == Some(true),
        latin1_widens(alloc, forms) == Some(true),
        latin1_inflates(alloc, forms) == Some([true; 2]),
        decoders_agree(alloc, forms) == [true; 3],
        units_are_copied(alloc, forms) == Some(true),
        units_are_spelled(alloc, forms) == Some(true),
        units_are_narrowed(alloc, forms) == Some(true),
        units_are_compacted(alloc, forms) == Some([true; 2]),
        utf8_is_compacted(alloc, forms) == Some(true),
    ]
}

/// The same of a text of so many letters, of which this one has an accent.
fn runs_tell(alloc: Global, count: usize, accent: usize) -> Option<[bool; 10]> {
    let mut forms = Forms {
        latin1: Vec::new(alloc),
        utf8: Vec::new(alloc),
        utf16: Vec::new(alloc),
        utf16_bytes: Vec::new(alloc),
    };
    spell(&mut forms, count, accent)?;
    Some(conversions_tell(alloc, &forms))
}

#[test]
fn runs_are_converted_as_a_plain_loop_converts_them(rt: HostRuntime) {
    for count in [0usize, 1, 31, 32, 33, 64, 65] {
        // At 65 no character is one.
        for accent in [0usize, 31, 32, count.saturating_sub(1), 65] {
            assert!(rt; runs_tell(rt.alloc(), count, accent) == Some([true; 10]));
        }
    }
}
