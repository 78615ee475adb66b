//! Sizes, alignments, flat words, discriminants and flags of known types.

use canon_abi::{CanonicalAbiInfo, DiscriminantSize, FlagsSize};

#[test]
fn discriminants_have_1_2_or_4_bytes(rt: HostRuntime) {
    // By CanonicalABI.md's discriminant_type: one byte up to 2^8 cases, two up to 2^16, else four.
    for (count, bytes) in [(1, 1), (256, 1), (257, 2), (65_536, 2), (65_537, 4)] {
        let size = DiscriminantSize::from_count(count);
        assert!(rt; size.map(|size| size.byte_size()) == Some(bytes));
    }
    assert!(rt; DiscriminantSize::from_count(4_294_967_297) == None);
}

#[test]
fn flags_take_1_2_or_4_bytes_a_word(rt: HostRuntime) {
    // By wasmtime's FlagsSize: one byte, two, or words of 32 flags, of which there are at most 255.
    for (count, size) in [
        (0, Some(FlagsSize::Size0)),
        (8, Some(FlagsSize::Size1)),
        (9, Some(FlagsSize::Size2)),
        (16, Some(FlagsSize::Size2)),
        (17, Some(FlagsSize::Size4Plus(1))),
        (32, Some(FlagsSize::Size4Plus(1))),
        (33, Some(FlagsSize::Size4Plus(2))),
        (8_160, Some(FlagsSize::Size4Plus(255))),
        (8_161, None),
    ] {
        assert!(rt; FlagsSize::from_count(count) == size);
    }
    let flags = CanonicalAbiInfo::flags(33);
    assert!(rt; (flags.size32, flags.align32, flags.flat) == (8, 4, Some(2)));
}

#[test]
fn a_record_places_each_field_at_its_alignment(rt: HostRuntime) {
    // By CanonicalABI.md's elem_size_record: the fields stand at 0, 4 and 8 and end at 10, which is rounded up to 12.
    let fields = [
        CanonicalAbiInfo::SCALAR1,
        CanonicalAbiInfo::SCALAR4,
        CanonicalAbiInfo::SCALAR2,
    ];
    let record = CanonicalAbiInfo::record(&fields).map(|abi| (abi.size32, abi.align32, abi.flat));
    assert!(rt; record == Some((12, 4, Some(3))));
    let pair = CanonicalAbiInfo::POINTER_PAIR;
    let mut offset = 5;
    assert!(rt; pair.next_field32(&mut offset) == 8);
    assert!(rt; offset == 16);
    let mut far = 9;
    assert!(rt; pair.next_field32_size(&mut far) == 12);
    assert!(rt; far == 20);
    assert!(rt; (pair.flat_count(2), pair.flat_count(1)) == (Some(2), None));
}

#[test]
fn a_pointer_and_a_length_take_8_bytes_each_where_pointers_have_64_bits(rt: HostRuntime) {
    let pair = CanonicalAbiInfo::POINTER_PAIR;
    assert!(rt; (pair.size32, pair.align32, pair.flat) == (8, 4, Some(2)));
    assert!(rt; (pair.size64, pair.align64) == (16, 8));
    assert!(rt; (pair.size(true), pair.align(true)) == (16, 8));
    let mut offset = 5;
    assert!(rt; pair.next_field64(&mut offset) == 8);
    assert!(rt; offset == 24);
    let mut far = 25;
    assert!(rt; pair.next_field64_size(&mut far) == 32);
    assert!(rt; far == 48);
}

#[test]
fn a_record_of_a_text_and_a_number_has_sizes_for_both_widths(rt: HostRuntime) {
    // The number stands after a text of 8 or 16 bytes, and the end is rounded up to 4 or 8.
    let fields = [CanonicalAbiInfo::POINTER_PAIR, CanonicalAbiInfo::SCALAR4];
    let record = CanonicalAbiInfo::record(&fields).map(|abi| (
        abi.size32,
        abi.align32,
        abi.size64,
        abi.align64,
    ));
    assert!(rt; record == Some((12, 4, 24, 8)));
    let (name, score) = (CanonicalAbiInfo::POINTER_PAIR, CanonicalAbiInfo::SCALAR4);
    let mut end = 0;
    assert!(rt; name.next_field64(&mut end) == 0);
    assert!(rt; end == 16);
    let mut last = 16;
    assert!(rt; score.next_field64(&mut last) == 16);
    assert!(rt; last == 20);
}

#[test]
fn a_variant_places_its_payload_after_the_discriminant(rt: HostRuntime) {
    let cases = [None, Some(CanonicalAbiInfo::SCALAR8)];
    let told = CanonicalAbiInfo::variant(&cases).map(|(abi, info)| (
        abi.size32,
        abi.align32,
        abi.flat,
        info.payload_offset32,
    ));
    assert!(rt; told == Some((16, 8, Some(2), 8)));
    // A text is aligned to 4 bytes, or to 8 where pointers have 64 bits.
    let texts = [None, Some(CanonicalAbiInfo::POINTER_PAIR)];
    let told = CanonicalAbiInfo::variant(&texts).map(|(abi, info)| (
        abi.size32,
        info.payload_offset32,
        abi.size64,
        info.payload_offset64,
    ));
    assert!(rt; told == Some((12, 4, 24, 8)));
    let (abi, info) = CanonicalAbiInfo::enum_(257);
    assert!(rt; (abi.size32, info.size) == (2, DiscriminantSize::Size2));
}

#[test]
fn a_fixed_length_list_has_a_size_of_32_bits(rt: HostRuntime) {
    let eight = CanonicalAbiInfo::SCALAR8;
    let most = CanonicalAbiInfo::fixed_length_list(&eight, 536_870_911).map(|abi| abi.size32);
    assert!(rt; most == Some(4_294_967_288));
    let more = CanonicalAbiInfo::fixed_length_list(&eight, 536_870_912).map(|abi| abi.size32);
    assert!(rt; more == None);
    // 268,435,455 texts take 4,294,967,280 bytes where pointers have 64 bits, and half of that where they have 32.
    let text = CanonicalAbiInfo::POINTER_PAIR;
    let texts = CanonicalAbiInfo::fixed_length_list(&text, 268_435_455);
    let sizes = texts.map(|abi| (abi.size32, abi.size64));
    assert!(rt; sizes == Some((2_147_483_640, 4_294_967_280)));
    assert!(rt; CanonicalAbiInfo::fixed_length_list(&text, 268_435_456) == None);
}
