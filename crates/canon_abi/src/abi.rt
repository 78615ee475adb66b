//! How types lie in memory and in flat words: size, alignment, word count, and where fields and payloads begin.

ghost use Rattle.std.specs.Prelude.{◌^◌, ◌<◌, ◌≤◌, IsTrue, unwrap_or};
ghost use Rattle.canon_abi.specs.Alignment.{is_alignment};

use crate::DiscriminantSize;

/// The largest size that a `u32` tells.
const MAX_SIZE: u64 = 0xffff_ffff;

/// The most words that are passed flat (CanonicalABI.md, MAX_FLAT_PARAMS).
pub const MAX_FLAT_PARAMS: u8 = 16;

/// The most words that results take in a row (CanonicalABI.md, MAX_FLAT_RESULTS).
pub const MAX_FLAT_RESULTS: u8 = 1;

/// How a type lies in memory and in words (CanonicalABI.md, "Alignment", "Element Size", "Flattening"). Bytes in memory are told for
/// pointers of 32 bits and for pointers of 64 bits, which are called wide.
#[derive(Clone, Copy, Debug, PartialEq, Eq)]
pub struct CanonicalAbiInfo {
    /// Bytes in memory, with pointers of 32 bits.
    pub size32: u32,
    /// The alignment of its address, with pointers of 32 bits: 1, 2, 4 or 8.
    pub align32: u32,
    /// Bytes in memory, with pointers of 64 bits.
    pub size64: u32,
    /// The alignment of its address, with pointers of 64 bits.
    pub align64: u32,
    /// Words, or none above 16.
    pub flat: Option<u8>,
    ghost in_range: { size32 < 2 ^ 32 },
    ghost in_range64: { size64 < 2 ^ 32 },
    ghost aligned: { IsTrue (is_alignment align32) },
    ghost aligned64: { IsTrue (is_alignment align64) },
    ghost few: { unwrap_or flat 16 ≤ 16 },
}

/// A size and an alignment, for pointers of one width.
#[derive(Clone, Copy, Debug, PartialEq, Eq)]
struct Extent {
    size: u32,
    align: u32,
    ghost in_range: { size < 2 ^ 32 },
    ghost aligned: { IsTrue (is_alignment align) },
}

/// The discriminant of a variant, and where its payload begins.
#[derive(Clone, Copy, Debug, PartialEq, Eq)]
pub struct VariantInfo {
    /// The bytes of the discriminant.
    pub size: DiscriminantSize,
    /// Bytes from the value's address to the payload, with pointers of 32 bits.
    pub payload_offset32: u32,
    /// The same, with pointers of 64 bits.
    pub payload_offset64: u32,
}

impl VariantInfo {
    ghost use Rattle.std.specs.Prelude.{◌≡◌};
    ghost use Rattle.canon_model.specs.Layout.{payload_offset};
    ghost use Rattle.canon_model.specs.Shape.{Cases};
    ghost use Rattle.canon_abi.specs.Abi.{HasInfo};
    ghost use Rattle.canon_abi.specs.Numbers.{payload_offset_in};

    /// Where the payload begins, for pointers of 64 bits where `wide`, else of 32.
    pub fn payload_offset(&self, wide: bool) -> u32
        ensures numbers { result ≡ payload_offset_in wide self.now }
        ensures offset { (cs : Cases) → HasInfo self.now cs → result ≡ payload_offset wide cs }
    {
        if wide {
            self.payload_offset64
        } else {
            self.payload_offset32
        }
    }
}

impl CanonicalAbiInfo {
    ghost use Rattle.std.specs.Prelude.{false, true, ◌≡◌, ◌+◌, ◌*◌, ◌^◌, Some, ◌<◌, ◌≤◌, List, length, map, max, unwrap_or, SomeIff, IsTrue};
    ghost use Rattle.canon_abi.specs.Alignment.{is_alignment};
    ghost use Rattle.canon_model.specs.Layout.{align, align_to, flag_words, flags_align, flags_size, flat, size, tag_size};
    ghost use Rattle.canon_model.specs.Shape.{Cases, Members, Name, ProductKind, Shape, VariantKind, bare_cases, fixed, flags, product, variant};
    ghost use Rattle.canon_abi.specs.Numbers.{start_after, end_after, of_product, of_row, of_variant, sum_of_numbers, largest_of, largest_align, largest_size, payload_place, variant_align, IsExtent, IsFixed, TellsChoice, TellsExtent, TellsNumbers, TellsCases, size_in, align_in, numbers_in, case_numbers_in, words_of, case_words_of, flat_within, told_within};
    ghost use Rattle.canon_abi.specs.Sizes.{tag_bytes};
    ghost use Rattle.canon_abi.specs.Abi.{HasInfo, HasLayout, TellsLayout, TellsVariant, AreOfMembers, AreOfCases};

    /// One byte: `bool`, `s8`, `u8`.
    pub const SCALAR1: CanonicalAbiInfo = CanonicalAbiInfo {
        size32: 1,
        align32: 1,
        size64: 1,
        align64: 1,
        flat: Some(1),
    };

    /// Two bytes: `s16`, `u16`.
    pub const SCALAR2: CanonicalAbiInfo = CanonicalAbiInfo {
        size32: 2,
        align32: 2,
        size64: 2,
        align64: 2,
        flat: Some(1),
    };

    /// Four bytes: `s32`, `u32`, `f32`, `char` and handles.
    pub const SCALAR4: CanonicalAbiInfo = CanonicalAbiInfo {
        size32: 4,
        align32: 4,
        size64: 4,
        align64: 4,
        flat: Some(1),
    };

    /// Eight bytes: `s64`, `u64`, `f64`.
    pub const SCALAR8: CanonicalAbiInfo = CanonicalAbiInfo {
        size32: 8,
        align32: 8,
        size64: 8,
        align64: 8,
        flat: Some(1),
    };

    /// A pointer and a length: `string`, lists and maps.
    pub const POINTER_PAIR: CanonicalAbiInfo = CanonicalAbiInfo {
        size32: 8,
        align32: 4,
        size64: 16,
        align64: 8,
        flat: Some(2),
    };

    /// Bytes in memory, for pointers of 64 bits where `wide`, else of 32.
    pub fn size(&self, wide: bool) -> u32
        ensures numbers { result ≡ size_in wide self.now }
        ensures layout { (s : Shape) → HasLayout self.now s → result ≡ size wide s }
    {
        if wide { self.size64 } else { self.size32 }
    }

    /// Their alignment.
    pub fn align(&self, wide: bool) -> u32
        ensures numbers { result ≡ align_in wide self.now }
        ensures aligned { IsTrue (is_alignment result) }
        ensures layout { (s : Shape) → HasLayout self.now s → result ≡ align wide s }
    {
        if wide { self.align64 } else { self.align32 }
    }

    /// Where a field of these numbers begins after `offset`, which becomes where it ends.
    pub fn next_field32(&self, offset: &mut u32) -> u32
        requires fits { align_to offset.old self.now.align32 + self.now.size32 < 2 ^ 32 }
        ensures start { result ≡ align_to offset.old self.now.align32 }
        ensures end { offset.new ≡ align_to offset.old self.now.align32 + self.now.size32 }
    {
        let mut end = u64::from(*offset);
        let start = self.next_field32_size(&mut end);
        *offset = end as u32;
        start as u32
    }

    /// The same, of offsets of 64 bits.
    pub fn next_field32_size(&self, offset: &mut u64) -> u64
        requires fits { align_to offset.old self.now.align32 + self.now.size32 < 2 ^ 64 }
        ensures start { result ≡ align_to offset.old self.now.align32 }
        ensures end { offset.new ≡ align_to offset.old self.now.align32 + self.now.size32 }
    {
        self.next_field(false, offset)
    }

    /// As `next_field32`, for pointers of 64 bits.
    pub fn next_field64(&self, offset: &mut u32) -> u32
        requires fits { align_to offset.old self.now.align64 + self.now.size64 < 2 ^ 32 }
        ensures start { result ≡ align_to offset.old self.now.align64 }
        ensures end { offset.new ≡ align_to offset.old self.now.align64 + self.now.size64 }
    {
        let mut end = u64::from(*offset);
        let start = self.next_field64_size(&mut end);
        *offset = end as u32;
        start as u32
    }

    /// The same, of offsets of 64 bits.
    pub fn next_field64_size(&self, offset: &mut u64) -> u64
        requires fits { align_to offset.old self.now.align64 + self.now.size64 < 2 ^ 64 }
        ensures start { result ≡ align_to offset.old self.now.align64 }
        ensures end { offset.new ≡ align_to offset.old self.now.align64 + self.now.size64 }
    {
        self.next_field(true, offset)
    }

    /// Where a field begins after `offset`, which becomes where it ends, for pointers of 64 bits where `wide`, else of 32.
    pub fn next_field(&self, wide: bool, offset: &mut u64) -> u64
        requires fits { align_to offset.old (align_in wide self.now) + size_in wide self.now < 2 ^ 64 }
        ensures start { result ≡ align_to offset.old (align_in wide self.now) }
        ensures end { offset.new ≡ align_to offset.old (align_in wide self.now) + size_in wide self.now }
    {
        let start = offset.next_multiple_of(u64::from(self.align(wide)));
        *offset = start + u64::from(self.size(wide));
        start
    }

    /// The numbers of a record of such fields, or none where a size passes 2^32 - 1.
    pub fn record(fields: &[CanonicalAbiInfo]) -> Option<CanonicalAbiInfo>
        ensures numbers { TellsNumbers result (λ wide. of_product (map (numbers_in wide) fields.now)) (sum_of_numbers (map words_of fields.now)) }
        ensures layout { (k : ProductKind) (ms : Members) → AreOfMembers fields.now ms → TellsLayout result (product k ms) }
    {
        Self::product_numbers(fields)
    }

    /// The numbers of a variant of 1 to 2^32 such cases, or none where a size passes 2^32 - 1.
    pub fn variant(cases: &[Option<CanonicalAbiInfo>]) -> Option<(CanonicalAbiInfo, VariantInfo)>
        requires some { 1 ≤ length cases.now }
        requires few { length cases.now ≤ 2 ^ 32 }
        ensures numbers { TellsCases result cases.now }
        ensures layout { (k : VariantKind) (cs : Cases) → AreOfCases cases.now cs → TellsVariant result k cs }
    {
        Self::variant_numbers(cases)
    }

    /// The numbers of a list of n elements, or none where a size passes 2^32 - 1.
    pub fn fixed_length_list(element: &CanonicalAbiInfo, n: u64) -> Option<CanonicalAbiInfo>
        ensures numbers { TellsNumbers result (λ wide. of_row (numbers_in wide element.now) n) (n * words_of element.now) }
        ensures layout { (s : Shape) → HasLayout element.now s → TellsLayout result (fixed n s) }
    {
        Self::row_numbers(element, n)
    }

    /// The number of words, where it is at most `max` and 16.
    pub fn flat_count(&self, max: u64) -> Option<u64>
        ensures numbers { result ≡ told_within self.now.flat max }
        ensures words { (s : Shape) → HasLayout self.now s → SomeIff result ((flat s ≤ max) × (flat s ≤ 16)) (flat s) }
    {
        let flat = u64::from(self.flat?);
        if flat <= max { Some(flat) } else { None }
    }

    /// What is told of an extent for each width, and of words.
    fn joined(narrow: Extent, wide: Extent, flat: Option<u8>) -> CanonicalAbiInfo
        requires { unwrap_or flat 16 ≤ 16 }
        ensures narrow { IsExtent narrow (numbers_in false result) }
        ensures wide { IsExtent wide (numbers_in true result) }
        ensures flat { result.flat ≡ flat }
    {
        CanonicalAbiInfo {
            size32: narrow.size,
            align32: narrow.align,
            size64: wide.size,
            align64: wide.align,
            flat,
        }
    }

    /// Where a field ends that begins after `offset`.
    fn end(&self, wide: bool, offset: u64) -> u64
        requires fits { end_after offset (numbers_in wide self.now) < 2 ^ 64 }
        ensures { result ≡ end_after offset (numbers_in wide self.now) }
    {
        offset.next_multiple_of(u64::from(self.align(wide))) + u64::from(self.size(wide))
    }

    fn product_numbers(fields: &[CanonicalAbiInfo]) -> Option<CanonicalAbiInfo>
        ensures { TellsNumbers result (λ wide. of_product (map (numbers_in wide) fields.now)) (sum_of_numbers (map words_of fields.now)) }
    {
        let narrow = Self::product_extent(fields, false)?;
        let wide = Self::product_extent(fields, true)?;
        Some(Self::joined(narrow, wide, Self::product_words(fields)))
    }

    /// The extent of members in a row, for one width.
    fn product_extent(fields: &[CanonicalAbiInfo], wide: bool) -> Option<Extent>
        ensures { TellsExtent result (of_product (map (numbers_in wide) fields.now)) }
    {
        let mut end = 0u64;
        let mut align = 1u32;
        for field in fields {
            end = field.end(wide, end);
            if end > MAX_SIZE {
                return None;
            }
            align = align.max(field.align(wide));
        }
        let size = end.next_multiple_of(u64::from(align));
        if size > MAX_SIZE {
            return None;
        }
        Some(Extent {
            size: size as u32,
            align,
        })
    }

    /// The words of members in a row.
    fn product_words(fields: &[CanonicalAbiInfo]) -> Option<u8>
        ensures count { result ≡ flat_within (sum_of_numbers (map words_of fields.now)) }
        ensures few { unwrap_or result 16 ≤ 16 }
    {
        let mut words = Some(0u8);
        for field in fields {
            words = Self::flat_sum(words, field.flat);
        }
        words
    }

    /// The sum of two counts of words, or none above 16.
    fn flat_sum(a: Option<u8>, b: Option<u8>) -> Option<u8>
        requires first { unwrap_or a 16 ≤ 16 }
        requires second { unwrap_or b 16 ≤ 16 }
        ensures { result ≡ flat_within (unwrap_or a 17 + unwrap_or b 17) }
    {
        match (a, b) {
            (Some(a), Some(b)) if a + b <= MAX_FLAT_PARAMS => Some(a + b),
            _ => None,
        }
    }

    /// The larger of two counts of words, or none above 16.
    fn flat_max(a: Option<u8>, b: Option<u8>) -> Option<u8>
        requires first { unwrap_or a 16 ≤ 16 }
        requires second { unwrap_or b 16 ≤ 16 }
        ensures { result ≡ flat_within (max (unwrap_or a 17) (unwrap_or b 17)) }
    {
        match (a, b) {
            (Some(a), Some(b)) => Some(a.max(b)),
            _ => None,
        }
    }

    /// The numbers of one of several payloads.
    fn variant_numbers(
        cases: &[Option<CanonicalAbiInfo>],
    ) -> Option<(CanonicalAbiInfo, VariantInfo)>
        requires { length cases.now ≤ 2 ^ 32 }
        ensures { TellsCases result cases.now }
    {
        let tag = DiscriminantSize::of(cases.len());
        let (offset32, narrow) = Self::variant_extent(cases, tag, false)?;
        let (offset64, wide) = Self::variant_extent(cases, tag, true)?;
        let words = Self::flat_sum(Some(1), Self::payload_words(cases));
        let info = VariantInfo {
            size: tag,
            payload_offset32: offset32,
            payload_offset64: offset64,
        };
        Some((Self::joined(narrow, wide, words), info))
    }

    /// Where one of several payloads begins, and the extent of all, for one width.
    fn variant_extent(
        cases: &[Option<CanonicalAbiInfo>],
        tag: DiscriminantSize,
        wide: bool,
    ) -> Option<(u32, Extent)>
        requires { tag_bytes tag ≡ tag_size (length cases.now) }
        ensures { TellsChoice result (map (case_numbers_in wide) cases.now) }
    {
        let mut largest = 0u32;
        let mut align = 1u32;
        for case in cases {
            let Some(case) = case else {
                continue;
            };
            largest = largest.max(case.size(wide));
            align = align.max(case.align(wide));
        }
        let place = tag.byte_size().next_multiple_of(align);
        let align = align.max(tag.byte_size());
        let end = u64::from(place) + u64::from(largest);
        let size = end.next_multiple_of(u64::from(align));
        if size > MAX_SIZE {
            return None;
        }
        Some((
            place,
            Extent {
                size: size as u32,
                align,
            },
        ))
    }

    /// The words of the longest payload.
    fn payload_words(cases: &[Option<CanonicalAbiInfo>]) -> Option<u8>
        ensures count { result ≡ flat_within (largest_of (map case_words_of cases.now)) }
        ensures few { unwrap_or result 16 ≤ 16 }
    {
        let mut words = Some(0u8);
        for case in cases {
            let Some(case) = case else {
                continue;
            };
            words = Self::flat_max(words, case.flat);
        }
        words
    }

    /// The numbers of n elements.
    fn row_numbers(element: &CanonicalAbiInfo, n: u64) -> Option<CanonicalAbiInfo>
        ensures { TellsNumbers result (λ wide. of_row (numbers_in wide element.now) n) (n * words_of element.now) }
    {
        let narrow = Self::row_extent(element, n, false)?;
        let wide = Self::row_extent(element, n, true)?;
        Some(Self::joined(narrow, wide, Self::flat_times(element.flat, n)))
    }

    /// The extent of n elements, for one width.
    fn row_extent(element: &CanonicalAbiInfo, n: u64, wide: bool) -> Option<Extent>
        ensures { TellsExtent result (of_row (numbers_in wide element.now) n) }
    {
        let size = u64::from(element.size(wide)).checked_mul(n)?;
        if size > MAX_SIZE {
            return None;
        }
        Some(Extent {
            size: size as u32,
            align: element.align(wide),
        })
    }

    /// So many times a count of words, or none above 16.
    fn flat_times(flat: Option<u8>, n: u64) -> Option<u8>
        requires { unwrap_or flat 16 ≤ 16 }
        ensures count { result ≡ flat_within (n * unwrap_or flat 17) }
        ensures few { unwrap_or result 16 ≤ 16 }
    {
        if n == 0 {
            return Some(0);
        }
        match flat {
            Some(0) => Some(0),
            Some(words) if n <= u64::from(MAX_FLAT_PARAMS / words) => Some(words * n as u8),
            _ => None,
        }
    }

    /// The numbers of a type without pointers.
    fn pointless(size: u32, align: u32, flat: Option<u8>) -> CanonicalAbiInfo
        requires in_range { size < 2 ^ 32 }
        requires aligned { IsTrue (is_alignment align) }
        requires few { unwrap_or flat 16 ≤ 16 }
        ensures { IsFixed result size align flat }
    {
        CanonicalAbiInfo {
            size32: size,
            align32: align,
            size64: size,
            align64: align,
            flat,
        }
    }

    /// The numbers of flags of 1 to 8,160 names, which `FlagsSize::from_count` tells.
    pub fn flags(count: u64) -> CanonicalAbiInfo
        requires some { 1 ≤ count }
        requires few { count ≤ 8160 }
        ensures { (names : List Name) → length names ≡ count → HasLayout result (flags names) }
    {
        Self::flags_numbers(count)
    }

    /// The numbers of an enum of 1 to 2^32 names.
    pub fn enum_(count: u64) -> (CanonicalAbiInfo, VariantInfo)
        requires some { 1 ≤ count }
        requires few { count ≤ 2 ^ 32 }
        ensures layout { (k : VariantKind) (names : List Name) → length names ≡ count → HasLayout result.0 (variant k (bare_cases names)) }
        ensures info { (names : List Name) → length names ≡ count → HasInfo result.1 (bare_cases names) }
    {
        Self::enum_numbers(count)
    }

    fn flags_numbers(count: u64) -> CanonicalAbiInfo
        requires { count ≤ 8160 }
        ensures { IsFixed result (flags_size count) (flags_align count) (flat_within (flag_words count)) }
    {
        let words = count.div_ceil(32);
        let flat = if words <= 16 { Some(words as u8) } else { None };
        if count <= 8 {
            Self::pointless(1, 1, flat)
        } else if count <= 16 {
            Self::pointless(2, 2, flat)
        } else {
            Self::pointless(4 * words as u32, 4, flat)
        }
    }

    fn enum_numbers(count: u64) -> (CanonicalAbiInfo, VariantInfo)
        requires { count ≤ 2 ^ 32 }
        ensures abi { IsFixed result.0 (tag_size count) (tag_size count) (Some 1) }
        ensures tag { tag_bytes result.1.size ≡ tag_size count }
        ensures offset { result.1.payload_offset32 ≡ tag_size count }
        ensures offset64 { result.1.payload_offset64 ≡ tag_size count }
    {
        let tag = DiscriminantSize::of(count as usize);
        let bytes = tag.byte_size();
        let info = VariantInfo {
            size: tag,
            payload_offset32: bytes,
            payload_offset64: bytes,
        };
        (Self::pointless(bytes, bytes, Some(1)), info)
    }
}
