//! The sizes of discriminants and of flags, in bytes.

ghost use Rattle.std.specs.Prelude.{◌≡◌, ◌≤◌, ◌<◌, ◌^◌, ◌↔◌, Some, None, IfSome};
ghost use Rattle.canon_model.specs.Layout.{tag_size, flags_size};
ghost use Rattle.canon_abi.specs.Sizes.{tag_bytes, flag_bytes};

/// The bytes of a discriminant (CanonicalABI.md, "discriminant_type").
#[derive(Clone, Copy, Debug, PartialEq, Eq)]
pub enum DiscriminantSize {
    Size1,
    Size2,
    Size4,
}

impl DiscriminantSize {
    /// The discriminant among so many cases, or none above 2^32.
    pub fn from_count(count: u64) -> Option<DiscriminantSize>
        ensures none { (result ≡ None) ↔ (2 ^ 32 < count) }
        ensures some { IfSome result (λ d. tag_bytes d ≡ tag_size count) }
    {
        if count <= 256 {
            Some(DiscriminantSize::Size1)
        } else if count <= 65_536 {
            Some(DiscriminantSize::Size2)
        } else if count <= 4_294_967_296 {
            Some(DiscriminantSize::Size4)
        } else {
            None
        }
    }

    /// The discriminant among so many cases, which are at most 2^32.
    pub(crate) fn of(cases: usize) -> DiscriminantSize
        ensures { tag_bytes result ≡ tag_size cases }
    {
        if cases <= 256 {
            DiscriminantSize::Size1
        } else if cases <= 65_536 {
            DiscriminantSize::Size2
        } else {
            DiscriminantSize::Size4
        }
    }

    /// How many bytes it has.
    pub fn byte_size(self) -> u32
        ensures { result ≡ tag_bytes self }
    {
        match self {
            DiscriminantSize::Size1 => 1,
            DiscriminantSize::Size2 => 2,
            DiscriminantSize::Size4 => 4,
        }
    }
}

/// The bytes of flags (CanonicalABI.md, "elem_size_flags"): so many words of four bytes above two bytes.
#[derive(Clone, Copy, Debug, PartialEq, Eq)]
pub enum FlagsSize {
    Size0,
    Size1,
    Size2,
    Size4Plus(u8),
}

impl FlagsSize {
    /// The size of so many flags, or none above 8,160. No flags take no bytes.
    pub fn from_count(count: u64) -> Option<FlagsSize>
        ensures none { (result ≡ None) ↔ (8160 < count) }
        ensures no_flags { count ≡ 0 → result ≡ Some FlagsSize.Size0 }
        ensures some { 0 < count → IfSome result (λ f. flag_bytes f ≡ flags_size count) }
    {
        if count == 0 {
            Some(FlagsSize::Size0)
        } else if count <= 8 {
            Some(FlagsSize::Size1)
        } else if count <= 16 {
            Some(FlagsSize::Size2)
        } else if count <= 8_160 {
            Some(FlagsSize::Size4Plus(count.div_ceil(32) as u8))
        } else {
            None
        }
    }
}
