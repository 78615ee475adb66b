//! Characters out of UTF-8.

ghost use Rattle.std.specs.Prelude.{◌≡◌, ◌+◌, ◌<◌, ◌++◌, length, drop, IsUtf8};
ghost use Rattle.std.specs.Char.{encode_utf8};

// A scalar value, and how many bytes it has in UTF-8.
#[derive(Clone, Copy)]
pub(crate) struct Scalar {
    pub(crate) code: u32,
    pub(crate) len: usize,
}

// The scalar value that begins at a place of a text. Each branch tells its own length, which the next place then doesn't wait for.
#[inline(always)]
pub(crate) fn scalar_at(src: &[u8], at: usize) -> Scalar
    requires inside { at < length src.now }
    requires utf8 { IsUtf8 (drop at src.now) }
    ensures scalar { result.code < 0x110000 }
    ensures is { drop at src.now ≡ encode_utf8 result.code ++ drop (at + length (encode_utf8 result.code)) src.now }
    ensures len { result.len ≡ length (encode_utf8 result.code) }
{
    let first = u32::from(src[at]);
    if first < 0x80 {
        return Scalar {
            code: first,
            len: 1,
        };
    }
    let second = u32::from(src[at + 1]) % 64;
    if first < 0xE0 {
        let code = first % 32 * 64 + second;
        return Scalar { code, len: 2 };
    }
    let third = u32::from(src[at + 2]) % 64;
    if first < 0xF0 {
        let code = first % 16 * 4096 + second * 64 + third;
        return Scalar { code, len: 3 };
    }
    let fourth = u32::from(src[at + 3]) % 64;
    let code = first % 8 * 262_144 + second * 4096 + third * 64 + fourth;
    Scalar { code, len: 4 }
}
