// Numbers as bytes at a place of a slice, and parts of a slice: reads that take every place. And why calls refuse.
#![tactic(auto)]

ghost use Rattle.std.specs.Prelude.{◌≡◌, [], ◌∷◌, length, get_or};
ghost use Rattle.wire.specs.Number.{be, be_at};
ghost use Rattle.wire.specs.Extent.{extent, clipped, PartOf};

pub mod refusal;

// The most bytes of a list, an attribute value or an attribute section, and of an UPDATE body.
pub const LIST_LIMIT: usize = 65535;

pub const BODY_LIMIT: usize = 65516;

// The byte at a place, 0 past the end.
pub fn octet(s: &[u8], i: usize) -> u8
    ensures { result ≡ get_or s.now i 0 }
{
    s.get(i).copied().unwrap_or(0)
}

// Two bytes as one number.
fn join2(a: u8, b: u8) -> u32
    ensures { result ≡ be (a ∷ b ∷ []) }
{
    u32::from(a) * 256 + u32::from(b)
}

// Four bytes as one number.
fn join4(a: u8, b: u8, c: u8, d: u8) -> u32
    ensures { result ≡ be (a ∷ b ∷ c ∷ d ∷ []) }
{
    ((u32::from(a) * 256 + u32::from(b)) * 256 + u32::from(c)) * 256 + u32::from(d)
}

// The number of the two bytes at a place.
pub fn u16_at(s: &[u8], at: usize) -> u32
    ensures { result ≡ be_at s.now at 2 }
{
    if s.len() <= at {
        return 0;
    }
    join2(s[at], octet(s, at + 1))
}

// The number of the four bytes at a place: read together where they are all there.
pub fn u32_at(s: &[u8], at: usize) -> u32
    ensures { result ≡ be_at s.now at 4 }
{
    if s.len() <= at {
        return 0;
    }
    if 4 <= s.len() - at {
        return join4(s[at], s[at + 1], s[at + 2], s[at + 3]);
    }
    join4(
        octet(s, at),
        octet(s, at + 1),
        octet(s, at + 2),
        octet(s, at + 3),
    )
}

// So many bytes from a place on, as a part of s; nothing where they are not all there.
pub fn part(s: &[u8], start: usize, size: usize) -> &[u8]
    ensures { PartOf s.entry (clipped (extent start size) (length s.now)) result }
{
    if s.len() < start {
        return &s[..0];
    }
    if s.len() - start < size {
        return &s[..0];
    }
    let end = start + size;
    &s[start..end]
}
