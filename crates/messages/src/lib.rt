// Messages by their header (RFC 4271 section 4.1): the crate's reading of messages.rs, the strict one of RFC 4271 or RFC 8654, and the writer.
#![tactic(auto)]

ghost use Rattle.std.specs.Prelude.{◌≡◌, ◌+◌, ◌≤◌, [], ◌∷◌, length, drop};
ghost use Rattle.wire.specs.Extent.{PartOf};
ghost use Rattle.wire.specs.Number.{be, padded};
ghost use Rattle.wire.specs.Store.{laid};
ghost use Rattle.messages.specs.Header.{marker_size, header_size, extended_limit, kind_number, marker_of, all_ff, limit_of, message_of, strict_within, strict_of, body_at};
ghost use Rattle.messages.specs.Written.{header, write_message, message_after};
ghost use Rattle.messages.specs.Private.{Fits};

use kind::Kind;
use wire::refusal::Refusal;

pub mod kind;

// The bytes of a header: sixteen of marker, two of length, one of type.
pub const HEADER_SIZE: usize = 19;

const LENGTH_AT: usize = 16;

const KIND_AT: usize = 18;

// Four marker bytes as a number, and eight.
const ALL_ONES: u32 = 4294967295;

const EIGHT_ONES: u64 = 18446744073709551615;

// The most bytes of a message (RFC 4271 section 4.1), and of one where both ends agreed on long ones (RFC 8654 section 4).
pub const MESSAGE_LIMIT: usize = 4096;

pub const EXTENDED_LIMIT: usize = 65535;

// Which RFC a strict reading goes by: RFC 4271, where no message is over 4,096 bytes, or RFC 8654, where both ends agreed on long ones.
#[derive(Clone, Copy, Debug, PartialEq, Eq, Hash)]
pub enum Edition {
    Rfc4271,
    Rfc8654,
}

// A message: its type, the length it claims, the bytes taken with the header, and whether its marker is not all FF, it claims
// more than there is, or less.
#[derive(Clone, Copy, Debug, PartialEq, Eq, Hash)]
pub struct Message {
    pub kind: Kind,
    pub claimed: usize,
    pub taken: usize,
    pub marker: bool,
    pub cut: bool,
    pub trailing: bool,
}

// Eight bytes as one number: a sum of each in its place, which becomes one load on x86-64 and on aarch64 alike.
fn join8(a: u8, b: u8, c: u8, d: u8, e: u8, f: u8, g: u8, h: u8) -> u64
    ensures { result ≡ be (a ∷ b ∷ c ∷ d ∷ e ∷ f ∷ g ∷ h ∷ []) }
{
    a as u64 * 72057594037927936
        + b as u64 * 281474976710656
        + c as u64 * 1099511627776
        + d as u64 * 4294967296
        + e as u64 * 16777216
        + f as u64 * 65536
        + g as u64 * 256
        + h as u64
}

// Whether the eight bytes at a place are all FF. They are joined last byte first, so that the machine need not turn them.
fn ones_at(s: &[u8], at: usize) -> bool
    requires { at + 8 ≤ length s.now }
    ensures { result ≡ all_ff (padded 8 (drop at s.now)) }
{
    join8(
        s[at + 7],
        s[at + 6],
        s[at + 5],
        s[at + 4],
        s[at + 3],
        s[at + 2],
        s[at + 1],
        s[at],
    ) == EIGHT_ONES
}

// Whether the sixteen marker bytes are all FF.
fn marked(s: &[u8]) -> bool
    requires { marker_size ≤ length s.now }
    ensures { result ≡ all_ff (marker_of s.now) }
{
    if !ones_at(s, 0) {
        return false;
    }
    ones_at(s, 8)
}

// The crate's reading: a message may be cut short, or followed by other bytes, and may have any marker.
pub fn parse_bgp_message(s: &[u8]) -> Result<Message, Refusal>
    ensures { result ≡ message_of s.now }
{
    if s.len() < HEADER_SIZE {
        return Err(Refusal::Truncated);
    }
    let claimed = wire::u16_at(s, LENGTH_AT) as usize;
    if claimed < HEADER_SIZE {
        return Err(Refusal::MessageLength);
    }
    let kind = Kind::try_from(s[KIND_AT])?;
    if kind.crate_limit() < claimed {
        return Err(Refusal::MessageLength);
    }
    let taken = claimed.min(s.len());
    if s.len() - HEADER_SIZE < taken - HEADER_SIZE {
        return Err(Refusal::ShortBody);
    }
    Ok(Message {
        kind,
        claimed,
        taken,
        marker: !marked(s),
        cut: s.len() < claimed,
        trailing: claimed < s.len(),
    })
}

// The strict reading under a limit: the whole message is there, and the bytes after it belong to the next.
fn parse_within(s: &[u8], limit: usize) -> Result<Message, Refusal>
    ensures { result ≡ strict_within limit s.now }
{
    if s.len() < HEADER_SIZE {
        return Err(Refusal::Truncated);
    }
    if !marked(s) {
        return Err(Refusal::BadMarker);
    }
    let claimed = wire::u16_at(s, LENGTH_AT) as usize;
    if !(HEADER_SIZE..=limit).contains(&claimed) {
        return Err(Refusal::MessageLength);
    }
    let kind = Kind::try_from(s[KIND_AT])?;
    if !kind.allows(claimed) {
        return Err(Refusal::MessageLength);
    }
    if s.len() < claimed {
        return Err(Refusal::Truncated);
    }
    Ok(Message {
        kind,
        claimed,
        taken: claimed,
        marker: false,
        cut: false,
        trailing: claimed < s.len(),
    })
}

// The most bytes that an edition lets a message claim, whatever its type: OPEN and KEEPALIVE have less by their own lengths.
fn limit_of(edition: Edition) -> usize
    ensures { result ≡ limit_of edition }
{
    match edition {
        Edition::Rfc4271 => MESSAGE_LIMIT,
        Edition::Rfc8654 => EXTENDED_LIMIT,
    }
}

// The strict reading of an edition.
pub fn parse_bgp_message_strict(s: &[u8], edition: Edition) -> Result<Message, Refusal>
    ensures { result ≡ strict_of edition s.now }
{
    parse_within(s, limit_of(edition))
}

// The body of a message that was found in s: that part of s, and nothing where it is refused.
fn body_part(s: &[u8], found: Result<Message, Refusal>) -> &[u8]
    requires { Fits found (length s.now) }
    ensures { PartOf s.entry (body_at found) result }
{
    match found {
        Ok(message) => &s[HEADER_SIZE..message.taken],
        Err(_) => &s[..0],
    }
}

// The body of a message as the crate reads it.
pub fn message_body(s: &[u8]) -> &[u8]
    ensures { PartOf s.entry (body_at (message_of s.now)) result }
{
    body_part(s, parse_bgp_message(s))
}

// The body of a message as the strict reading of an edition has it.
pub fn message_body_strict(s: &[u8], edition: Edition) -> &[u8]
    ensures { PartOf s.entry (body_at (strict_of edition s.now)) result }
{
    body_part(s, parse_bgp_message_strict(s, edition))
}

// A header of an all-FF marker, at the front of the output.
fn put_header(out: &mut [u8], total: usize, kind: Kind)
    requires { (total ≤ extended_limit) × (header_size ≤ length out.old) }
    ensures { out.new ≡ laid out.old 0 (header total (kind_number kind)) }
{
    outputs::put_octets(out, 0, ALL_ONES, 4);
    outputs::put_octets(out, 4, ALL_ONES, 4);
    outputs::put_octets(out, 8, ALL_ONES, 4);
    outputs::put_octets(out, 12, ALL_ONES, 4);
    outputs::put_octets(
        out,
        LENGTH_AT,
        (total as u32) * 65536 + u32::from(u8::from(kind)) * 256,
        3,
    );
}

// Writes a message of a type, which any byte may name, and a body.
pub fn encode_bgp_message(kind: u8, body: &[u8], out: &mut [u8]) -> Result<usize, Refusal>
    ensures answer { result ≡ write_message kind body.now (length out.old) }
    ensures output { out.new ≡ message_after kind body.now out.old }
{
    let kind = Kind::try_from(kind)?;
    let total = HEADER_SIZE + body.len();
    if !kind.allows(total) {
        return Err(Refusal::MessageLength);
    }
    if out.len() < total {
        return Err(Refusal::NoRoom);
    }
    put_header(out, total, kind);
    copies::copy_at(out, HEADER_SIZE, body);
    Ok(total)
}
