// AS numbers of two bytes or four (RFC 6793 section 4.1), and AGGREGATOR (RFC 4271 section 4.3): the widths, reads and writes that a path
// and an AGGREGATOR share. The reading and the writer of attr_07_18_aggregator.rs.
#![tactic(auto)]

ghost use Rattle.std.specs.Prelude.{◌≡◌, length};
ghost use Rattle.wire.specs.Number.{be_at};
ghost use Rattle.asns.specs.Asn.{width_of, span, fits_width, with_number, eight_for};
ghost use Rattle.asns.specs.Aggregator.{aggregator_in, aggregator_of, aggregator_written, aggregator_left};

use wire::refusal::Refusal;

// The width of AS numbers: two bytes, or four.
#[derive(Clone, Copy, Debug, PartialEq, Eq, Hash)]
pub enum AsnLength {
    Bits16,
    Bits32,
}

// An AGGREGATOR, with a flag where its width is not the configured one.
#[derive(Clone, Copy, Debug, PartialEq, Eq, Hash)]
pub struct Aggregator {
    pub asn: u32,
    pub identifier: u32,
    pub differs: bool,
}

// The bytes of an AS number.
pub fn asn_bytes(width: AsnLength) -> usize
    ensures { result ≡ width_of width }
{
    match width {
        AsnLength::Bits16 => 2,
        AsnLength::Bits32 => 4,
    }
}

// The bytes of n AS numbers.
#[tactic(auto, using(crate::proofs::AsnLaws::span_is))]
pub fn numbers_size(n: u16, width: AsnLength) -> usize
    ensures { result ≡ span (width_of width) n }
{
    usize::from(n) * asn_bytes(width)
}

// How many AS numbers go at once where that many are there: what is too much is overwritten by the numbers that follow.
pub const AT_ONCE: usize = 8;

// Whether that many may go for n, of so many numbers and bytes that are there.
#[tactic(auto, unfolding(crate::specs::Asn::eight_for))]
pub fn eight_for(n: usize, numbers: usize, bytes: usize, width: AsnLength) -> bool
    ensures { result ≡ eight_for (width_of width) n numbers bytes }
{
    n <= AT_ONCE && AT_ONCE <= numbers && numbers_size(8, width) <= bytes
}

// The AS number at a place.
pub fn number_at(s: &[u8], at: usize, width: AsnLength) -> u32
    ensures { result ≡ be_at s.now at (width_of width) }
{
    match width {
        AsnLength::Bits16 => wire::u16_at(s, at),
        AsnLength::Bits32 => wire::u32_at(s, at),
    }
}

// Whether the width's bytes hold a number.
pub fn fits_width(asn: u32, width: AsnLength) -> bool
    ensures { result ≡ fits_width asn width }
{
    match width {
        AsnLength::Bits16 => asn < 65536,
        AsnLength::Bits32 => true,
    }
}

// A number at a place of the output, where the width holds it and there is room.
#[tactic(auto, unfolding(crate::specs::Asn::with_number))]
pub fn put_number(out: &mut [u8], to: usize, asn: u32, width: AsnLength)
    ensures { out.new ≡ with_number out.old to asn width }
{
    match width {
        AsnLength::Bits16 => {
            if let Ok(narrow) = u16::try_from(asn) {
                outputs::put_u16(out, to, narrow);
            }
        }
        AsnLength::Bits32 => outputs::put_u32(out, to, asn),
    }
}

// An AGGREGATOR whose number has the width.
fn aggregator_in(value: &[u8], found: AsnLength, width: AsnLength) -> Aggregator
    ensures { result ≡ aggregator_in value.now found width }
{
    Aggregator {
        asn: number_at(value, 0, found),
        identifier: wire::u32_at(value, asn_bytes(found)),
        differs: found != width,
    }
}

// An AGGREGATOR by the length of its value, whatever the configured width: a flag tells when they differ.
#[tactic(auto, unfolding(crate::specs::Aggregator::aggregator_of))]
pub fn parse_aggregator(value: &[u8], width: AsnLength) -> Result<Aggregator, Refusal>
    ensures { result ≡ aggregator_of value.now width }
{
    if wire::LIST_LIMIT < value.len() {
        return Err(Refusal::TooLong);
    }
    match value.len() {
        8 => Ok(aggregator_in(value, AsnLength::Bits32, width)),
        6 => Ok(aggregator_in(value, AsnLength::Bits16, width)),
        _ => Err(Refusal::AggregatorLength),
    }
}

// An AGGREGATOR of the width.
#[tactic(auto, using(crate::proofs::AggregatorLaws::both_put, crate::proofs::AggregatorLaws::bytes_length, crate::proofs::AsnLaws::width_most), unfolding(crate::specs::Aggregator::aggregator_written, crate::specs::Aggregator::aggregator_left))]
fn encode_in(asn: u32, identifier: u32, width: AsnLength, out: &mut [u8]) -> Result<usize, Refusal>
    ensures answer { result ≡ aggregator_written asn identifier width (length out.old) }
    ensures out { out.new ≡ aggregator_left asn identifier width out.old }
{
    if !fits_width(asn, width) {
        return Err(Refusal::WideNumber);
    }
    let w = asn_bytes(width);
    if out.len() < w + 4 {
        return Err(Refusal::NoRoom);
    }
    put_number(out, 0, asn, width);
    outputs::put_u32(out, w, identifier);
    Ok(w + 4)
}

// An AGGREGATOR of the width: a call for each, so that the width is known where it is compiled.
pub fn encode_aggregator(
    asn: u32,
    identifier: u32,
    width: AsnLength,
    out: &mut [u8],
) -> Result<usize, Refusal>
    ensures answer { result ≡ aggregator_written asn identifier width (length out.old) }
    ensures out { out.new ≡ aggregator_left asn identifier width out.old }
{
    match width {
        AsnLength::Bits16 => encode_in(asn, identifier, AsnLength::Bits16, out),
        AsnLength::Bits32 => encode_in(asn, identifier, AsnLength::Bits32, out),
    }
}
