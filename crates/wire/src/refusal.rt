// Why a call refuses, each reason with its number: specs/Refusal.antt has the same for definitions, and when each is given.
ghost use Rattle.std.specs.Prelude.{◌≡◌, Some};
ghost use Rattle.wire.specs.Refusal.{number_of, reason_text};

use std::error::Error;
use std::fmt;

#[derive(Clone, Copy, Debug, PartialEq, Eq, Hash)]
pub enum Refusal {
    TooLong = 1,
    Truncated = 2,
    MessageLength = 3,
    MessageType = 4,
    ShortBody = 5,
    BadMarker = 6,
    PrefixLength = 7,
    OneByteSection = 8,
    SegmentType = 9,
    AggregatorLength = 10,
    NoRoom = 11,
    LongSegment = 12,
    WideNumber = 13,
    NotWritable = 14,
    RepeatedMpNlri = 15,
    EmptySegment = 16,
    OtherFamily = 17,
    NextHopLength = 18,
    NotAnIndex = 19,
    NoSuchRoute = 20,
}

// The number by which C, the lister and the documents name a reason.
impl From<Refusal> for u8 {
    ghost from_gives = { λ refusal number. number ≡ number_of refusal };

    fn from(refusal: Refusal) -> u8 {
        refusal as u8
    }
}

impl fmt::Display for Refusal {
    ghost output = { λ refusal. Some (reason_text refusal) };

    fn fmt<W: fmt::Write>(&self, f: &mut fmt::Formatter<W>) -> fmt::Result {
        f.write_str(match self {
            Refusal::TooLong => "more bytes than the limit",
            Refusal::Truncated => "fewer bytes than the field needs",
            Refusal::MessageLength => "a message length that is not allowed",
            Refusal::MessageType => "a message type that is not 1 to 5",
            Refusal::ShortBody => "a body shorter than the measured length",
            Refusal::BadMarker => "a marker that is not all FF",
            Refusal::PrefixLength => "a prefix length over the family's most",
            Refusal::OneByteSection => "a section of one byte that is not 0",
            Refusal::SegmentType => "a segment type that is not 1 to 4",
            Refusal::AggregatorLength => "an AGGREGATOR of a length that it cannot have",
            Refusal::NoRoom => "too few places to put the answer",
            Refusal::LongSegment => "a segment of over 255 numbers",
            Refusal::WideNumber => "an AS number that two bytes do not hold",
            Refusal::NotWritable => "rows or a path that cannot be written",
            Refusal::RepeatedMpNlri => "a second MP_REACH_NLRI or MP_UNREACH_NLRI",
            Refusal::EmptySegment => "a segment of no AS numbers",
            Refusal::OtherFamily => "routes of another family than IPv6 unicast",
            Refusal::NextHopLength => "a next hop that is not 16 or 32 bytes",
            Refusal::NotAnIndex => "places that are no index of the list",
            Refusal::NoSuchRoute => "a route that is not there",
        })
    }
}

impl Error for Refusal {}
