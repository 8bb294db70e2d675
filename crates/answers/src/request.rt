// A request record: the call that it names, its settings, the places that are lent, and its three parts; and whether it is one that is given.
use asns::AsnLength;
use families::{AddPath, Afi, Form};
use messages::Edition;
use paths::PathRule;

// The bytes before the parts.
const HEAD_SIZE: usize = 18;

// The most places of a store and the most bytes of a part.
pub const ROOM_LIMIT: usize = 400000;

// The calls, by the numbers of their records.
#[derive(Clone, Copy, Debug, PartialEq, Eq)]
pub enum Op {
    TryParsePrefix = 1,
    ParseNlriList = 2,
    CountNlriList = 3,
    ReadNlri = 4,
    CountNlri = 5,
    ParseAsPath = 6,
    CountAsPath = 7,
    ParseAggregator = 8,
    ParseBgpMessage = 9,
    ParseBgpUpdateMessage = 10,
    CountBgpUpdateMessage = 11,
    UpdateParts = 12,
    EncodeNlriPrefixes = 13,
    EncodeAsPath = 14,
    EncodeAggregator = 15,
    EncodeBgpMessage = 16,
    EncodeBgpUpdateMessage = 17,
    AttributeAt = 18,
    FindAttribute = 19,
    WhichAggregator = 20,
    MergeAsPath = 21,
    ParseMpReachNlri = 22,
    CountMpReachNlri = 23,
    ParseMpUnreachNlri = 24,
    CountMpUnreachNlri = 25,
    EncodeMpReachNlri = 26,
    EncodeMpUnreachNlri = 27,
    ClearGuessed = 28,
    BuildIndex = 29,
    RouteAt = 30,
}

// A number that names no call, or settings that are none.
#[derive(Clone, Copy, Debug, PartialEq, Eq)]
pub struct NotGiven;

impl TryFrom<u8> for Op {
    type Error = NotGiven;

    fn try_from(number: u8) -> Result<Self, NotGiven> {
        Ok(match number {
            1 => Op::TryParsePrefix,
            2 => Op::ParseNlriList,
            3 => Op::CountNlriList,
            4 => Op::ReadNlri,
            5 => Op::CountNlri,
            6 => Op::ParseAsPath,
            7 => Op::CountAsPath,
            8 => Op::ParseAggregator,
            9 => Op::ParseBgpMessage,
            10 => Op::ParseBgpUpdateMessage,
            11 => Op::CountBgpUpdateMessage,
            12 => Op::UpdateParts,
            13 => Op::EncodeNlriPrefixes,
            14 => Op::EncodeAsPath,
            15 => Op::EncodeAggregator,
            16 => Op::EncodeBgpMessage,
            17 => Op::EncodeBgpUpdateMessage,
            18 => Op::AttributeAt,
            19 => Op::FindAttribute,
            20 => Op::WhichAggregator,
            21 => Op::MergeAsPath,
            22 => Op::ParseMpReachNlri,
            23 => Op::CountMpReachNlri,
            24 => Op::ParseMpUnreachNlri,
            25 => Op::CountMpUnreachNlri,
            26 => Op::EncodeMpReachNlri,
            27 => Op::EncodeMpUnreachNlri,
            28 => Op::ClearGuessed,
            29 => Op::BuildIndex,
            30 => Op::RouteAt,
            _ => return Err(NotGiven),
        })
    }
}

// A sum: 1 Add-Path and 2 guess, as a slot has them; 4 IPv6, 8 AS numbers of four bytes, 16 strict, 32 RFC 8654.
#[derive(Clone, Copy, Debug, PartialEq, Eq)]
pub struct Settings(u8);

impl TryFrom<u8> for Settings {
    type Error = NotGiven;

    fn try_from(sum: u8) -> Result<Self, NotGiven> {
        if 63 < sum {
            return Err(NotGiven);
        }
        Ok(Settings(sum))
    }
}

impl Settings {
    fn has(self, one: u8) -> bool {
        self.0 & one != 0
    }

    pub fn mode(self) -> AddPath {
        AddPath::from(self.0)
    }

    pub fn form(self) -> Form {
        if self.has(1) {
            Form::Tagged
        } else {
            Form::Plain
        }
    }

    pub fn afi(self) -> Afi {
        if self.has(4) { Afi::Ipv6 } else { Afi::Ipv4 }
    }

    pub fn width(self) -> AsnLength {
        if self.has(8) {
            AsnLength::Bits32
        } else {
            AsnLength::Bits16
        }
    }

    pub fn is_strict(self) -> bool {
        self.has(16)
    }

    pub fn rule(self) -> PathRule {
        if self.is_strict() {
            PathRule::Strict
        } else {
            PathRule::Crate
        }
    }

    pub fn edition(self) -> Edition {
        if self.has(32) {
            Edition::Rfc8654
        } else {
            Edition::Rfc4271
        }
    }
}

// A record that is given: what it lends in two stores, its parts, and its bytes in all.
#[derive(Clone, Copy)]
pub struct Record<'a> {
    pub op: Op,
    pub settings: Settings,
    pub room_a: usize,
    pub room_b: usize,
    pub one: &'a [u8],
    pub two: &'a [u8],
    pub three: &'a [u8],
    pub argument: u8,
    pub size: usize,
}

// The bytes in hand: a whole record, too few to say, a record that is not given, or the end.
#[derive(Clone, Copy)]
pub enum Judged<'a> {
    Whole(Record<'a>),
    More,
    Wrong,
    End,
}

// What stands before the parts, whose lengths it has.
#[derive(Clone, Copy)]
struct Head {
    op: Op,
    settings: Settings,
    room_a: usize,
    room_b: usize,
    one: usize,
    two: usize,
    three: usize,
    argument: u8,
}

// The number of the three bytes at a place that is not the last.
fn u24_at(s: &[u8], at: usize) -> usize {
    (wire::u32_at(s, at) / 256) as usize
}

// Whether a part is whole numbers of four bytes.
fn whole(size: usize) -> bool {
    size % 4 == 0
}

impl Head {
    // The head at the front of bytes, if it is one that is given.
    fn read(s: &[u8]) -> Result<Head, NotGiven> {
        let head = Head {
            op: Op::try_from(wire::octet(s, 0))?,
            settings: Settings::try_from(wire::octet(s, 1))?,
            room_a: u24_at(s, 2),
            room_b: u24_at(s, 5),
            one: u24_at(s, 8),
            two: u24_at(s, 11),
            three: u24_at(s, 14),
            argument: wire::octet(s, 17),
        };
        if ROOM_LIMIT < head.largest() {
            return Err(NotGiven);
        }
        if !head.parts_given() {
            return Err(NotGiven);
        }
        Ok(head)
    }

    // The largest of the rooms and the parts.
    fn largest(&self) -> usize {
        self.room_a
            .max(self.room_b)
            .max(self.one)
            .max(self.two)
            .max(self.three)
    }

    // Whether the parts that hold numbers are whole numbers, and as many as the call takes, and the third of a merge is no shorter than its argument says.
    fn parts_given(&self) -> bool {
        match self.op {
            Op::EncodeNlriPrefixes | Op::EncodeMpUnreachNlri | Op::ClearGuessed => whole(self.one),
            Op::EncodeAsPath => whole(self.one) & whole(self.two),
            Op::EncodeAggregator => self.one == 8,
            Op::EncodeBgpUpdateMessage => whole(self.one) & whole(self.three),
            Op::AttributeAt => self.two == 4,
            Op::MergeAsPath => usize::from(self.argument) <= self.three,
            Op::EncodeMpReachNlri => whole(self.two),
            Op::RouteAt => (self.two % 2 == 0) & (self.three == 4),
            _ => true,
        }
    }

    // The record with this head at the front of bytes, if it is all there.
    fn record<'a>(&self, s: &'a [u8]) -> Option<Record<'a>> {
        let two = HEAD_SIZE.saturating_add(self.one);
        let three = two.saturating_add(self.two);
        let size = three.saturating_add(self.three);
        if s.len() < size {
            return None;
        }
        Some(Record {
            op: self.op,
            settings: self.settings,
            room_a: self.room_a,
            room_b: self.room_b,
            one: wire::part(s, HEAD_SIZE, self.one),
            two: wire::part(s, two, self.two),
            three: wire::part(s, three, self.three),
            argument: self.argument,
            size,
        })
    }
}

// The record at the front of s; ended says that no byte follows s.
pub fn judge(s: &[u8], ended: bool) -> Judged<'_> {
    let short = if ended { Judged::Wrong } else { Judged::More };
    if s.len() < HEAD_SIZE {
        if ended & (s.len() == 0) {
            return Judged::End;
        }
        return short;
    }
    let Ok(head) = Head::read(s) else {
        return Judged::Wrong;
    };
    match head.record(s) {
        Some(record) => Judged::Whole(record),
        None => short,
    }
}
