// The message types (RFC 4271 section 4.1, RFC 2918 section 3), and the lengths that messages of each may have.
ghost use Rattle.std.specs.Prelude.{◌≡◌, not, Some};
ghost use Rattle.messages.specs.Header.{kind_number, kind_read, kind_text, crate_limit, least_length, most_length, is_outside};

use super::{EXTENDED_LIMIT, HEADER_SIZE, MESSAGE_LIMIT};
use std::fmt;
use wire::refusal::Refusal;

#[derive(Clone, Copy, Debug, PartialEq, Eq, Hash)]
pub enum Kind {
    Open = 1,
    Update = 2,
    Notification = 3,
    Keepalive = 4,
    RouteRefresh = 5,
}

// The number by which a header names a type.
impl From<Kind> for u8 {
    ghost from_gives = { λ kind number. number ≡ kind_number kind };

    fn from(kind: Kind) -> u8 {
        kind as u8
    }
}

impl TryFrom<u8> for Kind {
    type Error = Refusal;

    ghost try_from_gives = { λ number kind. kind ≡ kind_read number };

    #[tactic(auto, unfolding(crate::specs::Header::kind_read, crate::specs::Header::kind_named, crate::specs::Header::is_unknown, crate::specs::Header::is_outside))]
    fn try_from(number: u8) -> Result<Self, Refusal> {
        match number {
            1 => Ok(Kind::Open),
            2 => Ok(Kind::Update),
            3 => Ok(Kind::Notification),
            4 => Ok(Kind::Keepalive),
            5 => Ok(Kind::RouteRefresh),
            _ => Err(Refusal::MessageType),
        }
    }
}

impl fmt::Display for Kind {
    ghost output = { λ kind. Some (kind_text kind) };

    fn fmt<W: fmt::Write>(&self, f: &mut fmt::Formatter<W>) -> fmt::Result {
        f.write_str(match self {
            Kind::Open => "OPEN",
            Kind::Update => "UPDATE",
            Kind::Notification => "NOTIFICATION",
            Kind::Keepalive => "KEEPALIVE",
            Kind::RouteRefresh => "ROUTE-REFRESH",
        })
    }
}

impl Kind {
    // The most bytes that the crate takes of a type: OPEN and KEEPALIVE are never long.
    #[tactic(auto, unfolding(crate::specs::Header::crate_limit))]
    pub(crate) fn crate_limit(self) -> usize
        ensures { result ≡ crate_limit (kind_number self) }
    {
        match self {
            Kind::Open | Kind::Keepalive => MESSAGE_LIMIT,
            Kind::Update | Kind::Notification | Kind::RouteRefresh => EXTENDED_LIMIT,
        }
    }

    // The fewest bytes of a type: the header and what its body always has. A byte each, so that they become one number to shift, and no jumps.
    #[tactic(auto, unfolding(crate::specs::Header::least_length))]
    fn least_length(self) -> u8
        ensures { result ≡ least_length (kind_number self) }
    {
        match self {
            Kind::Open => 29,
            Kind::Update | Kind::RouteRefresh => 23,
            Kind::Notification => 21,
            Kind::Keepalive => 19,
        }
    }

    // The most bytes of a type under any edition: a KEEPALIVE is a header.
    #[tactic(auto, unfolding(crate::specs::Header::most_length))]
    fn most_length(self) -> usize
        ensures { result ≡ most_length (kind_number self) }
    {
        match self {
            Kind::Keepalive => HEADER_SIZE,
            _ => self.crate_limit(),
        }
    }

    // Whether a type has messages of that length.
    pub(crate) fn allows(self, length: usize) -> bool
        ensures { result ≡ not (is_outside (least_length (kind_number self)) (most_length (kind_number self)) length) }
    {
        (usize::from(self.least_length())..=self.most_length()).contains(&length)
    }
}
