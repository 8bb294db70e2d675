// The UPDATE body (RFC 4271 section 4.3): its three sections as parts of the caller's bytes, and its routes in lent stores. The reading of
// parse_bgp_update_message in messages.rs.
#![tactic(auto)]

ghost use Rattle.std.specs.Prelude.{◌≡◌, length};
ghost use Rattle.wire.specs.Extent.{PartOf};
ghost use Rattle.updates.specs.Body.{parts_of, withdrawn_at, attributes_at, announced_at};
ghost use Rattle.updates.specs.Update.{count_update, read_update, withdrawn_after, announced_after};

use families::{AddPath, Afi, octets};
use routes::Routes;
use wire::refusal::Refusal;

// The bytes of a section's length.
pub const LENGTH_SIZE: usize = 2;

// The lengths of the three sections.
#[derive(Clone, Copy, Debug, PartialEq, Eq, Hash)]
pub struct Parts {
    pub withdrawn: usize,
    pub attributes: usize,
    pub announced: usize,
}

// The routes of both sections, each with its rows, and those that have a bit set past their length, or why it is refused.
#[derive(Clone, Copy, Debug, PartialEq, Eq, Hash)]
pub struct Update {
    pub withdrawn: Result<Routes, Refusal>,
    pub announced: Result<Routes, Refusal>,
}

// How long the three sections are.
pub fn update_parts(body: &[u8]) -> Result<Parts, Refusal>
    ensures { result ≡ parts_of body.now }
{
    let n = body.len();
    if wire::BODY_LIMIT < n {
        return Err(Refusal::TooLong);
    }
    if n < LENGTH_SIZE {
        return Err(Refusal::Truncated);
    }
    let withdrawn = wire::u16_at(body, 0) as usize;
    let at = LENGTH_SIZE + withdrawn;
    if n < at + LENGTH_SIZE {
        return Err(Refusal::Truncated);
    }
    let attributes = wire::u16_at(body, at) as usize;
    let end = at + LENGTH_SIZE + attributes;
    if n < end {
        return Err(Refusal::Truncated);
    }
    Ok(Parts {
        withdrawn,
        attributes,
        announced: n - end,
    })
}

// The withdrawn section, and nothing where the body is refused.
pub fn withdrawn_part(body: &[u8]) -> &[u8]
    ensures { PartOf body.entry (withdrawn_at (parts_of body.now)) result }
{
    let Ok(parts) = update_parts(body) else {
        return &body[..0];
    };
    wire::part(body, LENGTH_SIZE, parts.withdrawn)
}

// The attribute section, and nothing where the body is refused.
pub fn attribute_part(body: &[u8]) -> &[u8]
    ensures { PartOf body.entry (attributes_at (parts_of body.now)) result }
{
    let Ok(parts) = update_parts(body) else {
        return &body[..0];
    };
    let start = LENGTH_SIZE + parts.withdrawn + LENGTH_SIZE;
    wire::part(body, start, parts.attributes)
}

// The announced section, and nothing where the body is refused.
pub fn announced_part(body: &[u8]) -> &[u8]
    ensures { PartOf body.entry (announced_at (parts_of body.now)) result }
{
    let Ok(parts) = update_parts(body) else {
        return &body[..0];
    };
    let start = LENGTH_SIZE + parts.withdrawn + LENGTH_SIZE + parts.attributes;
    wire::part(body, start, parts.announced)
}

// How many routes both sections have, and how many of them have a bit set past their length: IPv4 ones, as the body of an UPDATE has them.
#[inline(always)]
pub fn count_bgp_update_message(body: &[u8], mode: AddPath) -> Result<Update, Refusal>
    ensures { result ≡ count_update body.now mode }
{
    update_parts(body)?;
    let mut counts = [0u8; 256];
    octets::put_counts(Afi::Ipv4, &mut counts);
    Ok(Update {
        withdrawn: routes::count_section_by(withdrawn_part(body), &counts, mode),
        announced: routes::count_section_by(announced_part(body), &counts, mode),
    })
}

// The routes of both sections into two lent stores: where either has no room for its rows, neither is touched.
pub fn parse_bgp_update_message(
    body: &[u8],
    mode: AddPath,
    withdrawn: &mut [u32],
    announced: &mut [u32],
) -> Result<Update, Refusal>
    ensures answer { result ≡ read_update body.now mode (length withdrawn.old) (length announced.old) }
    ensures withdrawn { withdrawn.new ≡ withdrawn_after result body.now mode withdrawn.old }
    ensures announced { announced.new ≡ announced_after result body.now mode announced.old }
{
    update_parts(body)?;
    let both = route_reader::read_nlri_pair(
        withdrawn_part(body),
        announced_part(body),
        Afi::Ipv4,
        mode,
        withdrawn,
        announced,
    )?;
    Ok(Update {
        withdrawn: both.first,
        announced: both.second,
    })
}
