// The attribute section of an UPDATE (RFC 4271 section 4.3), attribute by attribute: the one at a place, and the first of a type (RFC 7606
// section 3). No value is looked into.
#![tactic(auto)]

ghost use Rattle.std.specs.Prelude.{◌≡◌, ◌+◌, ◌≤◌, length};
ghost use Rattle.wire.specs.Extent.{PartOf};
ghost use Rattle.wire.specs.Refusal.{list_limit};
ghost use Rattle.wire.specs.Verdict.{fine};
ghost use Rattle.attributes.specs.Attribute.{is_extended, attribute_of};
ghost use Rattle.attributes.specs.Promises.{value_at, attribute_at, verdict_of, find_answer};
ghost use Rattle.attributes.specs.Private.{whole_if, front_of, Inside};

use wire::refusal::Refusal;

pub mod kind;

// The flag bit that says that the length has two bytes.
const EXTENDED_LENGTH: u8 = 16;

// The bytes before a value: flags, type, and a length of one byte or of two.
const SHORT_HEAD: usize = 3;

const LONG_HEAD: usize = 4;

// An attribute: its flags and type, where its value starts, the value's length, and where the next attribute stands.
#[derive(Clone, Copy, Debug, PartialEq, Eq, Hash)]
pub struct Attribute {
    pub flags: u8,
    pub kind: u8,
    pub start: usize,
    pub length: usize,
    pub next: usize,
}

// Whether the length has two bytes.
fn is_extended(flags: u8) -> bool
    ensures { result ≡ is_extended flags }
{
    flags / EXTENDED_LENGTH % 2 == 1
}

// An attribute by its head, where so many bytes are left from the start of its value on, if these are enough.
#[inline(always)]
fn whole(flags: u8, kind: u8, start: usize, length: usize, left: usize) -> Option<Attribute>
    requires { start + left ≤ list_limit }
    ensures { result ≡ whole_if flags kind start length left }
{
    if left < length {
        return None;
    }
    Some(Attribute {
        flags,
        kind,
        start,
        length,
        next: start + length,
    })
}

// The attribute at the front of bytes that stand at a place, if all of it is there. Each kind of head has its own sum for the end: what reads the next
// attribute waits for it.
#[inline(always)]
fn front(s: &[u8], place: usize) -> Option<Attribute>
    requires { place + length s.now ≤ list_limit }
    ensures { result ≡ front_of place (attribute_of tt s.now) }
{
    if s.len() < SHORT_HEAD {
        return None;
    }
    let flags = s[0];
    if is_extended(flags) {
        if s.len() < LONG_HEAD {
            return None;
        }
        return whole(
            flags,
            s[1],
            place + LONG_HEAD,
            wire::u16_at(&s[2..4], 0) as usize,
            s.len() - LONG_HEAD,
        );
    }
    whole(
        flags,
        s[1],
        place + SHORT_HEAD,
        usize::from(s[2]),
        s.len() - SHORT_HEAD,
    )
}

// The attribute at a place of a section, and none at its end.
#[inline(always)]
pub fn attribute_at(section: &[u8], place: usize) -> Result<Option<Attribute>, Refusal>
    ensures { result ≡ attribute_at section.now place }
{
    if wire::LIST_LIMIT < section.len() {
        return Err(Refusal::TooLong);
    }
    if section.len() <= place {
        return Ok(None);
    }
    match front(&section[place..], place) {
        Some(attribute) => Ok(Some(attribute)),
        None => Err(Refusal::Truncated),
    }
}

// The value of an attribute of a section, and nothing where there is none.
fn value_of(section: &[u8], found: Result<Option<Attribute>, Refusal>) -> &[u8]
    requires { Inside found (length section.now) }
    ensures { PartOf section.entry (value_at found) result }
{
    match found {
        Ok(Some(attribute)) => wire::part(section, attribute.start, attribute.length),
        Ok(None) => wire::part(section, 0, 0),
        Err(_) => wire::part(section, 0, 0),
    }
}

// The value of the attribute at a place of a section, and nothing where there is none.
pub fn value_at(section: &[u8], place: usize) -> &[u8]
    ensures { PartOf section.entry (value_at (attribute_at section.now place)) result }
{
    value_of(section, attribute_at(section, place))
}

// What is wrong with a section: one of the two types is there more than once.
fn verdict(reach: usize, unreach: usize) -> Result<(), Refusal>
    ensures { result ≡ verdict_of reach unreach fine }
{
    if 1 < reach.max(unreach) {
        return Err(Refusal::RepeatedMpNlri);
    }
    Ok(())
}

// The first attribute of a type, where the whole section is good: no attribute is cut, and MP_REACH_NLRI and MP_UNREACH_NLRI stand there once at
// most each. `first` is how many bytes were left at it, 0 where none has come: one that comes later has fewer left.
pub fn find_attribute(section: &[u8], kind: u8) -> Result<Option<Attribute>, Refusal>
    ensures { result ≡ find_answer section.now kind }
{
    if wire::LIST_LIMIT < section.len() {
        return Err(Refusal::TooLong);
    }
    let mut reach: usize = 0;
    let mut unreach: usize = 0;
    let mut first: usize = 0;
    let mut rest = section;
    while !rest.is_empty() {
        let Some(attribute) = front(rest, 0) else {
            verdict(reach, unreach)?;
            return Err(Refusal::Truncated);
        };
        reach += usize::from(attribute.kind == kind::MP_REACH_NLRI);
        unreach += usize::from(attribute.kind == kind::MP_UNREACH_NLRI);
        if attribute.kind == kind {
            first = first.max(rest.len());
        }
        rest = &rest[attribute.next..];
    }
    verdict(reach, unreach)?;
    attribute_at(section, section.len() - first)
}

// The value of the first attribute of a type, and nothing where there is none.
pub fn find_value(section: &[u8], kind: u8) -> &[u8]
    ensures { PartOf section.entry (value_at (find_answer section.now kind)) result }
{
    value_of(section, find_attribute(section, kind))
}
