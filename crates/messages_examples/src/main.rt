// Runs the header and UPDATE examples of document 01, and headers that claim a long message, through the calls of messages, updates and
// update_writer, and prints what they answer.
#![tactic(auto)]

use families::{AddPath, Form};
use messages::kind::Kind;
use messages::{Edition, Message};
use routes::Routes;
use std::io;
use updates::Update;
use wire::refusal::Refusal;

fn bytes(rt: &impl Print, s: &[u8]) -> io::Result<()> {
    for b in s {
        print!(rt; " {:02x}", *b)?;
    }
    println!(rt;)
}

fn refused(rt: &impl Print, refusal: Refusal) -> io::Result<()> {
    println!(rt; " refused {}", u8::from(refusal))
}

fn show_answer(rt: &impl Print, answer: Result<Message, Refusal>) -> io::Result<()> {
    match answer {
        Ok(message) => {
            print!(rt; " type {}", u8::from(message.kind))?;
            print!(rt; " claimed {} taken {}", message.claimed, message.taken)?;
            for (set, name) in [
                (message.marker, "marker"),
                (message.cut, "cut"),
                (message.trailing, "trailing"),
            ] {
                if set {
                    print!(rt; " {name}")?;
                }
            }
            println!(rt;)
        }
        Err(refusal) => refused(rt, refusal),
    }
}

fn show_strict(rt: &impl Print, s: &[u8], edition: Edition) -> io::Result<()> {
    show_answer(rt, messages::parse_bgp_message_strict(s, edition))?;
    print!(rt; "    body")?;
    bytes(rt, messages::message_body_strict(s, edition))
}

fn show_message(rt: &impl Print, name: &str, s: &[u8]) -> io::Result<()> {
    print!(rt; "{name}\n  crate ")?;
    show_answer(rt, messages::parse_bgp_message(s))?;
    print!(rt; "    body")?;
    bytes(rt, messages::message_body(s))?;
    print!(rt; "  strict")?;
    show_strict(rt, s, Edition::Rfc4271)?;
    print!(rt; "  long  ")?;
    show_strict(rt, s, Edition::Rfc8654)
}

// The rows and the verdict of a section, and how many rows have a bit set past their length, where any has.
fn show_section(rt: &impl Print, section: Result<Routes, Refusal>) -> io::Result<()> {
    print!(rt;
        " {}/{}",
        routes::rows_in(section),
        routes::verdict_in(section)
    )?;
    let hosts = routes::hosts_in(section);
    if 0 < hosts {
        print!(rt; " with host bits {hosts}")?;
    }
    Ok(())
}

fn show_routes(rt: &impl Print, answer: Result<Update, Refusal>) -> io::Result<()> {
    match answer {
        Ok(update) => {
            show_section(rt, update.withdrawn)?;
            show_section(rt, update.announced)?;
            println!(rt;)
        }
        Err(refusal) => refused(rt, refusal),
    }
}

fn show_parts(rt: &impl Print, body: &[u8]) -> io::Result<()> {
    match updates::update_parts(body) {
        Ok(parts) => {
            println!(rt;
                " lengths {} {} {}",
                parts.withdrawn, parts.attributes, parts.announced
            )?;
            print!(rt; "    withdrawn")?;
            bytes(rt, updates::withdrawn_part(body))?;
            print!(rt; "    attributes")?;
            bytes(rt, updates::attribute_part(body))?;
            print!(rt; "    announced")?;
            bytes(rt, updates::announced_part(body))
        }
        Err(refusal) => refused(rt, refusal),
    }
}

// The routes of a body, counted, and read into a store of one row and one of two.
fn show_update(rt: &impl Print, name: &str, body: &[u8], mode: AddPath) -> io::Result<()> {
    print!(rt; "{name}\n  parts  ")?;
    show_parts(rt, body)?;
    print!(rt; "  count  ")?;
    show_routes(rt, updates::count_bgp_update_message(body, mode))?;
    let mut first = [0u32; 6];
    let mut second = [0u32; 12];
    print!(rt; "  read   ")?;
    show_routes(
        rt,
        updates::parse_bgp_update_message(body, mode, &mut first, &mut second),
    )
}

// A message that is written and read again, in an output of 32 bytes.
fn show_written(rt: &impl Print, name: &str, kind: u8, body: &[u8]) -> io::Result<()> {
    let mut out = [0u8; 32];
    print!(rt; "{name}")?;
    match messages::encode_bgp_message(kind, body, &mut out) {
        Ok(n) => {
            print!(rt; "\n  wrote   {n}\n  strict")?;
            show_answer(
                rt,
                messages::parse_bgp_message_strict(&out, Edition::Rfc4271),
            )
        }
        Err(refusal) => refused(rt, refusal),
    }
}

// A body with one route to withdraw and one to announce, written into an output of 16 bytes.
fn show_body(
    rt: &impl Print,
    name: &str,
    withdrawn: &[u32],
    attributes: &[u8],
    announced: &[u32],
) -> io::Result<()> {
    let mut out = [0u8; 16];
    print!(rt; "{name}")?;
    match update_writer::encode_bgp_update_message(
        withdrawn,
        attributes,
        announced,
        Form::Plain,
        &mut out,
    ) {
        Ok(n) => {
            print!(rt; "\n  wrote   {n}\n ")?;
            bytes(rt, wire::part(&out, 0, n))
        }
        Err(refusal) => refused(rt, refusal),
    }
}

fn headers(rt: &impl Print) -> io::Result<()> {
    show_message(
        rt,
        "KEEPALIVE",
        b"\xFF\xFF\xFF\xFF\xFF\xFF\xFF\xFF\xFF\xFF\xFF\xFF\xFF\xFF\xFF\xFF\x00\x13\x04",
    )?;
    show_message(
        rt,
        "00 12 09",
        b"\xFF\xFF\xFF\xFF\xFF\xFF\xFF\xFF\xFF\xFF\xFF\xFF\xFF\xFF\xFF\xFF\x00\x12\x09",
    )?;
    show_message(
        rt,
        "type 9",
        b"\xFF\xFF\xFF\xFF\xFF\xFF\xFF\xFF\xFF\xFF\xFF\xFF\xFF\xFF\xFF\xFF\x00\x13\x09",
    )?;
    show_message(
        rt,
        "OPEN claiming 4097",
        b"\xFF\xFF\xFF\xFF\xFF\xFF\xFF\xFF\xFF\xFF\xFF\xFF\xFF\xFF\xFF\xFF\x10\x01\x01",
    )?;
    show_message(
        rt,
        "OPEN claiming 4096",
        b"\xFF\xFF\xFF\xFF\xFF\xFF\xFF\xFF\xFF\xFF\xFF\xFF\xFF\xFF\xFF\xFF\x10\x00\x01",
    )?;
    show_message(
        rt,
        "UPDATE claiming 4097",
        b"\xFF\xFF\xFF\xFF\xFF\xFF\xFF\xFF\xFF\xFF\xFF\xFF\xFF\xFF\xFF\xFF\x10\x01\x02",
    )?;
    show_message(
        rt,
        "type 9 claiming 4097",
        b"\xFF\xFF\xFF\xFF\xFF\xFF\xFF\xFF\xFF\xFF\xFF\xFF\xFF\xFF\xFF\xFF\x10\x01\x09",
    )
}

fn flags(rt: &impl Print) -> io::Result<()> {
    show_message(
        rt,
        "UPDATE",
        b"\xFF\xFF\xFF\xFF\xFF\xFF\xFF\xFF\xFF\xFF\xFF\xFF\xFF\xFF\xFF\xFF\x00\x1B\x02\x00\x00\x00\x00\x18\x0A\x01\x08",
    )?;
    show_message(
        rt,
        "UPDATE, cut",
        b"\xFF\xFF\xFF\xFF\xFF\xFF\xFF\xFF\xFF\xFF\xFF\xFF\xFF\xFF\xFF\xFF\x00\x1B\x02\x00\x00\x00\x00\x18\x0A\x01",
    )?;
    show_message(
        rt,
        "KEEPALIVE, and two bytes of the next",
        b"\xFF\xFF\xFF\xFF\xFF\xFF\xFF\xFF\xFF\xFF\xFF\xFF\xFF\xFF\xFF\xFF\x00\x13\x04\xFF\xFF",
    )?;
    show_message(
        rt,
        "KEEPALIVE, marker not all FF",
        b"\xFF\xFF\xFF\xFF\xFF\xFF\xFF\xFF\xFF\xFF\xFF\xFF\xFF\xFF\xFF\xFE\x00\x13\x04",
    )?;
    show_message(
        rt,
        "eighteen bytes",
        b"\xFF\xFF\xFF\xFF\xFF\xFF\xFF\xFF\xFF\xFF\xFF\xFF\xFF\xFF\xFF\xFF\x00\x13",
    )
}

fn bodies(rt: &impl Print) -> io::Result<()> {
    show_update(
        rt,
        "one announced",
        b"\x00\x00\x00\x00\x18\x0A\x01\x08",
        AddPath::Off,
    )?;
    show_update(
        rt,
        "one announced, cut",
        b"\x00\x00\x00\x00\x18\x0A\x01",
        AddPath::Off,
    )?;
    show_update(
        rt,
        "one withdrawn, attributes, and a strange byte",
        b"\x00\x02\x08\x0A\x00\x03\x40\x01\x00\x08",
        AddPath::Off,
    )?;
    show_update(
        rt,
        "two withdrawn, no room",
        b"\x00\x02\x00\x00\x00\x00",
        AddPath::Off,
    )?;
    show_update(
        rt,
        "an id",
        b"\x00\x00\x00\x00\x00\x00\x00\x07\x08\x0A",
        AddPath::On,
    )?;
    show_update(
        rt,
        "too long a prefix",
        b"\x00\x05\x21\x0A\x00\x00\x00\x00\x00\x08\x0B",
        AddPath::Off,
    )?;
    show_update(
        rt,
        "host bits",
        b"\x00\x03\x09\x0A\x80\x00\x00\x09\x0A\xFF",
        AddPath::Off,
    )?;
    show_update(
        rt,
        "attributes not all there",
        b"\x00\x00\x00\x02\x40",
        AddPath::Off,
    )?;
    show_update(rt, "empty", b"", AddPath::Off)
}

fn writers(rt: &impl Print) -> io::Result<()> {
    show_written(rt, "a KEEPALIVE", u8::from(Kind::Keepalive), b"")?;
    show_written(
        rt,
        "a KEEPALIVE with a body",
        u8::from(Kind::Keepalive),
        b"\x00",
    )?;
    show_written(
        rt,
        "an UPDATE",
        u8::from(Kind::Update),
        b"\x00\x00\x00\x00\x18\x0A\x01\x08",
    )?;
    show_written(rt, "an OPEN too short", u8::from(Kind::Open), b"\x04")?;
    show_written(rt, "type 6", 6, b"")?;
    show_written(
        rt,
        "an UPDATE without room",
        u8::from(Kind::Update),
        b"\x00\x00\x00\x00\x18\x0A\x01\x08\x18\x0A\x01\x09\x18\x0A",
    )?;
    let ten = [8u32, 0, 167772160, 0, 0, 0];
    let eleven = [8u32, 0, 184549376, 0, 0, 0];
    let far = [33u32, 0, 0, 0, 0, 0];
    show_body(rt, "a body", &ten, b"\x40\x01\x00", &eleven)?;
    show_body(rt, "a body, not writable", &ten, b"", &far)?;
    show_body(
        rt,
        "a body without room",
        &ten,
        b"\x40\x01\x00\x40\x01\x00\x40\x01\x00",
        &eleven,
    )
}

fn main(rt: HostRuntime) -> io::Result<()> {
    headers(&rt)?;
    flags(&rt)?;
    bodies(&rt)?;
    writers(&rt)
}
