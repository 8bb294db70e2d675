// Goes from a message to its IPv6 routes: the body, its attributes, the search for MP_REACH_NLRI and MP_UNREACH_NLRI, and their readers; then writes what
// was read again. Prints what each call answers.
#![tactic(auto)]

use attributes::kind;
use families::{AddPath, Form};
use std::io;
use wire::refusal::Refusal;

fn bytes(rt: &impl Print, s: &[u8]) -> io::Result<()> {
    for b in s {
        print!(rt; " {:02x}", *b)?;
    }
    println!(rt;)
}

fn refused(rt: &impl Print, refusal: Refusal) -> io::Result<()> {
    println!(rt; " refused {}", u8::from(refusal))
}

// The words of rows, six a line.
fn show_rows(rt: &impl Print, words: &[u32]) -> io::Result<()> {
    for row in words.chunks(6) {
        print!(rt; "\n    row")?;
        for word in row {
            print!(rt; " {:08x}", *word)?;
        }
    }
    println!(rt;)
}

// The words of so many rows at the front of a store.
fn rows_of(store: &[u32], rows: usize) -> &[u32] {
    store.get(..rows.saturating_mul(6)).unwrap_or(&[])
}

fn show_written(rt: &impl Print, answer: Result<usize, Refusal>, out: &[u8]) -> io::Result<()> {
    match answer {
        Ok(n) => {
            print!(rt; "  written")?;
            bytes(rt, wire::part(out, 0, n))
        }
        Err(refusal) => refused(rt, refusal),
    }
}

// MP_REACH_NLRI into a store of two rows, and written again into an output of 64 bytes.
fn show_announced(rt: &impl Print, value: &[u8], mode: AddPath, form: Form) -> io::Result<()> {
    let mut store = [0u32; 12];
    let mut out = [0u8; 64];
    print!(rt; "  announced")?;
    match mp_nlri::parse_mp_reach_nlri(value, mode, &mut store) {
        Ok(reach) => {
            print!(rt; " {}, with host bits {}", reach.rows, reach.hosts)?;
            if reach.reserved {
                print!(rt; ", reserved byte not 0")?;
            }
            let rows = rows_of(&store, reach.rows);
            show_rows(rt, rows)?;
            let next_hop = mp_nlri::next_hop_part(value);
            print!(rt; "    next hop")?;
            bytes(rt, next_hop)?;
            let written = mp_nlri::encode_mp_reach_nlri(next_hop, rows, form, &mut out);
            show_written(rt, written, &out)
        }
        Err(refusal) => refused(rt, refusal),
    }
}

// MP_UNREACH_NLRI in the same way.
fn show_withdrawn(rt: &impl Print, value: &[u8], mode: AddPath, form: Form) -> io::Result<()> {
    let mut store = [0u32; 12];
    let mut out = [0u8; 64];
    print!(rt; "  withdrawn")?;
    match mp_nlri::parse_mp_unreach_nlri(value, mode, &mut store) {
        Ok(routes) => {
            print!(rt; " {}, with host bits {}", routes.rows, routes.hosts)?;
            let rows = rows_of(&store, routes.rows);
            show_rows(rt, rows)?;
            let written = mp_nlri::encode_mp_unreach_nlri(rows, form, &mut out);
            show_written(rt, written, &out)
        }
        Err(refusal) => refused(rt, refusal),
    }
}

// Whether a section has an attribute of a kind; a refusal of the section is shown.
fn is_there(rt: &impl Print, section: &[u8], kind: u8) -> io::Result<bool> {
    match attributes::find_attribute(section, kind) {
        Ok(found) => Ok(found.is_some()),
        Err(refusal) => {
            print!(rt; "  attributes")?;
            refused(rt, refusal)?;
            Ok(false)
        }
    }
}

// The IPv6 routes of an UPDATE.
fn show_message(
    rt: &impl Print,
    name: &str,
    message: &[u8],
    mode: AddPath,
    form: Form,
) -> io::Result<()> {
    println!(rt; "{name}")?;
    let section = updates::attribute_part(messages::message_body(message));
    if is_there(rt, section, kind::MP_REACH_NLRI)? {
        show_announced(
            rt,
            attributes::find_value(section, kind::MP_REACH_NLRI),
            mode,
            form,
        )?;
    }
    if is_there(rt, section, kind::MP_UNREACH_NLRI)? {
        show_withdrawn(
            rt,
            attributes::find_value(section, kind::MP_UNREACH_NLRI),
            mode,
            form,
        )?;
    }
    Ok(())
}

fn announcements(rt: &impl Print) -> io::Result<()> {
    show_message(
        rt,
        "2001:db8:1::/48, and 2001:db8:c000::/33 with a host bit, by 2001:db8::1",
        b"\xFF\xFF\xFF\xFF\xFF\xFF\xFF\xFF\xFF\xFF\xFF\xFF\xFF\xFF\xFF\xFF\x00\x40\x02\x00\x00\x00\x29\x40\x01\x01\x00\x80\x0E\x22\x00\x02\x01\x10\x20\x01\x0D\xB8\x00\x00\x00\x00\x00\x00\x00\x00\x00\x00\x00\x01\x00\x30\x20\x01\x0D\xB8\x00\x01\x21\x20\x01\x0D\xB8\xC0",
        AddPath::Off,
        Form::Plain,
    )?;
    show_message(
        rt,
        "the default route with id 7, by two addresses; the reserved byte is 1, and written as 0",
        b"\xFF\xFF\xFF\xFF\xFF\xFF\xFF\xFF\xFF\xFF\xFF\xFF\xFF\xFF\xFF\xFF\x00\x44\x02\x00\x00\x00\x2D\x80\x0E\x2A\x00\x02\x01\x20\x20\x01\x0D\xB8\x00\x00\x00\x00\x00\x00\x00\x00\x00\x00\x00\x01\xFE\x80\x00\x00\x00\x00\x00\x00\x00\x00\x00\x00\x00\x00\x00\x01\x01\x00\x00\x00\x07\x00",
        AddPath::On,
        Form::Tagged,
    )?;
    show_message(
        rt,
        "a next hop of 24 bytes",
        b"\xFF\xFF\xFF\xFF\xFF\xFF\xFF\xFF\xFF\xFF\xFF\xFF\xFF\xFF\xFF\xFF\x00\x1E\x02\x00\x00\x00\x07\x80\x0E\x04\x00\x02\x01\x18",
        AddPath::Off,
        Form::Plain,
    )?;
    show_message(
        rt,
        "VPN routes of IPv4; 2001:db8:1::/48 withdrawn",
        b"\xFF\xFF\xFF\xFF\xFF\xFF\xFF\xFF\xFF\xFF\xFF\xFF\xFF\xFF\xFF\xFF\x00\x2A\x02\x00\x00\x00\x13\x80\x0E\x03\x00\x01\x80\x80\x0F\x0A\x00\x02\x01\x30\x20\x01\x0D\xB8\x00\x01",
        AddPath::Off,
        Form::Plain,
    )
}

fn withdrawals(rt: &impl Print) -> io::Result<()> {
    show_message(
        rt,
        "the end of a table: nothing withdrawn",
        b"\xFF\xFF\xFF\xFF\xFF\xFF\xFF\xFF\xFF\xFF\xFF\xFF\xFF\xFF\xFF\xFF\x00\x1D\x02\x00\x00\x00\x06\x80\x0F\x03\x00\x02\x01",
        AddPath::Off,
        Form::Plain,
    )?;
    show_message(
        rt,
        "one byte, which is no rule here",
        b"\xFF\xFF\xFF\xFF\xFF\xFF\xFF\xFF\xFF\xFF\xFF\xFF\xFF\xFF\xFF\xFF\x00\x1E\x02\x00\x00\x00\x07\x80\x0F\x04\x00\x02\x01\x08",
        AddPath::Off,
        Form::Plain,
    )?;
    show_message(
        rt,
        "MP_UNREACH_NLRI twice",
        b"\xFF\xFF\xFF\xFF\xFF\xFF\xFF\xFF\xFF\xFF\xFF\xFF\xFF\xFF\xFF\xFF\x00\x23\x02\x00\x00\x00\x0C\x80\x0F\x03\x00\x02\x01\x80\x0F\x03\x00\x02\x01",
        AddPath::Off,
        Form::Plain,
    )
}

fn main(rt: HostRuntime) -> io::Result<()> {
    announcements(&rt)?;
    withdrawals(&rt)
}
