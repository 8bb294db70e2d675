// Runs the route examples of document 01 through the calls of routes, route_reader, route_marks and route_writer, and prints what they answer.
#![tactic(auto)]

use families::{AddPath, Afi, Form};
use routes::{Routes, Row};
use std::io;
use wire::refusal::Refusal;

fn bytes(rt: &impl Print, s: &[u8]) -> io::Result<()> {
    for b in s {
        print!(rt; " {:02x}", *b)?;
    }
    Ok(())
}

// An address word as four octets, and as two groups of an IPv6 address.
fn dotted(rt: &impl Print, w: u32) -> io::Result<()> {
    print!(rt;
        "{}.{}.{}.{}",
        w >> 24,
        w >> 16 & 255,
        w >> 8 & 255,
        w & 255
    )
}

fn groups(rt: &impl Print, w: u32) -> io::Result<()> {
    print!(rt; "{:x}:{:x}", w >> 16, w & 65535)
}

fn address(rt: &impl Print, row: Row, afi: Afi) -> io::Result<()> {
    if afi == Afi::Ipv4 {
        return dotted(rt, row.w0);
    }
    groups(rt, row.w0)?;
    for w in [row.w1, row.w2, row.w3] {
        print!(rt; ":")?;
        groups(rt, w)?;
    }
    Ok(())
}

fn show_row(rt: &impl Print, row: Row, afi: Afi) -> io::Result<()> {
    print!(rt; "    ")?;
    address(rt, row, afi)?;
    print!(rt; "/{}", row.first % 256)?;
    if families::GUESSED <= row.first {
        print!(rt; " guessed")?;
    }
    if 256 <= row.first {
        print!(rt; " id {}", row.id)?;
    }
    println!(rt;)
}

fn show_rows(rt: &impl Print, words: &[u32], afi: Afi) -> io::Result<()> {
    for row in words.chunks_exact(6) {
        if let [first, id, w0, w1, w2, w3] = *row {
            let row = Row {
                first,
                id,
                w0,
                w1,
                w2,
                w3,
            };
            show_row(rt, row, afi)?;
        }
    }
    Ok(())
}

// The words of so many rows at the front of a store.
fn rows_of(store: &[u32], rows: usize) -> &[u32] {
    store.get(..rows.saturating_mul(6)).unwrap_or(store)
}

fn refused(rt: &impl Print, refusal: Refusal) -> io::Result<()> {
    println!(rt; "refused {}", u8::from(refusal))
}

// A list's rows, and how many of them have a bit set past their length, where any has.
fn show_list(
    rt: &impl Print,
    answer: Result<Routes, Refusal>,
    store: &[u32],
    afi: Afi,
) -> io::Result<()> {
    match answer {
        Ok(routes) => {
            print!(rt; "rows {}", routes.rows)?;
            if 0 < routes.hosts {
                print!(rt; ", with host bits {}", routes.hosts)?;
            }
            println!(rt;)?;
            show_rows(rt, rows_of(store, routes.rows), afi)
        }
        Err(refusal) => refused(rt, refusal),
    }
}

fn form_of(mode: AddPath) -> Form {
    match mode {
        AddPath::On => Form::Tagged,
        AddPath::Off | AddPath::Guess => Form::Plain,
    }
}

// The rows of a list written again: the bytes they came from, or why they cannot be written.
fn write_back(rt: &impl Print, rows: &[u32], afi: Afi, mode: AddPath, s: &[u8]) -> io::Result<()> {
    let mut out = [0u8; 64];
    print!(rt; "  write ")?;
    match route_writer::encode_nlri_prefixes(rows, afi, form_of(mode), &mut out) {
        Ok(n) => {
            let which = if wire::part(&out, 0, n) == s {
                "the same"
            } else {
                "other"
            };
            println!(rt; "{which} bytes")
        }
        Err(refusal) => refused(rt, refusal),
    }
}

fn heading(rt: &impl Print, afi: Afi, mode: AddPath, s: &[u8]) -> io::Result<()> {
    let family = match afi {
        Afi::Ipv4 => "IPv4",
        Afi::Ipv6 => "IPv6",
    };
    let setting = match mode {
        AddPath::On => "on",
        AddPath::Off => "off",
        AddPath::Guess => "guess",
    };
    print!(rt; "{family} {setting}")?;
    bytes(rt, s)?;
    println!(rt;)
}

// A list: what the counting reader answers, the rows, and what they are written as.
fn list(rt: &impl Print, s: &[u8], afi: Afi, mode: AddPath) -> io::Result<()> {
    print!(rt; "list ")?;
    heading(rt, afi, mode, s)?;
    let mut store = [0u32; 60];
    print!(rt; "  count ")?;
    show_list(rt, routes::count_nlri_list(s, afi, mode), &[], afi)?;
    print!(rt; "  read ")?;
    let answer = route_reader::parse_nlri_list(s, afi, mode, &mut store);
    show_list(rt, answer, &store, afi)?;
    match answer {
        Ok(routes) => write_back(rt, rows_of(&store, routes.rows), afi, mode, s),
        Err(_) => Ok(()),
    }
}

// Rows without the marks of the guess, and what they are written as with Add-Path on.
fn believe(rt: &impl Print, rows: &mut [u32], s: &[u8]) -> io::Result<()> {
    match route_marks::clear_guessed(rows) {
        Ok(_) => {
            show_rows(rt, rows, Afi::Ipv4)?;
            write_back(rt, rows, Afi::Ipv4, AddPath::On, s)
        }
        Err(refusal) => refused(rt, refusal),
    }
}

// A list that the guess reads, its ids believed.
fn believed(rt: &impl Print, s: &[u8]) -> io::Result<()> {
    print!(rt; "believed ")?;
    heading(rt, Afi::Ipv4, AddPath::Guess, s)?;
    let mut store = [0u32; 60];
    let answer = route_reader::parse_nlri_list(s, Afi::Ipv4, AddPath::Guess, &mut store);
    match store.get_mut(..routes::rows_in(answer).saturating_mul(6)) {
        Some(rows) => believe(rt, rows, s),
        None => Ok(()),
    }
}

// A section of an UPDATE, as a list is shown.
fn section(rt: &impl Print, s: &[u8], mode: AddPath) -> io::Result<()> {
    print!(rt; "section ")?;
    heading(rt, Afi::Ipv4, mode, s)?;
    let mut store = [0u32; 60];
    print!(rt; "  count ")?;
    show_list(rt, routes::count_nlri(s, Afi::Ipv4, mode), &[], Afi::Ipv4)?;
    print!(rt; "  read ")?;
    let answer = route_reader::read_nlri(s, Afi::Ipv4, mode, &mut store);
    show_list(rt, answer, &store, Afi::Ipv4)
}

// The items one by one, up to the first that is refused.
fn items(rt: &impl Print, s: &[u8], form: Form) -> io::Result<()> {
    println!(rt; "items")?;
    let mut rest = s;
    for _ in 0..s.len() {
        if rest.len() == 0 {
            return Ok(());
        }
        match routes::try_parse_prefix(rest, Afi::Ipv4, form) {
            Ok(route) => {
                show_row(rt, route.prefix.row, Afi::Ipv4)?;
                if route.host {
                    println!(rt; "    host bits")?;
                }
                rest = rest.get(route.prefix.used..).unwrap_or(&[]);
            }
            Err(refusal) => {
                print!(rt; "    ")?;
                return refused(rt, refusal);
            }
        }
    }
    Ok(())
}

// Nothing, and one byte.
fn shortest(rt: &impl Print) -> io::Result<()> {
    list(rt, b"", Afi::Ipv4, AddPath::Off)?;
    list(rt, b"\x00", Afi::Ipv4, AddPath::Off)?;
    list(rt, b"\x00", Afi::Ipv4, AddPath::Guess)?;
    list(rt, b"\x00", Afi::Ipv4, AddPath::On)?;
    section(rt, b"\x08", AddPath::Off)?;
    section(rt, b"\x00", AddPath::Off)
}

fn lengths(rt: &impl Print) -> io::Result<()> {
    list(rt, b"\x20\x0A\x00\x00\x01", Afi::Ipv4, AddPath::Off)?;
    list(rt, b"\x21\x0A\x00\x00\x00\x00", Afi::Ipv4, AddPath::Off)?;
    list(rt, b"\x09\x0A\xFF", Afi::Ipv4, AddPath::Off)?;
    items(rt, b"\x09\x0A\xFF\x09\x0A\x80\x08\xFF", Form::Plain)
}

fn with_id(rt: &impl Print) -> io::Result<()> {
    list(rt, b"\x00\x00\x00\x07\x08\x0A", Afi::Ipv4, AddPath::On)?;
    list(rt, b"\x00\x00\x00\x07\x08\x0A", Afi::Ipv4, AddPath::Off)?;
    list(rt, b"\x00\x00\x00\x07\x08\x0A", Afi::Ipv4, AddPath::Guess)?;
    believed(rt, b"\x00\x00\x00\x07\x08\x0A")?;
    items(rt, b"\x00\x00\x00\x07\x08\x0A", Form::Plain)
}

// Lists that the guess reads otherwise, or in both forms.
fn guessed(rt: &impl Print) -> io::Result<()> {
    list(
        rt,
        b"\x00\x18\x0A\x01\x08\x18\xC8\x02\x00",
        Afi::Ipv4,
        AddPath::Off,
    )?;
    list(
        rt,
        b"\x00\x18\x0A\x01\x08\x18\xC8\x02\x00",
        Afi::Ipv4,
        AddPath::Guess,
    )?;
    items(rt, b"\x00\x18\x0A\x01\x08\x18", Form::Tagged)?;
    items(rt, b"\xC8\x02\x00", Form::Plain)?;
    list(
        rt,
        b"\x00\x00\x00\x00\x08\x0A\x08\x0B",
        Afi::Ipv4,
        AddPath::Guess,
    )
}

fn ipv6(rt: &impl Print) -> io::Result<()> {
    list(
        rt,
        b"\x40\x20\x01\x0D\xB8\x00\x00\x00\x01",
        Afi::Ipv6,
        AddPath::Off,
    )?;
    list(rt, b"\x81", Afi::Ipv6, AddPath::Off)
}

fn main(rt: HostRuntime) -> io::Result<()> {
    shortest(&rt)?;
    lengths(&rt)?;
    with_id(&rt)?;
    guessed(&rt)?;
    ipv6(&rt)
}
