// The path and AGGREGATOR examples of document 01, and document 02's empty segment, through the calls themselves: what it prints is compared with the
// file stdout.
#![tactic(auto)]

use asns::AsnLength;
use paths::PathRule;
use std::io;
use wire::refusal::Refusal;

fn refused(rt: &impl Print, refusal: Refusal) -> io::Result<()> {
    println!(rt; "refused {}", u8::from(refusal))
}

// The first n numbers of a store.
fn show_numbers(rt: &impl Print, store: &[u32], n: usize) -> io::Result<()> {
    for number in store.iter().take(n) {
        print!(rt; " {}", *number)?;
    }
    Ok(())
}

// A path that is read: its segments as pairs of type and count, then its numbers.
fn show_path(rt: &impl Print, value: &[u8], width: AsnLength, rule: PathRule) -> io::Result<()> {
    let mut pairs = [0u32; 4];
    let mut numbers = [0u32; 4];
    match paths::parse_as_path(value, width, rule, &mut pairs, &mut numbers) {
        Ok(path) => {
            print!(rt; "segments {} pairs", path.segments)?;
            show_numbers(rt, &pairs, path.segments.saturating_mul(2))?;
            print!(rt; " numbers")?;
            show_numbers(rt, &numbers, path.numbers)?;
            println!(rt;)
        }
        Err(refusal) => refused(rt, refusal),
    }
}

// The counts of a path that is only counted.
fn show_count(rt: &impl Print, value: &[u8], width: AsnLength, rule: PathRule) -> io::Result<()> {
    match paths::count_as_path(value, width, rule) {
        Ok(path) => println!(rt; "counted {} {}", path.segments, path.numbers),
        Err(refusal) => refused(rt, refusal),
    }
}

// What a writer answered.
fn show_written(rt: &impl Print, answer: Result<usize, Refusal>) -> io::Result<()> {
    match answer {
        Ok(n) => println!(rt; "written {n}"),
        Err(refusal) => refused(rt, refusal),
    }
}

// A sequence of that count with the numbers lent, written.
fn show_sequence(
    rt: &impl Print,
    count: u32,
    numbers: &[u32],
    width: AsnLength,
    rule: PathRule,
) -> io::Result<()> {
    let pairs = [2u32, count];
    let mut out = [0u8; 1026];
    show_written(
        rt,
        path_writer::encode_as_path(&pairs, numbers, width, rule, &mut out),
    )
}

// An AGGREGATOR that is read: its number, its identifier's four bytes as one number, and whether the width differs.
fn show_aggregator(rt: &impl Print, value: &[u8], width: AsnLength) -> io::Result<()> {
    match asns::parse_aggregator(value, width) {
        Ok(it) => {
            let differs = if it.differs { " differs" } else { "" };
            println!(rt; "aggregator {} {}{differs}", it.asn, it.identifier)
        }
        Err(refusal) => refused(rt, refusal),
    }
}

// An AGGREGATOR that is written into an output of its size, and read again from there.
fn show_aggregator_back(
    rt: &impl Print,
    asn: u32,
    identifier: u32,
    width: AsnLength,
    out: &mut [u8],
) -> io::Result<()> {
    show_written(rt, asns::encode_aggregator(asn, identifier, width, out))?;
    show_aggregator(rt, out, width)
}

fn read_paths(rt: &impl Print) -> io::Result<()> {
    show_path(
        rt,
        b"\x02\x02\x00\x00\xFD\xE9\x00\x00\xFD\xEA",
        AsnLength::Bits32,
        PathRule::Crate,
    )?;
    show_path(
        rt,
        b"\x02\x02\x00\x00\xFD\xE9\x00\x00\xFD\xEA",
        AsnLength::Bits16,
        PathRule::Crate,
    )?;
    show_path(rt, b"\x02\x00", AsnLength::Bits32, PathRule::Crate)?;
    show_path(rt, b"\x05\x01", AsnLength::Bits32, PathRule::Crate)?;
    show_path(rt, b"\x05\x00", AsnLength::Bits32, PathRule::Crate)
}

fn counted_paths(rt: &impl Print) -> io::Result<()> {
    show_count(
        rt,
        b"\x02\x02\x00\x00\xFD\xE9\x00\x00\xFD\xEA",
        AsnLength::Bits32,
        PathRule::Crate,
    )?;
    show_count(
        rt,
        b"\x02\x02\x00\x00\xFD\xE9\x00\x00\xFD\xEA",
        AsnLength::Bits16,
        PathRule::Crate,
    )
}

// With as many numbers as a segment holds, and one more.
fn written_paths(rt: &impl Print) -> io::Result<()> {
    show_sequence(rt, 1, &[65536u32; 1], AsnLength::Bits16, PathRule::Crate)?;
    show_sequence(
        rt,
        255,
        &[65001u32; 255],
        AsnLength::Bits32,
        PathRule::Crate,
    )?;
    show_sequence(
        rt,
        256,
        &[65001u32; 256],
        AsnLength::Bits32,
        PathRule::Crate,
    )?;
    show_sequence(rt, 2, &[65001u32; 1], AsnLength::Bits32, PathRule::Crate)
}

// An empty sequence, by both rules; and what is named before it.
fn empty_segments(rt: &impl Print) -> io::Result<()> {
    show_path(rt, b"\x02\x00", AsnLength::Bits32, PathRule::Strict)?;
    show_path(
        rt,
        b"\x02\x01\x00\x00\xFD\xE9\x01\x00",
        AsnLength::Bits32,
        PathRule::Strict,
    )?;
    show_path(rt, b"\x05\x00", AsnLength::Bits32, PathRule::Strict)?;
    show_path(rt, b"\x02", AsnLength::Bits32, PathRule::Strict)?;
    show_count(rt, b"\x02\x00", AsnLength::Bits32, PathRule::Crate)?;
    show_count(rt, b"\x02\x00", AsnLength::Bits32, PathRule::Strict)?;
    show_sequence(rt, 0, &[0u32; 0], AsnLength::Bits32, PathRule::Crate)?;
    show_sequence(rt, 0, &[0u32; 0], AsnLength::Bits32, PathRule::Strict)
}

fn aggregators(rt: &impl Print) -> io::Result<()> {
    show_aggregator(rt, b"\xFD\xE9\x0A\x00\x00\x01", AsnLength::Bits16)?;
    show_aggregator(rt, b"\xFD\xE9\x0A\x00\x00\x01", AsnLength::Bits32)?;
    show_aggregator(rt, b"\xFD\xE9\x0A\x00\x00\x01\x00", AsnLength::Bits32)?;
    let mut wide = [0u8; 8];
    show_aggregator_back(rt, 65001, 167772161, AsnLength::Bits32, &mut wide)?;
    let mut narrow = [0u8; 6];
    show_aggregator_back(rt, 65536, 167772161, AsnLength::Bits16, &mut narrow)
}

fn main(rt: HostRuntime) -> io::Result<()> {
    read_paths(&rt)?;
    counted_paths(&rt)?;
    written_paths(&rt)?;
    empty_segments(&rt)?;
    aggregators(&rt)
}
