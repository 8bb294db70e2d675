// Runs inputs through the calls of slots and slot_table, and prints what they answer: each way to stop, to end and to wait, and lines for outputs of
// other sizes. The records of document 01 and the lines of every kind are in the input of the lister.
#![tactic(auto)]

use families::AddPath;
use slot_table::{Ending, Listed, Then};
use slots::SlotAnswer;
use std::io;

fn show(rt: &impl Print, answer: SlotAnswer) -> io::Result<()> {
    match answer {
        SlotAnswer::Slot { kept, mode } => {
            let name = match mode {
                AddPath::On => "on",
                AddPath::Off => "off",
                AddPath::Guess => "guess",
            };
            print!(rt; " slot {kept} {name}")
        }
        SlotAnswer::More => print!(rt; " more"),
        SlotAnswer::Stop => print!(rt; " stop"),
        SlotAnswer::End => print!(rt; " end"),
    }
}

// What stands at the front of s where more may come, and where it is the last of the input.
fn front(rt: &impl Print, name: &str, s: &[u8]) -> io::Result<()> {
    print!(rt; "{name}:")?;
    show(rt, slots::next_slot(s, false))?;
    print!(rt; ",")?;
    show(rt, slots::next_slot(s, true))?;
    println!(rt;)
}

// The bytes put, and the front of the output.
fn shown(rt: &impl Print, out: &[u8], put: usize) -> io::Result<()> {
    print!(rt; "{put} ")?;
    rt.write_all(wire::part(out, 0, put))?;
    if put == 0 {
        println!(rt;)?;
    }
    Ok(())
}

// How far a call came.
fn came(rt: &impl Print, listed: Listed) -> io::Result<()> {
    let then = match listed.then {
        Then::Write => "write",
        Then::Read => "read",
        Then::Whole => "whole",
        Then::Stop => "stop",
    };
    println!(rt; "used {}, next {}, {then}", listed.used, listed.nth)
}

// The lines of a block, whose first record has the largest number, where more may come and where it is the last of the input.
fn block(rt: &impl Print, name: &str, s: &[u8], out: &mut [u8]) -> io::Result<()> {
    println!(rt; "{name}")?;
    for last in [false, true] {
        let listed = slot_table::put_records(s, last, u64::MAX, out);
        shown(rt, out, listed.put)?;
        came(rt, listed)?;
    }
    Ok(())
}

// The size of an output, and the heading in it.
fn heading(rt: &impl Print, out: &mut [u8]) -> io::Result<()> {
    println!(rt; "places {}", out.len())?;
    let put = slot_table::put_heading(out).unwrap_or(0);
    shown(rt, out, put)
}

// Blocks of records that keep nothing, and of a KEEPALIVE.
fn blocks(rt: &impl Print, out: &mut [u8]) -> io::Result<()> {
    block(rt, "nothing in hand", b"", out)?;
    block(
        rt,
        "two records",
        b"\xC5\x3A\x00\x00\x00\xC5\x3A\x00\x00\x00",
        out,
    )?;
    block(
        rt,
        "a record and half of one",
        b"\xC5\x3A\x00\x00\x00\xC5\x3A",
        out,
    )?;
    block(
        rt,
        "a record and none",
        b"\xC5\x3A\x00\x00\x00\xC5\x3B",
        out,
    )?;
    block(
        rt,
        "a KEEPALIVE",
        b"\xC5\x3A\x00\x13\x00\xFF\xFF\xFF\xFF\xFF\xFF\xFF\xFF\xFF\xFF\xFF\xFF\xFF\xFF\xFF\xFF\x00\x13\x04",
        out,
    )
}

// How a table ended, in an output of any size.
fn ending(rt: &impl Print, how: Ending, out: &mut [u8]) -> io::Result<()> {
    let told = slot_table::put_ending(how, out).unwrap_or(0);
    shown(rt, out, told)
}

fn endings(rt: &impl Print, out: &mut [u8]) -> io::Result<()> {
    ending(rt, Ending::Whole, out)?;
    ending(rt, Ending::Stop { nth: 1, byte: 0 }, out)?;
    ending(rt, Ending::Unread { byte: u64::MAX }, out)?;
    ending(rt, Ending::Unwritten, out)
}

// Records that are not all there.
fn short_records(rt: &impl Print) -> io::Result<()> {
    front(rt, "nothing", b"")?;
    front(rt, "half a mark", b"\xC5")?;
    front(rt, "a mark", b"\xC5\x3A")?;
    front(rt, "half a count", b"\xC5\x3A\x00")?;
    front(rt, "no settings", b"\xC5\x3A\x00\x01")?;
    front(rt, "no kept bytes yet", b"\xC5\x3A\x00\x01\x00")?;
    front(rt, "one of two kept bytes", b"\xC5\x3A\x00\x02\x03\xFF")
}

// What is no record.
fn strange_records(rt: &impl Print) -> io::Result<()> {
    front(rt, "another first byte", b"\xC4")?;
    front(rt, "another second byte", b"\xC5\x3B")?;
    front(
        rt,
        "another mark of a whole record",
        b"\x3A\xC5\x00\x00\x00",
    )?;
    front(rt, "settings 4", b"\xC5\x3A\x00\x00\x04")?;
    front(
        rt,
        "settings 255, kept bytes missing",
        b"\xC5\x3A\xFF\xFF\xFF",
    )
}

fn whole_records(rt: &impl Print) -> io::Result<()> {
    front(rt, "no kept bytes", b"\xC5\x3A\x00\x00\x00")?;
    front(rt, "settings 1", b"\xC5\x3A\x00\x00\x01")?;
    front(rt, "settings 2", b"\xC5\x3A\x00\x00\x02")?;
    front(rt, "settings 3", b"\xC5\x3A\x00\x00\x03")?;
    front(rt, "a record and more", b"\xC5\x3A\x00\x01\x00\xFF\x00")
}

// What is put into outputs with too few places, with places for one line, and for several.
fn all_sizes(rt: &impl Print) -> io::Result<()> {
    let mut small = [0u8; 223];
    heading(rt, &mut small)?;
    blocks(rt, &mut small)?;
    endings(rt, &mut small)?;
    let mut enough = [0u8; 224];
    heading(rt, &mut enough)?;
    blocks(rt, &mut enough)?;
    endings(rt, &mut enough)?;
    let mut more = [0u8; 400];
    heading(rt, &mut more)?;
    blocks(rt, &mut more)
}

fn main(rt: HostRuntime) -> io::Result<()> {
    short_records(&rt)?;
    strange_records(&rt)?;
    whole_records(&rt)?;
    all_sizes(&rt)
}
