// Reads request records from standard input, runs the call that each names, and writes a line for each to standard output.
#![tactic(auto)]

ghost use Rattle.std.specs.Prelude.{◌≡◌, length};

use crate::calls::Places;
use crate::line::Line;
use crate::request::{Judged, Record};
use std::io::{Read, Result, Write};

mod calls;
mod index;
mod line;
mod reads;
mod request;
mod store;
mod writes;

// Output is written when this many bytes wait: what is left holds any line.
const WAITING_LIMIT: usize = 64000;

// Where the run is: the bytes in hand are input[start..have], the output that waits is out[..at].
#[derive(Clone, Copy)]
struct State {
    start: usize,
    have: usize,
    record: usize,
    at: usize,
    ended: bool,
}

// Writes the output that waits.
fn flush<W: Write>(to: &mut W, out: &[u8], at: usize) -> Result<()> {
    to.write_all(wire::part(out, 0, at))
}

// A whole record is answered, and the output written where much of it waits.
fn answer<W: Write>(
    to: &mut W,
    state: State,
    record: Record,
    places: &mut Places,
    out: &mut [u8],
) -> Result<State> {
    let mut line = Line::new(out, state.at);
    line.record_and_op(state.record, record.op as u8);
    calls::call(record, places, &mut line);
    line.text(b"\n");
    let end = line.end();
    let waits = end <= WAITING_LIMIT;
    if !waits {
        flush(to, out, end)?;
    }
    Ok(State {
        start: state.start.saturating_add(record.size),
        record: state.record.saturating_add(1),
        at: if waits { end } else { 0 },
        ..state
    })
}

// A record that is short or not given ends the run.
fn stop<W: Write>(to: &mut W, state: State, out: &mut [u8]) -> Result<()> {
    let mut line = Line::new(out, state.at);
    line.text(b"stop");
    line.number(state.record);
    line.text(b"\n");
    let end = line.end();
    flush(to, out, end)
}

// Writes the output that waits, and reads more behind the bytes in hand.
fn refill<R: Read, W: Write>(
    from: &mut R,
    to: &mut W,
    state: State,
    input: &mut [u8],
    out: &[u8],
) -> Result<State> {
    flush(to, out, state.at)?;
    copies::to_front(input, state.start, state.have);
    let kept = state.have.saturating_sub(state.start);
    let came = match input.get_mut(kept..) {
        Some(room) => from.read(room)?,
        None => 0,
    };
    Ok(State {
        start: 0,
        have: kept.saturating_add(came),
        record: state.record,
        at: 0,
        ended: came == 0,
    })
}

// One turn: a record is answered, or more is read, or the run ends.
fn turn<R: Read, W: Write>(
    from: &mut R,
    to: &mut W,
    state: State,
    input: &mut [u8],
    places: &mut Places,
    out: &mut [u8],
) -> Result<Option<State>> {
    let left = state.have.saturating_sub(state.start);
    match request::judge(wire::part(input, state.start, left), state.ended) {
        Judged::Whole(record) => answer(to, state, record, places, out).map(Some),
        Judged::More => refill(from, to, state, input, out).map(Some),
        Judged::Wrong => {
            stop(to, state, out)?;
            Ok(None)
        }
        Judged::End => {
            flush(to, out, state.at)?;
            Ok(None)
        }
    }
}

// The budget is more turns than a run has. A read or a write that fails ends the run.
fn run<R: Read, W: Write>(
    from: &mut R,
    to: &mut W,
    input: &mut [u8],
    places: &mut Places,
    out: &mut [u8],
) -> Result<()> {
    let mut state = State {
        start: 0,
        have: 0,
        record: 1,
        at: 0,
        ended: false,
    };
    for _ in 0..u64::MAX {
        match turn(from, to, state, input, places, out)? {
            Some(next) => state = next,
            None => return Ok(()),
        }
    }
    Ok(())
}

// Zeros, for a store and for an output. The `ensures` gives the length, which lending the array as a slice needs.
fn word_places() -> [u32; 400000]
    ensures { 400000 ≡ length result }
{
    [0; 400000]
}

fn byte_places() -> [u8; 400000]
    ensures { 400000 ≡ length result }
{
    [0; 400000]
}

// The places that are lent.
fn run_with_places<R: Read, W: Write>(
    from: &mut R,
    to: &mut W,
    input: &mut [u8],
    out: &mut [u8],
) -> Result<()> {
    let mut a = word_places();
    let mut b = word_places();
    let mut w = byte_places();
    let mut places = Places {
        a: &mut a,
        b: &mut b,
        out: &mut w,
    };
    run(from, to, input, &mut places, out)
}

fn main(rt: HostRuntime) -> Result<()> {
    let mut input = [0u8; 1310720];
    let mut out = [0u8; 65536];
    run_with_places(&mut rt.stdin(), &mut rt.stdout(), &mut input, &mut out)
}
