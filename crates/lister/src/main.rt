// Prints the table of the slot records on standard input, and tells on a descriptor of its own how the table ended. It reads, calls and writes:
// slot_table says what is put and how far it came, copies keeps what is left.
#![tactic(auto)]

ghost use Rattle.std.specs.Prelude.{◌≡◌, ◌+◌, ◌≤◌, length, IfOk};

use slot_table::{Ending, Then};
use std::io::{ErrorKind, Read, Result, Write};
use std::process::ExitCode;

// A record of the largest size, 65,540 bytes, and nearly as much again to read.
const INPUT_SIZE: usize = 131072;

// Where the program that started this one hears how the table ended.
const TOLD: i32 = 3;

// The status where whoever read the output has closed it: what a shell gives a program that ends by the signal for that.
const CLOSED: u8 = 141;

// Reads after the bytes in hand, and answers how many came.
fn read_after<R: Read>(from: &mut R, input: &mut [u8], have: usize) -> Result<usize>
    requires { have ≤ length input.old }
    ensures { IfOk result (λ n. have + n ≤ length input.new) }
{
    from.read(&mut input[have..])
}

// Writes the first n bytes of the output.
fn write<W: Write>(to: &mut W, out: &[u8], n: usize) -> Result<()> {
    to.write_all(wire::part(out, 0, n))
}

// The end of a table where no more can be read after those bytes and those in hand.
fn unread(byte: u64, have: usize) -> Ending {
    Ending::Unread {
        byte: byte.wrapping_add(have as u64),
    }
}

// The lines of all records, block by block: the bytes in hand are those of the input from `at` up to `have`. A turn uses or reads a byte or ends, so that
// the turns never run out. An error is of a write.
fn list<R: Read, W: Write>(
    from: &mut R,
    to: &mut W,
    input: &mut [u8],
    out: &mut [u8],
) -> Result<Ending> {
    let mut at: usize = 0;
    let mut have: usize = 0;
    let mut last = false;
    let mut nth: u64 = 1;
    let mut byte: u64 = 0;
    for _ in 0..u64::MAX {
        let block = slot_table::put_records(&input[at..have], last, nth, out);
        write(to, out, block.put)?;
        at += block.used;
        byte = byte.wrapping_add(block.used as u64);
        nth = block.nth;
        match block.then {
            Then::Write => {}
            Then::Read => {
                copies::to_front(input, at, have);
                have -= at;
                at = 0;
                let Ok(more) = read_after(from, input, have) else {
                    return Ok(unread(byte, have));
                };
                last = more == 0;
                have += more;
            }
            Then::Whole => return Ok(Ending::Whole),
            Then::Stop => return Ok(Ending::Stop { nth, byte }),
        }
    }
    Ok(unread(byte, have))
}

// The whole table: its heading, and its lines.
fn table<R: Read, W: Write>(
    from: &mut R,
    to: &mut W,
    input: &mut [u8],
    out: &mut [u8],
) -> Result<Ending> {
    if let Some(heading) = slot_table::put_heading(out) {
        write(to, out, heading)?;
    }
    list(from, to, input, out)
}

// Zeros. The `ensures` gives the length, which lending the array as a slice needs.
fn input_buffer() -> [u8; INPUT_SIZE]
    ensures { 131072 ≡ length result }
{
    [0; INPUT_SIZE]
}

fn main(rt: HostRuntime) -> ExitCode {
    let mut input = input_buffer();
    let mut out = io::large_buffer();
    let ending = match table(&mut rt.stdin(), &mut rt.stdout(), &mut input, &mut out) {
        Ok(ending) => ending,
        Err(error) => {
            if error.kind() == ErrorKind::BrokenPipe {
                return ExitCode::from(CLOSED);
            }
            Ending::Unwritten
        }
    };
    if let Some(told) = slot_table::put_ending(ending, &mut out) {
        io::write_all(TOLD, wire::part(&out, 0, told));
    }
    ExitCode::SUCCESS
}
