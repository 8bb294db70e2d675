// The table that is printed of slot records: the line of a record, by the crate's reading of its message and its routes counted; and the lines of all
// records, block by block.
#![tactic(auto)]

ghost use Rattle.std.specs.Prelude.{◌≡◌, ◌-◌, ◌≤◌, [], ◌∷◌, ◌++◌, length, drop};
ghost use Rattle.wire.specs.Refusal.{number_of};
ghost use Rattle.wire.specs.Store.{laid};
ghost use Rattle.messages.specs.Header.{kind_number};
ghost use Rattle.slot_table.specs.Line.{number, state_of, line_end, refused_text, state_text, fields_text, section_text, entry_of, entry_text, line_of, heading_text, stop_text, line_room, put_count, put_out};
ghost use Rattle.slot_table.specs.Private.{number_room, state_room, fields_room, section_room, entry_room, Room, Grown};
ghost use Rattle.slot_table.specs.Table.{listing, listed_of, ending_text};

use families::AddPath;
use messages::Message;
use messages::kind::Kind;
use routes::Routes;
use slots::SlotAnswer;
use updates::Update;
use wire::refusal::Refusal;

// The most bytes of a line: an output to put one into has this many places.
pub const LINE_ROOM: usize = 224;

// The most bytes of a number of 64 bits and the byte after it.
const NUMBER_ROOM: usize = 21;

// Whether a message is all there and ends with the slot, claims more bytes than the slot has, or fewer.
#[derive(Clone, Copy, Debug, PartialEq, Eq)]
enum State {
    Whole,
    Cut,
    Trailing,
}

impl State {
    fn of(message: Message) -> State
        ensures { result ≡ state_of message.cut message.trailing }
    {
        if message.cut {
            State::Cut
        } else if message.trailing {
            State::Trailing
        } else {
            State::Whole
        }
    }

    // Its name and the space after it.
    fn text(self) -> &'static [u8]
        ensures { result.now ≡ state_text self }
    {
        match self {
            State::Whole => b"whole ",
            State::Cut => b"cut ",
            State::Trailing => b"trailing ",
        }
    }
}

// What a line says of a slot that is not refused: an UPDATE with its two sections, and how many of their rows have a bit set past their length; or a
// message of another type.
#[derive(Clone, Copy, Debug, PartialEq, Eq)]
enum Entry {
    Other {
        kind: Kind,
        claimed: usize,
        state: State,
    },
    Update {
        claimed: usize,
        state: State,
        update: Update,
        host: usize,
    },
}

impl Entry {
    fn of(slot: &[u8], mode: AddPath) -> Result<Entry, Refusal>
        ensures { result ≡ entry_of slot.now mode }
    {
        let message = messages::parse_bgp_message(slot)?;
        let claimed = message.claimed;
        let state = State::of(message);
        match message.kind {
            Kind::Update => {
                let update = updates::count_bgp_update_message(messages::message_body(slot), mode)?;
                let host = routes::hosts_in(update.withdrawn) + routes::hosts_in(update.announced);
                Ok(Entry::Update {
                    claimed,
                    state,
                    update,
                    host,
                })
            }
            kind => Ok(Entry::Other {
                kind,
                claimed,
                state,
            }),
        }
    }
}

// What is to be done next with a block: write what was put and go on with what is left, read more after what is left, or end. The table is
// whole then, or its last line is the one that ends it early.
#[derive(Clone, Copy, Debug, PartialEq, Eq, Hash)]
pub enum Then {
    Write,
    Read,
    Whole,
    Stop,
}

// How far a call came: the bytes of the block that it used, the bytes that it put, the number of the next record, and what is to be done next.
#[derive(Clone, Copy, Debug, PartialEq, Eq, Hash)]
pub struct Listed {
    pub used: usize,
    pub put: usize,
    pub nth: u64,
    pub then: Then,
}

// How a table ended: whole; where a record of that number should stand and none does, at a byte of the input; where no more could be read
// after so many bytes; or where it could not be written.
#[derive(Clone, Copy, Debug, PartialEq, Eq, Hash)]
pub enum Ending {
    Whole,
    Stop { nth: u64, byte: u64 },
    Unread { byte: u64 },
    Unwritten,
}

// Puts the digits of n before the last byte of text, and answers where they start.
fn spell(text: &mut [u8], n: u64) -> usize
    requires { length text.old ≡ number_room }
    ensures { (drop result text.new ≡ number n (drop 20 text.old)) × (result ≤ number_room) }
{
    let mut at: usize = 19;
    let mut left = n;
    while 10 <= left {
        text[at] = b'0' + (left % 10) as u8;
        left = left / 10;
        at = at - 1;
    }
    text[at] = b'0' + left as u8;
    at
}

// Text as it is put: an output, and the place of it that the next piece goes to.
#[derive(Drop)]
struct Text<'a> {
    out: &'a mut [u8],
    at: usize,
}

impl Text<'_> {
    // The places that are left.
    fn room(&self) -> usize
        requires { Room self.now 0 }
        ensures { result ≡ length self.now.out.now - self.now.at }
    {
        self.out.len() - self.at
    }

    // All of a piece.
    fn put(&mut self, piece: &[u8])
        requires { Room self.old (length piece.now) }
        ensures { Grown self.old piece.now self.new }
    {
        copies::copy_at(self.out, self.at, piece);
        self.at += piece.len();
    }

    // A number and the byte after it.
    fn number(&mut self, n: u64, end: u8)
        requires { Room self.old number_room }
        ensures { Grown self.old (number n (end ∷ [])) self.new }
    {
        let mut text = [end; NUMBER_ROOM];
        let from = spell(&mut text, n);
        self.put(&text[from..]);
    }

    // Type, claimed length, kept bytes and state.
    fn fields(&mut self, kind: Kind, claimed: usize, kept: usize, state: State)
        requires { Room self.old fields_room }
        ensures { Grown self.old (fields_text (kind_number kind) claimed kept state) self.new }
    {
        self.number(u64::from(u8::from(kind)), b' ');
        self.number(claimed as u64, b' ');
        self.number(kept as u64, b' ');
        self.put(state.text());
    }

    // Rows and verdict of a section, and the space after them.
    fn section(&mut self, a: Result<Routes, Refusal>)
        requires { Room self.old section_room }
        ensures { Grown self.old (section_text a) self.new }
    {
        self.number(routes::rows_in(a) as u64, b'/');
        self.number(u64::from(routes::verdict_in(a)), b' ');
    }

    // A line after its record's number, of a slot that is not refused.
    fn entry(&mut self, kept: usize, entry: Entry)
        requires { Room self.old entry_room }
        ensures { Grown self.old (entry_text kept (Ok entry)) self.new }
    {
        match entry {
            Entry::Other {
                kind,
                claimed,
                state,
            } => {
                self.fields(kind, claimed, kept, state);
                self.put(b"- - -\n");
            }
            Entry::Update {
                claimed,
                state,
                update,
                host,
            } => {
                self.fields(Kind::Update, claimed, kept, state);
                self.section(update.withdrawn);
                self.section(update.announced);
                self.number(host as u64, b'\n');
            }
        }
    }

    // And of one that is.
    fn refused(&mut self, refusal: Refusal)
        requires { Room self.old entry_room }
        ensures { Grown self.old (refused_text ++ number (number_of refusal) (line_end ∷ [])) self.new }
    {
        self.put(b"refused ");
        self.number(u64::from(u8::from(refusal)), b'\n');
    }

    // The line of a record, and below the line that ends a table early.
    fn line(&mut self, nth: u64, slot: &[u8], mode: AddPath)
        requires { Room self.old line_room }
        ensures { Grown self.old (line_of nth slot.now mode) self.new }
    {
        self.number(nth, b' ');
        match Entry::of(slot, mode) {
            Ok(entry) => self.entry(slot.len(), entry),
            Err(refusal) => self.refused(refusal),
        }
    }

    fn stop(&mut self, nth: u64)
        requires { Room self.old line_room }
        ensures { Grown self.old (stop_text nth) self.new }
    {
        self.put(b"stop ");
        self.number(nth, b'\n');
    }

    // The word that tells how a table ended.
    fn ending(&mut self, ending: Ending)
        requires { Room self.old line_room }
        ensures { Grown self.old (ending_text ending) self.new }
    {
        match ending {
            Ending::Whole => self.put(b"whole\n"),
            Ending::Stop { nth, byte } => {
                self.put(b"stop ");
                self.number(nth, b' ');
                self.number(byte, b'\n');
            }
            Ending::Unread { byte } => {
                self.put(b"unread ");
                self.number(byte, b'\n');
            }
            Ending::Unwritten => self.put(b"unwritten\n"),
        }
    }
}

// The heading of a table, at the front of the output. Answers its length, and none where the output has fewer than LINE_ROOM places.
pub fn put_heading(out: &mut [u8]) -> Option<usize>
    ensures answer { result ≡ put_count heading_text (length out.old) }
    ensures output { out.new ≡ put_out heading_text out.old }
{
    if out.len() < LINE_ROOM {
        return None;
    }
    let mut text = Text { out, at: 0 };
    text.put(b"no type claimed kept state withdrawn announced host\n");
    Some(text.at)
}

// The word that tells how a table ended, likewise.
pub fn put_ending(ending: Ending, out: &mut [u8]) -> Option<usize>
    ensures answer { result ≡ put_count (ending_text ending) (length out.old) }
    ensures output { out.new ≡ put_out (ending_text ending) out.old }
{
    if out.len() < LINE_ROOM {
        return None;
    }
    let mut text = Text { out, at: 0 };
    text.ending(ending);
    Some(text.at)
}

// The lines of the records at the front of a block, the first of which has the number given, from the front of the output: as many as it has
// LINE_ROOM places for. `last` says that no bytes follow the block.
pub fn put_records(block: &[u8], last: bool, first: u64, out: &mut [u8]) -> Listed
    ensures answer { result ≡ listed_of (listing last first (length out.old) block.now) }
    ensures output { out.new ≡ laid out.old 0 (listing last first (length out.old) block.now).lines }
{
    let mut used: usize = 0;
    let mut nth = first;
    let mut text = Text { out, at: 0 };
    let then = loop {
        if text.room() < LINE_ROOM {
            break Then::Write;
        }
        match slots::next_slot(&block[used..], last) {
            SlotAnswer::Slot { kept, mode } => {
                let start = used + slots::RECORD_SIZE;
                used = start + kept;
                text.line(nth, &block[start..used], mode);
                nth = nth.wrapping_add(1);
            }
            SlotAnswer::More => break Then::Read,
            SlotAnswer::Stop => {
                text.stop(nth);
                break Then::Stop;
            }
            SlotAnswer::End => break Then::Whole,
        }
    };
    Listed {
        used,
        put: text.at,
        nth,
        then,
    }
}
