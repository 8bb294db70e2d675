// The slot records of a drive: what stands at the front of the input.
#![tactic(auto)]

ghost use Rattle.std.specs.Prelude.{◌≡◌};
ghost use Rattle.slots.specs.Slot.{differs, over_settings, short, slot_of};

use families::AddPath;

// A record before its kept bytes: two bytes of mark, two of count, one of settings.
pub const RECORD_SIZE: usize = 5;

const MARK_FIRST: u8 = 0xC5;

const MARK_SECOND: u8 = 0x3A;

// The settings byte: 1 for Add-Path, 2 for the guess, or both.
const SETTINGS_LIMIT: u8 = 3;

// What stands at the front of the input: a record of so many kept bytes and its setting; too few bytes to tell, where more may come;
// what is no record; or nothing at all, and no more will come.
#[derive(Clone, Copy, Debug, PartialEq, Eq, Hash)]
pub enum SlotAnswer {
    Slot { kept: usize, mode: AddPath },
    More,
    Stop,
    End,
}

// Whether a byte stands at a place, and it is another one.
fn differs_at(s: &[u8], at: usize, b: u8) -> bool
    ensures { result ≡ differs s.now at b }
{
    at < s.len() && s[at] != b
}

// Whether the settings byte is there, and is none.
fn over_settings(s: &[u8]) -> bool
    ensures { result ≡ over_settings s.now }
{
    4 < s.len() && SETTINGS_LIMIT < s[4]
}

// The answer where a record is not all there.
fn short_record(last: bool) -> SlotAnswer
    ensures { result ≡ short last }
{
    if last {
        SlotAnswer::Stop
    } else {
        SlotAnswer::More
    }
}

// What stands at the front of the input. `last` says that no bytes follow those in hand.
pub fn next_slot(bytes: &[u8], last: bool) -> SlotAnswer
    ensures { result ≡ slot_of bytes.now last }
{
    if bytes.is_empty() {
        return if last {
            SlotAnswer::End
        } else {
            SlotAnswer::More
        };
    }
    if differs_at(bytes, 0, MARK_FIRST)
        || differs_at(bytes, 1, MARK_SECOND)
        || over_settings(bytes)
    {
        return SlotAnswer::Stop;
    }
    let kept = wire::u16_at(bytes, 2) as usize;
    if bytes.len() < RECORD_SIZE + kept {
        return short_record(last);
    }
    SlotAnswer::Slot {
        kept,
        mode: AddPath::from(bytes[4]),
    }
}
