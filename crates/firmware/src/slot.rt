// A slot record at the front of a drive's input.
ghost use Rattle.std.specs.Prelude.{◌≡◌};
ghost use Rattle.slots.specs.Slot.{slot_of};
ghost use Rattle.words.specs.Settings.{is_yes};
ghost use Rattle.words.specs.Word.{word_of, Narrow};
ghost use Rattle.firmware.specs.Fields.{slot_fields};

use slots::SlotAnswer;
use words::{settings_of, word};

// What stands there: a record; too few bytes to tell, where more may come; no record; nothing, and no more will come.
pub const RECORD: u16 = 0;

pub const MORE: u16 = 1;

pub const STOP: u16 = 2;

pub const END: u16 = 3;

// What stands there as a word: the kept bytes of a record, and its settings.
fn slot_word(a: SlotAnswer) -> u64
    requires { Narrow (slot_fields a) }
    ensures { result ≡ word_of (slot_fields a) }
{
    match a {
        SlotAnswer::Slot { kept, mode } => {
            word(kept as u16, settings_of(mode) as u16, RECORD, 0)
        }
        SlotAnswer::More => word(0, 0, MORE, 0),
        SlotAnswer::Stop => word(0, 0, STOP, 0),
        SlotAnswer::End => word(0, 0, END, 0),
    }
}

// What stands at the front of the input. `last` says that no bytes follow those in hand.
#[tactic(auto, using(crate::proofs::SlotBounds::slot_narrow))]
pub fn doorbramble_next_slot(s: &[u8], last: u8) -> u64
    ensures { result ≡ word_of (slot_fields (slot_of s.now (is_yes last))) }
{
    slot_word(slots::next_slot(s, last != 0))
}
