// A slot record at the front of a drive's input.
ghost use Rattle.std.specs.Prelude.{◌≡◌};
ghost use Rattle.slots.specs.Slot.{slot_of};
ghost use Rattle.words.specs.Settings.{is_yes};
ghost use Rattle.words.specs.Word.{word_of};
ghost use Rattle.firmware.specs.Fields.{slot_fields};

// What stands at the front of the input. `last` says that no bytes follow those in hand.
#[unsafe(no_mangle)]
pub extern "C" fn doorbramble_next_slot(s: &[u8], last: u8) -> u64
    ensures { result ≡ word_of (slot_fields (slot_of s.now (is_yes last))) }
{
    firmware::slot::doorbramble_next_slot(s, last)
}
