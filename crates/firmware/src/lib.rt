// The calls of a drive's firmware, for C: numbers and slices in, one word of 64 bits out, and the rest in slices that the caller lends.
// The crate firmware_c exports them, and include/doorbramble.h declares them. They stand in modules, by what they read and write.
#![tactic(auto)]

ghost use Rattle.std.specs.Prelude.{◌≡◌};
ghost use Rattle.wire.specs.Answer.{count_meaning};
ghost use Rattle.wire.specs.Refusal.{number_of};
ghost use Rattle.words.specs.Word.{fields, in_fields, word_of, Narrow};

use wire::refusal::Refusal;
use words::word;

pub mod aggregator;
pub mod attribute;
pub mod index;
pub mod list;
pub mod merge;
pub mod message;
pub mod mp;
pub mod path;
pub mod slot;
pub mod update;
pub mod version;

// A refusal as a word: its number.
fn refused(why: Refusal) -> u64
    ensures { result ≡ word_of (fields 0 0 0 (number_of why)) }
{
    word(0, 0, 0, u8::from(why))
}

// A count as a word, of bytes that were written or of places.
fn count_word(a: Result<usize, Refusal>) -> u64
    requires { Narrow (in_fields (count_meaning a)) }
    ensures { result ≡ word_of (in_fields (count_meaning a)) }
{
    a.map_or_else(refused, |n| word(n as u16, 0, 0, 0))
}
