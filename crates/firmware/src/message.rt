// A message's header, read and written.
ghost use Rattle.std.specs.Prelude.{◌≡◌, length};
ghost use Rattle.wire.specs.Answer.{count_meaning};
ghost use Rattle.messages.specs.Header.{message_of, strict_of};
ghost use Rattle.messages.specs.declared.Edition.TheVariants.{Rfc4271};
ghost use Rattle.messages.specs.Written as Messages;
ghost use Rattle.words.specs.Settings.{edition_of};
ghost use Rattle.words.specs.Word.{in_fields, word_of, Narrow};
ghost use Rattle.firmware.specs.Fields.{message_fields};

use super::{count_word, refused};
use messages::{Edition, Message};
use wire::refusal::Refusal;
use words::{edition_of, word};

// A message as a word: what it claims, what is taken of it, its type and flags.
fn message_word(a: Result<Message, Refusal>) -> u64
    requires { Narrow (message_fields a) }
    ensures { result ≡ word_of (message_fields a) }
{
    // By a match: over the closure of map_or_else the compiler makes a table of jumps for the type, and no call may jump through a pointer.
    match a {
        Ok(m) => word(
            m.claimed as u16,
            m.taken as u16,
            u16::from(u8::from(m.kind))
                + 256 * (m.marker as u16)
                + 512 * (m.cut as u16)
                + 1024 * (m.trailing as u16),
            0,
        ),
        Err(why) => refused(why),
    }
}

// The header of a message, as the crate reads it.
pub fn doorbramble_parse_bgp_message(s: &[u8]) -> u64
    ensures { result ≡ word_of (message_fields (message_of s.now)) }
{
    message_word(messages::parse_bgp_message(s))
}

// The header of a message, strictly: copied into both calls, so that RFC 4271's compares with a number it knows.
fn strict_word(s: &[u8], edition: Edition) -> u64
    ensures { result ≡ word_of (message_fields (strict_of edition s.now)) }
{
    message_word(messages::parse_bgp_message_strict(s, edition))
}

// As RFC 4271 has it.
pub fn doorbramble_parse_bgp_message_strict(s: &[u8]) -> u64
    ensures { result ≡ word_of (message_fields (strict_of Rfc4271 s.now)) }
{
    strict_word(s, Edition::Rfc4271)
}

// As the edition that C names has it.
pub fn doorbramble_parse_bgp_message_by_edition(s: &[u8], edition: u8) -> u64
    ensures { result ≡ word_of (message_fields (strict_of (edition_of edition) s.now)) }
{
    strict_word(s, edition_of(edition))
}

// A type and a body as a message.
#[tactic(auto, using(crate::proofs::MessageBounds::write_message_narrow))]
pub fn doorbramble_encode_bgp_message(kind: u8, body: &[u8], out: &mut [u8]) -> u64
    ensures answer { result ≡ word_of (in_fields (count_meaning (Messages.write_message kind body.now (length out.old)))) }
    ensures out { out.new ≡ Messages.message_after kind body.now out.old }
{
    count_word(messages::encode_bgp_message(kind, body, out))
}
