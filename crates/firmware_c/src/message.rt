// A message's header, read and written.
ghost use Rattle.std.specs.Prelude.{◌≡◌, length};
ghost use Rattle.wire.specs.Answer.{count_meaning};
ghost use Rattle.messages.specs.Header.{message_of, strict_of};
ghost use Rattle.messages.specs.declared.Edition.TheVariants.{Rfc4271};
ghost use Rattle.messages.specs.Written as Messages;
ghost use Rattle.words.specs.Settings.{edition_of};
ghost use Rattle.words.specs.Word.{in_fields, word_of};
ghost use Rattle.firmware.specs.Fields.{message_fields};

// The header of a message, as the crate reads it.
#[unsafe(no_mangle)]
pub extern "C" fn doorbramble_parse_bgp_message(s: &[u8]) -> u64
    ensures { result ≡ word_of (message_fields (message_of s.now)) }
{
    firmware::message::doorbramble_parse_bgp_message(s)
}

// As RFC 4271 has it.
#[unsafe(no_mangle)]
pub extern "C" fn doorbramble_parse_bgp_message_strict(s: &[u8]) -> u64
    ensures { result ≡ word_of (message_fields (strict_of Rfc4271 s.now)) }
{
    firmware::message::doorbramble_parse_bgp_message_strict(s)
}

// As the edition that C names has it.
#[unsafe(no_mangle)]
pub extern "C" fn doorbramble_parse_bgp_message_by_edition(s: &[u8], edition: u8) -> u64
    ensures { result ≡ word_of (message_fields (strict_of (edition_of edition) s.now)) }
{
    firmware::message::doorbramble_parse_bgp_message_by_edition(s, edition)
}

// A type and a body as a message.
#[unsafe(no_mangle)]
pub extern "C" fn doorbramble_encode_bgp_message(kind: u8, body: &[u8], out: &mut [u8]) -> u64
    ensures answer { result ≡ word_of (in_fields (count_meaning (Messages.write_message kind body.now (length out.old)))) }
    ensures out { out.new ≡ Messages.message_after kind body.now out.old }
{
    firmware::message::doorbramble_encode_bgp_message(kind, body, out)
}
