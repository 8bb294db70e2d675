// What the calls for C share: an answer as one word of 64 bits, and the numbers of C that stand for a choice.
#![tactic(auto)]

ghost use Rattle.std.specs.Prelude.{◌≡◌, eqb};
ghost use Rattle.wire.specs.Choice.{pick};
ghost use Rattle.words.specs.Settings.{family_of, form_of, asn_length_of, edition_of, settings_of};
ghost use Rattle.words.specs.Word.{fields, word_of};

use asns::AsnLength;
use families::{AddPath, Afi, Form};
use messages::Edition;

// The first of two where a number of C is 0, and else the second.
fn by_flag<T: Copy>(flag: u8, first: T, second: T) -> T
    ensures { result ≡ pick (eqb flag 0) first second }
{
    if flag == 0 { first } else { second }
}

// The family of routes: 0 is IPv4.
#[tactic(auto, unfolding(crate::specs::Settings::family_of))]
pub fn family_of(ipv6: u8) -> Afi
    ensures { result ≡ family_of ipv6 }
{
    by_flag(ipv6, Afi::Ipv4, Afi::Ipv6)
}

// The form of rows to write: 0 is without ids.
#[tactic(auto, unfolding(crate::specs::Settings::form_of))]
pub fn form_of(add_path: u8) -> Form
    ensures { result ≡ form_of add_path }
{
    by_flag(add_path, Form::Plain, Form::Tagged)
}

// The width of AS numbers: 0 is two bytes.
#[tactic(auto, unfolding(crate::specs::Settings::asn_length_of))]
pub fn asn_length_of(four_bytes: u8) -> AsnLength
    ensures { result ≡ asn_length_of four_bytes }
{
    by_flag(four_bytes, AsnLength::Bits16, AsnLength::Bits32)
}

// The edition of a strict reading: 0 is RFC 4271.
#[tactic(auto, unfolding(crate::specs::Settings::edition_of))]
pub fn edition_of(edition: u8) -> Edition
    ensures { result ≡ edition_of edition }
{
    by_flag(edition, Edition::Rfc4271, Edition::Rfc8654)
}

// The settings byte of a setting: `mode_of` of families reads it as that setting.
pub fn settings_of(mode: AddPath) -> u8
    ensures { result ≡ settings_of mode }
{
    match mode {
        AddPath::Off => 0,
        AddPath::On => 1,
        AddPath::Guess => 2,
    }
}

// Three fields and a refusal number as a word.
pub fn word(a: u16, b: u16, c: u16, refusal: u8) -> u64
    ensures { result ≡ word_of (fields a b c refusal) }
{
    u64::from(a)
        + 65536 * u64::from(b)
        + 4294967296 * u64::from(c)
        + 281474976710656 * u64::from(refusal)
}
