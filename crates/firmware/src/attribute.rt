// The attributes of an attribute section: the one at a place, and the first of a type.
ghost use Rattle.std.specs.Prelude.{◌≡◌};
ghost use Rattle.attributes.specs.Promises.{attribute_at, find_answer};
ghost use Rattle.words.specs.Word.{word_of, Narrow};
ghost use Rattle.firmware.specs.Fields.{attribute_fields};

use super::refused;
use attributes::Attribute;
use wire::refusal::Refusal;
use words::word;

// An attribute as a word: where its value starts and how long it is, its type and its flags.
fn attribute_word(a: Result<Option<Attribute>, Refusal>) -> u64
    requires { Narrow (attribute_fields a) }
    ensures { result ≡ word_of (attribute_fields a) }
{
    match a {
        Ok(Some(found)) => word(
            found.start as u16,
            found.length as u16,
            u16::from(found.kind) + 256 * u16::from(found.flags),
            0,
        ),
        Ok(None) => word(0, 0, 0, 0),
        Err(why) => refused(why),
    }
}

// The attribute at a place of a section.
pub fn doorbramble_attribute_at(section: &[u8], place: usize) -> u64
    ensures { result ≡ word_of (attribute_fields (attribute_at section.now place)) }
{
    attribute_word(attributes::attribute_at(section, place))
}

// The first attribute of a type.
pub fn doorbramble_find_attribute(section: &[u8], kind: u8) -> u64
    ensures { result ≡ word_of (attribute_fields (find_answer section.now kind)) }
{
    attribute_word(attributes::find_attribute(section, kind))
}
