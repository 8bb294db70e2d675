// The attributes of an attribute section: the one at a place, and the first of a type.
ghost use Rattle.std.specs.Prelude.{◌≡◌};
ghost use Rattle.attributes.specs.Promises.{attribute_at, find_answer};
ghost use Rattle.words.specs.Word.{word_of};
ghost use Rattle.firmware.specs.Fields.{attribute_fields};

// The attribute at a place of a section.
#[unsafe(no_mangle)]
pub extern "C" fn doorbramble_attribute_at(section: &[u8], place: usize) -> u64
    ensures { result ≡ word_of (attribute_fields (attribute_at section.now place)) }
{
    firmware::attribute::doorbramble_attribute_at(section, place)
}

// The first attribute of a type.
#[unsafe(no_mangle)]
pub extern "C" fn doorbramble_find_attribute(section: &[u8], kind: u8) -> u64
    ensures { result ≡ word_of (attribute_fields (find_answer section.now kind)) }
{
    firmware::attribute::doorbramble_find_attribute(section, kind)
}
