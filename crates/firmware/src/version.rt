// The version of the calls for C, as the header has it that a caller was compiled with.
ghost use Rattle.std.specs.Prelude.{◌≡◌};
ghost use Rattle.words.specs.Word.{word_of};
ghost use Rattle.firmware.specs.Fields.{version_fields};

use words::word;

// Rises when a caller that was compiled before would break.
pub const MAJOR: u16 = 2;

// Rises when calls are added.
pub const MINOR: u16 = 1;

// The version of the library.
pub fn doorbramble_version() -> u64
    ensures { result ≡ word_of version_fields }
{
    word(MAJOR, MINOR, 0, 0)
}
