// The version of the calls for C, as the header has it that a caller was compiled with.
ghost use Rattle.std.specs.Prelude.{◌≡◌};
ghost use Rattle.words.specs.Word.{word_of};
ghost use Rattle.firmware.specs.Fields.{version_fields};

// The version of the library.
#[unsafe(no_mangle)]
pub extern "C" fn doorbramble_version() -> u64
    ensures { result ≡ word_of version_fields }
{
    firmware::version::doorbramble_version()
}
