// An AS_PATH, counted, read and written, by calls as the crate does it and by strict ones (RFC 7606 section 7.2).
ghost use Rattle.std.specs.Prelude.{◌≡◌, length};
ghost use Rattle.wire.specs.Answer.{count_meaning};
ghost use Rattle.asns.specs.Asn.{width_of};
ghost use Rattle.paths.specs.Segment.{known_type, non_empty, path_of};
ghost use Rattle.paths.specs.Promises as Paths;
ghost use Rattle.path_writer.specs.Promises as PathWriter;
ghost use Rattle.words.specs.Settings.{asn_length_of};
ghost use Rattle.words.specs.Word.{in_fields, word_of};

// As the crate does.
#[unsafe(no_mangle)]
pub extern "C" fn doorbramble_count_as_path(value: &[u8], four_bytes: u8) -> u64
    ensures { result ≡ word_of (in_fields (Paths.path_meaning (Paths.count_answer value.now (path_of known_type (width_of (asn_length_of four_bytes)) value.now)))) }
{
    firmware::path::doorbramble_count_as_path(value, four_bytes)
}

// Strictly.
#[unsafe(no_mangle)]
pub extern "C" fn doorbramble_count_as_path_strict(value: &[u8], four_bytes: u8) -> u64
    ensures { result ≡ word_of (in_fields (Paths.path_meaning (Paths.count_answer value.now (path_of non_empty (width_of (asn_length_of four_bytes)) value.now)))) }
{
    firmware::path::doorbramble_count_as_path_strict(value, four_bytes)
}

// As the crate does.
#[unsafe(no_mangle)]
pub extern "C" fn doorbramble_parse_as_path(
    value: &[u8],
    four_bytes: u8,
    pairs: &mut [u32],
    numbers: &mut [u32],
) -> u64
    ensures answer { result ≡ word_of (in_fields (Paths.path_meaning (Paths.read_answer value.now (path_of known_type (width_of (asn_length_of four_bytes)) value.now) (length pairs.old) (length numbers.old)))) }
    ensures pairs { pairs.new ≡ Paths.pairs_after value.now (path_of known_type (width_of (asn_length_of four_bytes)) value.now) pairs.old (length numbers.old) }
    ensures numbers { numbers.new ≡ Paths.numbers_after value.now (path_of known_type (width_of (asn_length_of four_bytes)) value.now) (length pairs.old) numbers.old }
{
    firmware::path::doorbramble_parse_as_path(value, four_bytes, pairs, numbers)
}

// Strictly.
#[unsafe(no_mangle)]
pub extern "C" fn doorbramble_parse_as_path_strict(
    value: &[u8],
    four_bytes: u8,
    pairs: &mut [u32],
    numbers: &mut [u32],
) -> u64
    ensures answer { result ≡ word_of (in_fields (Paths.path_meaning (Paths.read_answer value.now (path_of non_empty (width_of (asn_length_of four_bytes)) value.now) (length pairs.old) (length numbers.old)))) }
    ensures pairs { pairs.new ≡ Paths.pairs_after value.now (path_of non_empty (width_of (asn_length_of four_bytes)) value.now) pairs.old (length numbers.old) }
    ensures numbers { numbers.new ≡ Paths.numbers_after value.now (path_of non_empty (width_of (asn_length_of four_bytes)) value.now) (length pairs.old) numbers.old }
{
    firmware::path::doorbramble_parse_as_path_strict(value, four_bytes, pairs, numbers)
}

// As the crate does.
#[unsafe(no_mangle)]
pub extern "C" fn doorbramble_encode_as_path(
    pairs: &[u32],
    numbers: &[u32],
    four_bytes: u8,
    out: &mut [u8],
) -> u64
    ensures answer { result ≡ word_of (in_fields (count_meaning (PathWriter.encode_answer known_type (width_of (asn_length_of four_bytes)) pairs.now numbers.now (length out.old)))) }
    ensures out { out.new ≡ PathWriter.encode_left known_type (width_of (asn_length_of four_bytes)) pairs.now numbers.now out.old }
{
    firmware::path::doorbramble_encode_as_path(pairs, numbers, four_bytes, out)
}

// Strictly.
#[unsafe(no_mangle)]
pub extern "C" fn doorbramble_encode_as_path_strict(
    pairs: &[u32],
    numbers: &[u32],
    four_bytes: u8,
    out: &mut [u8],
) -> u64
    ensures answer { result ≡ word_of (in_fields (count_meaning (PathWriter.encode_answer non_empty (width_of (asn_length_of four_bytes)) pairs.now numbers.now (length out.old)))) }
    ensures out { out.new ≡ PathWriter.encode_left non_empty (width_of (asn_length_of four_bytes)) pairs.now numbers.now out.old }
{
    firmware::path::doorbramble_encode_as_path_strict(pairs, numbers, four_bytes, out)
}
