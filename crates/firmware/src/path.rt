// An AS_PATH, counted, read and written, by calls as the crate does it and by strict ones (RFC 7606 section 7.2).
ghost use Rattle.std.specs.Prelude.{◌≡◌, length};
ghost use Rattle.wire.specs.Answer.{count_meaning};
ghost use Rattle.asns.specs.Asn.{width_of};
ghost use Rattle.paths.specs.Segment.{known_type, non_empty, path_of};
ghost use Rattle.paths.specs.Promises as Paths;
ghost use Rattle.path_writer.specs.Promises as PathWriter;
ghost use Rattle.words.specs.Settings.{asn_length_of};
ghost use Rattle.words.specs.Word.{in_fields, word_of, Narrow};

use super::{count_word, refused};
use paths::{Path, PathRule};
use wire::refusal::Refusal;
use words::{asn_length_of, word};

// A path as a word: its segments and their numbers.
pub(super) fn path_word(a: Result<Path, Refusal>) -> u64
    requires { Narrow (in_fields (Paths.path_meaning a)) }
    ensures { result ≡ word_of (in_fields (Paths.path_meaning a)) }
{
    a.map_or_else(
        refused,
        |path| word(path.segments as u16, path.numbers as u16, 0, 0),
    )
}

// How many segments and numbers an AS_PATH has, as the crate does it.
pub fn doorbramble_count_as_path(value: &[u8], four_bytes: u8) -> u64
    ensures { result ≡ word_of (in_fields (Paths.path_meaning (Paths.count_answer value.now (path_of known_type (width_of (asn_length_of four_bytes)) value.now)))) }
{
    path_word(paths::count_as_path(value, asn_length_of(four_bytes), PathRule::Crate))
}

// Strictly.
pub fn doorbramble_count_as_path_strict(value: &[u8], four_bytes: u8) -> u64
    ensures { result ≡ word_of (in_fields (Paths.path_meaning (Paths.count_answer value.now (path_of non_empty (width_of (asn_length_of four_bytes)) value.now)))) }
{
    path_word(paths::count_as_path(value, asn_length_of(four_bytes), PathRule::Strict))
}

// An AS_PATH into two lent stores, as the crate does it: a pair of type and count for each segment, and the numbers back to back.
pub fn doorbramble_parse_as_path(
    value: &[u8],
    four_bytes: u8,
    pairs: &mut [u32],
    numbers: &mut [u32],
) -> u64
    ensures answer { result ≡ word_of (in_fields (Paths.path_meaning (Paths.read_answer value.now (path_of known_type (width_of (asn_length_of four_bytes)) value.now) (length pairs.old) (length numbers.old)))) }
    ensures pairs { pairs.new ≡ Paths.pairs_after value.now (path_of known_type (width_of (asn_length_of four_bytes)) value.now) pairs.old (length numbers.old) }
    ensures numbers { numbers.new ≡ Paths.numbers_after value.now (path_of known_type (width_of (asn_length_of four_bytes)) value.now) (length pairs.old) numbers.old }
{
    path_word(paths::parse_as_path(
        value,
        asn_length_of(four_bytes),
        PathRule::Crate,
        pairs,
        numbers,
    ))
}

// Strictly.
pub fn doorbramble_parse_as_path_strict(
    value: &[u8],
    four_bytes: u8,
    pairs: &mut [u32],
    numbers: &mut [u32],
) -> u64
    ensures answer { result ≡ word_of (in_fields (Paths.path_meaning (Paths.read_answer value.now (path_of non_empty (width_of (asn_length_of four_bytes)) value.now) (length pairs.old) (length numbers.old)))) }
    ensures pairs { pairs.new ≡ Paths.pairs_after value.now (path_of non_empty (width_of (asn_length_of four_bytes)) value.now) pairs.old (length numbers.old) }
    ensures numbers { numbers.new ≡ Paths.numbers_after value.now (path_of non_empty (width_of (asn_length_of four_bytes)) value.now) (length pairs.old) numbers.old }
{
    path_word(paths::parse_as_path(
        value,
        asn_length_of(four_bytes),
        PathRule::Strict,
        pairs,
        numbers,
    ))
}

// Pairs of type and count, and numbers back to back, as an AS_PATH, as the crate does it.
#[tactic(auto, using(crate::proofs::PathBounds::write_path_narrow))]
pub fn doorbramble_encode_as_path(
    pairs: &[u32],
    numbers: &[u32],
    four_bytes: u8,
    out: &mut [u8],
) -> u64
    ensures answer { result ≡ word_of (in_fields (count_meaning (PathWriter.encode_answer known_type (width_of (asn_length_of four_bytes)) pairs.now numbers.now (length out.old)))) }
    ensures out { out.new ≡ PathWriter.encode_left known_type (width_of (asn_length_of four_bytes)) pairs.now numbers.now out.old }
{
    count_word(path_writer::encode_as_path(
        pairs,
        numbers,
        asn_length_of(four_bytes),
        PathRule::Crate,
        out,
    ))
}

// Strictly.
#[tactic(auto, using(crate::proofs::PathBounds::write_path_narrow))]
pub fn doorbramble_encode_as_path_strict(
    pairs: &[u32],
    numbers: &[u32],
    four_bytes: u8,
    out: &mut [u8],
) -> u64
    ensures answer { result ≡ word_of (in_fields (count_meaning (PathWriter.encode_answer non_empty (width_of (asn_length_of four_bytes)) pairs.now numbers.now (length out.old)))) }
    ensures out { out.new ≡ PathWriter.encode_left non_empty (width_of (asn_length_of four_bytes)) pairs.now numbers.now out.old }
{
    count_word(path_writer::encode_as_path(
        pairs,
        numbers,
        asn_length_of(four_bytes),
        PathRule::Strict,
        out,
    ))
}
