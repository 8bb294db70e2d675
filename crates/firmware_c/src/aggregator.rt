// An AGGREGATOR, read and written.
ghost use Rattle.std.specs.Prelude.{◌≡◌, length};
ghost use Rattle.wire.specs.Answer.{filled, count_meaning};
ghost use Rattle.asns.specs.Aggregator.{aggregator_meaning, aggregator_of, aggregator_written, aggregator_left};
ghost use Rattle.words.specs.Settings.{asn_length_of};
ghost use Rattle.words.specs.Word.{in_fields, word_of};
ghost use Rattle.firmware.specs.Fields.{aggregator_stored, aggregator_words};

// An AGGREGATOR into two words of a lent store.
#[unsafe(no_mangle)]
pub extern "C" fn doorbramble_parse_aggregator(
    value: &[u8],
    four_bytes: u8,
    words: &mut [u32],
) -> u64
    ensures answer { result ≡ word_of (in_fields (aggregator_stored (aggregator_meaning (aggregator_of value.now (asn_length_of four_bytes))) (length words.old))) }
    ensures words { words.new ≡ filled (aggregator_stored (aggregator_meaning (aggregator_of value.now (asn_length_of four_bytes))) (length words.old)) (aggregator_words (aggregator_meaning (aggregator_of value.now (asn_length_of four_bytes)))) words.old }
{
    firmware::aggregator::doorbramble_parse_aggregator(value, four_bytes, words)
}

// An AS number and an identifier as an AGGREGATOR.
#[unsafe(no_mangle)]
pub extern "C" fn doorbramble_encode_aggregator(
    asn: u32,
    identifier: u32,
    four_bytes: u8,
    out: &mut [u8],
) -> u64
    ensures answer { result ≡ word_of (in_fields (count_meaning (aggregator_written asn identifier (asn_length_of four_bytes) (length out.old)))) }
    ensures out { out.new ≡ aggregator_left asn identifier (asn_length_of four_bytes) out.old }
{
    firmware::aggregator::doorbramble_encode_aggregator(asn, identifier, four_bytes, out)
}
