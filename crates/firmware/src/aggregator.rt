// An AGGREGATOR, read and written.
ghost use Rattle.std.specs.Prelude.{◌≡◌, length};
ghost use Rattle.wire.specs.Answer.{filled, count_meaning};
ghost use Rattle.asns.specs.Aggregator.{aggregator_meaning, aggregator_of, aggregator_written, aggregator_left};
ghost use Rattle.words.specs.Settings.{asn_length_of};
ghost use Rattle.words.specs.Word.{in_fields, word_of};
ghost use Rattle.firmware.specs.Fields.{aggregator_stored, aggregator_words};

use super::{count_word, refused};
use wire::refusal::Refusal;
use words::{asn_length_of, word};

// The words of an AGGREGATOR: its AS number and its identifier.
const AGGREGATOR_SIZE: usize = 2;

// An AGGREGATOR into two words of a lent store.
pub fn doorbramble_parse_aggregator(value: &[u8], four_bytes: u8, words: &mut [u32]) -> u64
    ensures answer { result ≡ word_of (in_fields (aggregator_stored (aggregator_meaning (aggregator_of value.now (asn_length_of four_bytes))) (length words.old))) }
    ensures words { words.new ≡ filled (aggregator_stored (aggregator_meaning (aggregator_of value.now (asn_length_of four_bytes))) (length words.old)) (aggregator_words (aggregator_meaning (aggregator_of value.now (asn_length_of four_bytes)))) words.old }
{
    match asns::parse_aggregator(value, asn_length_of(four_bytes)) {
        Ok(found) => {
            if words.len() < AGGREGATOR_SIZE {
                return refused(Refusal::NoRoom);
            }
            // One by one: as a slice that is copied they take 9.5 ns for 5.7, and 1.71 of the C's time.
            words[0] = found.asn;
            words[1] = found.identifier;
            word(AGGREGATOR_SIZE as u16, found.differs as u16, 0, 0)
        }
        Err(why) => refused(why),
    }
}

// An AS number and an identifier as an AGGREGATOR.
#[tactic(auto, using(crate::proofs::AggregatorBounds::write_aggregator_narrow))]
pub fn doorbramble_encode_aggregator(
    asn: u32,
    identifier: u32,
    four_bytes: u8,
    out: &mut [u8],
) -> u64
    ensures answer { result ≡ word_of (in_fields (count_meaning (aggregator_written asn identifier (asn_length_of four_bytes) (length out.old)))) }
    ensures out { out.new ≡ aggregator_left asn identifier (asn_length_of four_bytes) out.old }
{
    count_word(asns::encode_aggregator(asn, identifier, asn_length_of(four_bytes), out))
}
