// Old and new AS numbers side by side: the AGGREGATOR that stands, and the path that AS_PATH and AS4_PATH make together.
ghost use Rattle.std.specs.Prelude.{◌≡◌, length};
ghost use Rattle.paths.specs.Promises.{answer_of, path_meaning};
ghost use Rattle.as4.specs.Standing.{standing};
ghost use Rattle.as4.specs.Promises.{built_of, merge_answer, merged_pairs, merged_numbers};
ghost use Rattle.words.specs.Word.{in_fields, word_of};
ghost use Rattle.firmware.specs.Fields.{standing_fields};

use super::path::path_word;
use super::refused;
use as4::Standing;
use words::word;

// Which of two AGGREGATORs stands: all of it as a part, and 1, or 2 for AS4_AGGREGATOR.
pub fn doorbramble_standing_aggregator(aggregator: &[u8], as4_aggregator: &[u8]) -> u64
    ensures { result ≡ word_of (standing_fields (standing aggregator.now as4_aggregator.now) (length aggregator.now) (length as4_aggregator.now)) }
{
    match as4::which_aggregator(aggregator, as4_aggregator) {
        Ok(Standing::Aggregator) => word(0, aggregator.len() as u16, 1, 0),
        Ok(Standing::As4Aggregator) => word(0, as4_aggregator.len() as u16, 2, 0),
        Err(why) => refused(why),
    }
}

// How many segments and numbers the path has that AS_PATH and AS4_PATH make, with the AGGREGATORs beside them.
pub fn doorbramble_count_merged_as_path(
    as_path: &[u8],
    as4_path: &[u8],
    aggregator: &[u8],
    as4_aggregator: &[u8],
) -> u64
    ensures { result ≡ word_of (in_fields (path_meaning (answer_of (built_of as_path.now as4_path.now aggregator.now as4_aggregator.now)))) }
{
    path_word(as4::count_merged_as_path(as_path, as4_path, aggregator, as4_aggregator))
}

// That path into two lent stores: a pair of type and count for each segment, and the numbers back to back.
pub fn doorbramble_merge_as_path(
    as_path: &[u8],
    as4_path: &[u8],
    aggregator: &[u8],
    as4_aggregator: &[u8],
    pairs: &mut [u32],
    numbers: &mut [u32],
) -> u64
    ensures answer { result ≡ word_of (in_fields (path_meaning (merge_answer (built_of as_path.now as4_path.now aggregator.now as4_aggregator.now) (length pairs.old) (length numbers.old)))) }
    ensures pairs { pairs.new ≡ merged_pairs (built_of as_path.now as4_path.now aggregator.now as4_aggregator.now) pairs.old (length numbers.old) }
    ensures numbers { numbers.new ≡ merged_numbers (built_of as_path.now as4_path.now aggregator.now as4_aggregator.now) (length pairs.old) numbers.old }
{
    path_word(as4::merge_as_path(
        as_path,
        as4_path,
        aggregator,
        as4_aggregator,
        pairs,
        numbers,
    ))
}
