// Old AS numbers and new ones side by side (RFC 6793 section 4.2.3): which of two AGGREGATORs stands, and the path that AS_PATH, with numbers of two
// bytes, and AS4_PATH, with numbers of four, make together.
#![tactic(auto)]

ghost use Rattle.std.specs.Prelude.{◌≡◌, ◌+◌, ◌≤◌, [], ◌∷◌, ◌++◌, length, leb};
ghost use Rattle.wire.specs.Choice.{pick};
ghost use Rattle.wire.specs.Extent.{PartOf};
ghost use Rattle.wire.specs.Refusal.{list_limit};
ghost use Rattle.wire.specs.Verdict.{fine};
ghost use Rattle.asns.specs.Asn.{width_of, span};
ghost use Rattle.paths.specs.Segment.{known_type, path_of};
ghost use Rattle.paths.specs.Promises.{answer_of};
ghost use Rattle.as4.specs.Standing.{size_fault, sizes_fault, both_there, has_as_trans, standing, ignored, owner_of, handed_back};
ghost use Rattle.as4.specs.Merge.{confed_sequence, kept};
ghost use Rattle.as4.specs.Promises.{old_path, new_path, built_of, merge_answer, merged_pairs, merged_numbers};
ghost use Rattle.as4.specs.Private.{kept_count, route_count, weighed, goes_on, first_of, split_at, front_of, Front, Leads, Room, Put, alone, Planned};

use asns::AsnLength;
use paths::{Path, PathRule};
use wire::refusal::Refusal;

// AS_TRANS: the AS number that stands where one of four bytes has no room.
pub const AS_TRANS: u32 = 23456;

// The bytes of an AGGREGATOR, and of an AS4_AGGREGATOR.
const AGGREGATOR_SIZE: usize = 6;

const AS4_AGGREGATOR_SIZE: usize = 8;

// Segment types: a set, and the first of the two of a confederation, above which there is no other.
const AS_SET: u8 = 1;

const CONFED_SEQUENCE: u8 = 3;

// Which of two AGGREGATORs stands.
#[derive(Clone, Copy, Debug, PartialEq, Eq, Hash)]
pub enum Standing {
    Aggregator,
    As4Aggregator,
}

// Whether a value of n bytes is absent, or has its one size.
#[tactic(auto, unfolding(crate::specs::Standing::size_fault))]
fn size_fault(n: usize, size: usize) -> Result<(), Refusal>
    ensures { result ≡ size_fault n size }
{
    if n == 0 || n == size {
        return Ok(());
    }
    Err(Refusal::AggregatorLength)
}

// The same of both.
fn sizes_fault(aggregator: &[u8], as4_aggregator: &[u8]) -> Result<(), Refusal>
    ensures { result ≡ sizes_fault aggregator.now as4_aggregator.now }
{
    size_fault(aggregator.len(), AGGREGATOR_SIZE)?;
    size_fault(as4_aggregator.len(), AS4_AGGREGATOR_SIZE)
}

// Whether neither is absent.
fn both_there(aggregator: &[u8], as4_aggregator: &[u8]) -> bool
    ensures { result ≡ both_there aggregator.now as4_aggregator.now }
{
    !aggregator.is_empty() && !as4_aggregator.is_empty()
}

// Whether the AS number of an AGGREGATOR is AS_TRANS.
fn has_as_trans(aggregator: &[u8]) -> bool
    ensures { result ≡ has_as_trans aggregator.now }
{
    asns::number_at(aggregator, 0, AsnLength::Bits16) == AS_TRANS
}

// Which of two AGGREGATORs stands.
pub fn which_aggregator(aggregator: &[u8], as4_aggregator: &[u8]) -> Result<Standing, Refusal>
    ensures { result ≡ standing aggregator.now as4_aggregator.now }
{
    sizes_fault(aggregator, as4_aggregator)?;
    if both_there(aggregator, as4_aggregator) && has_as_trans(aggregator) {
        return Ok(Standing::As4Aggregator);
    }
    Ok(Standing::Aggregator)
}

// The AGGREGATOR that stands: one of the two values itself, and nothing where they are refused.
pub fn standing_aggregator<'a>(aggregator: &'a [u8], as4_aggregator: &'a [u8]) -> &'a [u8]
    ensures { PartOf (owner_of (standing aggregator.now as4_aggregator.now) aggregator.entry as4_aggregator.entry) (handed_back (standing aggregator.now as4_aggregator.now) aggregator.entry as4_aggregator.entry) result }
{
    match which_aggregator(aggregator, as4_aggregator) {
        Ok(Standing::Aggregator) => aggregator,
        Ok(Standing::As4Aggregator) => as4_aggregator,
        Err(_) => &aggregator[..0],
    }
}

// Whether AS4_PATH is ignored: AGGREGATOR stands though both are there.
#[tactic(auto, unfolding(crate::specs::Standing::ignored))]
fn ignores_as4_path(aggregator: &[u8], as4_aggregator: &[u8]) -> bool
    ensures { result ≡ ignored aggregator.now as4_aggregator.now }
{
    both_there(aggregator, as4_aggregator) && !has_as_trans(aggregator)
}

// What a path counts, and how many segments and numbers it has without those of confederations.
#[derive(Clone, Copy, Debug, PartialEq, Eq)]
struct Weight {
    route_len: usize,
    segments: usize,
    numbers: usize,
}

// The leading part of an AS_PATH: where its whole segments end, how many numbers of a split sequence follow, 0 for none, and how many segments and numbers
// stand before that.
#[derive(Clone, Copy, Debug, PartialEq, Eq)]
struct Leading {
    end: usize,
    split: usize,
    segments: usize,
    numbers: usize,
}

// What a path is built of: AS_PATH alone; or its leading part and AS4_PATH, which make a path of so many segments and numbers.
#[derive(Clone, Copy, Debug, PartialEq, Eq)]
enum Plan {
    Alone,
    Built { lead: Leading, path: Path },
}

// Whether a segment is one of a confederation.
fn is_confed(kind: u8) -> bool
    ensures { result ≡ leb confed_sequence kind }
{
    CONFED_SEQUENCE <= kind
}

// n, and 0 for a segment of a confederation.
#[tactic(auto, unfolding(crate::specs::Private::kept_count))]
fn kept_count(kind: u8, n: usize) -> usize
    ensures { result ≡ kept_count kind n }
{
    if is_confed(kind) { 0 } else { n }
}

// What a segment of n numbers counts: a set one, a sequence its numbers, a confederation segment none.
fn route_len(kind: u8, n: usize) -> usize
    ensures { result ≡ route_count kind n }
{
    if kind == AS_SET {
        return 1;
    }
    kept_count(kind, n)
}

// A path judged and weighed.
fn weigh(value: &[u8], width: AsnLength) -> Result<Weight, Refusal>
    ensures { result ≡ weighed value.now (path_of known_type (width_of width) value.now) }
{
    if wire::LIST_LIMIT < value.len() {
        return Err(Refusal::TooLong);
    }
    let mut at: usize = 0;
    let mut weight = Weight {
        route_len: 0,
        segments: 0,
        numbers: 0,
    };
    while at < value.len() {
        let n = paths::segment_count(&value[at..], width, PathRule::Crate)?;
        let kind = value[at];
        weight.route_len += route_len(kind, usize::from(n));
        weight.segments += kept_count(kind, 1);
        weight.numbers += kept_count(kind, usize::from(n));
        at += paths::segment_size(n, width);
    }
    Ok(weight)
}

// Whether a segment stands there and is to be taken, with so much left to make up.
fn goes_on(s: &[u8], at: usize, left: usize) -> bool
    ensures { result ≡ goes_on s.now at left }
{
    at < s.len() && (0 < left || is_confed(s[at]))
}

// The leading part of a good AS_PATH that counts `need`.
fn leading_part(as_path: &[u8], need: usize) -> Leading
    requires good { (old_path as_path.now).verdict ≡ fine }
    requires short { length as_path.now ≤ list_limit }
    ensures { Leads as_path.now need result }
{
    let mut lead = Leading {
        end: 0,
        split: 0,
        segments: 0,
        numbers: 0,
    };
    let mut left = need;
    while goes_on(as_path, lead.end, left) {
        let kind = as_path[lead.end];
        let n = as_path[lead.end + 1];
        let counted = route_len(kind, usize::from(n));
        if left < counted {
            return Leading {
                split: left,
                ..lead
            };
        }
        left -= counted;
        lead.end += paths::segment_size(n, AsnLength::Bits16);
        lead.segments += 1;
        lead.numbers += usize::from(n);
    }
    lead
}

// The segment of the first n numbers at the front of the bytes: a pair of its type and n, and the numbers.
fn put_segment(s: &[u8], n: u8, width: AsnLength, pairs: &mut [u32], numbers: &mut [u32])
    requires there { 2 + span (width_of width) n ≤ length s.now }
    requires room { Room (first_of (width_of width) n s.now ∷ []) pairs.old numbers.old }
    ensures { Put (first_of (width_of width) n s.now ∷ []) pairs.old numbers.old pairs.new numbers.new }
{
    pairs[0] = u32::from(s[0]);
    pairs[1] = u32::from(n);
    paths::read_asns(&s[2..], n, width, numbers);
}

// The segments of a good AS4_PATH, but for those of confederations.
fn fill_kept(as4_path: &[u8], pairs: &mut [u32], numbers: &mut [u32])
    requires good { (new_path as4_path.now).verdict ≡ fine }
    requires room { Room (kept (new_path as4_path.now).rows) pairs.old numbers.old }
    ensures { Put (kept (new_path as4_path.now).rows) pairs.old numbers.old pairs.new numbers.new }
{
    let mut at: usize = 0;
    let mut pair: usize = 0;
    let mut to: usize = 0;
    while at < as4_path.len() {
        let s = &as4_path[at..];
        let n = s[1];
        at += paths::segment_size(n, AsnLength::Bits32);
        if is_confed(s[0]) {
            continue;
        }
        put_segment(
            s,
            n,
            AsnLength::Bits32,
            &mut pairs[pair..],
            &mut numbers[to..],
        );
        pair += 2;
        to += usize::from(n);
    }
}

// The sequence that is split, where there is one.
fn put_split(as_path: &[u8], front: Leading, pairs: &mut [u32], numbers: &mut [u32])
    requires front { Front as_path.now front }
    requires room { Room (split_at as_path.now front.end front.split) pairs.old numbers.old }
    ensures { Put (split_at as_path.now front.end front.split) pairs.old numbers.old pairs.new numbers.new }
{
    if front.split == 0 {
        return;
    }
    put_segment(
        &as_path[front.end..],
        front.split as u8,
        AsnLength::Bits16,
        pairs,
        numbers,
    );
}

// The whole segments of a front.
fn put_front(front: &[u8], pairs: &mut [u32], numbers: &mut [u32])
    requires short { length front.now ≤ list_limit }
    requires good { (old_path front.now).verdict ≡ fine }
    requires room { Room (old_path front.now).rows pairs.old numbers.old }
    ensures { Put (old_path front.now).rows pairs.old numbers.old pairs.new numbers.new }
{
    if front.is_empty() {
        return;
    }
    let _ = paths::parse_as_path(front, AsnLength::Bits16, PathRule::Crate, pairs, numbers);
}

// How many segments a split adds.
fn split_count(split: usize) -> usize
    ensures { result ≡ pick (leb 1 split) 1 0 }
{
    if 0 < split { 1 } else { 0 }
}

// A front of AS_PATH and what is left of AS4_PATH. Its whole segments go last, so that nothing is kept over that call.
fn fill_built(
    as_path: &[u8],
    as4_path: &[u8],
    front: Leading,
    pairs: &mut [u32],
    numbers: &mut [u32],
)
    requires short { length as_path.now ≤ list_limit }
    requires front { Front as_path.now front }
    requires good { (new_path as4_path.now).verdict ≡ fine }
    requires room { Room (front_of as_path.now front ++ kept (new_path as4_path.now).rows) pairs.old numbers.old }
    ensures { Put (front_of as_path.now front ++ kept (new_path as4_path.now).rows) pairs.old numbers.old pairs.new numbers.new }
{
    let pair = 2 * front.segments;
    let to = front.numbers;
    put_split(as_path, front, &mut pairs[pair..], &mut numbers[to..]);
    let more_pairs = pair + 2 * split_count(front.split);
    let more_numbers = to + front.split;
    fill_kept(
        as4_path,
        &mut pairs[more_pairs..],
        &mut numbers[more_numbers..],
    );
    put_front(&as_path[..front.end], pairs, numbers);
}

// Whether AS_PATH stands alone, by what it and the segments left of AS4_PATH count.
fn stands_alone(ignores: bool, segments: usize, old: usize, new: usize) -> bool
    ensures { result ≡ alone ignores segments old new }
{
    ignores || segments == 0 || old < new
}

// What the path is built of. Where AS4_PATH is absent, AS_PATH is not judged here.
#[inline(always)]
fn plan_path(
    as_path: &[u8],
    as4_path: &[u8],
    aggregator: &[u8],
    as4_aggregator: &[u8],
) -> Result<Plan, Refusal>
    ensures { Planned (built_of as_path.now as4_path.now aggregator.now as4_aggregator.now) as_path.now as4_path.now result }
{
    sizes_fault(aggregator, as4_aggregator)?;
    if as4_path.is_empty() {
        return Ok(Plan::Alone);
    }
    let ignores = ignores_as4_path(aggregator, as4_aggregator);
    let old = weigh(as_path, AsnLength::Bits16)?;
    let new = weigh(as4_path, AsnLength::Bits32)?;
    if stands_alone(ignores, new.segments, old.route_len, new.route_len) {
        return Ok(Plan::Alone);
    }
    let lead = leading_part(as_path, old.route_len - new.route_len);
    let path = Path {
        segments: lead.segments + split_count(lead.split) + new.segments,
        numbers: lead.numbers + lead.split + new.numbers,
    };
    Ok(Plan::Built { lead, path })
}

// How many segments and numbers the path of an AS_PATH and an AS4_PATH has, with the AGGREGATORs beside them.
pub fn count_merged_as_path(
    as_path: &[u8],
    as4_path: &[u8],
    aggregator: &[u8],
    as4_aggregator: &[u8],
) -> Result<Path, Refusal>
    ensures { result ≡ answer_of (built_of as_path.now as4_path.now aggregator.now as4_aggregator.now) }
{
    match plan_path(as_path, as4_path, aggregator, as4_aggregator)? {
        Plan::Alone => paths::count_as_path(as_path, AsnLength::Bits16, PathRule::Crate),
        Plan::Built { lead: _, path } => Ok(path),
    }
}

// That path into two lent stores: a pair of type and count for each segment, and the numbers back to back.
pub fn merge_as_path(
    as_path: &[u8],
    as4_path: &[u8],
    aggregator: &[u8],
    as4_aggregator: &[u8],
    pairs: &mut [u32],
    numbers: &mut [u32],
) -> Result<Path, Refusal>
    ensures answer { result ≡ merge_answer (built_of as_path.now as4_path.now aggregator.now as4_aggregator.now) (length pairs.old) (length numbers.old) }
    ensures pairs { pairs.new ≡ merged_pairs (built_of as_path.now as4_path.now aggregator.now as4_aggregator.now) pairs.old (length numbers.old) }
    ensures numbers { numbers.new ≡ merged_numbers (built_of as_path.now as4_path.now aggregator.now as4_aggregator.now) (length pairs.old) numbers.old }
{
    match plan_path(as_path, as4_path, aggregator, as4_aggregator)? {
        Plan::Alone => {
            paths::parse_as_path(as_path, AsnLength::Bits16, PathRule::Crate, pairs, numbers)
        }
        Plan::Built { lead, path } => {
            if pairs.len() / 2 < path.segments || numbers.len() < path.numbers {
                return Err(Refusal::NoRoom);
            }
            fill_built(as_path, as4_path, lead, pairs, numbers);
            Ok(path)
        }
    }
}
