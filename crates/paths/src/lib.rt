// AS_PATH (RFC 4271 section 4.3, RFC 5065 section 3, RFC 6793 section 4.1): reading a path and counting it. The reading of
// attr_02_17_as_path.rs, and the strict one (RFC 7606 section 7.2).
#![tactic(auto)]

ghost use Rattle.std.specs.Prelude.{◌≡◌, ◌+◌, ◌≤◌, [], ◌∷◌, length, take};
ghost use Rattle.wire.specs.Number.{be_at};
ghost use Rattle.wire.specs.Store.{laid};
ghost use Rattle.wire.specs.Verdict.{fine};
ghost use Rattle.wire.specs.Walk.{flat};
ghost use Rattle.asns.specs.Asn.{width_of, span};
ghost use Rattle.paths.specs.Segment.{numbers_of, type_fault, known_type, rule_of, pair_of, asns_of, segment_of, path_of};
ghost use Rattle.paths.specs.Promises.{count_in, asns_after, count_answer, read_answer, pairs_after, numbers_after};

use asns::AsnLength;
use wire::refusal::Refusal;

// The least and the greatest segment type: 1 set, 2 sequence, 3 confederation sequence, 4 confederation set.
const AS_SET: u32 = 1;

const CONFED_SET: u32 = 4;

// Which segments a path may have: the crate takes one of no numbers, the strict rule does not (RFC 7606 section 7.2).
#[derive(Clone, Copy, Debug, PartialEq, Eq, Hash)]
pub enum PathRule {
    Crate,
    Strict,
}

// How many segments and numbers a path has.
#[derive(Clone, Copy, Debug, PartialEq, Eq, Hash)]
pub struct Path {
    pub segments: usize,
    pub numbers: usize,
}

// What is wrong with a segment of that type: types are 1 to 4.
#[tactic(auto, unfolding(crate::specs::Segment::type_fault))]
fn type_fault(kind: u32) -> Result<(), Refusal>
    ensures { result ≡ type_fault kind }
{
    match kind {
        AS_SET..=CONFED_SET => Ok(()),
        _ => Err(Refusal::SegmentType),
    }
}

// What is wrong with a segment of that type and count: the type, 9; the count, 16.
#[tactic(auto, using(wire::proofs::AnswerLaws::either_fine))]
pub fn rule_fault(kind: u32, count: u32, rule: PathRule) -> Result<(), Refusal>
    ensures { result ≡ rule_of rule kind count }
{
    type_fault(kind)?;
    match rule {
        PathRule::Strict if count == 0 => Err(Refusal::EmptySegment),
        _ => Ok(()),
    }
}

// The bytes of a segment of so many numbers.
#[tactic(auto, using(asns::proofs::AsnLaws::span_most))]
pub fn segment_size(count: u8, width: AsnLength) -> usize
    ensures { result ≡ 2 + span (width_of width) count }
{
    2 + asns::numbers_size(u16::from(count), width)
}

// How many numbers the segment at the front has: type and count there, 2; the numbers there, 2; then the rule, 9 and 16.
#[tactic(auto, unfolding(crate::specs::Segment::segment_of, crate::specs::Segment::segment_at), using(crate::proofs::SegmentLaws::length_numbers))]
pub fn segment_count(s: &[u8], width: AsnLength, rule: PathRule) -> Result<u8, Refusal>
    ensures { result ≡ count_in (segment_of (rule_of rule) (width_of width) tt s.now) }
{
    if s.len() < 2 {
        return Err(Refusal::Truncated);
    }
    let count = s[1];
    if s.len() < segment_size(count, width) {
        return Err(Refusal::Truncated);
    }
    rule_fault(u32::from(s[0]), u32::from(count), rule)?;
    Ok(count)
}

// How many segments and numbers a path has.
pub fn count_as_path(value: &[u8], width: AsnLength, rule: PathRule) -> Result<Path, Refusal>
    ensures { result ≡ count_answer value.now (path_of (rule_of rule) (width_of width) value.now) }
{
    if wire::LIST_LIMIT < value.len() {
        return Err(Refusal::TooLong);
    }
    let mut at: usize = 0;
    let mut segments: usize = 0;
    let mut numbers: usize = 0;
    while at < value.len() {
        let count = segment_count(&value[at..], width, rule)?;
        at += segment_size(count, width);
        segments += 1;
        numbers += usize::from(count);
    }
    Ok(Path { segments, numbers })
}

// A pair of type and count at a place of the store.
fn put_pair(pairs: &mut [u32], to: usize, kind: u32, count: u32)
    requires { to + 2 ≤ length pairs.old }
    ensures { pairs.new ≡ laid pairs.old to (kind ∷ count ∷ []) }
{
    pairs[to] = kind;
    pairs[to + 1] = count;
}

// The number at a place of the bytes. Four bytes are read with the first one lowest, and turned: so a compiler sees one word in them.
#[inline(always)]
#[tactic(auto, using(crate::proofs::WordLaws::two_high_first, crate::proofs::WordLaws::four_turned))]
fn number_at(bytes: &[u8], at: usize, width: AsnLength) -> u32
    requires { at + width_of width ≤ length bytes.now }
    ensures { result ≡ be_at bytes.now at (width_of width) }
{
    match width {
        AsnLength::Bits16 => u32::from(u16::from_be_bytes([bytes[at], bytes[at + 1]])),
        AsnLength::Bits32 => {
            u32::from_le_bytes([
                bytes[at],
                bytes[at + 1],
                bytes[at + 2],
                bytes[at + 3],
            ]).swap_bytes()
        }
    }
}

// The numbers at the front of the bytes, to every place of a store.
#[inline(always)]
#[tactic(auto, using(crate::proofs::NumberTurn::place_fits))]
fn put_each(bytes: &[u8], width: AsnLength, numbers: &mut [u32])
    requires { span (width_of width) (length numbers.old) ≤ length bytes.now }
    ensures { numbers.new ≡ numbers_of (width_of width) (length numbers.old) bytes.now }
{
    for (i, number) in numbers.iter_mut().enumerate() {
        *number = number_at(bytes, i * asns::asn_bytes(width), width);
    }
}

// Four of them: all are read before one is put, so that they go together. `copy_from_slice` also tests whether they overlap, and long segments
// would take 1.7 times as long.
#[inline(always)]
#[tactic(auto, using(crate::proofs::NumberTurn::four_put, asns::proofs::AsnLaws::span_is, asns::proofs::AsnLaws::width_most))]
fn put_four(bytes: &[u8], width: AsnLength, numbers: &mut [u32])
    requires bytes_in_bounds { span (width_of width) 4 ≤ length bytes.now }
    requires numbers_len { length numbers.old ≡ 4 }
    ensures { numbers.new ≡ numbers_of (width_of width) 4 bytes.now }
{
    let w = asns::asn_bytes(width);
    let first = number_at(bytes, 0, width);
    let second = number_at(bytes, w, width);
    let third = number_at(bytes, 2 * w, width);
    let fourth = number_at(bytes, 3 * w, width);
    numbers[0] = first;
    numbers[1] = second;
    numbers[2] = third;
    numbers[3] = fourth;
}

// All of them: four in a turn, and the last four again where some are left over. One in a turn, segments of about nine numbers would take 1.4
// times as long.
#[inline(always)]
fn put_fours(bytes: &[u8], width: AsnLength, numbers: &mut [u32])
    requires { span (width_of width) (length numbers.old) ≤ length bytes.now }
    ensures { numbers.new ≡ numbers_of (width_of width) (length numbers.old) bytes.now }
{
    let n = numbers.len();
    if n < 4 {
        put_each(bytes, width, numbers);
        return;
    }
    let w = asns::asn_bytes(width);
    for i in 0..(n - 1) / 4 {
        put_four(&bytes[4 * i * w..], width, &mut numbers[4 * i..4 * i + 4]);
    }
    put_four(&bytes[(n - 4) * w..], width, &mut numbers[n - 4..]);
}

// The same: a call for each width, so that it is known where it is compiled.
#[inline(always)]
fn put_numbers(bytes: &[u8], width: AsnLength, numbers: &mut [u32])
    requires { span (width_of width) (length numbers.old) ≤ length bytes.now }
    ensures { numbers.new ≡ numbers_of (width_of width) (length numbers.old) bytes.now }
{
    match width {
        AsnLength::Bits16 => put_fours(bytes, AsnLength::Bits16, numbers),
        AsnLength::Bits32 => put_fours(bytes, AsnLength::Bits32, numbers),
    }
}

// The first n numbers of the bytes, to the front of a store; nothing where they are not all there, or have no room.
#[tactic(auto, using(crate::proofs::PromiseLaws::asns_short, crate::proofs::PromiseLaws::asns_full, crate::proofs::PromiseLaws::asns_part))]
pub fn read_asns(s: &[u8], n: u8, width: AsnLength, numbers: &mut [u32])
    ensures { numbers.new ≡ asns_after (width_of width) s.now n numbers.old }
{
    let count = usize::from(n);
    if s.len() < asns::numbers_size(u16::from(n), width) {
        return;
    }
    if numbers.len() < count {
        return;
    }
    put_numbers(s, width, &mut numbers[..count]);
}

// The n numbers at the front of the bytes, to the front of a store, and perhaps more after them.
#[tactic(auto, using(asns::proofs::AsnLaws::eight_says))]
fn put_ahead(bytes: &[u8], n: usize, width: AsnLength, numbers: &mut [u32])
    requires bytes_in_bounds { span (width_of width) n ≤ length bytes.now }
    requires n_in_bounds { n ≤ length numbers.old }
    ensures { take n numbers.new ≡ numbers_of (width_of width) n bytes.now }
{
    if asns::eight_for(n, numbers.len(), bytes.len(), width) {
        put_numbers(bytes, width, &mut numbers[..asns::AT_ONCE]);
        return;
    }
    put_numbers(bytes, width, &mut numbers[..n]);
}

// The segments of a good path that has room, with `total` numbers. No test of a segment is made again, so it is the same for both rules: what the
// strict one takes, the crate takes the same.
#[tactic(auto, using(crate::proofs::PathTurn::ahead_fits, crate::proofs::PathTurn::ahead_long))]
fn fill(value: &[u8], width: AsnLength, pairs: &mut [u32], numbers: &mut [u32], total: usize)
    requires good { (path_of known_type (width_of width) value.now).verdict ≡ fine }
    requires pairs_in_bounds { length (flat pair_of (path_of known_type (width_of width) value.now).rows) ≤ length pairs.old }
    requires total_is { length (flat asns_of (path_of known_type (width_of width) value.now).rows) ≡ total }
    requires total_in_bounds { total ≤ length numbers.old }
    ensures pairs { pairs.new ≡ laid pairs.old 0 (flat pair_of (path_of known_type (width_of width) value.now).rows) }
    ensures numbers { numbers.new ≡ laid numbers.old 0 (flat asns_of (path_of known_type (width_of width) value.now).rows) }
{
    let mut at: usize = 0;
    let mut pair: usize = 0;
    let mut to: usize = 0;
    while at < value.len() {
        let count = value[at + 1];
        put_pair(pairs, pair, u32::from(value[at]), u32::from(count));
        put_ahead(
            &value[at + 2..],
            usize::from(count),
            width,
            &mut numbers[to..total],
        );
        at += segment_size(count, width);
        pair += 2;
        to += usize::from(count);
    }
}

// A path into two lent stores: a pair of type and count for each segment, and the numbers back to back.
#[tactic(auto, unfolding(crate::specs::Promises::read_answer, crate::specs::Promises::pairs_after, crate::specs::Promises::numbers_after), using(crate::proofs::RuleLaws::accepted))]
pub fn parse_as_path(
    value: &[u8],
    width: AsnLength,
    rule: PathRule,
    pairs: &mut [u32],
    numbers: &mut [u32],
) -> Result<Path, Refusal>
    ensures answer { result ≡ read_answer value.now (path_of (rule_of rule) (width_of width) value.now) (length pairs.old) (length numbers.old) }
    ensures pairs { pairs.new ≡ pairs_after value.now (path_of (rule_of rule) (width_of width) value.now) pairs.old (length numbers.old) }
    ensures numbers { numbers.new ≡ numbers_after value.now (path_of (rule_of rule) (width_of width) value.now) (length pairs.old) numbers.old }
{
    let path = count_as_path(value, width, rule)?;
    if pairs.len() / 2 < path.segments {
        return Err(Refusal::NoRoom);
    }
    if numbers.len() < path.numbers {
        return Err(Refusal::NoRoom);
    }
    fill(value, width, pairs, numbers, path.numbers);
    Ok(path)
}
