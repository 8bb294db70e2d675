// Writing an AS_PATH (RFC 4271 section 4.3, RFC 5065 section 3, RFC 6793 section 4.1). The writer of attr_02_17_as_path.rs, which here
// leaves the output as it was on every refusal.
#![tactic(auto)]

ghost use Rattle.std.specs.Prelude.{◌≡◌, true, ◌+◌, ◌≤◌, ◌<◌, [], ◌∷◌, length, take, drop};
ghost use Rattle.wire.specs.Number.{to_be};
ghost use Rattle.wire.specs.Store.{laid, PutAhead};
ghost use Rattle.wire.specs.Verdict.{fine};
ghost use Rattle.wire.specs.Walk.{flat};
ghost use Rattle.asns.specs.Asn.{width_of};
ghost use Rattle.paths.specs.Segment.{known_type, rule_of};
ghost use Rattle.path_writer.specs.Write.{adds_up, all_fit, write_fault, lent_path};
ghost use Rattle.path_writer.specs.Promises.{lent_bytes, encode_answer, encode_left};

use asns::AsnLength;
use paths::PathRule;
use wire::refusal::Refusal;

// The count byte's largest value.
const MOST_NUMBERS: u32 = 255;

// The largest number that two bytes hold.
const MOST_NARROW: u32 = 65535;

// Whether the pairs are whole, and their counts use up n numbers.
fn adds_up(pairs: &[u32], n: usize) -> bool
    ensures { result ≡ adds_up pairs.now n }
{
    let mut at: usize = 0;
    let mut left = n;
    while at < pairs.len() {
        if pairs.len() - at < 2 {
            return false;
        }
        let count = pairs[at + 1] as usize;
        if left < count {
            return false;
        }
        left -= count;
        at += 2;
    }
    left == 0
}

// Whether two bytes hold each of n numbers from a place on.
fn all_narrow(numbers: &[u32], from: usize, n: usize) -> bool
    requires { from + n ≤ length numbers.now }
    ensures { result ≡ all_fit 2 (take n (drop from numbers.now)) }
{
    let mut at = from;
    let mut left = n;
    while 0 < left {
        if MOST_NARROW < numbers[at] {
            return false;
        }
        at = at + 1;
        left = left - 1;
    }
    true
}

// Whether the width holds each of n numbers from a place on. Four bytes hold all.
fn all_fit(numbers: &[u32], from: usize, n: usize, width: AsnLength) -> bool
    requires { from + n ≤ length numbers.now }
    ensures { result ≡ all_fit (width_of width) (take n (drop from numbers.now)) }
{
    match width {
        AsnLength::Bits16 => all_narrow(numbers, from, n),
        AsnLength::Bits32 => true,
    }
}

// What stands against writing a segment whose numbers start at a place. Where all numbers are known to fit, its own do.
#[tactic(auto, unfolding(crate::specs::Write::write_fault), using(crate::proofs::WriteLaws::fit_part))]
#[inline(always)]
fn segment_fault(
    kind: u32,
    count: u32,
    numbers: &[u32],
    from: usize,
    width: AsnLength,
    rule: PathRule,
    fit: bool,
) -> Result<(), Refusal>
    requires count_in_bounds { from + count ≤ length numbers.now }
    requires fit_value { fit ≡ all_fit (width_of width) numbers.now }
    ensures { result ≡ write_fault (rule_of rule) (width_of width) kind count (take count (drop from numbers.now)) }
{
    paths::rule_fault(kind, count, rule)?;
    if MOST_NUMBERS < count {
        return Err(Refusal::LongSegment);
    }
    if fit {
        return Ok(());
    }
    if !all_fit(numbers, from, count as usize, width) {
        return Err(Refusal::WideNumber);
    }
    Ok(())
}

// The refusal of the first segment that cannot be written.
#[tactic(auto, using(crate::proofs::WriteTurn::judged_fits))]
#[inline(always)]
fn first_fault(
    pairs: &[u32],
    numbers: &[u32],
    width: AsnLength,
    rule: PathRule,
    fit: bool,
) -> Result<(), Refusal>
    requires numbers_value { adds_up pairs.now (length numbers.now) ≡ true }
    requires fit_value { fit ≡ all_fit (width_of width) numbers.now }
    ensures { result ≡ (lent_path (rule_of rule) (width_of width) pairs.now numbers.now).verdict }
{
    let mut at: usize = 0;
    let mut from: usize = 0;
    while at < pairs.len() {
        let count = pairs[at + 1];
        segment_fault(pairs[at], count, numbers, from, width, rule, fit)?;
        from += count as usize;
        at += 2;
    }
    Ok(())
}

// The same. The numbers are looked at all at once, and again in their segments only where one does not fit.
#[inline(always)]
fn path_fault(
    pairs: &[u32],
    numbers: &[u32],
    width: AsnLength,
    rule: PathRule,
) -> Result<(), Refusal>
    requires { adds_up pairs.now (length numbers.now) ≡ true }
    ensures { result ≡ (lent_path (rule_of rule) (width_of width) pairs.now numbers.now).verdict }
{
    first_fault(
        pairs,
        numbers,
        width,
        rule,
        all_fit(numbers, 0, numbers.len(), width),
    )
}

// The type and the count of a segment at a place of the output.
fn put_head(out: &mut [u8], to: usize, kind: u32, count: u32)
    requires to_in_bounds { to + 2 ≤ length out.old }
    requires kind_bound { (kind < 256) × (count < 256) }
    ensures { out.new ≡ laid out.old to (kind ∷ count ∷ []) }
{
    out[to] = kind as u8;
    out[to + 1] = count as u8;
}

// n numbers from a place on that fit two bytes, two in a turn, to a place of the output.
fn put_narrow(numbers: &[u32], from: usize, n: usize, out: &mut [u8], start: usize)
    requires n_in_bounds { from + n ≤ length numbers.now }
    requires numbers_value { all_fit 2 (take n (drop from numbers.now)) ≡ true }
    requires numbers_in_bounds { start + length (flat (to_be 2) (take n (drop from numbers.now))) ≤ length out.old }
    ensures { out.new ≡ laid out.old start (flat (to_be 2) (take n (drop from numbers.now))) }
{
    let mut at = from;
    let mut to = start;
    let mut left = n;
    while 1 < left {
        let middle = to + 2;
        let end = to + 4;
        outputs::put_u16(&mut out[to..middle], 0, numbers[at] as u16);
        outputs::put_u16(&mut out[middle..end], 0, numbers[at + 1] as u16);
        at = at + 2;
        to = end;
        left = left - 2;
    }
    if left == 1 {
        let end = to + 2;
        outputs::put_u16(&mut out[to..end], 0, numbers[at] as u16);
    }
}

// n numbers from a place on, in four bytes each, to a place of the output.
fn put_full(numbers: &[u32], from: usize, n: usize, out: &mut [u8], start: usize)
    requires n_in_bounds { from + n ≤ length numbers.now }
    requires numbers_value { all_fit 4 (take n (drop from numbers.now)) ≡ true }
    requires numbers_in_bounds { start + length (flat (to_be 4) (take n (drop from numbers.now))) ≤ length out.old }
    ensures { out.new ≡ laid out.old start (flat (to_be 4) (take n (drop from numbers.now))) }
{
    let mut at = from;
    let mut to = start;
    let mut left = n;
    while 0 < left {
        let end = to + 4;
        outputs::put_u32(&mut out[to..end], 0, numbers[at]);
        at = at + 1;
        to = end;
        left = left - 1;
    }
}

// n numbers from a place on that fit the width, to a place of the output.
fn put_numbers(
    numbers: &[u32],
    from: usize,
    n: usize,
    width: AsnLength,
    out: &mut [u8],
    start: usize,
)
    requires n_in_bounds { from + n ≤ length numbers.now }
    requires numbers_value { all_fit (width_of width) (take n (drop from numbers.now)) ≡ true }
    requires numbers_in_bounds { start + length (flat (to_be (width_of width)) (take n (drop from numbers.now))) ≤ length out.old }
    ensures { out.new ≡ laid out.old start (flat (to_be (width_of width)) (take n (drop from numbers.now))) }
{
    match width {
        AsnLength::Bits16 => put_narrow(numbers, from, n, out, start),
        AsnLength::Bits32 => put_full(numbers, from, n, out, start),
    }
}

// The same with more after them below `total`, where there are so many: a segment of a few numbers then takes no loop.
fn put_ahead(
    numbers: &[u32],
    from: usize,
    n: usize,
    width: AsnLength,
    out: &mut [u8],
    to: usize,
    total: usize,
)
    requires n_in_bounds { from + n ≤ length numbers.now }
    requires numbers_value { all_fit (width_of width) numbers.now ≡ true }
    requires numbers_bound { (to + length (flat (to_be (width_of width)) (take n (drop from numbers.now))) ≤ total) × (total ≤ length out.old) }
    ensures { PutAhead total out.old to (flat (to_be (width_of width)) (take n (drop from numbers.now))) out.new }
{
    if asns::eight_for(n, numbers.len() - from, total - to, width) {
        put_numbers(numbers, from, asns::AT_ONCE, width, out, to);
        return;
    }
    put_numbers(numbers, from, n, width, out, to);
}

// The bytes of a lent path that can be written and has room, `total` in all. Both rules have the same: what the strict one lets be written, the
// crate's does.
#[tactic(auto, using(crate::proofs::WriteTurn::ahead_fits, crate::proofs::WriteTurn::ahead_long))]
fn write_segments(pairs: &[u32], numbers: &[u32], width: AsnLength, out: &mut [u8], total: usize)
    requires adds { adds_up pairs.now (length numbers.now) ≡ true }
    requires path_good { (lent_path known_type (width_of width) pairs.now numbers.now).verdict ≡ fine }
    requires total_value { (total ≡ length (lent_bytes known_type (width_of width) pairs.now numbers.now)) × (total ≤ length out.old) }
    ensures { out.new ≡ laid out.old 0 (lent_bytes known_type (width_of width) pairs.now numbers.now) }
{
    let mut at: usize = 0;
    let mut from: usize = 0;
    let mut to: usize = 0;
    while at < pairs.len() {
        let count = pairs[at + 1];
        put_head(out, to, pairs[at], count);
        put_ahead(numbers, from, count as usize, width, out, to + 2, total);
        to += paths::segment_size(count as u8, width);
        from += count as usize;
        at += 2;
    }
}

// A path lent as pairs of type and count, and as numbers back to back. The counts are compared with the numbers left, so no sum can wrap. Copied into its
// callers, which name the rule: else each segment is asked for it.
#[inline(always)]
#[tactic(auto, unfolding(crate::specs::Promises::encode_answer, crate::specs::Promises::encode_left, crate::specs::Promises::lent_bytes, wire::specs::Answer::limited), using(crate::proofs::PromiseLaws::by_size, crate::proofs::PromiseLaws::size_is, crate::proofs::Lent::lent_alike, asns::proofs::AsnLaws::span_many, asns::proofs::AsnLaws::span_most, asns::proofs::AsnLaws::width_pos))]
pub fn encode_as_path(
    pairs: &[u32],
    numbers: &[u32],
    width: AsnLength,
    rule: PathRule,
    out: &mut [u8],
) -> Result<usize, Refusal>
    ensures answer { result ≡ encode_answer (rule_of rule) (width_of width) pairs.now numbers.now (length out.old) }
    ensures out { out.new ≡ encode_left (rule_of rule) (width_of width) pairs.now numbers.now out.old }
{
    if !adds_up(pairs, numbers.len()) {
        return Err(Refusal::NotWritable);
    }
    path_fault(pairs, numbers, width, rule)?;
    let Ok(n) = u16::try_from(numbers.len()) else {
        return Err(Refusal::TooLong);
    };
    let size = pairs.len() + asns::numbers_size(n, width);
    if wire::LIST_LIMIT < size {
        return Err(Refusal::TooLong);
    }
    if out.len() < size {
        return Err(Refusal::NoRoom);
    }
    write_segments(pairs, numbers, width, out, size);
    Ok(size)
}
