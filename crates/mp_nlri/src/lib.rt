// MP_REACH_NLRI and MP_UNREACH_NLRI of IPv6 unicast routes, read and written (RFC 4760 sections 3 and 4, RFC 2545 section 3). The reading of
// parse_nlri in attr_14_15_nlri.rs, for this family pair alone.
#![tactic(auto)]

ghost use Rattle.std.specs.Prelude.{◌≡◌, true, ◌+◌, ◌≤◌, length, Ok};
ghost use Rattle.wire.specs.Answer.{filled, count_meaning};
ghost use Rattle.wire.specs.Extent.{PartOf};
ghost use Rattle.wire.specs.Store.{laid, placed};
ghost use Rattle.wire.specs.Verdict.{fine};
ghost use Rattle.mp_nlri.specs.Value.{pair_fault, is_hop_size, hop_start, head_of, next_hop_at, reach_head, reach_bytes, unreach_bytes};
ghost use Rattle.mp_nlri.specs.Read.{reach_list, unreach_list, as_reach, count_reach, read_reach, reach_after, count_unreach, read_unreach, unreach_after};
ghost use Rattle.mp_nlri.specs.Write.{write_reach, write_unreach, route_bytes};

use families::{AddPath, Afi, Form};
use routes::Routes;
use wire::refusal::Refusal;

// The family and the subfamily of IPv6 unicast routes, the bytes of both, and both in the first three of four bytes.
const IPV6: u32 = 2;

const UNICAST: u8 = 1;

const PAIR_SIZE: usize = 3;

const IPV6_UNICAST: u32 = 131328;

// Where the next hop stands in MP_REACH_NLRI, after the pair and its own length; and the reserved byte after it.
pub const NEXT_HOP_OFFSET: usize = 4;

const RESERVED_SIZE: usize = 1;

// What stands before the routes of MP_REACH_NLRI: the bytes of its next hop, and whether the reserved byte is not 0.
#[derive(Clone, Copy, Debug, PartialEq, Eq, Hash)]
pub struct Head {
    pub next_hop: usize,
    pub reserved: bool,
}

// MP_REACH_NLRI: the same, its rows, and how many of them have a bit set past their length.
#[derive(Clone, Copy, Debug, PartialEq, Eq, Hash)]
pub struct Reach {
    pub next_hop: usize,
    pub reserved: bool,
    pub rows: usize,
    pub hosts: usize,
}

// Whether the length and the family pair of a value are those of IPv6 unicast routes.
fn check_pair(value: &[u8]) -> Result<(), Refusal>
    ensures { result ≡ pair_fault value.now }
{
    if wire::LIST_LIMIT < value.len() {
        return Err(Refusal::TooLong);
    }
    if value.len() < PAIR_SIZE {
        return Err(Refusal::Truncated);
    }
    if wire::u16_at(value, 0) != IPV6 || value[2] != UNICAST {
        return Err(Refusal::OtherFamily);
    }
    Ok(())
}

// Whether a next hop has so many bytes: a global address, or one and a link-local address.
fn is_hop_size(n: usize) -> bool
    ensures { result ≡ is_hop_size n }
{
    n == 16 || n == 32
}

// What stands before the routes of MP_REACH_NLRI.
pub fn mp_reach_head(value: &[u8]) -> Result<Head, Refusal>
    ensures { result ≡ head_of value.now }
{
    check_pair(value)?;
    if value.len() < NEXT_HOP_OFFSET {
        return Err(Refusal::Truncated);
    }
    let next_hop = usize::from(value[3]);
    if !is_hop_size(next_hop) {
        return Err(Refusal::NextHopLength);
    }
    let end = NEXT_HOP_OFFSET + next_hop;
    if value.len() <= end {
        return Err(Refusal::Truncated);
    }
    Ok(Head {
        next_hop,
        reserved: value[end] != 0,
    })
}

// The next hop of MP_REACH_NLRI, whatever its routes are, and nothing where what stands before them is refused.
pub fn next_hop_part(value: &[u8]) -> &[u8]
    ensures { PartOf value.entry (next_hop_at (head_of value.now)) result }
{
    match mp_reach_head(value) {
        Ok(head) => wire::part(value, NEXT_HOP_OFFSET, head.next_hop),
        Err(_) => wire::part(value, 0, 0),
    }
}

// The bytes of the routes of MP_REACH_NLRI, after what stands before them.
fn routes_after_head(value: &[u8], head: Head) -> &[u8]
    requires { Ok head ≡ head_of value.now }
    ensures { result.now ≡ reach_list value.now }
{
    &value[NEXT_HOP_OFFSET + head.next_hop + RESERVED_SIZE..]
}

// Those of MP_UNREACH_NLRI, after its pair.
fn routes_after_pair(value: &[u8]) -> &[u8]
    requires { fine ≡ pair_fault value.now }
    ensures { result.now ≡ unreach_list value.now }
{
    &value[PAIR_SIZE..]
}

// What stands before the routes, and the routes, as one answer.
fn as_reach(head: Head, routes: Routes) -> Reach
    ensures { result ≡ as_reach head routes }
{
    Reach {
        next_hop: head.next_hop,
        reserved: head.reserved,
        rows: routes.rows,
        hosts: routes.hosts,
    }
}

// How many routes MP_REACH_NLRI has.
pub fn count_mp_reach_nlri(value: &[u8], mode: AddPath) -> Result<Reach, Refusal>
    ensures { result ≡ count_reach value.now mode }
{
    let head = mp_reach_head(value)?;
    let routes = routes::count_nlri_list(routes_after_head(value, head), Afi::Ipv6, mode)?;
    Ok(as_reach(head, routes))
}

// The routes of MP_REACH_NLRI into a lent store, six words a row.
pub fn parse_mp_reach_nlri(value: &[u8], mode: AddPath, store: &mut [u32]) -> Result<Reach, Refusal>
    ensures answer { result ≡ read_reach value.now mode (length store.old) }
    ensures store { store.new ≡ reach_after result value.now mode store.old }
{
    let head = mp_reach_head(value)?;
    let list = routes_after_head(value, head);
    let routes = route_reader::parse_nlri_list(list, Afi::Ipv6, mode, store)?;
    Ok(as_reach(head, routes))
}

// How many routes MP_UNREACH_NLRI has, and how many of them have a bit set past their length.
pub fn count_mp_unreach_nlri(value: &[u8], mode: AddPath) -> Result<Routes, Refusal>
    ensures { result ≡ count_unreach value.now mode }
{
    check_pair(value)?;
    routes::count_nlri_list(routes_after_pair(value), Afi::Ipv6, mode)
}

// The routes of MP_UNREACH_NLRI into a lent store, six words a row.
pub fn parse_mp_unreach_nlri(
    value: &[u8],
    mode: AddPath,
    store: &mut [u32],
) -> Result<Routes, Refusal>
    ensures answer { result ≡ read_unreach value.now mode (length store.old) }
    ensures store { store.new ≡ unreach_after result value.now mode store.old }
{
    check_pair(value)?;
    route_reader::parse_nlri_list(routes_after_pair(value), Afi::Ipv6, mode, store)
}

// The next hop, at its place in an output that has room: one address, and where it has two the other, so that each is of a size that is known
// when it is compiled.
fn put_hop(next_hop: &[u8], out: &mut [u8])
    requires { (is_hop_size (length next_hop.now) ≡ true) × (hop_start + length next_hop.now ≤ length out.old) }
    ensures { out.new ≡ placed out.old hop_start next_hop.now }
{
    copies::copy_at(out, NEXT_HOP_OFFSET, &next_hop[0..16]);
    if next_hop.len() != 32 {
        return;
    }
    copies::copy_at(out, NEXT_HOP_OFFSET + 16, &next_hop[16..32]);
}

// What stands before the routes of MP_REACH_NLRI, at the front of an output that has room.
fn put_head(next_hop: &[u8], out: &mut [u8])
    requires { (is_hop_size (length next_hop.now) ≡ true) × (length (reach_head next_hop.now) ≤ length out.old) }
    ensures { out.new ≡ laid out.old 0 (reach_head next_hop.now) }
{
    let n = next_hop.len();
    outputs::put_u32(out, 0, IPV6_UNICAST + n as u32);
    put_hop(next_hop, out);
    outputs::put_octets(out, NEXT_HOP_OFFSET + n, 0, RESERVED_SIZE);
}

// Writes MP_REACH_NLRI of a next hop and rows; what stands before the routes follows once they fit.
pub fn encode_mp_reach_nlri(
    next_hop: &[u8],
    rows: &[u32],
    form: Form,
    out: &mut [u8],
) -> Result<usize, Refusal>
    ensures answer { result ≡ write_reach (length next_hop.now) rows.now form (length out.old) }
    ensures out { out.new ≡ filled (count_meaning result) (reach_bytes next_hop.now (route_bytes rows.now form)) out.old }
{
    let n = next_hop.len();
    if !is_hop_size(n) {
        return Err(Refusal::NextHopLength);
    }
    let start = NEXT_HOP_OFFSET + n + RESERVED_SIZE;
    let size = route_writer::encode_nlri_after(start, rows, Afi::Ipv6, form, out)?;
    put_head(next_hop, out);
    Ok(size)
}

// Writes MP_UNREACH_NLRI of rows.
pub fn encode_mp_unreach_nlri(rows: &[u32], form: Form, out: &mut [u8]) -> Result<usize, Refusal>
    ensures answer { result ≡ write_unreach rows.now form (length out.old) }
    ensures out { out.new ≡ filled (count_meaning result) (unreach_bytes (route_bytes rows.now form)) out.old }
{
    let size = route_writer::encode_nlri_after(PAIR_SIZE, rows, Afi::Ipv6, form, out)?;
    outputs::put_octets(out, 0, IPV6_UNICAST, PAIR_SIZE);
    Ok(size)
}
