// The route list writer (RFC 4271 section 4.3, RFC 7911 section 3): rows of six words as the bytes of a list, the writing of encode_nlri_prefixes in utils.rs.
#![tactic(auto)]

ghost use Rattle.std.specs.Prelude.{◌≡◌, ◌+◌, ◌≤◌, ◌<◌, length, get_or, take};
ghost use Rattle.wire.specs.Answer.{count_meaning};
ghost use Rattle.wire.specs.Number.{to_be};
ghost use Rattle.wire.specs.Store.{laid};
ghost use Rattle.families.specs.Family.{max_of, id_size, mark_of};
ghost use Rattle.route_bytes.specs.Encode.{address, length_of, row_bytes, bytes_of};
ghost use Rattle.route_bytes.specs.Promises.{measured};
ghost use Rattle.route_writer.specs.Private.{row_at, head_bytes, Fillable, Ahead};
ghost use Rattle.route_writer.specs.Promises.{write_after, filled_after, write_answer, out_after};
ghost use Rattle.route_writer.specs.Pair.{lists_meaning, write_pair_sized, write_pair_answer, write_pair_after};

use families::{Afi, Form};
use wire::refusal::Refusal;

// The bytes of two lists that were written.
#[derive(Clone, Copy, Debug, PartialEq, Eq, Hash)]
pub struct Lists {
    pub first: usize,
    pub second: usize,
}

// The four bytes of a word of the store, at a place of the output: just those four are lent, so that no test of room is left when it is compiled.
fn put_word(rows: &[u32], i: usize, out: &mut [u8], to: usize)
    requires { (i < length rows.now) × (to + 4 ≤ length out.old) }
    ensures { out.new ≡ laid out.old to (to_be 4 (get_or rows.now i 0)) }
{
    let end = to + 4;
    outputs::put_u32(&mut out[to..end], 0, rows[i]);
}

// The sixteen address octets of the row at a place, at a place of the output. Each word is read just before it is put: its four bytes
// become one store only so.
fn put_words(rows: &[u32], at: usize, out: &mut [u8], to: usize)
    requires { (at + 6 ≤ length rows.now) × (to + 16 ≤ length out.old) }
    ensures { out.new ≡ laid out.old to (address (row_at rows.now at)) }
{
    put_word(rows, at + 2, out, to);
    put_word(rows, at + 3, out, to + 4);
    put_word(rows, at + 4, out, to + 8);
    put_word(rows, at + 5, out, to + 12);
}

// The id of the row at a place, where the form has one, at a place of the output.
fn put_id(rows: &[u32], at: usize, form: Form, out: &mut [u8], to: usize)
    requires { (at + 6 ≤ length rows.now) × (to + id_size form ≤ length out.old) }
    ensures { out.new ≡ laid out.old to (to_be (id_size form) (get_or rows.now (at + 1) 0)) }
{
    match form {
        Form::Plain => {}
        Form::Tagged => {
            put_word(rows, at + 1, out, to);
        }
    }
}

// What stands before the address of the row at a place, at a place of the output; its length. The length byte is put first, for the
// same reason.
fn put_head(rows: &[u32], at: usize, form: Form, out: &mut [u8], to: usize) -> u8
    requires at_in_bounds { (at + 6 ≤ length rows.now) × (to + id_size form + 1 ≤ length out.old) }
    requires form_bound { (mark_of form ≤ get_or rows.now at 0) × (length_of form (row_at rows.now at) ≤ 128) }
    ensures length { result ≡ length_of form (row_at rows.now at) }
    ensures out { out.new ≡ laid out.old to (head_bytes form (row_at rows.now at)) }
{
    let len = (rows[at] - families::mark_of(form)) as u8;
    let seam = to + families::id_size(form);
    out[seam] = len;
    put_id(rows, at, form, out, to);
    len
}

// The first n address octets of the row at a place, and no more, at a place of the output: whole words, and then the first octets of the
// next, for which just their places are lent, so that no test of room is left.
fn put_octets(rows: &[u32], at: usize, n: usize, out: &mut [u8], to: usize)
    requires { (at + 6 ≤ length rows.now) × (n ≤ 16) × (to + n ≤ length out.old) }
    ensures { out.new ≡ laid out.old to (take n (address (row_at rows.now at))) }
{
    let whole = n / 4;
    let mut i: usize = 0;
    while i < whole {
        put_word(rows, at + 2 + i, out, to + 4 * i);
        i = i + 1;
    }
    let left = n % 4;
    if left == 0 {
        return;
    }
    let start = to + 4 * whole;
    let end = start + left;
    outputs::put_octets(&mut out[start..end], 0, rows[at + 2 + whole], left);
}

// The bytes of the row at a place, and no more, at a place of the output; how many.
fn put_row(rows: &[u32], at: usize, form: Form, out: &mut [u8], to: usize) -> usize
    requires at_in_bounds { (at + 6 ≤ length rows.now) × (to + length (row_bytes form (row_at rows.now at)) ≤ length out.old) }
    requires form_bound { (mark_of form ≤ get_or rows.now at 0) × (length_of form (row_at rows.now at) ≤ 128) }
    ensures size { result ≡ length (row_bytes form (row_at rows.now at)) }
    ensures out { out.new ≡ laid out.old to (row_bytes form (row_at rows.now at)) }
{
    let len = put_head(rows, at, form, out, to);
    let k = families::id_size(form);
    let n = families::octet_count(len);
    put_octets(rows, at, n, out, to + k + 1);
    k + 1 + n
}

// The same, with a copy of it for each form, so that a loop over rows asks for the form once.
fn put_row_by_form(rows: &[u32], at: usize, form: Form, out: &mut [u8], to: usize) -> usize
    requires at_in_bounds { (at + 6 ≤ length rows.now) × (to + length (row_bytes form (row_at rows.now at)) ≤ length out.old) }
    requires form_bound { (mark_of form ≤ get_or rows.now at 0) × (length_of form (row_at rows.now at) ≤ 128) }
    ensures size { result ≡ length (row_bytes form (row_at rows.now at)) }
    ensures out { out.new ≡ laid out.old to (row_bytes form (row_at rows.now at)) }
{
    match form {
        Form::Plain => put_row(rows, at, Form::Plain, out, to),
        Form::Tagged => put_row(rows, at, Form::Tagged, out, to),
    }
}

// The next row, and the place of its bytes.
#[derive(Clone, Copy)]
struct Reached {
    at: usize,
    to: usize,
}

// IPv4 rows while the longest still fits below `total`: each address is put whole, and later rows overwrite what is past its prefix.
fn fill_short(rows: &[u32], form: Form, out: &mut [u8], total: usize) -> Reached
    requires { Fillable rows.now 32 form out.old total }
    ensures { Ahead 32 form rows.now out.old result.at result.to out.new }
{
    let k = families::id_size(form);
    let mut at: usize = 0;
    let mut to: usize = 0;
    while to + (k + 5) <= total {
        let len = put_head(rows, at, form, out, to);
        put_word(rows, at + 2, out, to + k + 1);
        at = at + 6;
        to = to + (k + 1 + families::octet_count(len));
    }
    Reached { at, to }
}

// IPv6 rows in the same way.
fn fill_long(rows: &[u32], form: Form, out: &mut [u8], total: usize) -> Reached
    requires { Fillable rows.now 128 form out.old total }
    ensures { Ahead 128 form rows.now out.old result.at result.to out.new }
{
    let k = families::id_size(form);
    let mut at: usize = 0;
    let mut to: usize = 0;
    while to + (k + 17) <= total {
        let len = put_head(rows, at, form, out, to);
        put_words(rows, at, out, to + k + 1);
        at = at + 6;
        to = to + (k + 1 + families::octet_count(len));
    }
    Reached { at, to }
}

// The rows of a family while the longest still fits.
fn fill_ahead(rows: &[u32], afi: Afi, form: Form, out: &mut [u8], total: usize) -> Reached
    requires { Fillable rows.now (max_of afi) form out.old total }
    ensures { Ahead (max_of afi) form rows.now out.old result.at result.to out.new }
{
    match afi {
        Afi::Ipv4 => fill_short(rows, form, out, total),
        Afi::Ipv6 => fill_long(rows, form, out, total),
    }
}

// The bytes of rows that can be written, `total` in all, in an output that has room; of the last rows just their bytes. With `&rows[..]` the
// slice is handed on in registers.
fn fill(rows: &[u32], afi: Afi, form: Form, out: &mut [u8], total: usize)
    requires { Fillable rows.now (max_of afi) form out.old total }
    ensures { out.new ≡ laid out.old 0 (bytes_of rows.now (max_of afi) form) }
{
    let ws = &rows[..];
    let r = fill_ahead(ws, afi, form, out, total);
    let mut at: usize = r.at;
    let mut to: usize = r.to;
    while at < ws.len() {
        let n = put_row_by_form(ws, at, form, out, to);
        at = at + 6;
        to = to + n;
    }
}

// Rows that were measured, as a list at a place of an output that has room. With two calls of fill this function is copied into its
// callers.
fn put_rows(rows: &[u32], afi: Afi, form: Form, size: usize, out: &mut [u8], to: usize)
    requires { (measured rows.now (max_of afi) form ≡ Ok size) × (to + size ≤ length out.old) }
    ensures { out.new ≡ laid out.old to (bytes_of rows.now (max_of afi) form) }
{
    match afi {
        Afi::Ipv4 => fill(rows, Afi::Ipv4, form, &mut out[to..], size),
        Afi::Ipv6 => fill(rows, Afi::Ipv6, form, &mut out[to..], size),
    }
}

// The same for one of two lists, which often has no rows.
fn put_list(rows: &[u32], afi: Afi, form: Form, size: usize, out: &mut [u8], to: usize)
    requires { (measured rows.now (max_of afi) form ≡ Ok size) × (to + size ≤ length out.old) }
    ensures { out.new ≡ laid out.old to (bytes_of rows.now (max_of afi) form) }
{
    if size == 0 {
        return;
    }
    put_rows(rows, afi, form, size, out, to);
}

// Rows as the list at the end of a value, of which `before` bytes stand before it and are left as they are. The answer is the bytes of all of it.
pub fn encode_nlri_after(
    before: usize,
    rows: &[u32],
    afi: Afi,
    form: Form,
    out: &mut [u8],
) -> Result<usize, Refusal>
    ensures answer { result ≡ write_after before rows.now (max_of afi) form (length out.old) }
    ensures out { out.new ≡ filled_after (count_meaning result) before (bytes_of rows.now (max_of afi) form) out.old }
{
    let size = route_bytes::measure_nlri_prefixes(rows, afi, form)?;
    if wire::LIST_LIMIT < before {
        return Err(Refusal::TooLong);
    }
    if wire::LIST_LIMIT - before < size {
        return Err(Refusal::TooLong);
    }
    if out.len() < before + size {
        return Err(Refusal::NoRoom);
    }
    put_rows(rows, afi, form, size, out, before);
    Ok(before + size)
}

// Rows as a list, at the front of the output.
pub fn encode_nlri_prefixes(
    rows: &[u32],
    afi: Afi,
    form: Form,
    out: &mut [u8],
) -> Result<usize, Refusal>
    ensures answer { result ≡ write_answer rows.now (max_of afi) form (length out.old) }
    ensures out { out.new ≡ out_after rows.now (max_of afi) form out.old }
{
    encode_nlri_after(0, rows, afi, form, out)
}

// Two lists of these sizes, if they fit below `most` and into so many places; no sum is made before it is known to be small.
fn pair_size(
    first: usize,
    second: usize,
    start: usize,
    between: usize,
    most: usize,
    places: usize,
) -> Result<Lists, Refusal>
    ensures { result ≡ write_pair_sized start between most places first second }
{
    if wire::LIST_LIMIT < first {
        return Err(Refusal::TooLong);
    }
    if wire::LIST_LIMIT < second {
        return Err(Refusal::TooLong);
    }
    if most < start {
        return Err(Refusal::TooLong);
    }
    if most - start < between {
        return Err(Refusal::TooLong);
    }
    if most - start - between < first + second {
        return Err(Refusal::TooLong);
    }
    if places < start + first + between + second {
        return Err(Refusal::NoRoom);
    }
    Ok(Lists { first, second })
}

// The sizes of two lists of rows, if they can be written and fit.
fn measure_pair(
    first: &[u32],
    second: &[u32],
    afi: Afi,
    form: Form,
    start: usize,
    between: usize,
    most: usize,
    places: usize,
) -> Result<Lists, Refusal>
    ensures { result ≡ write_pair_answer first.now second.now (max_of afi) form start between most places }
{
    let a = route_bytes::measure_nlri_prefixes(first, afi, form)?;
    let b = route_bytes::measure_nlri_prefixes(second, afi, form)?;
    pair_size(a, b, start, between, most, places)
}

// Two lists, both or neither: the first at `start`, the second `between` bytes after its end, all within `most` bytes. What stands
// before and between them is left as it is.
pub fn encode_nlri_pair(
    first: &[u32],
    second: &[u32],
    afi: Afi,
    form: Form,
    start: usize,
    between: usize,
    most: usize,
    out: &mut [u8],
) -> Result<Lists, Refusal>
    ensures answer { result ≡ write_pair_answer first.now second.now (max_of afi) form start between most (length out.old) }
    ensures out { out.new ≡ write_pair_after (lists_meaning result) start between (bytes_of first.now (max_of afi) form) (bytes_of second.now (max_of afi) form) out.old }
{
    let sizes = measure_pair(first, second, afi, form, start, between, most, out.len())?;
    put_list(first, afi, form, sizes.first, out, start);
    put_list(
        second,
        afi,
        form,
        sizes.second,
        out,
        start + sizes.first + between,
    );
    Ok(sizes)
}
