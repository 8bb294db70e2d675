// Routes: one, and a list of them (RFC 4271 section 4.3, RFC 7911 section 3). The reading of utils.rs and of read_nlri in messages.rs.
#![tactic(auto)]

ghost use Rattle.std.specs.Prelude.{◌≡◌, false, ◌+◌, ◌≤◌, ◌<◌, length, get_or, take, drop};
ghost use Rattle.wire.specs.Number.{be_at};
ghost use Rattle.wire.specs.Refusal.{list_limit};
ghost use Rattle.families.specs.Family.{max_of, id_size};
ghost use Rattle.routes.specs.Prefix.{item_row, host_bits, route_of};
ghost use Rattle.routes.specs.ByTable.{by_table};
ghost use Rattle.routes.specs.Private.{Bounded, size_of, past_length, past_masks};
ghost use Rattle.routes.specs.List.{up_to, plain_here, fixed, step_by, strange};
ghost use Rattle.routes.specs.Promises.{sized, count_list, count_section, rows_in, hosts_in, verdict_in};

use families::{AddPath, Afi, Form, octets};
use wire::refusal::Refusal;

// A route as six words: length, plus 256 where there is an id; id or 0; four address words.
#[derive(Clone, Copy, Debug, PartialEq, Eq, Hash)]
pub struct Row {
    pub first: u32,
    pub id: u32,
    pub w0: u32,
    pub w1: u32,
    pub w2: u32,
    pub w3: u32,
}

// One route: the bytes it takes and its row.
#[derive(Clone, Copy, Debug, PartialEq, Eq, Hash)]
pub struct Prefix {
    pub used: usize,
    pub row: Row,
}

// The same, and whether a bit past its length is set.
#[derive(Clone, Copy, Debug, PartialEq, Eq, Hash)]
pub struct Route {
    pub prefix: Prefix,
    pub host: bool,
}

// A step of a list: the bytes its item takes and the form it stands in.
#[derive(Clone, Copy, Debug, PartialEq, Eq, Hash)]
pub struct Item {
    pub used: usize,
    pub form: Form,
}

// A list: how many rows, and how many of them have a bit set past their length.
#[derive(Clone, Copy, Debug, PartialEq, Eq, Hash)]
pub struct Routes {
    pub rows: usize,
    pub hosts: usize,
}

// How many bytes the item at the front takes, whose length byte is `bits`. Here and below, `counts` says how many octets follow a length byte.
fn size_by(s: &[u8], bits: u8, counts: &[u8; 256], form: Form) -> Result<usize, Refusal>
    requires form_in_bounds { id_size form < length s.now }
    requires bits_value { bits ≡ get_or s.now (id_size form) 0 }
    ensures { result ≡ size_of (by_table counts.now s.now form) }
{
    let n = octets::after(counts, bits);
    if n == octets::REFUSED {
        return Err(Refusal::PrefixLength);
    }
    let e = families::id_size(form) + 1 + usize::from(n);
    if s.len() < e {
        return Err(Refusal::Truncated);
    }
    Ok(e)
}

// How many bytes the item at the front takes.
fn front_size(s: &[u8], counts: &[u8; 256], form: Form) -> Result<usize, Refusal>
    ensures { result ≡ size_of (by_table counts.now s.now form) }
{
    let k = families::id_size(form);
    if s.len() <= k {
        return Err(Refusal::Truncated);
    }
    size_by(s, s[k], counts, form)
}

// The id of the item at the front of s, 0 where the form has none.
fn id_of(s: &[u8], form: Form) -> u32
    ensures { result ≡ be_at s.now 0 (id_size form) }
{
    match form {
        Form::Plain => 0,
        Form::Tagged => wire::u32_at(s, 0),
    }
}

// The row of the item of e bytes at the front of s.
fn row_of(s: &[u8], e: usize, form: Form) -> Row
    requires { Bounded form e s.now }
    ensures { result ≡ item_row form (take e s.now) }
{
    let k = families::id_size(form);
    let b = k + 1;
    let t = &s[b..e];
    Row {
        first: u32::from(s[k]) + families::mark_of(form),
        id: id_of(s, form),
        w0: wire::u32_at(t, 0),
        w1: wire::u32_at(t, 4),
        w2: wire::u32_at(t, 8),
        w3: wire::u32_at(t, 12),
    }
}

// The bits of a last octet that are past the length, by the length modulo 8: none of a multiple, and of any other the lowest.
const PAST: [u8; 8] = [0, 127, 63, 31, 15, 7, 3, 1];

// Whether a bit past the length is set in the last byte of an item. A prefix of no bits ends with its length byte, which is 0. `past` is PAST, which a
// loop makes once and lends.
fn past_length(bits: u8, last: u8, past: &[u8; 8]) -> bool
    requires { past.now ≡ past_masks }
    ensures { result ≡ past_length bits last }
{
    last & past[usize::from(bits % 8)] != 0
}

// Whether an item has one whose length byte stands first in `item`, and whose last byte at place n.
fn host_of(item: &[u8], n: usize, past: &[u8; 8]) -> bool
    requires n_in_bounds { n < length item.now }
    requires past_value { past.now ≡ past_masks }
    ensures { result ≡ past_length (get_or item.now 0 0) (get_or item.now n 0) }
{
    past_length(item[0], item[n], past)
}

// Whether the item of `used` bytes at place n has a bit set past its length.
fn host_at(s: &[u8], n: usize, used: usize, form: Form, past: &[u8; 8]) -> bool
    requires form_bound { id_size form + 1 ≤ used }
    requires used_in_bounds { n + used ≤ length s.now }
    requires past_value { past.now ≡ past_masks }
    ensures { result ≡ host_bits form (take used (drop n s.now)) }
{
    past_length(s[n + families::id_size(form)], s[used - 1 + n], past)
}

// One route, in a form: the bytes it takes and its row, and whether it has a bit set past its length.
pub fn try_parse_prefix(s: &[u8], afi: Afi, form: Form) -> Result<Route, Refusal>
    ensures answer { result ≡ route_of s.now (max_of afi) form }
{
    let counts = octets::counts(afi);
    let past = PAST;
    let used = front_size(s, &counts, form)?;
    let row = row_of(s, used, form);
    let host = host_at(s, 0, used, form, &past);
    Ok(Route {
        prefix: Prefix { used, row },
        host,
    })
}

// Whether the guess reads the item at place n without an id: in Plain, at a byte other than 0.
fn plain_at(s: &[u8], n: usize, form: Form) -> bool
    requires { n < length s.now }
    ensures { result ≡ plain_here form (get_or s.now n 0) }
{
    match form {
        Form::Plain => s[n] != 0,
        Form::Tagged => false,
    }
}

// The byte at place n, where the guess has tried an id: in Plain it is 0, and is not read again.
fn byte_tried(s: &[u8], n: usize, form: Form) -> u8
    requires n_in_bounds { n < length s.now }
    requires n_value { plain_here form (get_or s.now n 0) ≡ false }
    ensures { result ≡ get_or s.now n 0 }
{
    match form {
        Form::Plain => 0,
        Form::Tagged => s[n],
    }
}

// A step in one form.
pub fn form_size(s: &[u8], counts: &[u8; 256], form: Form) -> Result<Item, Refusal>
    ensures { result ≡ sized (step_by (by_table counts.now) (fixed form) form s.now) }
{
    let used = front_size(s, counts, form)?;
    Ok(Item { used, form })
}

// A step of the guess at place n: the item is tried with an id, and else the same place is read without. Each branch makes its own part of s, so that
// the load of a first byte adds its place itself.
fn guess_at(s: &[u8], n: usize, counts: &[u8; 256], form: Form) -> Result<Item, Refusal>
    requires { n < length s.now }
    ensures { result ≡ sized (step_by (by_table counts.now) AddPath.Guess form (drop n s.now)) }
{
    if plain_at(s, n, form) {
        return form_size(&s[n..], counts, Form::Plain);
    }
    if let Ok(used) = front_size(&s[n..], counts, Form::Tagged) {
        return Ok(Item {
            used,
            form: Form::Tagged,
        });
    }
    let bits = byte_tried(s, n, form);
    let used = size_by(&s[n..], bits, counts, Form::Plain)?;
    Ok(Item {
        used,
        form: Form::Plain,
    })
}

// A step under a setting, at place n.
pub fn item_step(
    s: &[u8],
    n: usize,
    counts: &[u8; 256],
    mode: AddPath,
    form: Form,
) -> Result<Item, Refusal>
    ensures { result ≡ sized (step_by (by_table counts.now) mode form (drop n s.now)) }
{
    if s.len() <= n {
        return Err(Refusal::Truncated);
    }
    match mode {
        AddPath::On => form_size(&s[n..], counts, Form::Tagged),
        AddPath::Off => form_size(&s[n..], counts, Form::Plain),
        AddPath::Guess => guess_at(s, n, counts, form),
    }
}

// How many rows a list has whose items all stand in one form. It carries an item that is not counted yet, from its length byte on, and how many octets
// it has: where the next length byte stands too, the item is all there, and the next waits for nothing but the table.
#[inline(always)]
fn count_form(s: &[u8], counts: &[u8; 256], form: Form) -> Result<Routes, Refusal>
    requires { length s.now ≤ list_limit }
    ensures { result ≡ count_list (by_table counts.now) s.now (fixed form) }
{
    let k = families::id_size(form);
    if s.is_empty() {
        return Ok(Routes { rows: 0, hosts: 0 });
    }
    if s.len() <= k {
        return Err(Refusal::Truncated);
    }
    let past = PAST;
    let mut item = &s[k..];
    let first = octets::after(counts, item[0]);
    if first == octets::REFUSED {
        return Err(Refusal::PrefixLength);
    }
    let mut n = usize::from(first);
    let mut rows: usize = 0;
    let mut hosts: usize = 0;
    while n + k + 1 < item.len() {
        let head = &item[k + 1..];
        let next = octets::after(counts, head[n]);
        if next == octets::REFUSED {
            return Err(Refusal::PrefixLength);
        }
        hosts += usize::from(host_of(item, n, &past));
        rows += 1;
        item = &item[n + k + 1..];
        n = usize::from(next);
    }
    if item.len() != n + 1 {
        return Err(Refusal::Truncated);
    }
    Ok(Routes {
        rows: rows + 1,
        hosts: hosts + usize::from(host_of(item, n, &past)),
    })
}

// How many rows a list has by the guess. It carries the bytes from the octets of the item before on and how many these are, for the same reason.
#[inline(always)]
fn count_guess(s: &[u8], counts: &[u8; 256]) -> Result<Routes, Refusal>
    requires { length s.now ≤ list_limit }
    ensures { result ≡ count_list (by_table counts.now) s.now AddPath.Guess }
{
    let past = PAST;
    let mut rest = s;
    let mut n: usize = 0;
    let mut rows: usize = 0;
    let mut hosts: usize = 0;
    let mut form = Form::Plain;
    while n < rest.len() {
        let item = guess_at(rest, n, counts, form)?;
        // Each form takes its own bytes out again, so that the count from the table is carried as it is.
        match item.form {
            Form::Plain => {
                hosts += usize::from(host_at(rest, n, item.used, Form::Plain, &past));
                rest = &rest[n + 1..];
                n = item.used - 1;
            }
            Form::Tagged => {
                hosts += usize::from(host_at(rest, n, item.used, Form::Tagged, &past));
                rest = &rest[n + 5..];
                n = item.used - 5;
            }
        }
        rows += 1;
        form = item.form;
    }
    Ok(Routes { rows, hosts })
}

// How many rows a list has by a table that the caller lends, with no store.
#[inline(always)]
pub fn count_list_by(s: &[u8], counts: &[u8; 256], mode: AddPath) -> Result<Routes, Refusal>
    ensures answer { result ≡ count_list (by_table counts.now) s.now mode }
{
    // So that the slice is handed on in registers.
    let whole = &s[..];
    if wire::LIST_LIMIT < whole.len() {
        return Err(Refusal::TooLong);
    }
    match mode {
        AddPath::On => count_form(whole, counts, Form::Tagged),
        AddPath::Off => count_form(whole, counts, Form::Plain),
        AddPath::Guess => count_guess(whole, counts),
    }
}

// How many rows a list has, with no store.
pub fn count_nlri_list(s: &[u8], afi: Afi, mode: AddPath) -> Result<Routes, Refusal>
    ensures answer { result ≡ count_list (up_to (max_of afi)) s.now mode }
{
    let mut counts = [0u8; 256];
    octets::put_counts(afi, &mut counts);
    count_list_by(s, &counts, mode)
}

// Whether a section is one byte, and not 0.
pub fn is_strange(s: &[u8]) -> bool
    ensures { result ≡ strange s.now }
{
    s.len() == 1 && s[0] != 0
}

// The rows of an answer, those with a bit set past their length, and its refusal number: 0 where there is none.
pub fn rows_in(a: Result<Routes, Refusal>) -> usize
    ensures { result ≡ rows_in a }
{
    a.map_or(0, |routes| routes.rows)
}

pub fn hosts_in(a: Result<Routes, Refusal>) -> usize
    ensures { result ≡ hosts_in a }
{
    a.map_or(0, |routes| routes.hosts)
}

pub fn verdict_in(a: Result<Routes, Refusal>) -> u8
    ensures { result ≡ verdict_in a }
{
    a.err().map_or(0, u8::from)
}

// How many rows a section of an UPDATE has by a table that the caller lends, as count_list_by.
#[inline(always)]
pub fn count_section_by(s: &[u8], counts: &[u8; 256], mode: AddPath) -> Result<Routes, Refusal>
    ensures answer { result ≡ count_section (by_table counts.now) s.now mode }
{
    let whole = &s[..];
    if is_strange(whole) {
        return Err(Refusal::OneByteSection);
    }
    count_list_by(whole, counts, mode)
}

// How many rows a section of an UPDATE has, with no store.
pub fn count_nlri(s: &[u8], afi: Afi, mode: AddPath) -> Result<Routes, Refusal>
    ensures answer { result ≡ count_section (up_to (max_of afi)) s.now mode }
{
    let mut counts = [0u8; 256];
    octets::put_counts(afi, &mut counts);
    count_section_by(s, &counts, mode)
}
