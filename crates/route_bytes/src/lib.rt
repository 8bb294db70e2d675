// How many bytes rows of six words take as a list of routes (RFC 4271 section 4.3, RFC 7911 section 3), and which cannot be written.
#![tactic(auto)]

ghost use Rattle.std.specs.Prelude.{◌≡◌, ◌+◌, ◌*◌, ◌<◌, ◌≤◌, ◌&&◌, length, drop, ◌==◌};
ghost use Rattle.wire.specs.Number.{to_be};
ghost use Rattle.families.specs.Family.{max_of, octets};
ghost use Rattle.route_bytes.specs.Encode.{four_words, all_zero, id_fits, write_step};
ghost use Rattle.route_bytes.specs.Promises.{measured};
ghost use Rattle.route_bytes.specs.Private.{size_by};

use families::{Afi, Form};
use wire::refusal::Refusal;

// Whether the form has an id, or the id word is 0.
fn id_fits(id: u32, form: Form) -> bool
    ensures { result ≡ id_fits form id }
{
    match form {
        Form::Plain => id == 0,
        Form::Tagged => true,
    }
}

// Two words as one number.
fn joined(a: u32, b: u32) -> u64
    ensures { result ≡ a * 4294967296 + b }
{
    a as u64 * 4294967296 + b as u64
}

// Whether the octets past the first m of eight are 0: a shift by m octets leaves only those.
fn clear_half(x: u64, m: usize) -> bool
    requires { m < 8 }
    ensures { result ≡ all_zero (drop m (to_be 8 x)) }
{
    x << (8 * m) as u32 == 0
}

// Whether the octets past the first n of eight are 0, and a rest is: in this order the two tests become one.
fn clear_early(n: usize, x: u64, rest: u64) -> bool
    requires { n < 8 }
    ensures { result ≡ all_zero (drop n (to_be 8 x)) && (rest == 0) }
{
    if clear_half(x, n) { rest == 0 } else { false }
}

// Whether the octets past the first n of four words are 0. A maximum length of 32 at most keeps n in the first half.
fn clear_past(n: usize, max: u8, w0: u32, w1: u32, w2: u32, w3: u32) -> bool
    requires { (max ≤ 128) × (n ≤ octets max) }
    ensures { result ≡ all_zero (drop n (four_words w0 w1 w2 w3)) }
{
    let x = joined(w0, w1);
    if max <= 32 {
        return clear_early(n, x, w2 as u64 + w3 as u64);
    }
    let y = joined(w2, w3);
    if n < 8 {
        return clear_early(n, x, y);
    }
    if n == 16 {
        return true;
    }
    clear_half(y, n - 8)
}

// How many bytes a row takes. A first word under the form's mark wraps to a length over every maximum.
#[inline(always)]
fn row_size(row: &[u32; 6], max: u8, form: Form) -> Result<usize, Refusal>
    requires { max ≤ 128 }
    ensures { result ≡ size_by form (write_step max form tt row.now) }
{
    let [first, id, w0, w1, w2, w3] = *row;
    let len = first.wrapping_sub(families::mark_of(form));
    if u32::from(max) < len {
        return Err(Refusal::NotWritable);
    }
    if !id_fits(id, form) {
        return Err(Refusal::NotWritable);
    }
    let n = families::octet_count(len as u8);
    if !clear_past(n, max, w0, w1, w2, w3) {
        return Err(Refusal::NotWritable);
    }
    Ok(families::id_size(form) + 1 + n)
}

// How many bytes the rows take, none over the maximum length.
#[inline(always)]
fn size_rows(words: &[u32], max: u8, form: Form) -> Result<usize, Refusal>
    requires { max ≤ 128 }
    ensures { result ≡ measured words.now max form }
{
    let (rows, rest) = words.as_chunks::<6>();
    if !rest.is_empty() {
        return Err(Refusal::NotWritable);
    }
    let mut total: usize = 0;
    for row in rows {
        total += row_size(row, max, form)?;
    }
    Ok(total)
}

// How many bytes rows take as a list: a loop for each family and form, copied into the callers with its answer in registers.
#[inline(always)]
pub fn measure_nlri_prefixes(rows: &[u32], afi: Afi, form: Form) -> Result<usize, Refusal>
    ensures { result ≡ measured rows.now (max_of afi) form }
{
    match (afi, form) {
        (Afi::Ipv4, Form::Plain) => size_rows(rows, 32, Form::Plain),
        (Afi::Ipv4, Form::Tagged) => size_rows(rows, 32, Form::Tagged),
        (Afi::Ipv6, Form::Plain) => size_rows(rows, 128, Form::Plain),
        (Afi::Ipv6, Form::Tagged) => size_rows(rows, 128, Form::Tagged),
    }
}
