// An index beside a list of routes, guess off (document 02, K9): the start of every sixteenth item, by which a route is found without reading all before it.
#![tactic(auto)]

ghost use Rattle.std.specs.Prelude.{◌≡◌, ◌+◌, ◌≤◌, ◌<◌, length, get_or, Ok};
ghost use Rattle.wire.specs.Refusal.{list_limit};
ghost use Rattle.families.specs.Family.{max_of, id_size};
ghost use Rattle.families.specs.Octets.{entry};
ghost use Rattle.routes.specs.List.{up_to};
ghost use Rattle.routes.specs.ByTable.{by_table};
ghost use Rattle.route_index.specs.Index.{index_by, is_index, route_by};
ghost use Rattle.route_index.specs.Private.{skipped, FirstOf, Passes, Remain, Fitting};
ghost use Rattle.route_index.specs.Promises.{count_index, build_index, index_after};

use families::{Afi, Form, octets};
use routes::Route;
use wire::refusal::Refusal;

// How many items lie from one place of an index to the next.
pub const SPACING: usize = 16;

// A place, and how many items are still to be passed from there on.
#[derive(Clone, Copy, Debug, PartialEq, Eq)]
struct Passed {
    at: usize,
    left: usize,
}

// The bytes of a list, within the limit, whose items all stand in one form; and how many octets follow each length byte.
#[derive(Clone, Copy)]
struct Items<'a> {
    bytes: &'a [u8],
    counts: &'a [u8; 256],
    form: Form,
    ghost short: { length bytes.now ≤ list_limit },
}

impl Items<'_> {
    // How many octets the item at a place has, by its length byte.
    fn octets_at(self, at: usize) -> usize
        requires { at + id_size self.form < length self.bytes.now }
        ensures { result ≡ entry self.entry.counts.now (get_or self.entry.bytes.now (at + id_size self.entry.form) 0) }
    {
        usize::from(octets::after(self.counts, self.bytes[at + families::id_size(self.form)]))
    }

    // Passes over the item of `used` bytes at a place and those after it that are as long, `most` at the most. While they are, the next place waits for
    // no byte of the list: the processor goes on ahead of the tests. One test tells that an item is all there and not one too many.
    fn pass_alike(self, from: usize, used: usize, most: usize) -> Passed
        requires { FirstOf self.counts.now self.form self.bytes.now from used most }
        ensures { Passes (by_table self.entry.counts.now) self.entry.form self.entry.bytes.now most from result.left result.at }
    {
        let n = used - families::id_size(self.form) - 1;
        let last = self.bytes.len().min(from + most * used) - used;
        let mut at = from + used;
        let mut passed = 1;
        // Counted up, with a return of its own: 1,000 items take 843 ns, and 994 with one `&&` and `left` counted down.
        while at <= last {
            if self.octets_at(at) != n {
                return Passed {
                    at,
                    left: most - passed,
                };
            }
            at += used;
            passed += 1;
        }
        Passed {
            at,
            left: most - passed,
        }
    }

    // Passes over n items from a place on, or over all where there are fewer.
    fn pass(self, from: usize, n: usize) -> Result<usize, Refusal>
        requires { n ≤ 16 }
        ensures { result ≡ skipped (by_table self.entry.counts.now) self.entry.form self.entry.bytes.now n from }
    {
        let mut at = from;
        let mut left = n;
        while 0 < left {
            if self.bytes.len() <= at {
                return Ok(at);
            }
            let item = routes::form_size(&self.bytes[at..], self.counts, self.form)?;
            let p = self.pass_alike(at, item.used, left);
            at = p.at;
            left = p.left;
        }
        Ok(at)
    }

    // The same as `pass_alike` of items that are known to be there: nothing is judged again.
    fn pass_known_alike(self, from: usize, most: usize) -> Passed
        requires some { 0 < most }
        requires remain { Remain (by_table self.counts.now) self.form self.bytes.now most from }
        ensures passes { Passes (by_table self.entry.counts.now) self.entry.form self.entry.bytes.now most from result.left result.at }
        ensures remain { Remain (by_table self.entry.counts.now) self.entry.form self.entry.bytes.now result.left result.at }
    {
        let n = self.octets_at(from);
        let used = families::id_size(self.form) + 1 + n;
        let mut at = from + used;
        let mut left = most - 1;
        while 0 < left {
            if self.octets_at(at) != n {
                return Passed { at, left };
            }
            at += used;
            left -= 1;
        }
        Passed { at, left }
    }

    // Passes over sixteen items that are known to be there.
    fn pass_known(self, from: usize) -> usize
        requires { Remain (by_table self.counts.now) self.form self.bytes.now 16 from }
        ensures { Ok result ≡ skipped (by_table self.entry.counts.now) self.entry.form self.entry.bytes.now 16 from }
    {
        let mut at = from;
        let mut left = SPACING;
        while 0 < left {
            let p = self.pass_known_alike(at, left);
            at = p.at;
            left = p.left;
        }
        at
    }

    // Puts the places of a list that was counted, as many as the store has. All but the last have sixteen items after them.
    fn put_places(self, places: &mut [u16])
        requires { Fitting (by_table self.counts.now) self.bytes.now self.form places.old }
        ensures { places.new ≡ index_by (by_table self.entry.counts.now) self.entry.bytes.now self.entry.form }
    {
        let n = places.len();
        let mut at = 0;
        // By index: with `split_first_mut` and a `for` over the rest, lists of mixed lengths take 5 % more.
        for i in 0..n {
            places[i] = at as u16;
            if i + 1 < n {
                at = self.pass_known(at);
            }
        }
    }
}

// How many places the index of a list has.
fn count_places(s: &[u8], counts: &[u8; 256], form: Form) -> Result<usize, Refusal>
    ensures { result ≡ count_index (by_table counts.now) s.now form }
{
    if wire::LIST_LIMIT < s.len() {
        return Err(Refusal::TooLong);
    }
    let items = Items {
        bytes: s,
        counts,
        form,
    };
    let mut at = 0;
    let mut n = 0;
    while at < s.len() {
        at = items.pass(at, SPACING)?;
        n += 1;
    }
    Ok(n)
}

// How many places the index of a list needs.
pub fn count_index(s: &[u8], afi: Afi, form: Form) -> Result<usize, Refusal>
    ensures answer { result ≡ count_index (up_to (max_of afi)) s.now form }
{
    count_places(s, &octets::counts(afi), form)
}

// Builds the index of a list in a store, and says how many places it has.
pub fn build_index(s: &[u8], afi: Afi, form: Form, places: &mut [u16]) -> Result<usize, Refusal>
    ensures answer { result ≡ build_index (up_to (max_of afi)) s.now form (length places.old) }
    ensures store { places.new ≡ index_after (up_to (max_of afi)) s.now form places.old }
{
    let counts = octets::counts(afi);
    let n = count_places(s, &counts, form)?;
    if places.len() < n {
        return Err(Refusal::NoRoom);
    }
    let items = Items {
        bytes: s,
        counts: &counts,
        form,
    };
    items.put_places(&mut places[..n]);
    Ok(n)
}

// Whether places are strictly rising from 0 and lie before the end of a list of so many bytes. Every place is looked at, and none decides where to go on,
// so that many are compared at once.
fn is_index(index: &[u16], end: usize) -> bool
    ensures { result ≡ is_index end index.now }
{
    let Some(&last) = index.last() else {
        return true;
    };
    let mut rises = index[0] == 0;
    // By index: of 500 places `windows` and `zip` take 62 ns in place of 44, and `all` 331.
    for i in 1..index.len() {
        rises &= index[i - 1] < index[i];
    }
    rises & (usize::from(last) < end)
}

// Where n items of a family from a place on end. The table is made here, so that its room on the stack is free again for the route's own.
fn place_from(s: &[u8], from: usize, n: usize, afi: Afi, form: Form) -> Result<usize, Refusal>
    requires { (n ≤ 16) × (length s.now ≤ list_limit) }
    ensures { result ≡ skipped (up_to (max_of afi)) form s.now n from }
{
    let items = Items {
        bytes: s,
        counts: &octets::counts(afi),
        form,
    };
    items.pass(from, n)
}

// Route number n of a list, counted from 0, by an index of it: as `try_parse_prefix` answers of the item's bytes.
pub fn route_at(s: &[u8], index: &[u16], n: usize, afi: Afi, form: Form) -> Result<Route, Refusal>
    ensures answer { result ≡ route_by (up_to (max_of afi)) form s.now index.now n }
{
    if wire::LIST_LIMIT < s.len() {
        return Err(Refusal::TooLong);
    }
    if !is_index(index, s.len()) {
        return Err(Refusal::NotAnIndex);
    }
    let Some(&start) = index.get(n / SPACING) else {
        return Err(Refusal::NoSuchRoute);
    };
    let at = place_from(s, usize::from(start), n % SPACING, afi, form)?;
    if s.len() <= at {
        return Err(Refusal::NoSuchRoute);
    }
    routes::try_parse_prefix(&s[at..], afi, form)
}
