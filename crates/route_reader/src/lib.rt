// Route lists into lent stores (RFC 4271 section 4.3, RFC 7911 section 3): parse_nlri_list of utils.rs, read_nlri of messages.rs. A list is counted,
// then filled with no test of its bytes again: an address is read by whole words where they lie inside the list.
#![tactic(auto)]

ghost use Rattle.std.specs.Prelude.{◌≡◌, ◌+◌, ◌-◌, ◌/◌, ◌≤◌, ◌<◌, [], ◌∷◌, length, take, drop};
ghost use Rattle.wire.specs.Answer.{count_meaning, filled};
ghost use Rattle.wire.specs.Number.{be_at};
ghost use Rattle.wire.specs.Store.{laid};
ghost use Rattle.wire.specs.Walk.{flat};
ghost use Rattle.families.specs.Family.{max_of, id_size, octets};
ghost use Rattle.families.specs.declared.Afi.{Afi};
ghost use Rattle.families.specs.Octets.{table_of};
ghost use Rattle.families.specs.declared.Afi.TheVariants.{Ipv4, Ipv6};
ghost use Rattle.families.specs.declared.AddPath.TheVariants.{Guess};
ghost use Rattle.routes.specs.Prefix.{words};
ghost use Rattle.routes.specs.List.{up_to, fixed, list_of, section_of};
ghost use Rattle.routes.specs.Promises.{rows_alone, rows_in, count_section, read_list, read_section, store_after};
ghost use Rattle.route_reader.specs.Private.{head_words, address_words, all_masks, Octets, Fitting};
ghost use Rattle.route_reader.specs.Pair.{read_pair, read_pair_first, read_pair_second};

use families::{AddPath, Afi, Form, octets};
use routes::Routes;
use wire::refusal::Refusal;

// The word of the last n octets of s: the last four, shifted up over those before. Here and below a word is read where it is known to be all there, so
// that no test of u32_at is left in the code.
fn last_word(s: &[u8], n: usize) -> u32
    requires { (4 ≤ length s.now) × (n ≤ 4) }
    ensures { result ≡ be_at s.now (length s.now - n) 4 }
{
    let at = s.len() - 4;
    let w = wire::u32_at(&s[at..], 0) as u64;
    ((w << (8 * (4 - n)) as u32) % 4294967296) as u32
}

// The id of the item at the front of s, 0 where the form has none.
fn id_of(s: &[u8], form: Form) -> u32
    requires { id_size form ≤ length s.now }
    ensures { result ≡ be_at s.now 0 (id_size form) }
{
    match form {
        Form::Plain => 0,
        Form::Tagged => wire::u32_at(&s[..4], 0),
    }
}

// Two words at a place of a store. Here and below words go two by two, so that two loads or stores can be one; four at once become vectors of bytes.
fn put_pair(store: &mut [u32], to: usize, w0: u32, w1: u32)
    requires { to + 2 ≤ length store.old }
    ensures { store.new ≡ laid store.old to (w0 ∷ w1 ∷ []) }
{
    store[to] = w0;
    store[to + 1] = w1;
}

// The first two words of the row of the item at the front of s, with a mark.
fn put_head(store: &mut [u32], to: usize, s: &[u8], form: Form, mark: u32)
    requires to_in_bounds { (to + 2 ≤ length store.old) × (mark ≤ 512) }
    requires form_in_bounds { id_size form < length s.now }
    ensures { store.new ≡ laid store.old to (head_words mark form s.now) }
{
    let k = families::id_size(form);
    let first = u32::from(s[k]) + families::mark_of(form) + mark;
    put_pair(store, to, first, id_of(s, form));
}

// Four words.
fn put_words(store: &mut [u32], to: usize, w0: u32, w1: u32, w2: u32, w3: u32)
    requires { to + 4 ≤ length store.old }
    ensures { store.new ≡ laid store.old to (w0 ∷ w1 ∷ w2 ∷ w3 ∷ []) }
{
    put_pair(store, to, w0, w1);
    put_pair(store, to + 2, w2, w3);
}

// The address words of octets, of which no other byte is read. Here and below, a slice that is lent on whole goes in registers. Tried: each word by its
// place alone, with one test for the last, takes 5 percent longer for ten IPv6 routes.
fn put_exact(store: &mut [u32], to: usize, octets: &[u8])
    requires { (to + 4 ≤ length store.old) × (length octets.now ≤ 16) }
    ensures { store.new ≡ laid store.old to (address_words octets.now) }
{
    let t = &octets[..];
    let n = t.len();
    if n < 4 {
        put_words(store, to, wire::u32_at(t, 0), 0, 0, 0);
        return;
    }
    let last = last_word(t, n % 4);
    if n < 8 {
        put_words(store, to, wire::u32_at(t, 0), last, 0, 0);
        return;
    }
    if n < 12 {
        put_words(store, to, wire::u32_at(t, 0), wire::u32_at(t, 4), last, 0);
        return;
    }
    if n < 16 {
        put_words(
            store,
            to,
            wire::u32_at(t, 0),
            wire::u32_at(t, 4),
            wire::u32_at(t, 8),
            last,
        );
        return;
    }
    put_words(
        store,
        to,
        wire::u32_at(t, 0),
        wire::u32_at(t, 4),
        wire::u32_at(t, 8),
        wire::u32_at(t, 12),
    );
}

// The word of the first n octets of s: the first four, of which those after are shifted out.
fn first_word(s: &[u8], n: usize) -> u32
    requires { (4 ≤ length s.now) × (n ≤ 4) }
    ensures { result ≡ be_at (take n s.now) 0 4 }
{
    let w = wire::u32_at(&s[..4], 0) as u64;
    let past = (8 * (4 - n)) as u32;
    ((w >> past) << past) as u32
}

// How the address words of a family's prefix are put, whose octets more bytes may follow: by whole words, where as many bytes follow as the longest has.
trait Address {
    ghost afi: { Afi };

    // Those of the first n octets of s.
    fn put(&self, store: &mut [u32], to: usize, s: &[u8], n: usize)
        requires to_in_bounds { to + 4 ≤ length store.old }
        requires octets { Octets (octets (max_of afi)) n s.now }
        ensures { store.new ≡ laid store.old to (address_words (take n s.now)) };
}

// An IPv4 address, of at most four octets: by the first word, which may reach into what follows.
#[derive(Drop)]
struct Short;

impl Address for Short {
    ghost afi = { Ipv4 };

    fn put(&self, store: &mut [u32], to: usize, s: &[u8], n: usize) {
        if s.len() < 4 {
            put_exact(store, to, &s[..n]);
            return;
        }
        put_words(store, to, first_word(s, n), 0, 0, 0);
    }
}

// The octets of the longest IPv6 address.
const LONG: usize = 16;

// All octets of an address and then none: from place 16 - n on, the mask of its first n.
const MASKS: [u8; 32] = [
    255, 255, 255, 255, 255, 255, 255, 255, 255, 255, 255, 255, 255, 255, 255, 255, 0, 0, 0, 0, 0,
    0, 0, 0, 0, 0, 0, 0, 0, 0, 0, 0,
];

// An IPv6 address, of at most sixteen octets: by the first four words, and what lies past the octets masked.
#[derive(Drop)]
struct Long {
    masks: [u8; 32],
    ghost are: { masks ≡ all_masks },
}

impl Address for Long {
    ghost afi = { Ipv6 };

    fn put(&self, store: &mut [u32], to: usize, s: &[u8], n: usize) {
        if s.len() < LONG {
            put_exact(store, to, &s[..n]);
            return;
        }
        let t = &s[..LONG];
        let m = LONG - n;
        let stop = m + LONG;
        let u = &self.masks[m..stop];
        put_pair(
            store,
            to,
            wire::u32_at(t, 0) & wire::u32_at(u, 0),
            wire::u32_at(t, 4) & wire::u32_at(u, 4),
        );
        put_pair(
            store,
            to + 2,
            wire::u32_at(t, 8) & wire::u32_at(u, 8),
            wire::u32_at(t, 12) & wire::u32_at(u, 12),
        );
    }
}

// What fills a store with the rows of a good list of a family: the table of its lengths, which is lent, and how its addresses are put.
#[derive(Drop)]
struct Filler<'a, A: Address> {
    counts: &'a [u8; 256],
    address: A,
    ghost family: { counts.now ≡ table_of (max_of A.afi) },
}

impl<A: Address> Filler<'_, A> {
    // Items in one form; here and below, carried as in count_guess of routes.
    fn fill_form(&self, s: &[u8], form: Form, store: &mut [u32])
        requires { Fitting (list_of s.now (max_of A.afi) (fixed form)) store.old }
        ensures { store.new ≡ laid store.old 0 (flat words (list_of s.now (max_of A.afi) (fixed form)).rows) }
    {
        let k = families::id_size(form);
        let mut rest = s;
        let mut n: usize = 0;
        let mut to: usize = 0;
        while n < rest.len() {
            let next = octets::after(self.counts, rest[n + k]);
            put_head(store, to, &rest[n..], form, 0);
            rest = &rest[n + k + 1..];
            n = usize::from(next);
            self.address.put(store, to + 2, rest, n);
            to += 6;
        }
    }

    // Items by the guess.
    fn fill_guess(&self, s: &[u8], store: &mut [u32])
        requires { Fitting (list_of s.now (max_of A.afi) Guess) store.old }
        ensures { store.new ≡ laid store.old 0 (flat words (list_of s.now (max_of A.afi) Guess).rows) }
    {
        let mut rest = s;
        let mut n: usize = 0;
        let mut to: usize = 0;
        let mut form = Form::Plain;
        while n < rest.len() {
            let Ok(item) = routes::item_step(rest, n, self.counts, AddPath::Guess, form) else {
                return;
            };
            form = item.form;
            let b = families::id_size(form) + 1;
            put_head(store, to, &rest[n..], form, families::guess_mark(form));
            rest = &rest[n + b..];
            n = item.used - b;
            self.address.put(store, to + 2, rest, n);
            to += 6;
        }
    }

    // Items under a setting.
    fn fill(&self, s: &[u8], mode: AddPath, store: &mut [u32])
        requires { Fitting (list_of s.now (max_of A.afi) mode) store.old }
        ensures { store.new ≡ laid store.old 0 (flat words (list_of s.now (max_of A.afi) mode).rows) }
    {
        match mode {
            AddPath::On => self.fill_form(s, Form::Tagged, store),
            AddPath::Off => self.fill_form(s, Form::Plain, store),
            AddPath::Guess => self.fill_guess(s, store),
        }
    }
}

// How lists are read: of which family, whose table is lent, and under which setting.
#[derive(Clone, Copy)]
struct ListKind<'a> {
    afi: Afi,
    mode: AddPath,
    counts: &'a [u8; 256],
    ghost family: { counts.now ≡ table_of (max_of afi) },
}

impl ListKind<'_> {
    // The rows of a good list that has room, from the front of a store.
    fn fill(&self, s: &[u8], store: &mut [u32])
        requires { Fitting (list_of s.now (max_of self.now.afi) self.now.mode) store.old }
        ensures { store.new ≡ laid store.old 0 (flat words (list_of s.now (max_of self.now.afi) self.now.mode).rows) }
    {
        let counts = self.counts;
        match self.afi {
            Afi::Ipv4 => {
                let address = Short;
                Filler { counts, address }.fill(s, self.mode, store)
            }
            Afi::Ipv6 => {
                let address = Long { masks: MASKS };
                Filler { counts, address }.fill(s, self.mode, store)
            }
        }
    }

    // The rows of a section that was counted, into a store that has room; nothing of one that was refused.
    fn fill_counted(&self, s: &[u8], counted: Result<Routes, Refusal>, store: &mut [u32])
        requires counted_value { counted ≡ count_section (up_to (max_of self.now.afi)) s.now self.now.mode }
        requires store_value { rows_in counted ≤ length store.old / 6 }
        ensures { store.new ≡ filled (count_meaning (rows_alone counted)) (flat words (section_of s.now (max_of self.now.afi) self.now.mode).rows) store.old }
    {
        if counted.is_ok() {
            self.fill(s, store);
        }
    }
}

// A list into a lent store, six words a row. Copied into its callers, whose calls from C so take a frame of the stack less (DOORBRAMBLE_STACK_LIMIT).
#[inline(always)]
pub fn parse_nlri_list(
    s: &[u8],
    afi: Afi,
    mode: AddPath,
    store: &mut [u32],
) -> Result<Routes, Refusal>
    ensures answer { result ≡ read_list (up_to (max_of afi)) s.now mode (length store.old) }
    ensures store { store.new ≡ store_after s.now (list_of s.now (max_of afi) mode) store.old }
{
    let mut counts = [0u8; 256];
    octets::put_counts(afi, &mut counts);
    let found = routes::count_list_by(s, &counts, mode)?;
    if store.len() / 6 < found.rows {
        return Err(Refusal::NoRoom);
    }
    let kind = ListKind {
        afi,
        mode,
        counts: &counts,
    };
    kind.fill(s, store);
    Ok(found)
}

// A section of an UPDATE into a lent store, six words a row.
pub fn read_nlri(s: &[u8], afi: Afi, mode: AddPath, store: &mut [u32]) -> Result<Routes, Refusal>
    ensures answer { result ≡ read_section (up_to (max_of afi)) s.now mode (length store.old) }
    ensures store { store.new ≡ store_after s.now (section_of s.now (max_of afi) mode) store.old }
{
    if routes::is_strange(s) {
        return Err(Refusal::OneByteSection);
    }
    parse_nlri_list(s, afi, mode, store)
}

// Two sections, each with its rows or why it is refused.
#[derive(Clone, Copy, Debug, PartialEq, Eq, Hash)]
pub struct Sections {
    pub first: Result<Routes, Refusal>,
    pub second: Result<Routes, Refusal>,
}

// Two sections of an UPDATE into two lent stores: where either has rows and no room for them, neither store is touched.
pub fn read_nlri_pair(
    s: &[u8],
    t: &[u8],
    afi: Afi,
    mode: AddPath,
    first: &mut [u32],
    second: &mut [u32],
) -> Result<Sections, Refusal>
    ensures answer { result ≡ read_pair s.now t.now (max_of afi) mode (length first.old) (length second.old) }
    ensures first { first.new ≡ read_pair_first result (section_of s.now (max_of afi) mode) first.old }
    ensures second { second.new ≡ read_pair_second result (section_of t.now (max_of afi) mode) second.old }
{
    let mut counts = [0u8; 256];
    octets::put_counts(afi, &mut counts);
    let one = routes::count_section_by(s, &counts, mode);
    let two = routes::count_section_by(t, &counts, mode);
    if first.len() / 6 < routes::rows_in(one) || second.len() / 6 < routes::rows_in(two) {
        return Err(Refusal::NoRoom);
    }
    let kind = ListKind {
        afi,
        mode,
        counts: &counts,
    };
    kind.fill_counted(s, one, first);
    kind.fill_counted(t, two, second);
    Ok(Sections {
        first: one,
        second: two,
    })
}
