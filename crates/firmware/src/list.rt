// A list of routes, counted, read and written; and the mark of guessed ids taken off its rows.
ghost use Rattle.std.specs.Prelude.{◌≡◌, length};
ghost use Rattle.wire.specs.Answer.{count_meaning};
ghost use Rattle.families.specs.Family.{max_of, mode_of};
ghost use Rattle.routes.specs.List.{up_to, list_of};
ghost use Rattle.routes.specs.Promises as Lists;
ghost use Rattle.route_marks.specs.Promises.{clear_answer, clear_after};
ghost use Rattle.route_writer.specs.Promises as RouteWriter;
ghost use Rattle.words.specs.Settings.{family_of, form_of};
ghost use Rattle.words.specs.Word.{in_fields, word_of, Narrow};
ghost use Rattle.firmware.specs.Fields.{cleared_fields};

use super::{count_word, refused};
use families::{AddPath, Afi};
use routes::Routes;
use wire::refusal::Refusal;
use words::{family_of, form_of, word};

// A list as a word: its rows, and those that have a bit set past their length.
pub(super) fn list_word(a: Result<Routes, Refusal>) -> u64
    requires { Narrow (in_fields (Lists.routes_meaning a)) }
    ensures { result ≡ word_of (in_fields (Lists.routes_meaning a)) }
{
    a.map_or_else(
        refused,
        |list| word(list.rows as u16, list.hosts as u16, 0, 0),
    )
}

// How many routes a list has, and how many of them have a bit set past their length. Here and below each family has a call of its own, so that its table is
// known when it is compiled.
pub fn doorbramble_count_nlri_list(s: &[u8], ipv6: u8, settings: u8) -> u64
    ensures { result ≡ word_of (in_fields (Lists.routes_meaning (Lists.count_list (up_to (max_of (family_of ipv6))) s.now (mode_of settings)))) }
{
    let mode = AddPath::from(settings);
    match family_of(ipv6) {
        Afi::Ipv4 => list_word(routes::count_nlri_list(s, Afi::Ipv4, mode)),
        Afi::Ipv6 => list_word(routes::count_nlri_list(s, Afi::Ipv6, mode)),
    }
}

// The routes of a list, into a lent store.
pub fn doorbramble_parse_nlri_list(s: &[u8], ipv6: u8, settings: u8, store: &mut [u32]) -> u64
    ensures answer { result ≡ word_of (in_fields (Lists.routes_meaning (Lists.read_list (up_to (max_of (family_of ipv6))) s.now (mode_of settings) (length store.old)))) }
    ensures store { store.new ≡ Lists.store_after s.now (list_of s.now (max_of (family_of ipv6)) (mode_of settings)) store.old }
{
    let mode = AddPath::from(settings);
    match family_of(ipv6) {
        Afi::Ipv4 => list_word(route_reader::parse_nlri_list(s, Afi::Ipv4, mode, store)),
        Afi::Ipv6 => list_word(route_reader::parse_nlri_list(s, Afi::Ipv6, mode, store)),
    }
}

// Rows as a list of routes.
#[tactic(auto, using(crate::proofs::ListBounds::write_list_narrow))]
pub fn doorbramble_encode_nlri_prefixes(rows: &[u32], ipv6: u8, add_path: u8, out: &mut [u8]) -> u64
    ensures answer { result ≡ word_of (in_fields (count_meaning (RouteWriter.write_answer rows.now (max_of (family_of ipv6)) (form_of add_path) (length out.old)))) }
    ensures out { out.new ≡ RouteWriter.out_after rows.now (max_of (family_of ipv6)) (form_of add_path) out.old }
{
    count_word(route_writer::encode_nlri_prefixes(rows, family_of(ipv6), form_of(add_path), out))
}

// The mark of a guessed id taken off every row of a store, which may have more rows than a list: they are told in all three fields.
pub fn doorbramble_clear_guessed(store: &mut [u32]) -> u64
    ensures answer { result ≡ word_of (cleared_fields (clear_answer (length store.old))) }
    ensures store { store.new ≡ clear_after store.old }
{
    route_marks::clear_guessed(store).map_or_else(refused, |n| {
        word(
            (n % 65536) as u16,
            (n / 65536 % 65536) as u16,
            (n / 4294967296 % 65536) as u16,
            0,
        )
    })
}
