// MP_REACH_NLRI and MP_UNREACH_NLRI of IPv6 unicast routes, counted, read and written.
ghost use Rattle.std.specs.Prelude.{◌≡◌, length};
ghost use Rattle.wire.specs.Answer.{filled, count_meaning};
ghost use Rattle.families.specs.Family.{mode_of};
ghost use Rattle.routes.specs.Promises.{routes_meaning};
ghost use Rattle.mp_nlri.specs.Value.{reach_bytes, unreach_bytes};
ghost use Rattle.mp_nlri.specs.Read.{count_reach, read_reach, reach_after, count_unreach, read_unreach, unreach_after};
ghost use Rattle.mp_nlri.specs.Write.{route_bytes, write_reach, write_unreach};
ghost use Rattle.words.specs.Settings.{form_of};
ghost use Rattle.words.specs.Word.{in_fields, word_of, Narrow};
ghost use Rattle.firmware.specs.Fields.{reach_fields};

use super::list::list_word;
use super::{count_word, refused};
use families::AddPath;
use mp_nlri::Reach;
use wire::refusal::Refusal;
use words::{form_of, word};

// MP_REACH_NLRI as a word: its rows, those that have a bit set past their length, and the length of its next hop with the reserved byte's flag.
fn reach_word(a: Result<Reach, Refusal>) -> u64
    requires { Narrow (reach_fields a) }
    ensures { result ≡ word_of (reach_fields a) }
{
    a.map_or_else(refused, |reach| {
        word(
            reach.rows as u16,
            reach.hosts as u16,
            reach.next_hop as u16 + 256 * (reach.reserved as u16),
            0,
        )
    })
}

// How many routes MP_REACH_NLRI has.
pub fn doorbramble_count_mp_reach_nlri(value: &[u8], settings: u8) -> u64
    ensures { result ≡ word_of (reach_fields (count_reach value.now (mode_of settings))) }
{
    reach_word(mp_nlri::count_mp_reach_nlri(value, AddPath::from(settings)))
}

// The routes of MP_REACH_NLRI, into a lent store.
pub fn doorbramble_parse_mp_reach_nlri(value: &[u8], settings: u8, store: &mut [u32]) -> u64
    ensures answer { result ≡ word_of (reach_fields (read_reach value.now (mode_of settings) (length store.old))) }
    ensures store { store.new ≡ reach_after (read_reach value.now (mode_of settings) (length store.old)) value.now (mode_of settings) store.old }
{
    reach_word(mp_nlri::parse_mp_reach_nlri(value, AddPath::from(settings), store))
}

// A next hop and rows as MP_REACH_NLRI.
#[tactic(auto, using(crate::proofs::MpBounds::write_reach_narrow))]
pub fn doorbramble_encode_mp_reach_nlri(
    next_hop: &[u8],
    rows: &[u32],
    add_path: u8,
    out: &mut [u8],
) -> u64
    ensures answer { result ≡ word_of (in_fields (count_meaning (write_reach (length next_hop.now) rows.now (form_of add_path) (length out.old)))) }
    ensures out { out.new ≡ filled (count_meaning (write_reach (length next_hop.now) rows.now (form_of add_path) (length out.old))) (reach_bytes next_hop.now (route_bytes rows.now (form_of add_path))) out.old }
{
    count_word(mp_nlri::encode_mp_reach_nlri(next_hop, rows, form_of(add_path), out))
}

// How many routes MP_UNREACH_NLRI has.
pub fn doorbramble_count_mp_unreach_nlri(value: &[u8], settings: u8) -> u64
    ensures { result ≡ word_of (in_fields (routes_meaning (count_unreach value.now (mode_of settings)))) }
{
    list_word(mp_nlri::count_mp_unreach_nlri(value, AddPath::from(settings)))
}

// The routes of MP_UNREACH_NLRI, into a lent store.
pub fn doorbramble_parse_mp_unreach_nlri(value: &[u8], settings: u8, store: &mut [u32]) -> u64
    ensures answer { result ≡ word_of (in_fields (routes_meaning (read_unreach value.now (mode_of settings) (length store.old)))) }
    ensures store { store.new ≡ unreach_after (read_unreach value.now (mode_of settings) (length store.old)) value.now (mode_of settings) store.old }
{
    list_word(mp_nlri::parse_mp_unreach_nlri(value, AddPath::from(settings), store))
}

// Rows as MP_UNREACH_NLRI.
#[tactic(auto, using(crate::proofs::MpBounds::write_unreach_narrow))]
pub fn doorbramble_encode_mp_unreach_nlri(rows: &[u32], add_path: u8, out: &mut [u8]) -> u64
    ensures answer { result ≡ word_of (in_fields (count_meaning (write_unreach rows.now (form_of add_path) (length out.old)))) }
    ensures out { out.new ≡ filled (count_meaning (write_unreach rows.now (form_of add_path) (length out.old))) (unreach_bytes (route_bytes rows.now (form_of add_path))) out.old }
{
    count_word(mp_nlri::encode_mp_unreach_nlri(rows, form_of(add_path), out))
}
