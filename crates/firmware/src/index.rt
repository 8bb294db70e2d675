// An index beside a list of routes, counted and built; and the route of a number by it.
ghost use Rattle.std.specs.Prelude.{◌≡◌, length};
ghost use Rattle.wire.specs.Answer.{count_meaning};
ghost use Rattle.families.specs.Family.{max_of};
ghost use Rattle.routes.specs.List.{up_to};
ghost use Rattle.route_index.specs.Index.{route_by};
ghost use Rattle.route_index.specs.Promises.{count_index, build_index, index_after};
ghost use Rattle.words.specs.Settings.{family_of, form_of};
ghost use Rattle.words.specs.Word.{in_fields, word_of};
ghost use Rattle.firmware.specs.Fields.{route_stored, route_after};

use super::{count_word, refused};
use wire::refusal::Refusal;
use words::{family_of, form_of, word};

// The words of a row.
const ROW_WORDS: usize = 6;

// How many places the index of a list has.
#[tactic(auto, using(crate::proofs::IndexBounds::count_index_narrow))]
pub fn doorbramble_count_index(s: &[u8], ipv6: u8, add_path: u8) -> u64
    ensures { result ≡ word_of (in_fields (count_meaning (count_index (up_to (max_of (family_of ipv6))) s.now (form_of add_path)))) }
{
    count_word(route_index::count_index(s, family_of(ipv6), form_of(add_path)))
}

// The index of a list, into a lent store.
#[tactic(auto, using(crate::proofs::IndexBounds::build_index_narrow))]
pub fn doorbramble_build_index(s: &[u8], ipv6: u8, add_path: u8, places: &mut [u16]) -> u64
    ensures answer { result ≡ word_of (in_fields (count_meaning (build_index (up_to (max_of (family_of ipv6))) s.now (form_of add_path) (length places.old)))) }
    ensures places { places.new ≡ index_after (up_to (max_of (family_of ipv6))) s.now (form_of add_path) places.old }
{
    count_word(route_index::build_index(s, family_of(ipv6), form_of(add_path), places))
}

// The route of a number by an index, into a lent store.
pub fn doorbramble_route_at(
    s: &[u8],
    index: &[u16],
    n: usize,
    ipv6: u8,
    add_path: u8,
    row: &mut [u32],
) -> u64
    ensures answer { result ≡ word_of (in_fields (route_stored (route_by (up_to (max_of (family_of ipv6))) (form_of add_path) s.now index.now n) (length row.old))) }
    ensures row { row.new ≡ route_after (route_by (up_to (max_of (family_of ipv6))) (form_of add_path) s.now index.now n) row.old }
{
    match route_index::route_at(s, index, n, family_of(ipv6), form_of(add_path)) {
        Ok(found) => {
            if row.len() < ROW_WORDS {
                return refused(Refusal::NoRoom);
            }
            let r = found.prefix.row;
            row[..ROW_WORDS].copy_from_slice(&[r.first, r.id, r.w0, r.w1, r.w2, r.w3]);
            word(found.prefix.used as u16, found.host as u16, 0, 0)
        }
        Err(why) => refused(why),
    }
}
