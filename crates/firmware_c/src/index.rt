// An index beside a list of routes, counted and built; and the route of a number by it.
ghost use Rattle.std.specs.Prelude.{◌≡◌, length};
ghost use Rattle.wire.specs.Answer.{count_meaning};
ghost use Rattle.families.specs.Family.{max_of};
ghost use Rattle.routes.specs.List.{up_to};
ghost use Rattle.route_index.specs.Index.{route_by};
ghost use Rattle.route_index.specs.Promises.{count_index, build_index, index_after};
ghost use Rattle.words.specs.Settings.{family_of, form_of};
ghost use Rattle.words.specs.Word.{in_fields, word_of};
ghost use Rattle.firmware.specs.Fields.{route_stored, route_after};

// How many places the index of a list has.
#[unsafe(no_mangle)]
pub extern "C" fn doorbramble_count_index(s: &[u8], ipv6: u8, add_path: u8) -> u64
    ensures { result ≡ word_of (in_fields (count_meaning (count_index (up_to (max_of (family_of ipv6))) s.now (form_of add_path)))) }
{
    firmware::index::doorbramble_count_index(s, ipv6, add_path)
}

// The index of a list, into a lent store.
#[unsafe(no_mangle)]
pub extern "C" fn doorbramble_build_index(
    s: &[u8],
    ipv6: u8,
    add_path: u8,
    places: &mut [u16],
) -> u64
    ensures answer { result ≡ word_of (in_fields (count_meaning (build_index (up_to (max_of (family_of ipv6))) s.now (form_of add_path) (length places.old)))) }
    ensures places { places.new ≡ index_after (up_to (max_of (family_of ipv6))) s.now (form_of add_path) places.old }
{
    firmware::index::doorbramble_build_index(s, ipv6, add_path, places)
}

// The route of a number by an index, into a lent store.
#[unsafe(no_mangle)]
pub extern "C" fn doorbramble_route_at(
    s: &[u8],
    index: &[u16],
    n: usize,
    ipv6: u8,
    add_path: u8,
    row: &mut [u32],
) -> u64
    ensures answer { result ≡ word_of (in_fields (route_stored (route_by (up_to (max_of (family_of ipv6))) (form_of add_path) s.now index.now n) (length row.old))) }
    ensures row { row.new ≡ route_after (route_by (up_to (max_of (family_of ipv6))) (form_of add_path) s.now index.now n) row.old }
{
    firmware::index::doorbramble_route_at(s, index, n, ipv6, add_path, row)
}
