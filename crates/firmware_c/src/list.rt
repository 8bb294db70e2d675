// A list of routes, counted, read and written; and the mark of guessed ids taken off its rows.
ghost use Rattle.std.specs.Prelude.{◌≡◌, length};
ghost use Rattle.wire.specs.Answer.{count_meaning};
ghost use Rattle.families.specs.Family.{max_of, mode_of};
ghost use Rattle.routes.specs.List.{up_to, list_of};
ghost use Rattle.routes.specs.Promises as Lists;
ghost use Rattle.route_marks.specs.Promises.{clear_answer, clear_after};
ghost use Rattle.route_writer.specs.Promises as RouteWriter;
ghost use Rattle.words.specs.Settings.{family_of, form_of};
ghost use Rattle.words.specs.Word.{in_fields, word_of};
ghost use Rattle.firmware.specs.Fields.{cleared_fields};

// How many routes a list has, and how many of them have a bit set past their length.
#[unsafe(no_mangle)]
pub extern "C" fn doorbramble_count_nlri_list(s: &[u8], ipv6: u8, settings: u8) -> u64
    ensures { result ≡ word_of (in_fields (Lists.routes_meaning (Lists.count_list (up_to (max_of (family_of ipv6))) s.now (mode_of settings)))) }
{
    firmware::list::doorbramble_count_nlri_list(s, ipv6, settings)
}

// The routes of a list, into a lent store.
#[unsafe(no_mangle)]
pub extern "C" fn doorbramble_parse_nlri_list(
    s: &[u8],
    ipv6: u8,
    settings: u8,
    store: &mut [u32],
) -> u64
    ensures answer { result ≡ word_of (in_fields (Lists.routes_meaning (Lists.read_list (up_to (max_of (family_of ipv6))) s.now (mode_of settings) (length store.old)))) }
    ensures store { store.new ≡ Lists.store_after s.now (list_of s.now (max_of (family_of ipv6)) (mode_of settings)) store.old }
{
    firmware::list::doorbramble_parse_nlri_list(s, ipv6, settings, store)
}

// Rows as a list of routes.
#[unsafe(no_mangle)]
pub extern "C" fn doorbramble_encode_nlri_prefixes(
    rows: &[u32],
    ipv6: u8,
    add_path: u8,
    out: &mut [u8],
) -> u64
    ensures answer { result ≡ word_of (in_fields (count_meaning (RouteWriter.write_answer rows.now (max_of (family_of ipv6)) (form_of add_path) (length out.old)))) }
    ensures out { out.new ≡ RouteWriter.out_after rows.now (max_of (family_of ipv6)) (form_of add_path) out.old }
{
    firmware::list::doorbramble_encode_nlri_prefixes(rows, ipv6, add_path, out)
}

// The mark of a guessed id taken off every row of a store, which may have more rows than a list: they are told in all three fields.
#[unsafe(no_mangle)]
pub extern "C" fn doorbramble_clear_guessed(store: &mut [u32]) -> u64
    ensures answer { result ≡ word_of (cleared_fields (clear_answer (length store.old))) }
    ensures store { store.new ≡ clear_after store.old }
{
    firmware::list::doorbramble_clear_guessed(store)
}
