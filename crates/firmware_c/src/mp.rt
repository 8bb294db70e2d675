// MP_REACH_NLRI and MP_UNREACH_NLRI of IPv6 unicast routes, counted, read and written.
ghost use Rattle.std.specs.Prelude.{◌≡◌, length};
ghost use Rattle.wire.specs.Answer.{filled, count_meaning};
ghost use Rattle.families.specs.Family.{mode_of};
ghost use Rattle.routes.specs.Promises.{routes_meaning};
ghost use Rattle.mp_nlri.specs.Value.{reach_bytes, unreach_bytes};
ghost use Rattle.mp_nlri.specs.Read.{count_reach, read_reach, reach_after, count_unreach, read_unreach, unreach_after};
ghost use Rattle.mp_nlri.specs.Write.{route_bytes, write_reach, write_unreach};
ghost use Rattle.words.specs.Settings.{form_of};
ghost use Rattle.words.specs.Word.{in_fields, word_of};
ghost use Rattle.firmware.specs.Fields.{reach_fields};

// How many routes MP_REACH_NLRI has.
#[unsafe(no_mangle)]
pub extern "C" fn doorbramble_count_mp_reach_nlri(value: &[u8], settings: u8) -> u64
    ensures { result ≡ word_of (reach_fields (count_reach value.now (mode_of settings))) }
{
    firmware::mp::doorbramble_count_mp_reach_nlri(value, settings)
}

// The routes of MP_REACH_NLRI, into a lent store.
#[unsafe(no_mangle)]
pub extern "C" fn doorbramble_parse_mp_reach_nlri(
    value: &[u8],
    settings: u8,
    store: &mut [u32],
) -> u64
    ensures answer { result ≡ word_of (reach_fields (read_reach value.now (mode_of settings) (length store.old))) }
    ensures store { store.new ≡ reach_after (read_reach value.now (mode_of settings) (length store.old)) value.now (mode_of settings) store.old }
{
    firmware::mp::doorbramble_parse_mp_reach_nlri(value, settings, store)
}

// A next hop and rows as MP_REACH_NLRI.
#[unsafe(no_mangle)]
pub extern "C" fn doorbramble_encode_mp_reach_nlri(
    next_hop: &[u8],
    rows: &[u32],
    add_path: u8,
    out: &mut [u8],
) -> u64
    ensures answer { result ≡ word_of (in_fields (count_meaning (write_reach (length next_hop.now) rows.now (form_of add_path) (length out.old)))) }
    ensures out { out.new ≡ filled (count_meaning (write_reach (length next_hop.now) rows.now (form_of add_path) (length out.old))) (reach_bytes next_hop.now (route_bytes rows.now (form_of add_path))) out.old }
{
    firmware::mp::doorbramble_encode_mp_reach_nlri(next_hop, rows, add_path, out)
}

// How many routes MP_UNREACH_NLRI has.
#[unsafe(no_mangle)]
pub extern "C" fn doorbramble_count_mp_unreach_nlri(value: &[u8], settings: u8) -> u64
    ensures { result ≡ word_of (in_fields (routes_meaning (count_unreach value.now (mode_of settings)))) }
{
    firmware::mp::doorbramble_count_mp_unreach_nlri(value, settings)
}

// The routes of MP_UNREACH_NLRI, into a lent store.
#[unsafe(no_mangle)]
pub extern "C" fn doorbramble_parse_mp_unreach_nlri(
    value: &[u8],
    settings: u8,
    store: &mut [u32],
) -> u64
    ensures answer { result ≡ word_of (in_fields (routes_meaning (read_unreach value.now (mode_of settings) (length store.old)))) }
    ensures store { store.new ≡ unreach_after (read_unreach value.now (mode_of settings) (length store.old)) value.now (mode_of settings) store.old }
{
    firmware::mp::doorbramble_parse_mp_unreach_nlri(value, settings, store)
}

// Rows as MP_UNREACH_NLRI.
#[unsafe(no_mangle)]
pub extern "C" fn doorbramble_encode_mp_unreach_nlri(
    rows: &[u32],
    add_path: u8,
    out: &mut [u8],
) -> u64
    ensures answer { result ≡ word_of (in_fields (count_meaning (write_unreach rows.now (form_of add_path) (length out.old)))) }
    ensures out { out.new ≡ filled (count_meaning (write_unreach rows.now (form_of add_path) (length out.old))) (unreach_bytes (route_bytes rows.now (form_of add_path))) out.old }
{
    firmware::mp::doorbramble_encode_mp_unreach_nlri(rows, add_path, out)
}
