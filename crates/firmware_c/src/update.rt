// An UPDATE body: where its sections stand, its routes counted and read, and a body written.
ghost use Rattle.std.specs.Prelude.{◌≡◌, length};
ghost use Rattle.wire.specs.Answer.{filled, count_meaning};
ghost use Rattle.families.specs.Family.{mode_of};
ghost use Rattle.updates.specs.Body.{parts_of, withdrawn_at, attributes_at, announced_at};
ghost use Rattle.updates.specs.Update.{count_update, read_update, withdrawn_after, announced_after};
ghost use Rattle.update_writer.specs.Body.{body_bytes, body_answer};
ghost use Rattle.words.specs.Settings.{form_of};
ghost use Rattle.words.specs.Word.{in_fields, word_of};
ghost use Rattle.firmware.specs.Fields.{part_fields, update_fields, host_fields};

// Where the withdrawn section of an UPDATE body stands.
#[unsafe(no_mangle)]
pub extern "C" fn doorbramble_withdrawn_part(body: &[u8]) -> u64
    ensures { result ≡ word_of (part_fields withdrawn_at (parts_of body.now)) }
{
    firmware::update::doorbramble_withdrawn_part(body)
}

// Where the attribute section of an UPDATE body stands.
#[unsafe(no_mangle)]
pub extern "C" fn doorbramble_attribute_part(body: &[u8]) -> u64
    ensures { result ≡ word_of (part_fields attributes_at (parts_of body.now)) }
{
    firmware::update::doorbramble_attribute_part(body)
}

// Where the announced section of an UPDATE body stands.
#[unsafe(no_mangle)]
pub extern "C" fn doorbramble_announced_part(body: &[u8]) -> u64
    ensures { result ≡ word_of (part_fields announced_at (parts_of body.now)) }
{
    firmware::update::doorbramble_announced_part(body)
}

// How many routes the sections of an UPDATE body have.
#[unsafe(no_mangle)]
pub extern "C" fn doorbramble_count_bgp_update_message(body: &[u8], settings: u8) -> u64
    ensures { result ≡ word_of (update_fields (count_update body.now (mode_of settings))) }
{
    firmware::update::doorbramble_count_bgp_update_message(body, settings)
}

// How many routes of each section of an UPDATE body have a bit set past their length, for which the word of an UPDATE has no field left.
#[unsafe(no_mangle)]
pub extern "C" fn doorbramble_count_update_hosts(body: &[u8], settings: u8) -> u64
    ensures { result ≡ word_of (host_fields (count_update body.now (mode_of settings))) }
{
    firmware::update::doorbramble_count_update_hosts(body, settings)
}

// The routes of an UPDATE body, into a lent store for each section. Not copied into what C calls: as it is, both take less of the stack
// (DOORBRAMBLE_STACK_LIMIT).
#[inline(never)]
#[unsafe(no_mangle)]
pub extern "C" fn doorbramble_parse_bgp_update_message(
    body: &[u8],
    settings: u8,
    withdrawn: &mut [u32],
    announced: &mut [u32],
) -> u64
    ensures answer { result ≡ word_of (update_fields (read_update body.now (mode_of settings) (length withdrawn.old) (length announced.old))) }
    ensures withdrawn { withdrawn.new ≡ withdrawn_after (read_update body.now (mode_of settings) (length withdrawn.old) (length announced.old)) body.now (mode_of settings) withdrawn.old }
    ensures announced { announced.new ≡ announced_after (read_update body.now (mode_of settings) (length withdrawn.old) (length announced.old)) body.now (mode_of settings) announced.old }
{
    firmware::update::doorbramble_parse_bgp_update_message(body, settings, withdrawn, announced)
}

// Rows to withdraw, attribute bytes and rows to announce as an UPDATE body.
#[unsafe(no_mangle)]
pub extern "C" fn doorbramble_encode_bgp_update_message(
    withdrawn: &[u32],
    attributes: &[u8],
    announced: &[u32],
    add_path: u8,
    out: &mut [u8],
) -> u64
    ensures answer { result ≡ word_of (in_fields (count_meaning (body_answer withdrawn.now attributes.now announced.now (form_of add_path) (length out.old)))) }
    ensures out { out.new ≡ filled (count_meaning (body_answer withdrawn.now attributes.now announced.now (form_of add_path) (length out.old))) (body_bytes withdrawn.now attributes.now announced.now (form_of add_path)) out.old }
{
    firmware::update::doorbramble_encode_bgp_update_message(
        withdrawn, attributes, announced, add_path, out,
    )
}
