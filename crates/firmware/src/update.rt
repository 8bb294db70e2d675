// An UPDATE body: where its sections stand, its routes counted and read, and a body written.
ghost use Rattle.std.specs.Prelude.{◌≡◌, length};
ghost use Rattle.wire.specs.Answer.{filled, count_meaning};
ghost use Rattle.families.specs.Family.{mode_of};
ghost use Rattle.updates.specs.Body.{parts_of, withdrawn_at, attributes_at, announced_at};
ghost use Rattle.updates.specs.Update.{count_update, read_update, withdrawn_after, announced_after};
ghost use Rattle.update_writer.specs.Body.{body_bytes, body_answer};
ghost use Rattle.words.specs.Settings.{form_of};
ghost use Rattle.words.specs.Word.{in_fields, word_of, Narrow};
ghost use Rattle.firmware.specs.Fields.{part_fields, update_fields, host_fields};

use super::{count_word, refused};
use families::AddPath;
use routes::{hosts_in, rows_in, verdict_in};
use updates::{LENGTH_SIZE, Update};
use wire::refusal::Refusal;
use words::{form_of, word};

// Where the withdrawn section of an UPDATE body stands.
#[tactic(auto, using(crate::proofs::UpdateBounds::parts_few))]
pub fn doorbramble_withdrawn_part(body: &[u8]) -> u64
    ensures { result ≡ word_of (part_fields withdrawn_at (parts_of body.now)) }
{
    updates::update_parts(body).map_or_else(refused, |parts| {
        word(LENGTH_SIZE as u16, parts.withdrawn as u16, 0, 0)
    })
}

// Where the attribute section of an UPDATE body stands.
#[tactic(auto, using(crate::proofs::UpdateBounds::parts_few))]
pub fn doorbramble_attribute_part(body: &[u8]) -> u64
    ensures { result ≡ word_of (part_fields attributes_at (parts_of body.now)) }
{
    updates::update_parts(body).map_or_else(refused, |parts| {
        word(
            (LENGTH_SIZE + parts.withdrawn + LENGTH_SIZE) as u16,
            parts.attributes as u16,
            0,
            0,
        )
    })
}

// Where the announced section of an UPDATE body stands.
#[tactic(auto, using(crate::proofs::UpdateBounds::parts_few))]
pub fn doorbramble_announced_part(body: &[u8]) -> u64
    ensures { result ≡ word_of (part_fields announced_at (parts_of body.now)) }
{
    updates::update_parts(body).map_or_else(refused, |parts| {
        word(
            (LENGTH_SIZE + parts.withdrawn + LENGTH_SIZE + parts.attributes) as u16,
            parts.announced as u16,
            0,
            0,
        )
    })
}

// An UPDATE as a word: the rows of both sections, and their verdicts.
fn update_word(a: Result<Update, Refusal>) -> u64
    requires { Narrow (update_fields a) }
    ensures { result ≡ word_of (update_fields a) }
{
    a.map_or_else(refused, |update| {
        word(
            rows_in(update.withdrawn) as u16,
            rows_in(update.announced) as u16,
            u16::from(verdict_in(update.withdrawn)) + 256 * u16::from(verdict_in(update.announced)),
            0,
        )
    })
}

// How many routes the sections of an UPDATE body have.
pub fn doorbramble_count_bgp_update_message(body: &[u8], settings: u8) -> u64
    ensures { result ≡ word_of (update_fields (count_update body.now (mode_of settings))) }
{
    update_word(updates::count_bgp_update_message(body, AddPath::from(settings)))
}

// How many routes of each section of an UPDATE body have a bit set past their length, for which the word of an UPDATE has no field left.
#[tactic(auto, using(crate::proofs::UpdateBounds::hosts_few))]
pub fn doorbramble_count_update_hosts(body: &[u8], settings: u8) -> u64
    ensures { result ≡ word_of (host_fields (count_update body.now (mode_of settings))) }
{
    updates::count_bgp_update_message(body, AddPath::from(settings)).map_or_else(
        refused,
        |update| {
            word(
                hosts_in(update.withdrawn) as u16,
                hosts_in(update.announced) as u16,
                0,
                0,
            )
        },
    )
}

// The routes of an UPDATE body, into a lent store for each section.
pub fn doorbramble_parse_bgp_update_message(
    body: &[u8],
    settings: u8,
    withdrawn: &mut [u32],
    announced: &mut [u32],
) -> u64
    ensures answer { result ≡ word_of (update_fields (read_update body.now (mode_of settings) (length withdrawn.old) (length announced.old))) }
    ensures withdrawn { withdrawn.new ≡ withdrawn_after (read_update body.now (mode_of settings) (length withdrawn.old) (length announced.old)) body.now (mode_of settings) withdrawn.old }
    ensures announced { announced.new ≡ announced_after (read_update body.now (mode_of settings) (length withdrawn.old) (length announced.old)) body.now (mode_of settings) announced.old }
{
    let mode = AddPath::from(settings);
    update_word(updates::parse_bgp_update_message(body, mode, withdrawn, announced))
}

// Rows to withdraw, attribute bytes and rows to announce as an UPDATE body.
#[tactic(auto, using(crate::proofs::UpdateBounds::write_update_narrow))]
pub fn doorbramble_encode_bgp_update_message(
    withdrawn: &[u32],
    attributes: &[u8],
    announced: &[u32],
    add_path: u8,
    out: &mut [u8],
) -> u64
    ensures answer { result ≡ word_of (in_fields (count_meaning (body_answer withdrawn.now attributes.now announced.now (form_of add_path) (length out.old)))) }
    ensures out { out.new ≡ filled (count_meaning (body_answer withdrawn.now attributes.now announced.now (form_of add_path) (length out.old))) (body_bytes withdrawn.now attributes.now announced.now (form_of add_path)) out.old }
{
    count_word(update_writer::encode_bgp_update_message(
        withdrawn,
        attributes,
        announced,
        form_of(add_path),
        out,
    ))
}
