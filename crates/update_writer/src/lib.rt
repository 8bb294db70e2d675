// The UPDATE body writer (RFC 4271 section 4.3): rows to withdraw, attribute bytes and rows to announce as the three sections of a body, each
// after its length but the last.
#![tactic(auto)]

ghost use Rattle.std.specs.Prelude.{◌≡◌, length};
ghost use Rattle.wire.specs.Answer.{filled, count_meaning};
ghost use Rattle.update_writer.specs.Body.{body_bytes, body_answer};

use families::{Afi, Form};
use updates::LENGTH_SIZE;
use wire::refusal::Refusal;

// Writes an UPDATE body; both lists are written with ids or both without. What stands around them follows once they fit.
pub fn encode_bgp_update_message(
    withdrawn: &[u32],
    attributes: &[u8],
    announced: &[u32],
    form: Form,
    out: &mut [u8],
) -> Result<usize, Refusal>
    ensures answer { result ≡ body_answer withdrawn.now attributes.now announced.now form (length out.old) }
    ensures out { out.new ≡ filled (count_meaning result) (body_bytes withdrawn.now attributes.now announced.now form) out.old }
{
    let sizes = route_writer::encode_nlri_pair(
        withdrawn,
        announced,
        Afi::Ipv4,
        form,
        LENGTH_SIZE,
        LENGTH_SIZE + attributes.len(),
        wire::BODY_LIMIT,
        out,
    )?;
    let at = LENGTH_SIZE + sizes.first;
    outputs::put_u16(out, 0, sizes.first as u16);
    outputs::put_u16(out, at, attributes.len() as u16);
    copies::copy_at(out, at + LENGTH_SIZE, attributes);
    Ok(at + LENGTH_SIZE + attributes.len() + sizes.second)
}
