// Bytes copied to a place of an output, or moved to the front of where they stand: nothing changes where there is no room.
#![tactic(auto)]

ghost use Rattle.std.specs.Prelude.{◌≡◌, ◌+◌, ◌≤◌, length, take, drop};
ghost use Rattle.wire.specs.Store.{laid, placed};
ghost use Rattle.copies.specs.Front.{to_front};

// How many bytes go at once.
const BLOCK: usize = 8;

// The block of src at a place, to the same place of the output. It is read before it is put, so that its bytes go as one.
fn copy_block(out: &mut [u8], src: &[u8], at: usize)
    requires { (at + 8 ≤ length out.old) × (at + 8 ≤ length src.now) }
    ensures { out.new ≡ laid out.old at (take 8 (drop at src.now)) }
{
    let block: [u8; BLOCK] = *src[at..].first_chunk().unwrap();
    let end = at + BLOCK;
    out[at..end].copy_from_slice(&block);
}

// All of src by blocks, of which it has at least one. The last may overlap the one before.
fn copy_blocks(out: &mut [u8], src: &[u8])
    requires { (length out.old ≡ length src.now) × (8 ≤ length src.now) }
    ensures { out.new ≡ src.now }
{
    let last = src.len() - BLOCK;
    for i in 0..(src.len() - 1) / BLOCK {
        copy_block(out, src, BLOCK * i);
    }
    copy_block(out, src, last);
}

// All of src, byte by byte.
fn copy_few(out: &mut [u8], src: &[u8])
    requires { length out.old ≡ length src.now }
    ensures { out.new ≡ src.now }
{
    for (i, byte) in src.iter().enumerate() {
        out[i] = *byte;
    }
}

// All of src, at a place of the output. A copy_from_slice of unknown length would call memmove, and what C calls is to call nothing outside the library.
pub fn copy_at(out: &mut [u8], to: usize, src: &[u8])
    ensures { out.new ≡ placed out.old to src.now }
{
    if out.len() < to || out.len() - to < src.len() {
        return;
    }
    let end = to + src.len();
    if src.len() < BLOCK {
        copy_few(&mut out[to..end], src);
    } else {
        copy_blocks(&mut out[to..end], src);
    }
}

// The bytes from a place up to an end, to the front. Nothing changes where they are not all there.
pub fn to_front(bytes: &mut [u8], at: usize, end: usize)
    ensures { bytes.new ≡ to_front bytes.old at end }
{
    if end <= bytes.len() && at <= end {
        bytes.copy_within(at..end, 0);
    }
}
