// Numbers put at a place of an output: nothing changes where there is no room.
#![tactic(auto)]

ghost use Rattle.std.specs.Prelude.{◌≡◌, length, take};
ghost use Rattle.wire.specs.Number.{to_be};
ghost use Rattle.wire.specs.Store.{placed};

// Bytes in place of as many. One by one: as a slice that is copied, three bytes go by the stack, and a KEEPALIVE takes half as long again to write.
fn put_each<const N: usize>(part: &mut [u8], bytes: &[u8; N])
    requires { length part.old ≡ length bytes.now }
    ensures { part.new ≡ bytes.now }
{
    for (i, byte) in bytes.iter().enumerate() {
        part[i] = *byte;
    }
}

// Bytes at a place of the output. Lent a part of N bytes, the test of room is known when it is compiled.
fn put<const N: usize>(out: &mut [u8], to: usize, bytes: &[u8; N])
    ensures { out.new ≡ placed out.old to bytes.now }
{
    if out.len() < to || out.len() - to < N {
        return;
    }
    let end = to + N;
    put_each(&mut out[to..end], bytes);
}

// The two bytes of a number, at a place of the output.
pub fn put_u16(out: &mut [u8], to: usize, v: u16)
    ensures { out.new ≡ placed out.old to (to_be 2 v) }
{
    put(out, to, &v.to_be_bytes());
}

// The four bytes of a number, at a place of the output. Each is told by a quotient: of `to_be_bytes` the compiler makes a loop of vectors, in which the
// numbers of long segments take up to a third longer.
pub fn put_u32(out: &mut [u8], to: usize, v: u32)
    ensures { out.new ≡ placed out.old to (to_be 4 v) }
{
    let a = (v / 16777216) as u8;
    let b = (v / 65536 % 256) as u8;
    let c = (v / 256 % 256) as u8;
    put(out, to, &[a, b, c, (v % 256) as u8]);
}

// The first m of the four bytes of a number, at a place of the output.
pub fn put_octets(out: &mut [u8], to: usize, v: u32, m: usize)
    ensures { out.new ≡ placed out.old to (take m (to_be 4 v)) }
{
    let [a, b, c, _] = v.to_be_bytes();
    match m {
        0 => {}
        1 => put(out, to, &[a]),
        2 => put(out, to, &[a, b]),
        3 => put(out, to, &[a, b, c]),
        _ => put_u32(out, to, v),
    }
}
