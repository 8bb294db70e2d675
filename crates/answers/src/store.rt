// What lent places hold before a call, their sum, and numbers from the bytes of a part.

// The places of a store of words, of an output and of an index before a call, each by its number.
pub fn word_before(i: usize) -> u32 {
    2863267840 + (i % 65536) as u32
}

pub fn byte_before(i: usize) -> u8 {
    (i % 251) as u8
}

pub fn place_before(i: usize) -> u16 {
    (i % 65536) as u16
}

// So many places, or all where there are fewer, as they are before a call.
pub fn lend<T: Copy, F: Fn(usize) -> T>(places: &mut [T], room: usize, before: F) -> &mut [T]
    requires { F.IsAlwaysCallable before }
{
    let n = room.min(places.len());
    let lent = &mut places[..n];
    for (i, place) in lent.iter_mut().enumerate() {
        *place = before(i);
    }
    lent
}

// The numbers of a part, four bytes each, at the front of a store.
pub fn decode(s: &[u8], store: &mut [u32]) {
    for (number, bytes) in store.iter_mut().zip(s.chunks_exact(4)) {
        *number = wire::u32_at(bytes, 0);
    }
}

// The places of an index, two bytes each.
pub fn decode_places(s: &[u8], places: &mut [u16]) {
    for (place, bytes) in places.iter_mut().zip(s.chunks_exact(2)) {
        *place = (wire::u16_at(bytes, 0) & 65535) as u16;
    }
}

// Copies the places of an index to the front of a store, as many as it has room for.
pub fn copy_places(places: &[u16], store: &mut [u32]) {
    for (word, place) in store.iter_mut().zip(places.iter()) {
        *word = u32::from(*place);
    }
}

// The sum after one place more.
fn mixed(h: usize, x: u32) -> usize {
    (h % 4294967291 * 65599 + x as usize + 1) % 4294967291
}

// The sum of places of whatever size.
pub fn sum<T: Copy + Into<u32>>(s: &[T]) -> usize {
    s.iter().fold(0, |h, x| mixed(h, (*x).into()))
}
