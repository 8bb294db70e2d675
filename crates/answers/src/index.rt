// The index of a list, and the route that is asked for by one.
ghost use Rattle.std.specs.Prelude.{◌≡◌, length};

use crate::line::Line;
use crate::request::Record;
use crate::{reads, store};

// Zeros. The `ensures` gives the length, which lending the array as a slice needs.
fn zero_places() -> [u16; 400000]
    ensures { 400000 ≡ length result }
{
    [0; 400000]
}

// Builds an index. A line shows words, so what the call left in its places is copied to words.
pub fn build(record: Record, words: &mut [u32], line: &mut Line) {
    let mut zeros = zero_places();
    let places = store::lend(&mut zeros, record.room_a, store::place_before);
    let settings = record.settings;
    let answer = route_index::build_index(record.one, settings.afi(), settings.form(), places);
    reads::tell_count(line, answer);
    store::copy_places(places, words);
    line.places(words);
}

// Asks by an index of as many places as its part has.
pub fn ask(record: Record, line: &mut Line) {
    let mut zeros = zero_places();
    let index = store::lend(&mut zeros, record.two.len() / 2, store::place_before);
    store::decode_places(record.two, index);
    let settings = record.settings;
    let n = wire::u32_at(record.three, 0) as usize;
    let answer = route_index::route_at(record.one, index, n, settings.afi(), settings.form());
    reads::tell_route(line, answer);
}
