// The call that a record names, and the line of what it answered and left.
ghost use Rattle.std.specs.Prelude.{◌≡◌, length};

use crate::line::Line;
use crate::request::{Op, Record};
use crate::{index, reads, store, writes};
use families::Afi;

// The places that calls are lent: two stores of words, and an output.
#[derive(Drop)]
pub struct Places<'a> {
    pub a: &'a mut [u32],
    pub b: &'a mut [u32],
    pub out: &'a mut [u8],
}

// A writer, on its numbers and its room.
fn write(record: Record, places: &mut Places, line: &mut Line) {
    let rows = store::lend(places.a, record.one.len() / 4, store::word_before);
    store::decode(record.one, rows);
    let last = writes::last_numbers(record);
    let more = store::lend(places.b, last.len() / 4, store::word_before);
    store::decode(last, more);
    let out = store::lend(places.out, record.room_a, store::byte_before);
    reads::tell_count(line, writes::written(record, rows, more, out));
    line.places(out);
}

// A reader that is lent no store.
fn read(record: Record, line: &mut Line) {
    let s = record.one;
    let settings = record.settings;
    let mode = settings.mode();
    match record.op {
        Op::TryParsePrefix => reads::tell_route(
            line,
            routes::try_parse_prefix(s, settings.afi(), settings.form()),
        ),
        Op::CountNlriList => {
            reads::tell_routes(line, routes::count_nlri_list(s, settings.afi(), mode))
        }
        Op::CountNlri => reads::tell_routes(line, routes::count_nlri(s, Afi::Ipv4, mode)),
        Op::CountAsPath => reads::tell_path(
            line,
            paths::count_as_path(s, settings.width(), settings.rule()),
        ),
        Op::ParseAggregator => reads::aggregator(record, line),
        Op::ParseBgpMessage => reads::message(record, line),
        Op::CountBgpUpdateMessage => {
            reads::tell_update(line, updates::count_bgp_update_message(s, mode))
        }
        Op::UpdateParts => reads::parts(record, line),
        Op::AttributeAt => reads::attribute(record, line),
        Op::FindAttribute => reads::found(record, line),
        Op::WhichAggregator => reads::standing(record, line),
        Op::CountMpReachNlri => {
            reads::tell_reach(line, mp_nlri::count_mp_reach_nlri(s, mode), s)
        }
        Op::CountMpUnreachNlri => {
            reads::tell_routes(line, mp_nlri::count_mp_unreach_nlri(s, mode))
        }
        _ => index::ask(record, line),
    }
}

// A reader that is lent one store.
fn read_into(record: Record, store: &mut [u32], line: &mut Line) {
    let s = record.one;
    let settings = record.settings;
    let mode = settings.mode();
    match record.op {
        Op::ParseNlriList => reads::tell_routes(
            line,
            route_reader::parse_nlri_list(s, settings.afi(), mode, store),
        ),
        Op::ReadNlri => {
            reads::tell_routes(line, route_reader::read_nlri(s, Afi::Ipv4, mode, store))
        }
        Op::ParseMpReachNlri => {
            reads::tell_reach(line, mp_nlri::parse_mp_reach_nlri(s, mode, store), s)
        }
        Op::ParseMpUnreachNlri => {
            reads::tell_routes(line, mp_nlri::parse_mp_unreach_nlri(s, mode, store))
        }
        _ => {
            store::decode(s, store);
            reads::tell_count(line, route_marks::clear_guessed(store));
        }
    }
    line.places(store);
}

// A reader that is lent two.
fn read_into_both(record: Record, a: &mut [u32], b: &mut [u32], line: &mut Line) {
    let s = record.one;
    let settings = record.settings;
    match record.op {
        Op::ParseAsPath => reads::tell_path(
            line,
            paths::parse_as_path(s, settings.width(), settings.rule(), a, b),
        ),
        Op::MergeAsPath => reads::merged(record, a, b, line),
        _ => reads::tell_update(
            line,
            updates::parse_bgp_update_message(s, settings.mode(), a, b),
        ),
    }
    line.places(a);
    line.places(b);
}

// The call, on the places that its record lends it.
pub fn call(record: Record, places: &mut Places, line: &mut Line) {
    let a = match record.op {
        Op::ClearGuessed => record.one.len() / 4,
        _ => record.room_a,
    };
    match record.op {
        Op::EncodeNlriPrefixes
        | Op::EncodeAsPath
        | Op::EncodeAggregator
        | Op::EncodeBgpMessage
        | Op::EncodeBgpUpdateMessage
        | Op::EncodeMpReachNlri
        | Op::EncodeMpUnreachNlri => write(record, places, line),
        Op::ParseNlriList
        | Op::ReadNlri
        | Op::ParseMpReachNlri
        | Op::ParseMpUnreachNlri
        | Op::ClearGuessed => {
            read_into(record, store::lend(places.a, a, store::word_before), line)
        }
        Op::ParseAsPath | Op::ParseBgpUpdateMessage | Op::MergeAsPath => read_into_both(
            record,
            store::lend(places.a, a, store::word_before),
            store::lend(places.b, record.room_b, store::word_before),
            line,
        ),
        Op::BuildIndex => index::build(record, store::lend(places.a, a, store::word_before), line),
        _ => read(record, line),
    }
}
