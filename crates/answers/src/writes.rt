// The calls that write: each is lent the numbers of the parts that hold numbers, and of the output its room.
use crate::request::{Op, Record};
use wire::refusal::Refusal;

// The last part that holds numbers.
pub fn last_numbers(record: Record) -> &[u8] {
    match record.op {
        Op::EncodeBgpUpdateMessage => record.three,
        _ => record.two,
    }
}

// A writer's answer: rows and more are the numbers of the first and of the last part that holds numbers.
pub fn written(
    record: Record,
    rows: &[u32],
    more: &[u32],
    out: &mut [u8],
) -> Result<usize, Refusal> {
    let settings = record.settings;
    let one = record.one;
    match record.op {
        Op::EncodeNlriPrefixes => {
            route_writer::encode_nlri_prefixes(rows, settings.afi(), settings.form(), out)
        }
        Op::EncodeAsPath => {
            path_writer::encode_as_path(rows, more, settings.width(), settings.rule(), out)
        }
        Op::EncodeAggregator => asns::encode_aggregator(
            wire::u32_at(one, 0),
            wire::u32_at(one, 4),
            settings.width(),
            out,
        ),
        Op::EncodeBgpMessage => messages::encode_bgp_message(record.argument, one, out),
        Op::EncodeMpReachNlri => mp_nlri::encode_mp_reach_nlri(one, more, settings.form(), out),
        Op::EncodeMpUnreachNlri => mp_nlri::encode_mp_unreach_nlri(rows, settings.form(), out),
        _ => update_writer::encode_bgp_update_message(rows, record.two, more, settings.form(), out),
    }
}
