// The calls that read, each with the line of its answer. What a call of no store answers, of any part, are its own numbers.
use crate::line::Line;
use crate::request::Record;
use crate::store;
use as4::Standing;
use attributes::Attribute;
use mp_nlri::Reach;
use paths::Path;
use routes::{Route, Routes};
use updates::Update;
use wire::refusal::Refusal;

// One route: the bytes that it takes, its row, and whether a bit past its length is set.
pub fn tell_route(line: &mut Line, answer: Result<Route, Refusal>) {
    line.tell(answer.map(|route| {
        let row = route.prefix.row;
        [
            route.prefix.used,
            row.first as usize,
            row.id as usize,
            row.w0 as usize,
            row.w1 as usize,
            row.w2 as usize,
            row.w3 as usize,
            usize::from(route.host),
        ]
    }));
}

// A list: its rows, and those with a bit set past their length.
pub fn tell_routes(line: &mut Line, answer: Result<Routes, Refusal>) {
    line.tell(answer.map(|routes| [routes.rows, routes.hosts]));
}

// Rows, places or bytes.
pub fn tell_count(line: &mut Line, answer: Result<usize, Refusal>) {
    line.tell(answer.map(|count| [count]));
}

pub fn tell_path(line: &mut Line, answer: Result<Path, Refusal>) {
    line.tell(answer.map(|path| [path.segments, path.numbers]));
}

// MP_REACH_NLRI: the length and the sum of its next hop, whether the reserved byte is not 0, its rows, and those with a bit set past their length.
pub fn tell_reach(line: &mut Line, answer: Result<Reach, Refusal>, value: &[u8]) {
    let sum = store::sum(mp_nlri::next_hop_part(value));
    line.tell(answer.map(|reach| {
        [
            reach.next_hop,
            sum,
            usize::from(reach.reserved),
            reach.rows,
            reach.hosts,
        ]
    }));
}

// The rows and the verdict of each section, then the rows of each with a bit set past their length.
pub fn tell_update(line: &mut Line, answer: Result<Update, Refusal>) {
    line.tell(answer.map(|update| {
        [
            routes::rows_in(update.withdrawn),
            usize::from(routes::verdict_in(update.withdrawn)),
            routes::rows_in(update.announced),
            usize::from(routes::verdict_in(update.announced)),
            routes::hosts_in(update.withdrawn),
            routes::hosts_in(update.announced),
        ]
    }));
}

pub fn aggregator(record: Record, line: &mut Line) {
    let answer = asns::parse_aggregator(record.one, record.settings.width());
    line.tell(answer.map(|it| {
        [
            it.asn as usize,
            it.identifier as usize,
            usize::from(it.differs),
        ]
    }));
}

// A message, with the length and the sum of its body.
pub fn message(record: Record, line: &mut Line) {
    let s = record.one;
    let edition = record.settings.edition();
    let strict = record.settings.is_strict();
    let answer = if strict {
        messages::parse_bgp_message_strict(s, edition)
    } else {
        messages::parse_bgp_message(s)
    };
    let body = if strict {
        messages::message_body_strict(s, edition)
    } else {
        messages::message_body(s)
    };
    let sum = store::sum(body);
    let told = answer.map(|it| {
        [
            usize::from(u8::from(it.kind)),
            it.claimed,
            it.taken,
            usize::from(it.marker),
            usize::from(it.cut),
            usize::from(it.trailing),
            body.len(),
            sum,
        ]
    });
    line.tell_beside(told, [0, 0, 0, 0, 0, 0, body.len(), sum]);
}

// The length and the sum of each part of an UPDATE.
pub fn parts(record: Record, line: &mut Line) {
    let body = record.one;
    let withdrawn = updates::withdrawn_part(body);
    let attributes = updates::attribute_part(body);
    let announced = updates::announced_part(body);
    let told = [
        withdrawn.len(),
        store::sum(withdrawn),
        attributes.len(),
        store::sum(attributes),
        announced.len(),
        store::sum(announced),
    ];
    line.tell_beside(updates::update_parts(body).map(|_| told), told);
}

// Whether there is an attribute, its flags and type, where its value starts, the length and the sum of the value, and where the next one stands. Where there
// is none, those of the value that was handed back stand all the same.
fn attribute_numbers(found: Option<Attribute>, value: &[u8]) -> [usize; 7] {
    match found {
        Some(it) => [
            1,
            usize::from(it.flags),
            usize::from(it.kind),
            it.start,
            value.len(),
            store::sum(value),
            it.next,
        ],
        None => [0, 0, 0, 0, value.len(), store::sum(value), 0],
    }
}

// The attribute at a place, which is a number of four bytes.
pub fn attribute(record: Record, line: &mut Line) {
    let section = record.one;
    let place = wire::u32_at(record.two, 0) as usize;
    let value = attributes::value_at(section, place);
    let answer = attributes::attribute_at(section, place);
    let told = answer.map(|found| attribute_numbers(found, value));
    line.tell_beside(told, attribute_numbers(None, value));
}

// The same without the type, which was asked for, and the next place.
fn found_numbers(found: Option<Attribute>, value: &[u8]) -> [usize; 5] {
    let [there, flags, _, start, size, sum, _] = attribute_numbers(found, value);
    [there, flags, start, size, sum]
}

// The first attribute of a type.
pub fn found(record: Record, line: &mut Line) {
    let section = record.one;
    let value = attributes::find_value(section, record.argument);
    let answer = attributes::find_attribute(section, record.argument);
    let told = answer.map(|found| found_numbers(found, value));
    line.tell_beside(told, found_numbers(None, value));
}

// 1 or 2: which of two AGGREGATORs stands.
fn standing_number(standing: Standing) -> usize {
    match standing {
        Standing::Aggregator => 1,
        Standing::As4Aggregator => 2,
    }
}

// The AGGREGATOR that stands, with the length and the sum of its value.
pub fn standing(record: Record, line: &mut Line) {
    let value = as4::standing_aggregator(record.one, record.two);
    let answer = as4::which_aggregator(record.one, record.two);
    let sum = store::sum(value);
    let told = answer.map(|it| { [standing_number(it), value.len(), sum] });
    line.tell_beside(told, [0, value.len(), sum]);
}

// The path of an AS_PATH and an AS4_PATH, after which AGGREGATOR stands. The third part is an AGGREGATOR as long as the argument says, and then an
// AS4_AGGREGATOR.
pub fn merged(record: Record, pairs: &mut [u32], numbers: &mut [u32], line: &mut Line) {
    let size = usize::from(record.argument);
    let aggregator = wire::part(record.three, 0, size);
    let left = record.three.len().saturating_sub(size);
    let as4_aggregator = wire::part(record.three, size, left);
    let path = as4::merge_as_path(
        record.one,
        record.two,
        aggregator,
        as4_aggregator,
        pairs,
        numbers,
    );
    let stands = match as4::which_aggregator(aggregator, as4_aggregator) {
        Ok(standing) => standing_number(standing),
        Err(_) => 0,
    };
    line.tell(path.map(|path| [stands, path.segments, path.numbers]));
}
