// Attribute types (RFC 4271 section 5, RFC 6793 section 3, RFC 4760 sections 3 and 4), by name, of those that this library reads:
// specs/Attribute.antt has the same for definitions. Numbers and no enum: any byte is a type, and a search takes each.

pub const AS_PATH: u8 = 2;

pub const AGGREGATOR: u8 = 7;

pub const AS4_PATH: u8 = 17;

pub const AS4_AGGREGATOR: u8 = 18;

pub const MP_REACH_NLRI: u8 = 14;

pub const MP_UNREACH_NLRI: u8 = 15;
