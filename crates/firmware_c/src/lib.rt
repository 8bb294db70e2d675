// The static library for C: each call of the crate firmware, under its name and its promises, for crates of Rattle cannot stand on a static library.
// include/doorbramble.h declares them. They stand in modules, as there.
#![tactic(auto)]

pub mod aggregator;
pub mod attribute;
pub mod index;
pub mod list;
pub mod merge;
pub mod message;
pub mod mp;
pub mod path;
pub mod slot;
pub mod update;
pub mod version;
