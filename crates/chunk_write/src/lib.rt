// SDES items and chunks, written.
#![tactic(auto)]

pub mod chunk;
pub mod chunks;
pub mod item;
pub mod lone_writer;
