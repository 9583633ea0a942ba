// The chunks of source descriptions and their items (sdes.rs of rtcp-types).
#![tactic(auto)]

pub mod chunk;
pub mod item;
