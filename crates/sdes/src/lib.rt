// Source descriptions (sdes.rs of rtcp-types).
#![tactic(auto)]

pub mod items;
pub mod sdes;
