// Compounds: the datagram reader and its walk, in the place of compound.rs of rtcp-types.
#![tactic(auto)]

pub mod compound;
pub mod kind;
pub mod packet;
pub mod unknown;
