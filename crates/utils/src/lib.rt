// Numbers, headers and padding, and the refusals (utils.rs and lib.rs of rtcp-types).
#![tactic(auto)]

pub mod error;
pub mod list;
pub mod packet_parser;
pub mod packet_writer;
pub mod parser;
pub mod writer;
