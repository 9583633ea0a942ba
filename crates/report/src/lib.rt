// SR and RR: sender and receiver reports and their blocks (report_block.rs, receiver.rs and sender.rs of rtcp-types).
#![tactic(auto)]

pub mod loss;
pub mod receiver;
pub mod report;
pub mod report_block;
pub mod sender;
