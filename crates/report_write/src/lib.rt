// Sender and receiver reports, written by one builder over who reports and how the blocks are lent. `BlockLists` lends them as three lists: a fraction
// lost and a cumulative lost for each block, and five words: SSRC, highest sequence number, jitter, last SR, delay since last SR.
#![tactic(auto)]

pub mod builder;
pub mod receiver;
pub mod report_block;
pub mod reporter;
pub mod sender;
