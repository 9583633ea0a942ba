// Reception figures of one source (RFC 3550 A.1, A.3 and A.8; document 02, order 3).
#![tactic(auto)]

pub mod figure;
pub mod reception;
