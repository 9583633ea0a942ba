// Compounds, written.
#![tactic(auto)]

pub mod writer;
