// The C functions. Nothing here decides: each hands on what the crate of its kind answers, as numbers. Lists, numbers and the four numbers of a writer come
// one by one, as C lends them.
#![tactic(auto)]

pub mod read_app;
pub mod read_bye;
pub mod read_compound;
pub mod read_items;
pub mod read_lookup;
pub mod read_report;
pub mod read_sdes;
pub mod receive;
mod refusal;
pub mod write_app;
pub mod write_bye;
pub mod write_compound;
pub mod write_report;
pub mod write_result;
pub mod write_sdes;
