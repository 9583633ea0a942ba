// The C functions as the archive exports them: each calls the function of its name in rtcp, and promises what that promises.
#![tactic(auto)]

mod read_app;
mod read_bye;
mod read_compound;
mod read_items;
mod read_lookup;
mod read_report;
mod read_sdes;
mod receive;
mod write_app;
mod write_bye;
mod write_compound;
mod write_report;
mod write_sdes;
