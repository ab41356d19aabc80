// The replay format's lines: what a reply, a place and a state are printed as; and the numbers of the kinds in a record.
#![tactic(auto)]

mod fields;
pub mod numbered;
pub mod show;
mod terms;
