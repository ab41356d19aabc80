// The nine machines as one: an enum of their records, each run over the tables of its place.
#![tactic(auto)]

pub mod machine;
