// What the replay format gives: little-endian numbers, lent tables and commands, read out of a buffer.
#![tactic(auto)]

pub mod command;
pub mod fill;
pub mod number;
