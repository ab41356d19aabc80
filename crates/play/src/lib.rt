// The replay format, played from a descriptor.
#![tactic(auto)]

mod input;
mod print;
mod turns;

pub use turns::play;
