// Feeding a stream, chunk by chunk.
#![tactic(auto)]

pub mod feed;
mod front;
