// The nine places of the slate: each holds one machine under its kind, beside its score.
#![tactic(auto)]

pub mod order;
pub mod place;
pub mod slate;
