// The replay format's alphabet: texts and numbers, written onto a page.
#![tactic(auto)]

pub mod page;

// The descriptors that each program has.
pub const STDIN_FILENO: i32 = 0;

pub const STDOUT_FILENO: i32 = 1;

pub const STDERR_FILENO: i32 = 2;
