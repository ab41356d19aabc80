// Answers each stored label, its name before the answer: the Rust's scores of the same bytes (`tools/answers`).
#![tactic(auto)]

use scribe::STDOUT_FILENO;
use std::fs::File;
use std::os::fd::AsRawFd;
use std::rt::Files;

fn show(rt: &impl Files<File = File>, name: &str) -> std::io::Result<()> {
    let from = File::open(rt, name)?;
    let mut bytes = [0u8; label::READ];
    let n = io::read_full(from.as_raw_fd(), &mut bytes);
    io::write_all(STDOUT_FILENO, name.as_bytes());
    io::write_all(STDOUT_FILENO, b":\n");
    label::print_answer(&bytes[..n]);
    Ok(())
}

// The stored labels, in this order.
const LABELS: [&str; 17] = [
    "document-01",
    "nothing",
    "ascii",
    "one-byte",
    "escape",
    "longest",
    "too-long",
    "leader-none",
    "leader-utf-8",
    "leader-euc-kr",
    "leader-big5",
    "leader-shift_jis",
    "korean",
    "chinese",
    "japanese",
    "hebrew",
    "arabic",
];

fn main(rt: HostRuntime) -> std::io::Result<()> {
    for label in LABELS {
        show(&rt, label)?;
    }
    Ok(())
}
