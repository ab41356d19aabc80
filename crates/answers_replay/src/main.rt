// Plays stored cases over each of the stored tables, and prints the digest of the answers: `oracle replay | oracle digest`
// over the same bytes. Each input is put together in the file `input` first.
#![tactic(auto)]

use reader::number;
use std::fs::File;
use std::io::Result;
use std::os::fd::AsRawFd;
use std::rt::Files;

// Up to `most` bytes of a descriptor, after what the other has. The loop ends with the input, and a step is what was read.
fn append(to: i32, from: i32, most: usize) {
    let mut block = io::buffer();
    let mut left = most;
    while 0 < left {
        let got = io::read_full(from, &mut block);
        if got == 0 {
            return;
        }
        if left < got {
            io::write_all(to, &block[..left]);
            return;
        }
        io::write_all(to, &block[..got]);
        left = left - got;
    }
}

// The same of a file.
fn append_file(rt: &impl Files<File = File>, to: &File, path: &str, most: usize) -> Result<()> {
    let from = File::open(rt, path)?;
    append(to.as_raw_fd(), from.as_raw_fd(), most);
    Ok(())
}

fn play_input(rt: &impl Files<File = File>) -> Result<()> {
    let input = File::open(rt, "input")?;
    play::play(input.as_raw_fd(), false);
    Ok(())
}

// Cases that stand in a file.
fn play_file(rt: &impl Files<File = File>, tables: &str, cases: &str) -> Result<()> {
    let to = File::create(rt, "input")?;
    append_file(rt, &to, tables, 1_000_000)?;
    append_file(rt, &to, cases, 1_000_000)?;
    drop(to);
    play_input(rt)
}

// Lent data cut short.
fn play_cut(rt: &impl Files<File = File>, tables: &str, most: usize) -> Result<()> {
    let to = File::create(rt, "input")?;
    append_file(rt, &to, tables, most)?;
    drop(to);
    play_input(rt)
}

// The next short case, its length before it. Answers whether there was one.
fn play_next(rt: &impl Files<File = File>, from: i32, tables: &str) -> Result<bool> {
    let mut head = [0u8; 4];
    if io::read_full(from, &mut head) < 4 {
        return Ok(false);
    }
    let count = number::at::<u32>(&head, 0) as usize;
    let mut bytes = [0u8; 131_072];
    let Some(case) = bytes.get_mut(..count) else {
        return Ok(false);
    };
    if io::read_full(from, case) < count {
        return Ok(false);
    }
    let to = File::create(rt, "input")?;
    append_file(rt, &to, tables, 1_000_000)?;
    io::write_all(to.as_raw_fd(), case);
    drop(to);
    play_input(rt)?;
    Ok(true)
}

fn play_each(rt: &impl Files<File = File>, tables: &str, cases: &str) -> Result<()> {
    let from = File::open(rt, cases)?;
    for _ in 0..10_000 {
        if !play_next(rt, from.as_raw_fd(), tables)? {
            break;
        }
    }
    Ok(())
}

// Which cases are played over which tables, in this order.
const PLAYED: [(&str, &str); 12] = [
    ("demo", "cases"),
    ("standard", "cases"),
    ("mild", "cases"),
    ("random", "cases"),
    ("demo", "starts"),
    ("standard", "starts"),
    ("standard", "japanese"),
    ("mild", "japanese"),
    ("random", "japanese"),
    ("demo", "reasons"),
    ("standard", "reasons"),
    ("ascii255", "reasons"),
];

fn main(rt: HostRuntime) -> Result<()> {
    for (tables, cases) in PLAYED {
        play_file(&rt, tables, cases)?;
    }
    for most in [0, 1, 375_027, 375_028] {
        play_cut(&rt, "demo", most)?;
    }
    play_each(&rt, "demo", "malformed")
}
