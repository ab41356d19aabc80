// Counts the entries of the Standard's three indexes, for comparison with the Standard's own figures: for each file its
// entries, how many are mapped, and the lowest and the highest mapped pointer. Then puts every pair of a lead and a byte
// through the Big5 and the EUC-KR decoder over their indexes, and counts what they yield.
#![tactic(auto)]

mod decoders;

ghost use Rattle.std.specs.Prelude.{◌≤◌, IfOk, length};

use iso2022jp::Iso2022Jp;
use reader::fill;
use scribe::STDOUT_FILENO;
use std::fs::File;
use std::io::Result;
use std::os::fd::AsRawFd;
use std::rt::Files;

// Entries of a file at most.
const MOST: usize = 24576;

// What can't be written is passed over, and the program goes on: `println!` would give each call a Result to throw away.
fn print_field(name: &[u8], n: u64) {
    io::write_all(STDOUT_FILENO, name);
    io::print_decimal(STDOUT_FILENO, n);
}

fn show(name: &[u8], index: &[u32]) {
    let mapped = index.iter().filter(|entry| **entry != 0).count();
    let lowest = index.iter().position(|entry| *entry != 0).unwrap_or(0);
    let highest = index.iter().rposition(|entry| *entry != 0).unwrap_or(0);
    io::write_all(STDOUT_FILENO, name);
    print_field(b" entries ", index.len() as u64);
    print_field(b" mapped ", mapped as u64);
    print_field(b" lowest ", lowest as u64);
    print_field(b" highest ", highest as u64);
    io::write_all(STDOUT_FILENO, b"\n");
}

// Reads a file's entries; answers how many they are, none where it can't be read.
fn read(rt: &impl Files<File = File>, name: &str, index: &mut [u32; MOST]) -> Result<usize>
    ensures { IfOk result (λ n. n ≤ 24576) }
{
    let file = File::open(rt, name)?;
    let mut bytes = [0u8; 4 * MOST];
    let n = io::read_full(file.as_raw_fd(), &mut bytes);
    fill::entries(&bytes[..n], index);
    Ok(n / 4)
}

fn main(rt: HostRuntime) -> Result<()> {
    let mut index = [0u32; MOST];
    let big5 = read(&rt, "index-big5.u32le", &mut index)?;
    show(b"big5", &index[..big5]);
    decoders::big5(&index[..big5]);
    let euckr = read(&rt, "index-euc-kr.u32le", &mut index)?;
    show(b"euc-kr", &index[..euckr]);
    decoders::euckr(&index[..euckr]);
    // that, and the part of it which ISO-2022-JP reads
    let jis0208 = read(&rt, "index-jis0208.u32le", &mut index)?;
    show(b"jis0208", &index[..jis0208]);
    show(b"jis0208", &index[..jis0208.min(Iso2022Jp::FIRST)]);
    Ok(())
}
