// Replays the Rust's answers for the leaves and compares every value. Standard input holds them in the form that
// oracle/README.md gives for `leaves`: 256 bytes of flags, then cases of chunks with what each chunk gives.
#![tactic(auto)]

ghost use Rattle.std.specs.Prelude.{◌<◌, ◌≤◌, length};

use context::{Context, Scanned};
use scribe::{STDIN_FILENO, STDOUT_FILENO};

// How far the answers were read, how many chunks of the case are still to come, and how many chunks there were, and were right.
#[derive(Clone, Copy)]
struct Progress {
    at: usize,
    left: u8,
    context: Context,
    chunks: usize,
    right: usize,
}

// What the tests of one byte give, as the answers have it.
fn byte_answer(b: u8) -> u8 {
    let unfit = octets::contains_upper_case_period_or_non_ascii(&[b]);
    let held = octets::problematic_lead(b);
    u8::from(octets::is_ascii_punctuation(b)) + 2 * u8::from(held) + 4 * u8::from(unfit)
}

// How many of the 256 bytes have the answer that stands first.
fn bytes_right(answers: &[u8]) -> usize {
    (0..=u8::MAX)
        .zip(answers)
        .filter(|(b, answer)| byte_answer(*b) == **answer)
        .count()
}

// What a chunk gives, as the answers have it: the context after it, the non-ASCII count, the trigger and its offset,
// and whether the chunk is unfit for a label.
fn chunk_answer(c: Context, chunk: &[u8]) -> [u8; 7] {
    let (kind, offset) = match context::scan(chunk) {
        Scanned::End => (0, chunk.len()),
        Scanned::Escape(at) => (1, at),
        Scanned::NonAscii(at) => (2, at),
    };
    let bytes = c.bytes();
    [
        (c.count() % 256) as u8,
        if 0 < c.count() { bytes[0] } else { 0 },
        if 1 < c.count() { bytes[1] } else { 0 },
        (context::count_non_ascii(chunk) % 256) as u8,
        kind,
        (offset % 256) as u8,
        u8::from(octets::contains_upper_case_period_or_non_ascii(chunk)),
    ]
}

// One chunk of a case: its length, its bytes, seven answers. What is cut short ends the reading.
fn chunk_turn(answers: &[u8], p: Progress) -> Progress
    requires { (p.at < length answers.now) × (0 < p.left) }
    ensures { (p.at < result.at) × (result.at ≤ length answers.now) }
{
    let start = p.at + 1;
    let len = usize::from(answers[p.at]);
    if answers.len() - start < len + 7 {
        return Progress {
            at: answers.len(),
            left: p.left,
            context: p.context,
            chunks: p.chunks,
            right: p.right,
        };
    }
    let end = start + len;
    let context = p.context.push(&answers[start..end]);
    let answer = chunk_answer(context, &answers[start..end]);
    let is_right = check::same(&answer, &answers[end..end + 7]);
    Progress {
        at: end + 7,
        left: p.left - 1,
        context,
        chunks: p.chunks.saturating_add(1),
        right: p.right.saturating_add(usize::from(is_right)),
    }
}

// A case's number of chunks, or a chunk.
fn turn(answers: &[u8], p: Progress) -> Progress
    requires { p.at < length answers.now }
    ensures { (p.at < result.at) × (result.at ≤ length answers.now) }
{
    if 0 < p.left {
        return chunk_turn(answers, p);
    }
    Progress {
        at: p.at + 1,
        left: answers[p.at],
        context: Context::fresh(),
        chunks: p.chunks,
        right: p.right,
    }
}

fn replay(answers: &[u8], from: usize) -> Progress
    requires { from ≤ length answers.now }
{
    let mut p = Progress {
        at: from,
        left: 0,
        context: Context::fresh(),
        chunks: 0,
        right: 0,
    };
    // `at` goes on by as many bytes as a chunk says, so no `for` counts it.
    while p.at < answers.len() {
        p = turn(answers, p);
    }
    p
}

// What can't be written is passed over, and the program goes on: `println!` would give each call a Result to throw away.
fn print(name: &[u8], right: usize, of: usize) {
    io::write_all(STDOUT_FILENO, name);
    io::print_decimal(STDOUT_FILENO, right as u64);
    io::write_all(STDOUT_FILENO, b" right of ");
    io::print_decimal(STDOUT_FILENO, of as u64);
    io::write_all(STDOUT_FILENO, b"\n");
}

fn report(answers: &[u8]) {
    if answers.len() < 256 {
        io::write_all(STDOUT_FILENO, b"no answers\n");
        return;
    }
    print(b"bytes: ", bytes_right(answers), 256);
    let p = replay(answers, 256);
    print(b"chunks: ", p.right, p.chunks);
    if p.left != 0 {
        io::write_all(STDOUT_FILENO, b"cut short\n");
    }
}

fn main() {
    let mut buffer = [0u8; 262144];
    let n = io::read_full(STDIN_FILENO, &mut buffer);
    report(&buffer[..n]);
}
