// A grid as text: a state's number, and a line for each run of equal entries in its row.
ghost use Rattle.std.specs.Prelude.{◌≡◌, ◌<◌, ◌≤◌, length};
ghost use Rattle.scribe.specs.Lent.{with_text};
ghost use Rattle.utf8_sheet.specs.Sheet.{range_text, line_of, lines_of, runs_of, state_text, sheet_of};
ghost use Rattle.utf8_sheet.specs.LoopLaws.{Ended};

use scribe::page::Page;
use utf8::grid::{BYTES, STATES};

// Neighbouring bytes with the same entry: the first, the last, and the entry.
#[derive(Clone, Copy)]
struct Run {
    first: u8,
    last: u8,
    entry: u8,
}

// The place after the run that starts at a place.
fn run_end(row: &[u8], from: usize) -> usize
    requires { from < length row.now }
    ensures { Ended row.now from result }
{
    let entry = row[from];
    for end in from + 1..row.len() {
        if row[end] != entry {
            return end;
        }
    }
    row.len()
}

fn range(out: &mut Page, first: u8, last: u8)
    ensures { out.new ≡ with_text out.old (range_text first last) }
{
    out.hex(first);
    if first != last {
        out.word(b"..");
        out.hex(last);
    }
}

fn line(out: &mut Page, run: Run)
    ensures { out.new ≡ with_text out.old (line_of run) }
{
    range(out, run.first, run.last);
    out.byte(b' ');
    out.decimal(u64::from(run.entry));
    out.byte(b'\n');
}

fn lines(out: &mut Page, row: &[u8])
    requires { length row.now ≤ 256 }
    ensures { out.new ≡ with_text out.old (lines_of (runs_of row.now)) }
{
    // A step is a run. `chunk_by` gives a run's entries and not its first byte, which would be counted by hand all the same.
    let mut from = 0;
    while from < row.len() {
        let past = run_end(row, from);
        let run = Run {
            first: from as u8,
            last: (past - 1) as u8,
            entry: row[from],
        };
        line(out, run);
        from = past;
    }
}

fn state(out: &mut Page, s: usize, row: &[u8])
    requires { length row.now ≤ 256 }
    ensures { out.new ≡ with_text out.old (state_text s row.now) }
{
    out.word(b"state ");
    out.decimal(s as u64);
    out.byte(b'\n');
    lines(out, row);
}

// Nine rows of 256.
pub(crate) fn write(out: &mut Page, grid: &[u8])
    requires { length grid.now ≡ 2304 }
    ensures { out.new ≡ with_text out.old (sheet_of grid.now) }
{
    for s in 0..STATES {
        let from = BYTES * s;
        let past = from + BYTES;
        state(out, s, &grid[from..past]);
    }
}
