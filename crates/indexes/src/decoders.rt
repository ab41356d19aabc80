// Every pair of bytes through a decoder, compared with the index: where a lead is pending, the entries stand in the order of
// the leads and, for a lead, of its trails.
ghost use Rattle.std.specs.Prelude.{◌<◌};

use pairs::{Decoded, Event};
use scribe::STDOUT_FILENO;

// What the pairs gave: the index's own entry, a special, an error of one byte or of two, or anything else.
#[derive(Clone, Copy)]
struct Counts {
    mapped: u64,
    special: u64,
    one: u64,
    two: u64,
    other: u64,
}

fn next(n: u64) -> u64 {
    n.wrapping_add(1)
}

impl Counts {
    fn none() -> Counts {
        Counts {
            mapped: 0,
            special: 0,
            one: 0,
            two: 0,
            other: 0,
        }
    }

    // One pair's answer, where the index has this entry.
    fn with(self, reply: Option<Decoded>, at: usize, entry: u32) -> Counts {
        match reply {
            Some(decoded) => self.with_event(decoded.event, at, entry),
            None => self.with_other(),
        }
    }

    fn with_event(self, event: Event, at: usize, entry: u32) -> Counts {
        match event {
            Event::Pending => self.with_other(),
            Event::Point(point) => {
                if point != entry {
                    return self.with_other();
                }
                let mapped = next(self.mapped);
                Counts { mapped, ..self }
            }
            Event::Two(p, q) => {
                if !is_special(p, q, at) {
                    return self.with_other();
                }
                let special = next(self.special);
                Counts { special, ..self }
            }
            Event::Error(size) => {
                if size == 1 {
                    let one = next(self.one);
                    return Counts { one, ..self };
                }
                let two = next(self.two);
                Counts { two, ..self }
            }
        }
    }

    fn with_other(self) -> Counts {
        let other = next(self.other);
        Counts { other, ..self }
    }

    fn print(self, name: &[u8]) {
        io::write_all(STDOUT_FILENO, name);
        crate::print_field(b" mapped ", self.mapped);
        crate::print_field(b" special ", self.special);
        crate::print_field(b" error-1 ", self.one);
        crate::print_field(b" error-2 ", self.two);
        crate::print_field(b" other ", self.other);
        io::write_all(STDOUT_FILENO, b"\n");
    }
}

fn is_special(p: u32, q: u32, at: usize) -> bool {
    matches!(
        (at, p, q),
        (1133, 0xCA, 0x304) | (1135, 0xCA, 0x30C) | (1164, 0xEA, 0x304) | (1166, 0xEA, 0x30C)
    )
}

// Every pair of a decoder whose leads, from 0x81 to 0xFE, have so many trails each.
fn counted<D, T>(index: &[u32], trails: usize, decoded: D, is_trail: T) -> Counts
where
    D: Fn(u8, u8) -> Option<Decoded>,
    T: Fn(u8) -> bool,
    requires decodes { D.IsAlwaysCallable decoded }
    requires tells { T.IsAlwaysCallable is_trail }
    requires few { trails < 256 }
{
    let mut counts = Counts::none();
    for lead in 0x81..=0xFE {
        let mut at = usize::from(lead - 0x81) * trails;
        for b in 0..=u8::MAX {
            let entry = index.get(at).copied().unwrap_or(0);
            counts = counts.with(decoded(lead, b), at, entry);
            if is_trail(b) {
                at = at.wrapping_add(1);
            }
        }
    }
    counts
}

pub(crate) fn big5(index: &[u32]) {
    counted(
        index,
        157,
        |lead, b| big5_decoder::decoded(lead, b, index),
        |b| matches!(b, 0x40..=0x7E | 0xA1..=0xFE),
    )
    .print(b"big5 pairs");
}

pub(crate) fn euckr(index: &[u32]) {
    counted(
        index,
        190,
        |lead, b| euckr_decoder::decoded(lead, b, index),
        |b| matches!(b, 0x41..=0xFE),
    )
    .print(b"euc-kr pairs");
}
