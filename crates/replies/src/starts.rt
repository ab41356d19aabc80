// Every start: the number that is replied, and which places take part, held to the bits read another way, from the last place
// to the first. The 512 that are accepted and as many that are refused are fed a closing chunk, which both take.
use crate::rows::{FEED, NUMBERS, Rows, UNSET};
use crate::{lent, rows, tally};
use places::place::Slate;
use scribe::STDOUT_FILENO;
use state::{Started, State};

#[derive(Clone, Copy)]
struct Starts {
    accepted: u64,
    refused: u64,
    differ: u64,
}

// The number that a start's bits are to be replied with.
fn expected(bits: u16) -> u8 {
    if bits / 256 < 2 { 0 } else { 12 }
}

// The places that take part, as bits.
fn taking_part(places: Slate) -> u16 {
    places.iter().rev().fold(0, |bits, place| {
        bits.wrapping_add(bits)
            .wrapping_add(u16::from(place.score.is_ok()))
    })
}

fn is_fed(bits: u16, state: State, chunk: &Rows) -> bool {
    if 1024 <= bits {
        return true;
    }
    let fed = lent::fed(state, chunk);
    let reply = fed.reply;
    reply.number() == 0
}

fn is_right(bits: u16, started: Started, chunk: &Rows) -> bool {
    let reply = started.reply;
    let state = started.state;
    let places = state.places;
    let number = reply.number();
    let named = if number == 0 { bits } else { 0 };
    number == expected(bits) && taking_part(places) == named && is_fed(bits, state, chunk)
}

fn counted(n: u64, more: bool) -> u64 {
    if more { n % 1_000_000 + 1 } else { n }
}

impl Starts {
    fn with(self, bits: u16, chunk: &Rows) -> Starts {
        let started = state::start(bits);
        let reply = started.reply;
        Starts {
            accepted: counted(self.accepted, reply.number() == 0),
            refused: counted(self.refused, reply.number() == 12),
            differ: counted(self.differ, !is_right(bits, started, chunk)),
        }
    }

    fn print(self) {
        tally::say(b"starts: accepted ");
        io::print_decimal(STDOUT_FILENO, self.accepted);
        tally::say(b", refused as 12 ");
        io::print_decimal(STDOUT_FILENO, self.refused);
        tally::say(b", differ ");
        io::print_decimal(STDOUT_FILENO, self.differ);
        tally::say(b"\n");
    }
}

pub(crate) fn run() {
    let mut chunk = [UNSET; NUMBERS];
    rows::set(&mut chunk, FEED, b'b', 1);
    rows::set(&mut chunk, FEED, b'l', 1);
    let starts = Starts {
        accepted: 0,
        refused: 0,
        differ: 0,
    };
    (0..=u16::MAX)
        .fold(starts, |starts, bits| starts.with(bits, &chunk))
        .print();
}
