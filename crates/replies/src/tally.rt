// What the feeds of one group had in common.
use detector::feed::Fed;
use scribe::STDOUT_FILENO;
use state::State;

// Of each: the value that all feeds gave, or 9 where two differ.
#[derive(Clone, Copy)]
pub(crate) struct Tally {
    feeds: u64,
    reply: u8,
    flag: u8,
    same: u8,
    in_order: u8,
}

impl Tally {
    pub(crate) fn fresh() -> Tally {
        Tally {
            feeds: 0,
            reply: 9,
            flag: 9,
            same: 9,
            in_order: 9,
        }
    }

    fn joined(self, old: u8, new: u8) -> u8 {
        if self.feeds == 0 {
            return new;
        }
        if old == new { old } else { 9 }
    }

    // One feed more, from the state `before`.
    pub(crate) fn with(self, before: State, fed: Fed) -> Tally {
        let state = fed.state;
        let reply = fed.reply;
        Tally {
            feeds: self.feeds % 1_000_000 + 1,
            reply: self.joined(self.reply, reply.number()),
            flag: self.joined(self.flag, u8::from(reply.flag())),
            same: self.joined(self.same, u8::from(before == state)),
            in_order: self.joined(self.in_order, u8::from(state.is_in_order())),
        }
    }

    // The reply and the flag; whether the state is as before; whether it is in order.
    pub(crate) fn print(self) {
        say(b"; reply ");
        digit(self.reply);
        say(b" ");
        digit(self.flag);
        word(self.same, b" changed", b" same");
        word(self.in_order, b" out of order", b" in order");
    }
}

pub(crate) fn say(words: &[u8]) {
    io::write_all(STDOUT_FILENO, words);
}

fn digit(d: u8) {
    if d == 9 {
        say(b"mixed");
        return;
    }
    io::print_decimal(STDOUT_FILENO, d as u64);
}

fn word(d: u8, no: &[u8], yes: &[u8]) {
    match d {
        0 => say(no),
        1 => say(yes),
        _ => say(b" mixed"),
    }
}
