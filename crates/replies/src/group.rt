// A group of cases: each is a pair of states, both fed.
use crate::rows::Rows;
use crate::tally::Tally;
use crate::{lent, rows, tally};
use scribe::STDOUT_FILENO;

#[derive(Clone, Copy)]
pub(crate) struct Group {
    pairs: u64,
    // How many pairs the comparison told apart, before the feed and after it.
    before: u64,
    after: u64,
    first: Tally,
    second: Tally,
}

fn counted(n: u64, more: bool) -> u64 {
    if more { n % 1_000_000 + 1 } else { n }
}

impl Group {
    pub(crate) fn fresh() -> Group {
        Group {
            pairs: 0,
            before: 0,
            after: 0,
            first: Tally::fresh(),
            second: Tally::fresh(),
        }
    }

    pub(crate) fn with(self, first: &Rows, second: &Rows) -> Group {
        let a = rows::state(first);
        let b = rows::state(second);
        let fed_a = lent::fed(a, first);
        let fed_b = lent::fed(b, second);
        let a_after = fed_a.state;
        let b_after = fed_b.state;
        let tally_a = self.first;
        let tally_b = self.second;
        Group {
            pairs: counted(self.pairs, true),
            before: counted(self.before, a != b),
            after: counted(self.after, a_after != b_after),
            first: tally_a.with(a, fed_a),
            second: tally_b.with(b, fed_b),
        }
    }

    pub(crate) fn print(self) {
        let first = self.first;
        let second = self.second;
        tally::say(b" ");
        io::print_decimal(STDOUT_FILENO, self.pairs);
        tally::say(b" pairs, told apart ");
        io::print_decimal(STDOUT_FILENO, self.before);
        tally::say(b", after it ");
        io::print_decimal(STDOUT_FILENO, self.after);
        first.print();
        second.print();
        tally::say(b"\n");
    }
}
