// The script, byte by byte: names are printed as they come, each case is run at its end, and each group's counts are printed
// at the end of its line.
use crate::group::Group;
use crate::pen::Pen;
use crate::rows::{NUMBERS, Rows, UNSET};
use crate::tally;

#[derive(Clone, Copy)]
struct Stand {
    pen: Pen,
    group: Group,
}

// A case ends: the next one begins with no number set.
fn case(group: Group, first: &mut Rows, second: &mut Rows) -> Group {
    let with = group.with(first, second);
    *first = [UNSET; NUMBERS];
    *second = [UNSET; NUMBERS];
    with
}

fn in_cases(pen: Pen, group: Group, c: u8, first: &mut Rows, second: &mut Rows) -> Stand {
    pen.store(c, first, second);
    match c {
        b';' => Stand {
            pen: pen.with(c),
            group: case(group, first, second),
        },
        b'\n' => {
            let all = case(group, first, second);
            all.print();
            Stand {
                pen: Pen::fresh(),
                group: Group::fresh(),
            }
        }
        _ => Stand {
            pen: pen.with(c),
            group,
        },
    }
}

fn turn(s: Stand, c: u8, first: &mut Rows, second: &mut Rows) -> Stand {
    let pen = s.pen;
    let group = s.group;
    if pen.named {
        return in_cases(pen, group, c, first, second);
    }
    tally::say(&[c]);
    Stand {
        pen: pen.in_name(c),
        group,
    }
}

pub(crate) fn run(text: &[u8]) {
    let mut first = [UNSET; NUMBERS];
    let mut second = [UNSET; NUMBERS];
    let mut s = Stand {
        pen: Pen::fresh(),
        group: Group::fresh(),
    };
    for &c in text {
        s = turn(s, c, &mut first, &mut second);
    }
}
