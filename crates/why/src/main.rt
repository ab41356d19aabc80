// Tells of the file on standard input why and where in it each place dropped out, or the place's score, over document 01's
// demonstration data, or that it is too long: `answer_of` of the bytes that were read (`account/specs/Account.antt`).
#![tactic(auto)]

use scribe::STDIN_FILENO;

// `slate` has this too, but for the function: shared, it would take the function as an argument, in as many lines.
fn main() {
    let mut bytes = [0u8; label::READ];
    let n = io::read_full(STDIN_FILENO, &mut bytes);
    account::print_answer(&bytes[..n]);
}
