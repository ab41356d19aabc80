// Prints the sheet of the label on standard input, over document 01's demonstration data, or that it is too long:
// `answer_of` of the bytes that were read (`label/specs/Label.antt`).
#![tactic(auto)]

use scribe::STDIN_FILENO;

// `why` has this too, but for the function: shared, it would take the function as an argument, in as many lines.
fn main() {
    let mut bytes = [0u8; label::READ];
    let n = io::read_full(STDIN_FILENO, &mut bytes);
    label::print_answer(&bytes[..n]);
}
