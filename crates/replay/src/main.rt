// Reads the replay format from standard input and prints its answers (docs/REPLAY.md).
#![tactic(auto)]

use scribe::STDIN_FILENO;

fn main() {
    play::play(STDIN_FILENO, true);
}
