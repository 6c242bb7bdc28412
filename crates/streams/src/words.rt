// What a program says on standard error. A program here has no status to end with: its wrapper makes one of what it says. The functions give
// nothing back, and no contract speaks of the words.
ghost use Rattle.std.specs.Prelude.{◌≡◌};

use crate::output;
use crate::output::Output;
use std::io::{Stderr, Write};

// That the line was refused, after the refusal was printed; the wrapper keeps the word to itself.
pub fn say_refused(stderr: Stderr)
    ensures { result ≡ tt }
{
    say(stderr, b"refused\n");
}

// That the output could not be written, where it could not, after the program's name.
pub fn say_if_not_written(stderr: Stderr, name: &[u8], done: Output)
    ensures { result ≡ tt }
{
    if !output::taken(done) {
        say(stderr, name);
        say(stderr, b": could not be written\n");
    }
}

// Writes to standard error; where that fails, nobody is left to be told.
fn say(stderr: Stderr, text: &[u8]) {
    let mut to = stderr;
    let _ = to.write_all(text);
}
