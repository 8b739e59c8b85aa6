// The documents' words for each number, on standard error.
use names::Console;
use records::Refusal;
use std::io;
use std::io::Eprint;

// Tells on standard error what a refusal means.
pub fn tell(console: &Console, x: Refusal) -> io::Result<()> {
    console.eprintln(x)
}
