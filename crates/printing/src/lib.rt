#![tactic(auto)]
// What the programs print. A function that answers says whether all of it was written.
pub mod lines;
pub mod words;

ghost use Rattle.std.specs.Prelude.{◌≡◌};

use names::Console;
use records::{Record, Refusal};
use std::io;
use std::io::{Error, ErrorKind};

// Says so where not all could be written.
pub fn finished(console: &Console, written: io::Result<()>) -> io::Result<()>
    ensures { result ≡ written }
{
    written.inspect_err(|error| names::fail(console, b"standard output", *error))
}

// A number's line.
pub fn number(console: &Console, n: u64) -> io::Result<()> {
    println!(console; "{n}")
}

// `refused` and the number.
pub fn refused(console: &Console, x: Refusal) -> io::Result<()> {
    println!(console; "refused {}", u32::from(x))
}

// One pair, of its record in a listing: rule, space, place.
fn pair(console: &Console, r: Record) -> io::Result<()> {
    println!(console; "{} {}", r.a, r.b)
}

// A line a pair, from the first n records of a listing, which must have as many.
pub fn pairs(console: &Console, list: &[u8], n: usize) -> io::Result<()> {
    for i in 0..n {
        if list.len() / 8 <= i {
            return Err(Error::from(ErrorKind::UnexpectedEof));
        }
        pair(console, records::record_at(list, 8 * i))?;
    }
    Ok(())
}
