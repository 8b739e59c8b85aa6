#![tactic(auto)]
// Files and standard input, read so that a failure is told from the end; and files written whole or not at all.
mod write;

ghost use Rattle.std.specs.Prelude.{◌≡◌};
ghost use Rattle.std.specs.Io.{ReadsAtMost};
ghost use Rattle.files.specs.Read.{TakesAll};

use names::{Console, PATH_MAX};
use std::env::FillError;
use std::fs::File;
use std::io;
use std::io::{Error, Read};
use std::rt::Env;
pub use write::write_argument;

// The C library's numbers of a name with a 0 in it or an argument that is missing, of a name that is too long, and of bytes that are no
// text.
const INVALID_ARGUMENT: i32 = 22;

const NAME_TOO_LONG: i32 = 36;

const NO_TEXT: i32 = 84;

// Says by that name why there is no answer, where there is none.
fn told<T>(console: &Console, name: &[u8], answer: io::Result<T>) -> io::Result<T>
    ensures { result ≡ answer }
{
    answer.inspect_err(|error| names::fail(console, name, *error))
}

// Reads until buf is full or the input ends, and answers how many bytes were read. A read that fails is no end, whatever came before it.
pub fn read_open<R: Read>(from: &mut R, buf: &mut [u8]) -> io::Result<usize>
    ensures fits { ReadsAtMost result buf.new }
    ensures takes { TakesAll (R.remaining from.old) (R.remaining from.new) result buf.new }
{
    let mut done = 0;
    while done < buf.len() {
        let n = from.read(&mut buf[done..])?;
        if n == 0 {
            return Ok(done);
        }
        done += n;
    }
    Ok(done)
}

// Reads standard input; says so where it cannot.
pub fn read_input(console: &Console, buf: &mut [u8]) -> io::Result<usize>
    ensures { ReadsAtMost result buf.new }
{
    let n = read_open(&mut console.rt.stdin(), buf);
    told(console, b"standard input", n)
}

// The path as text, which is what std takes; or why no file can be opened by it.
fn text_of(path: &[u8]) -> io::Result<&str> {
    if path.len() >= PATH_MAX {
        return Err(Error::from_raw_os_error(NAME_TOO_LONG));
    }
    if path.contains(&0) {
        return Err(Error::from_raw_os_error(INVALID_ARGUMENT));
    }
    std::str::from_utf8(path).map_err(|_| Error::from_raw_os_error(NO_TEXT))
}

// Opens the file at path to read it.
pub fn open_path(console: &Console, path: &[u8]) -> io::Result<File> {
    File::open(&console.rt, text_of(path)?)
}

// Opens the file at path and reads it.
fn read_file(console: &Console, path: &[u8], buf: &mut [u8]) -> io::Result<usize>
    ensures { ReadsAtMost result buf.new }
{
    read_open(&mut open_path(console, path)?, buf)
}

// Reads the file at path, at most as much as buf holds; says so, by name, where it cannot.
pub fn read_path(console: &Console, path: &[u8], buf: &mut [u8]) -> io::Result<usize>
    ensures { ReadsAtMost result buf.new }
{
    let n = read_file(console, path, buf);
    told(console, path, n)
}

// The C library's number of what is wrong with an argument.
fn number(error: FillError) -> i32 {
    match error {
        FillError::TooLong => NAME_TOO_LONG,
        FillError::NotPresent => INVALID_ARGUMENT,
    }
}

// Puts argument i at the start of buf, and answers its length. One that is longer leaves its first bytes there.
pub fn argument(console: &Console, i: usize, buf: &mut [u8]) -> io::Result<usize>
    ensures { ReadsAtMost result buf.new }
{
    console
        .rt
        .arg(i, buf)
        .map_err(|error| Error::from_raw_os_error(number(error)))
}

// Puts argument i, the name of a file, at the start of path, and answers its length; says so, by what stands there, where it cannot.
pub fn path_argument(console: &Console, i: usize, path: &mut [u8; PATH_MAX]) -> io::Result<usize>
    ensures { ReadsAtMost result path.new }
{
    let n = argument(console, i, path);
    told(console, path, n)
}

// How many arguments there are, the program's name among them.
pub fn argument_count(console: &Console) -> usize {
    let mut start = [0u8; 1];
    for i in 0..usize::MAX {
        if let Err(FillError::NotPresent) = console.rt.arg(i, &mut start) {
            return i;
        }
    }
    usize::MAX
}

// Whether argument i is `-`, which stands for standard input.
pub fn is_input(console: &Console, i: usize) -> bool {
    is_word(console, i, b"-")
}

// Whether argument i is the word.
pub fn is_word(console: &Console, i: usize, word: &[u8]) -> bool {
    let mut given = [0u8; 16];
    argument(console, i, &mut given).is_ok_and(|n| &given[..n] == word)
}

// Reads the file that argument i names, `-` for standard input; says so where it cannot.
pub fn read_argument(console: &Console, i: usize, buf: &mut [u8]) -> io::Result<usize>
    ensures { ReadsAtMost result buf.new }
{
    if is_input(console, i) {
        return read_input(console, buf);
    }
    let mut path = [0u8; PATH_MAX];
    let n = path_argument(console, i, &mut path)?;
    read_path(console, &path[..n], buf)
}
