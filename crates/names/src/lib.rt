#![tactic(auto)]
// Names of files: put together in a buffer, and shown so that each fills one line and is no other's.
mod console;

ghost use Rattle.std.specs.Prelude.{◌≡◌, [], ◌∷◌, ◌++◌, ◌+◌, ◌*◌, ◌-◌, ◌≤◌, ◌<◌, min, length, take};
ghost use Rattle.std.proofs.Math.Seq.{paste};
ghost use Rattle.names.specs.Counts.{IsPrefixLen};
ghost use Rattle.names.specs.Shown.{plain, shown, shown_byte};

pub use console::{Console, UNREAD};
use std::fmt::InlineText;
use std::io;
use std::io::Print;

// The most bytes of a path, with the 0 that ends it.
pub const PATH_MAX: usize = 4096;

const FIRST_PLAIN: u8 = 32;

const BACKSLASH: u8 = b'\\';

const DELETE: u8 = 127;

// How much of a name is shown that is too long.
const NAME_SHOWN: usize = 64;

// A byte takes four at the most where it is shown.
const TITLE_ROOM: usize = 4 * PATH_MAX;

// The most words after a name, in bytes.
const WORDS_ROOM: usize = 128;

const LINE_ROOM: usize = TITLE_ROOM + WORDS_ROOM;

// Puts src into dst from `at` on, as much as finds room, and answers where it ends.
pub fn put(src: &[u8], dst: &mut [u8], at: usize) -> usize
    requires { at ≤ length dst.old }
    ensures ends { result ≡ at + min (length src.now) (length dst.old - at) }
    ensures puts { dst.new ≡ paste dst.old at src.now (result - at) }
    ensures fits { IsPrefixLen result dst.new }
{
    let n = src.len().min(dst.len() - at);
    let end = at + n;
    dst[at..end].copy_from_slice(&src[..n]);
    end
}

// Whether a byte stands for itself where it is shown.
#[tactic(auto, using(std::proofs::lemmas::Bool::Decides::nat_tests), unfolding(crate::specs::Shown::plain))]
fn is_plain(c: u8) -> bool
    ensures { result ≡ plain c }
{
    !matches!(c, ..FIRST_PLAIN | BACKSLASH | DELETE)
}

// Puts one byte of a name into out as it is shown, and answers where it ends.
#[tactic(auto, using(crate::proofs::Showing::all_put), unfolding(crate::specs::Shown::shown_byte, crate::specs::Shown::escaped))]
fn put_byte(c: u8, out: &mut [u8], at: usize) -> usize
    requires { at + 4 ≤ length out.old }
    ensures says { take result out.new ≡ take at out.old ++ shown_byte c }
    ensures near { result ≤ at + 4 }
{
    if is_plain(c) {
        return put(&[c], out, at);
    }
    let escape = [BACKSLASH, b'0' + c / 64, b'0' + c / 8 % 8, b'0' + c % 8];
    put(&escape, out, at)
}

// Puts the name into out from `at` on as it is shown, as much as finds room, and answers where it ends.
#[tactic(auto, using(crate::proofs::Showing::none_yet, crate::proofs::Showing::one_more))]
fn put_name(name: &[u8], out: &mut [u8], at: usize) -> usize
    requires { at ≤ length out.old }
    ensures says { at + 4 * length name.now ≤ length out.old → take result out.new ≡ take at out.old ++ shown name.now }
    ensures fits { IsPrefixLen result out.new }
{
    let mut end = at;
    for c in name {
        if out.len() - end < 4 {
            return end;
        }
        end = put_byte(*c, out, end);
    }
    end
}

// Puts the name into out from its start on as it is shown, one that is too long for a file's by its beginning; answers where it ends.
fn put_title(name: &[u8], out: &mut [u8]) -> usize
    requires { 4 * 4095 ≤ length out.old }
    ensures says { length name.now < 4096 → take result out.new ≡ shown name.now }
    ensures fits { IsPrefixLen result out.new }
{
    if name.len() < PATH_MAX {
        return put_name(name, out, 0);
    }
    let n = put_name(&name[..NAME_SHOWN], out, 0);
    put(b"..", out, n)
}

// Puts the name as it is shown and the words into text, and answers where they end.
fn put_line(name: &[u8], words: &[u8], text: &mut [u8]) -> usize
    requires { 4 * 4095 ≤ length text.old }
    ensures { IsPrefixLen result text.new }
{
    let n = put_title(name, text);
    put(words, text, n)
}

// Has the name as it is shown and the words written at once, so that lines of programs side by side stay whole.
fn line_by<W: FnOnce(&[u8]) -> io::Result<()>>(
    write: W,
    name: &[u8],
    words: &[u8],
) -> io::Result<()>
    requires { W.IsAlwaysCallable write }
{
    let mut text = [0u8; LINE_ROOM];
    let n = put_line(name, words, &mut text);
    write(&text[..n])
}

// Writes a line to standard output: the name as it is shown, and the words.
pub fn write_line(console: &Console, name: &[u8], words: &[u8]) -> io::Result<()> {
    line_by(|line| console.write_all(line), name, words)
}

// The same to standard error. Where nothing can be written there, nobody can be told.
pub fn say_line(console: &Console, name: &[u8], words: &[u8]) {
    let _ = line_by(|line| console.say(line), name, words);
}

// What the C library says of an error of the system, without the number that std puts behind it.
fn reason(text: &str) -> &str {
    text.split_once(" (os error ")
        .map_or(text, |(words, _)| words)
}

// Writes a line to standard error: the name, a colon and what the error says.
pub fn fail(console: &Console, name: &[u8], error: io::Error) {
    let said = InlineText::<WORDS_ROOM>::of(error);
    let words = InlineText::<WORDS_ROOM>::of(format_args!(": {}\n", reason(said.as_str())));
    say_line(console, name, words.as_str().as_bytes());
}
