// What a run over several pairs of files prints: a line a pair, each in one write, and the counts at its end.
use names::Console;
use records::Refusal;
use std::fmt::InlineText;
use std::io;

pub fn accepted(console: &Console, name: &[u8]) -> io::Result<()> {
    names::write_line(console, name, b" accepted\n")
}

pub fn refused(console: &Console, name: &[u8], x: Refusal) -> io::Result<()> {
    let words = InlineText::<32>::of(format_args!(" refused {}\n", u32::from(x)));
    names::write_line(console, name, words.as_str().as_bytes())
}

// On standard error too.
pub fn unread(console: &Console, name: &[u8]) -> io::Result<()> {
    names::say_line(console, name, b" could not be read\n");
    names::write_line(console, name, b" could not be read\n")
}

// Tells on standard error why a line of that list names no pair.
pub fn bad_line(console: &Console, list: &[u8], number: u64, why: &[u8]) {
    let place = InlineText::<32>::of(format_args!(": line {number}"));
    let mut words = [0u8; 96];
    let n = names::put(place.as_str().as_bytes(), &mut words, 0);
    let end = names::put(why, &mut words, n);
    names::say_line(console, list, &words[..end]);
}

// The last line. It ends in a number after `read`, as no line of a pair does, whatever its file is called.
pub fn counts(console: &Console, accepted: u64, refused: u64, unread: u64) -> io::Result<()> {
    println!(console; "accepted {accepted}, refused {refused}, could not be read {unread}")
}

// How often progress is shown, in pairs.
const PROGRESS: u64 = 100;

// Shows on a terminal how many pairs were checked. What is written next starts at the line's start, and no line is shorter.
pub fn progress(console: &Console, checked: u64) {
    if checked % PROGRESS == 0 && console.shows_progress() {
        let _ = eprint!(console; "{checked}\r");
    }
}

// Takes what progress has shown off the terminal.
pub fn settle(console: &Console) {
    if console.shows_progress() {
        let _ = eprint!(console; "                          \r");
    }
}
