#![tactic(auto)]
// A list of pairs of files, line by line: a pack's name, a tab, a certificate's name. A line ends in a line end or, so that names may
// hold one, in a byte 0. A list may be longer than any buffer, so what was read of it and not yet taken stands in a window.
ghost use Rattle.std.specs.Prelude.{ℕ, ◌-◌, ◌≤◌, ◌<◌, length, IfOk, IsOkAnd, OnErr, MatchOption};
ghost use Rattle.lists.specs.Lists.{Emptied, EndsAt, Filled, FilledBy, First, HasEnded, NoneBetween, tab, Refilled, Splits, Stands, Whole};

use std::io;
use std::io::Read;

const TAB: u8 = b'\t';

pub const LINE_END: u8 = b'\n';

pub const ZERO: u8 = 0;

// What was taken from a list: a line, a last line without its end, the start or a part of one that is longer than the buffer, or nothing
// since the list has ended.
#[derive(Clone, Copy, PartialEq, Eq)]
pub enum Taken {
    Line,
    Unended,
    Part,
    End,
}

// What was taken, how many bytes of it, and where the window's bytes stand that are still to be taken.
#[derive(Clone, Copy)]
pub struct Next {
    pub taken: Taken,
    pub bytes: usize,
    pub from: usize,
    pub to: usize,
}

// Where bytes stand in the window that are still to be taken: none of them where the list has ended.
#[derive(Clone, Copy)]
struct Window {
    from: usize,
    to: usize,
}

// Where the bytes stand that a read gave: from the window's start on, however few. A read that failed keeps its error.
fn filled(read: io::Result<usize>) -> io::Result<Window>
    ensures { FilledBy read result }
{
    let to = read?;
    Ok(Window { from: 0, to })
}

// Reads on where all of the window has been taken. A read that fails is no end of the list.
fn refilled<R: Read>(list: &mut R, window: &mut [u8], from: usize, to: usize) -> io::Result<Window>
    requires { to ≤ length window.old }
    ensures keeps { IfOk result (λ r. Refilled from to window.old r window.new) }
    ensures fails { OnErr result (to ≤ from) }
    ensures fills { to ≤ from → IfOk result (λ r. Filled (R.remaining list.old) (R.remaining list.new) r window.new) }
{
    if from < to {
        return Ok(Window { from, to });
    }
    filled(list.read(window))
}

// The list has ended after so many bytes of a line.
#[tactic(auto, unfolding(crate::specs::Lists::at_end))]
fn ended(bytes: usize) -> Next
    ensures { Emptied bytes result }
{
    let taken = if bytes == 0 {
        Taken::End
    } else {
        Taken::Unended
    };
    Next {
        taken,
        bytes,
        from: 0,
        to: 0,
    }
}

// Takes the next line, without the byte that ends it, or as much of it as finds room.
pub fn take_line<R: Read>(
    list: &mut R,
    ends: u8,
    window: &mut [u8],
    at: usize,
    end: usize,
    line: &mut [u8],
) -> io::Result<Next>
    requires { end ≤ length window.old }
    ensures stands { IfOk result (λ r. Stands r window.new line.new) }
    ensures takes { (k : ℕ) → EndsAt ends window.old at end k → k - at < length line.old → IsOkAnd result (λ r. Whole window.old line.new at end k r window.new) }
    ensures ended { 0 < length window.old → IfOk result (λ r. HasEnded r.taken (R.remaining list.new)) }
{
    let mut from = at;
    let mut to = end;
    for bytes in 0..line.len() {
        // Not at each byte: to hand on a refilled window costs as much as to take one.
        if to <= from {
            let w = refilled(list, window, from, to)?;
            from = w.from;
            to = w.to;
            if from == to {
                return Ok(ended(bytes));
            }
        }
        let c = window[from];
        from += 1;
        if c == ends {
            return Ok(Next {
                taken: Taken::Line,
                bytes,
                from,
                to,
            });
        }
        line[bytes] = c;
    }
    Ok(Next {
        taken: Taken::Part,
        bytes: line.len(),
        from,
        to,
    })
}

// Where the line's first tab stands.
#[tactic(auto, unfolding(crate::specs::Lists::tab))]
fn first_tab(line: &[u8]) -> Option<usize>
    ensures { MatchOption result (NoneBetween tab line.now 0 (length line.now)) (λ k. First line.now k) }
{
    line.iter().position(|c| *c == TAB)
}

// The place of the one tab between two names; none where the line is no two names with a tab between.
pub fn only_tab(line: &[u8]) -> Option<usize>
    ensures { Splits line.now result }
{
    let k = first_tab(line)?;
    let second = &line[k + 1..];
    if k == 0 || second.is_empty() || second.contains(&TAB) {
        return None;
    }
    Some(k)
}
