#![tactic(auto)]
// The loader's questions on the command line.
mod numbers;

ghost use Rattle.std.specs.Prelude.{◌≡◌, ◌+◌, ◌≤◌};
ghost use Rattle.std.specs.Process.{exit_status};
ghost use Rattle.loader.specs.Status.{status_of};
ghost use Rattle.runs.specs.Runs.{greatest};

use names::{Console, UNREAD};
use records::Refusal;
use runs::{CERTIFICATE_ROOM, Ended, PACK_ROOM};
use std::io;
use std::process::ExitCode;

// One byte more than a text may have, as for packs and certificates.
const TEXT_ROOM: usize = records::MOST_TEXT_BYTES + 1;

// A list of 2,048 pairs, the most there can be.
const LIST_ROOM: usize = 8 * records::MOST_PAIRS;

// What the run comes to once its answer was written.
fn after(console: &Console, written: io::Result<()>, answer: Ended) -> io::Result<Ended> {
    printing::finished(console, written)?;
    Ok(answer)
}

// The answer's line, then the words for it.
fn refused(console: &Console, x: Refusal) -> io::Result<Ended> {
    printing::finished(console, printing::refused(console, x))?;
    let _ = printing::words::tell(console, x);
    Ok(Ended::Against)
}

fn usage(console: &Console) -> io::Result<Ended> {
    let _ = eprintln!(console;
        "usage: loader check PACK CERTIFICATE [PACK CERTIFICATE ..]\n       loader check --list FILE\n       loader check --list0 FILE\n       loader pairs PACK\n       loader arc PACK RULE PLACE RULE PLACE\n       loader read TEXT PACK"
    );
    Ok(Ended::Unjudged)
}

fn tell_checked(console: &Console, answer: Result<(), Refusal>) -> io::Result<Ended> {
    match answer {
        Ok(()) => after(console, println!(console; "accepted"), Ended::Good),
        Err(x) => refused(console, x),
    }
}

fn tell_arc(console: &Console, answer: Result<bool, Refusal>) -> io::Result<Ended> {
    match answer {
        Ok(true) => after(console, println!(console; "yes"), Ended::Good),
        Ok(false) => after(console, println!(console; "no"), Ended::Against),
        Err(x) => refused(console, x),
    }
}

fn check(console: &Console, pack_at: usize, certificate_at: usize) -> io::Result<Ended> {
    let mut pack = [0u8; PACK_ROOM];
    let mut certificate = [0u8; CERTIFICATE_ROOM];
    let n = files::read_argument(console, pack_at, &mut pack)?;
    let m = files::read_argument(console, certificate_at, &mut certificate)?;
    let answer = teldyzhom::check_certificate(&pack[..n], &certificate[..m]);
    tell_checked(console, answer)
}

fn pairs_of(console: &Console, pack_at: usize) -> io::Result<Ended> {
    let mut pack = [0u8; PACK_ROOM];
    let mut list = [0u8; LIST_ROOM];
    let n = files::read_argument(console, pack_at, &mut pack)?;
    match teldyzhom::list_pairs(&pack[..n], &mut list) {
        Ok(k) => after(console, printing::pairs(console, &list, k), Ended::Good),
        Err(x) => refused(console, x),
    }
}

fn arc(console: &Console, at: usize) -> io::Result<Ended>
    requires { at ≤ 3 }
{
    let places = [at + 1, at + 2, at + 3, at + 4];
    let numbers = places.map(|i| numbers::argument(console, i));
    let [Some(rule), Some(place), Some(other_rule), Some(other_place)] = numbers else {
        return usage(console);
    };
    let mut pack = [0u8; PACK_ROOM];
    let n = files::read_argument(console, at, &mut pack)?;
    let answer = teldyzhom::arc_runs(&pack[..n], rule, place, other_rule, other_place);
    tell_arc(console, answer)
}

// Writes the pack, and then its length as the answer; the pack stays where the answer cannot be told.
fn give_pack(console: &Console, pack_at: usize, pack: &[u8]) -> io::Result<Ended> {
    files::write_argument(console, pack_at, pack)?;
    let written = printing::number(console, pack.len() as u64);
    after(console, written, Ended::Good)
}

fn read(console: &Console, text_at: usize, pack_at: usize) -> io::Result<Ended> {
    let mut text = [0u8; TEXT_ROOM];
    let mut pack = [0u8; records::MOST_PACK_BYTES];
    let n = files::read_argument(console, text_at, &mut text)?;
    match teldyzhom::read_text(&text[..n], &mut pack) {
        // All k of them: the answer is never more than the buffer holds.
        Ok(k) => give_pack(console, pack_at, &pack[..k.min(pack.len())]),
        Err(x) => refused(console, x),
    }
}

// Whether an argument from `first` on below `end` is `-`.
fn names_input(console: &Console, first: usize, end: usize) -> bool {
    (first..end).any(|i| files::is_input(console, i))
}

// Checks the pairs of a list. Its name is the one argument after the flag, argument `first`; its lines end in that byte.
fn check_list(console: &Console, first: usize, end: usize, ends: u8) -> io::Result<Ended>
    requires { first + 2 ≤ end }
{
    if end - first == 2 {
        return Ok(runs::check_list(console, first + 1, ends));
    }
    usage(console)
}

// Checks the one pair, the list, or each of the pairs that the arguments from `first` on below `end` name.
fn check_all(console: &Console, first: usize, end: usize) -> io::Result<Ended>
    requires { first + 2 ≤ end }
{
    if files::is_word(console, first, b"--list") {
        return check_list(console, first, end, lists::LINE_END);
    }
    if files::is_word(console, first, b"--list0") {
        return check_list(console, first, end, lists::ZERO);
    }
    if end - first == 2 {
        // Standard input has one file.
        if files::is_input(console, first) && files::is_input(console, first + 1) {
            return usage(console);
        }
        return check(console, first, first + 1);
    }
    // An odd one is of no pair, and standard input is no file of a run over several.
    if (end - first) % 2 == 1 || names_input(console, first, end) {
        return usage(console);
    }
    Ok(runs::check_named(console, first, end))
}

// Answers the question whose verb is argument `at`, of `given` words from the verb on. It fails where a file could not be read, or not
// all be written, which was told by then.
fn answer(console: &Console, at: usize, given: usize) -> io::Result<Ended>
    requires at_bound { at ≤ 2 }
    requires given_bound { at + given ≤ greatest }
{
    match given {
        3.. if files::is_word(console, at, b"check") => check_all(console, at + 1, at + given),
        // A pack is no text: it goes to a file, and never to standard output.
        3 if files::is_word(console, at, b"read") && !files::is_input(console, at + 2) => read(
            console,
            at + 1,
            at + 2,
        ),
        2 if files::is_word(console, at, b"pairs") => pairs_of(console, at + 1),
        6 if files::is_word(console, at, b"arc") => arc(console, at + 1),
        _ => usage(console),
    }
}

// The exit status: 0 accepted, yes, a listing or a pack; 1 refused or no; 2 nothing was judged.
fn status(e: Ended) -> ExitCode
    ensures { exit_status result ≡ status_of e }
{
    match e {
        Ended::Good => ExitCode::SUCCESS,
        Ended::Against => ExitCode::from(1),
        Ended::Unjudged => ExitCode::from(2),
    }
}

fn main(rt: HostRuntime) -> ExitCode {
    let console = Console::new(rt);
    let given = files::argument_count(&console).saturating_sub(1);
    let ended = answer(&console, 1, given).unwrap_or(Ended::Unjudged);
    if console.is_unread() {
        return ExitCode::from(UNREAD);
    }
    status(ended)
}
