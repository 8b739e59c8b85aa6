#![tactic(auto)]
// The check of several pairs of files in one run: a line a pair, in their order, and a last line with the counts.
ghost use Rattle.std.specs.Prelude.{◌≡◌, ◌+◌, ◌-◌, ◌/◌, ◌≤◌, ◌<◌};
ghost use Rattle.runs.specs.declared.Ended.TheVariants.{Unjudged};
ghost use Rattle.runs.specs.declared.Told.TheVariants.{Unread};
ghost use Rattle.runs.specs.Runs.{greatest, told_of, total, AllCounted, Answered, Concluded, Counted, RunEnds, ToldAs, ToldOnce, Worst};

use lists::Taken;
use names::{Console, PATH_MAX};
use records::Refusal;
use std::io;
use std::io::Read;

// One byte more than the limit of a file is enough to see that it is too long.
pub const PACK_ROOM: usize = records::MOST_PACK_BYTES + 1;

pub const CERTIFICATE_ROOM: usize = records::MOST_CERTIFICATE_BYTES + 1;

// A line with two of the longest names and a tab has one byte less.
const LINE_ROOM: usize = 2 * PATH_MAX;

// How much of a list is read at once, at the most.
const WINDOW_ROOM: usize = 65536;

// More lines of a list, and further parts of those that are too long, are not taken: a loop must end.
const MOST_LINES: u64 = 1000000000000;

// How a run ended: accepted, yes, a listing or a pack; refused or no; or nothing could be judged.
#[derive(Clone, Copy, PartialEq, Eq)]
pub enum Ended {
    Good,
    Against,
    Unjudged,
}

// What was told of a pair: its answer; nothing, of a further part of a line that was told of already; or that it could not be
// written.
#[derive(Clone, Copy, PartialEq, Eq)]
enum Told {
    Accepted,
    Refused,
    Unread,
    Nothing,
    Lost,
}

// How many pairs were accepted, were refused and could not be read.
#[derive(Clone, Copy, Default)]
struct Tally {
    accepted: u64,
    refused: u64,
    unread: u64,
}

// Room for the two files of a pair.
#[derive(Drop)]
struct Room {
    pack: [u8; PACK_ROOM],
    certificate: [u8; CERTIFICATE_ROOM],
}

impl Room {
    fn new() -> Room {
        Room {
            pack: [0; PACK_ROOM],
            certificate: [0; CERTIFICATE_ROOM],
        }
    }
}

// The bytes of a line of a list, with the list's name and the line's number.
#[derive(Clone, Copy)]
struct Line<'a> {
    list: &'a [u8],
    number: u64,
    bytes: &'a [u8],
}

// One pair more.
fn counted(t: Tally, told: Told) -> Tally
    requires { total t < greatest }
    ensures says { Counted t told result }
    ensures near { total result ≤ total t + 1 }
{
    match told {
        Told::Accepted => Tally {
            accepted: t.accepted + 1,
            ..t
        },
        Told::Refused => Tally {
            refused: t.refused + 1,
            ..t
        },
        Told::Unread => Tally {
            unread: t.unread + 1,
            ..t
        },
        Told::Nothing | Told::Lost => t,
    }
}

fn all(t: Tally) -> u64
    requires { total t ≤ greatest }
    ensures { result ≡ total t }
{
    t.accepted + t.refused + t.unread
}

// The worst of the answers that were counted.
fn worst(t: Tally) -> Ended
    ensures { Worst t result }
{
    if 0 < t.unread {
        return Ended::Unjudged;
    }
    if 0 < t.refused {
        return Ended::Against;
    }
    if 0 < t.accepted {
        return Ended::Good;
    }
    Ended::Unjudged
}

// The run's last line.
fn conclude(console: &Console, t: Tally) -> Ended
    ensures { Concluded t result }
{
    printing::lines::settle(console);
    let written = printing::lines::counts(console, t.accepted, t.refused, t.unread);
    match printing::finished(console, written) {
        Ok(()) => worst(t),
        Err(_) => Ended::Unjudged,
    }
}

fn if_written(console: &Console, written: io::Result<()>, answer: Told) -> Told
    ensures { ToldAs answer result }
{
    match printing::finished(console, written) {
        Ok(()) => answer,
        Err(_) => Told::Lost,
    }
}

fn tell_checked(console: &Console, name: &[u8], answer: Result<(), Refusal>) -> Told
    ensures says { ToldAs (told_of answer) result }
    ensures answers { Answered result }
{
    match answer {
        Ok(()) => if_written(
            console,
            printing::lines::accepted(console, name),
            Told::Accepted,
        ),
        Err(x) => if_written(
            console,
            printing::lines::refused(console, name, x),
            Told::Refused,
        ),
    }
}

fn tell_unread(console: &Console, name: &[u8]) -> Told
    ensures says { ToldAs Unread result }
    ensures answers { Answered result }
{
    if_written(
        console,
        printing::lines::unread(console, name),
        Told::Unread,
    )
}

// Checks the pack and the certificate of these names, and tells it by the pack's name, or by that of the file that could not be read.
fn check_pair(console: &Console, pack: &[u8], certificate: &[u8], room: &mut Room) -> Told
    ensures { Answered result }
{
    let Ok(n) = files::read_path(console, pack, &mut room.pack) else {
        return tell_unread(console, pack);
    };
    let Ok(m) = files::read_path(console, certificate, &mut room.certificate) else {
        return tell_unread(console, certificate);
    };
    tell_checked(
        console,
        pack,
        teldyzhom::check_certificate(&room.pack[..n], &room.certificate[..m]),
    )
}

// Checks the pair that arguments `at` and the next one name. A name that is too long leaves its start, which no file can be called
// either.
fn check_arguments(console: &Console, at: usize, room: &mut Room) -> Told
    requires { at + 1 ≤ greatest }
    ensures { Answered result }
{
    let mut pack = [0u8; PATH_MAX];
    let Ok(n) = files::path_argument(console, at, &mut pack) else {
        return tell_unread(console, &pack);
    };
    let mut certificate = [0u8; PATH_MAX];
    let Ok(m) = files::path_argument(console, at + 1, &mut certificate) else {
        return tell_unread(console, &certificate);
    };
    check_pair(console, &pack[..n], &certificate[..m], room)
}

// Checks the pairs that the arguments from `first` on below `end` name. There are no counts of a run that was broken off since a line could
// not be written.
fn check_each(console: &Console, first: usize, end: usize, room: &mut Room) -> Option<Tally>
    requires { first ≤ end }
    ensures { AllCounted ((end - first) / 2) result }
{
    let mut t = Tally::default();
    for i in 0..(end - first) / 2 {
        let told = check_arguments(console, first + 2 * i, room);
        if told == Told::Lost {
            return None;
        }
        t = counted(t, told);
        printing::lines::progress(console, all(t));
    }
    Some(t)
}

// The end of a run over arguments.
fn conclude_run(console: &Console, run: Option<Tally>) -> Ended
    ensures { RunEnds run result }
{
    run.map_or(Ended::Unjudged, |t| conclude(console, t))
}

// Checks the pairs of files that the arguments from `first` on below `end` name.
pub fn check_named(console: &Console, first: usize, end: usize) -> Ended
    requires { first ≤ end }
{
    let run = check_each(console, first, end, &mut Room::new());
    conclude_run(console, run)
}

// Tells why the line names no pair.
fn tell_line(console: &Console, line: Line, why: &[u8]) -> Told
    ensures { Answered result }
{
    printing::lines::bad_line(console, line.list, line.number, why);
    tell_unread(console, line.bytes)
}

// Checks the pair that a line names.
#[tactic(auto, unfolding(lists::specs::Lists::Splits))]
fn check_line(console: &Console, line: Line, room: &mut Room) -> Told
    ensures { Answered result }
{
    let Some(k) = lists::only_tab(line.bytes) else {
        return tell_line(console, line, b": Not a pack, a tab and a certificate\n");
    };
    check_pair(console, &line.bytes[..k], &line.bytes[k + 1..], room)
}

// Checks the pair that a last line without its end names. Editors leave a line so; where a byte 0 ends lines, the list was cut.
fn check_unended(console: &Console, ends: u8, line: Line, room: &mut Room) -> Told
    ensures { Answered result }
{
    if ends == lists::ZERO {
        return tell_line(console, line, b": Line without its end\n");
    }
    check_line(console, line, room)
}

// Checks what was taken from a list. Of a line that is too long only the first part is told of.
fn check_taken(
    console: &Console,
    taken: Taken,
    begun: bool,
    ends: u8,
    line: Line,
    room: &mut Room,
) -> Told
    ensures { ToldOnce begun taken result }
{
    if begun {
        return Told::Nothing;
    }
    match taken {
        Taken::Line => check_line(console, line, room),
        Taken::Unended => check_unended(console, ends, line, room),
        Taken::Part => tell_line(console, line, b": Line too long\n"),
        Taken::End => Told::Nothing,
    }
}

// The end of a run over the list of that name: one without a pair has judged nothing, and has no counts.
fn conclude_list(console: &Console, t: Tally, name: &[u8]) -> Ended
    requires { total t ≤ greatest }
    ensures { Concluded t result }
{
    if all(t) == 0 {
        names::say_line(console, name, b": No pair of files in this list\n");
        return Ended::Unjudged;
    }
    conclude(console, t)
}

// The end of a run over a list that could not be read to its end: where lines were told, it is told and counted beside them, so that
// they do not look whole.
fn break_off(console: &Console, t: Tally, name: &[u8], error: io::Error) -> Ended
    requires { total t < greatest }
    ensures { result ≡ Unjudged }
{
    names::fail(console, name, error);
    if all(t) == 0 {
        return Ended::Unjudged;
    }
    let told = tell_unread(console, name);
    if told == Told::Lost {
        return Ended::Unjudged;
    }
    conclude(console, counted(t, told));
    Ended::Unjudged
}

// Checks the pairs that the list's lines name, a list of that name whose lines end in that byte.
fn check_lines<R: Read>(
    console: &Console,
    list: &mut R,
    ends: u8,
    name: &[u8],
    window: &mut [u8],
    line: &mut [u8],
    room: &mut Room,
) -> Ended {
    let mut t = Tally::default();
    let mut from = 0;
    let mut to = 0;
    let mut begun = false;
    for _taken in 0..MOST_LINES {
        let next = match lists::take_line(list, ends, window, from, to, line) {
            Ok(next) => next,
            Err(error) => return break_off(console, t, name, error),
        };
        if next.taken == Taken::End {
            return conclude_list(console, t, name);
        }
        let taken = Line {
            list: name,
            number: all(t) + 1,
            bytes: &line[..next.bytes],
        };
        let told = check_taken(console, next.taken, begun, ends, taken, room);
        if told == Told::Lost {
            return Ended::Unjudged;
        }
        t = counted(t, told);
        if !begun {
            printing::lines::progress(console, all(t));
        }
        begun = next.taken == Taken::Part;
        from = next.from;
        to = next.to;
    }
    names::say_line(console, name, b": Too many lines\n");
    Ended::Unjudged
}

fn check_open<R: Read>(console: &Console, list: &mut R, ends: u8, name: &[u8]) -> Ended {
    let mut window = [0u8; WINDOW_ROOM];
    let mut line = [0u8; LINE_ROOM];
    check_lines(
        console,
        list,
        ends,
        name,
        &mut window,
        &mut line,
        &mut Room::new(),
    )
}

// Checks the pairs that the list of that name names; its lines end in that byte.
fn check_path(console: &Console, name: &[u8], ends: u8) -> Ended {
    match files::open_path(console, name) {
        Ok(mut list) => check_open(console, &mut list, ends, name),
        Err(error) => {
            names::fail(console, name, error);
            Ended::Unjudged
        }
    }
}

// Checks the pairs that the list names whose name is argument `at`, `-` for standard input; its lines end in that byte.
pub fn check_list(console: &Console, at: usize, ends: u8) -> Ended {
    if files::is_input(console, at) {
        return check_open(console, &mut console.rt.stdin(), ends, b"standard input");
    }
    let mut name = [0u8; PATH_MAX];
    match files::path_argument(console, at, &mut name) {
        Ok(n) => check_path(console, &name[..n], ends),
        Err(_) => Ended::Unjudged,
    }
}
