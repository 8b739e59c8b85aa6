#![tactic(auto)]
// The names that VAR lists, in order, so that a name is looked up without going through the list.
ghost use Rattle.std.specs.Prelude.{◌≡◌, List, ◌++◌, [], ◌∷◌, ◌+◌, ◌≤◌, ◌<◌, length};
ghost use Rattle.texts.specs.Tokens.{Name, most_text_bytes};
ghost use Rattle.texts.specs.Spelling.{among};
ghost use Rattle.texts.specs.TextReading.{listed, after_names};
ghost use Rattle.text_tokens.specs.Told.{name_at, tokens_at};
ghost use Rattle.text_names.specs.Table.{hash, hashes, less, Holds, VariablesKept, TableEmpty, ReadAsked, VariablesRead, CompareAsked, SeekAsked, PlaceOf, is_kept_at, PutAsked, PutIn, KeepAsked, LookAsked, ScanAsked};

use records::Refusal;
use text_tokens::Token;

// Hashes lie below this; the factor is odd, so that every character counts in their low bits, by which hints are found.
const HASHES: usize = 16777216;

const FACTOR: usize = 10368889;

const HINTS: usize = 512;

// Where a text has more names than this, the list is looked through from the first one without room on. That part is short: so many
// names (64 of one character, 4,096 of two, the others take four bytes each) leave at most 3,200 bytes of the text.
const MOST_KEPT: usize = 8448;

// The names that VAR lists, by the places where they begin.
#[derive(Drop)]
pub struct Table {
    // For the low bits of a hash the last name read with it: most names are answered by it.
    hints: [Option<u16>; HINTS],
    // The names kept, which rise, and how many they are.
    names: [u16; MOST_KEPT],
    count: u16,
    // Where the names without room are listed.
    rest: Option<u16>,
}

impl Table {
    // No names.
    pub fn new() -> Table
        ensures { TableEmpty result }
    {
        Table {
            hints: [None; HINTS],
            names: [0; MOST_KEPT],
            count: 0,
            rest: None,
        }
    }
}

// The hash of the name that begins at place s.
pub fn hash(text: &[u8], s: usize) -> usize
    requires { (s ≤ length text.now) × (length text.now ≤ most_text_bytes) }
    ensures { (result ≡ hash (name_at text.now s)) × (result < hashes) }
{
    let mut h = 0;
    for i in s..text.len() {
        if !text_tokens::in_name(text[i]) {
            return h;
        }
        h = (h + usize::from(text[i])) * FACTOR % HASHES;
    }
    h
}

// Whether the name that begins at place a is before the one at place b.
fn less_name(text: &[u8], a: usize, b: usize) -> bool
    requires { CompareAsked text.now a b }
    ensures { result ≡ less (name_at text.now a) (name_at text.now b) }
{
    let mut i = 0;
    while let Some(d) = text_tokens::character(text, b + i) {
        match text_tokens::character(text, a + i) {
            Some(c) if c == d => i += 1,
            Some(c) => return c < d,
            None => return true,
        }
    }
    false
}

// How many of the names kept are before the one that begins at place s, by halving.
fn search(text: &[u8], table: &Table, s: usize) -> usize
    requires { SeekAsked text.now table.now s }
    ensures { PlaceOf text.now table.now.names table.now.count (name_at text.now s) result }
{
    let mut lo = 0;
    let mut hi = usize::from(table.count);
    while lo < hi {
        let m = (lo + hi) / 2;
        if less_name(text, usize::from(table.names[m]), s) {
            lo = m + 1;
        } else {
            hi = m;
        }
    }
    lo
}

// Whether the k-th name kept is the one that begins at place s.
fn is_kept_at(text: &[u8], table: &Table, k: usize, s: usize) -> bool
    requires { SeekAsked text.now table.now s }
    ensures { result ≡ is_kept_at text.now table.now.names table.now.count (name_at text.now s) k }
{
    k < usize::from(table.count) && text_tokens::same_name(text, usize::from(table.names[k]), s)
}

// Puts place s in as that of the k-th name kept; those from there on move up.
fn put(table: &mut Table, k: usize, s: usize)
    requires { PutAsked table.old k s }
    ensures { PutIn table.old table.new k s }
{
    let n = usize::from(table.count);
    table.names.copy_within(k..n, k + 1);
    table.names[k] = s as u16;
    table.count += 1;
}

// Keeps the name that begins at place s and is next at place i of the list, once, and where room is left.
fn keep(text: &[u8], table: &mut Table, i: usize, s: usize)
    requires { KeepAsked text.now table.old i s }
    ensures { (ns vs : List Name) → vs ≡ ns ++ listed (tokens_at text.now i) → Holds text.now table.old ns vs → Holds text.now table.new (ns ++ (name_at text.now s ∷ [])) vs }
{
    table.hints[hash(text, s) % HINTS] = Some(s as u16);
    let k = search(text, table, s);
    if is_kept_at(text, table, k, s) {
        return;
    }
    if usize::from(table.count) < MOST_KEPT {
        put(table, k, s);
    } else if table.rest.is_none() {
        table.rest = Some(i as u16);
    }
}

// Reads VAR's names from place `at` on and keeps them. Answers the place after the parenthesis behind them.
pub fn read_variables(text: &[u8], at: usize, table: &mut Table) -> Result<usize, Refusal>
    requires { ReadAsked text.now at table.old }
    ensures { VariablesRead text.now at (after_names (tokens_at text.now at)) result table.new }
{
    let mut i = at;
    loop {
        match text_tokens::next_token(text, i) {
            Token::Name(s, e) => {
                keep(text, table, i, s);
                i = e;
            }
            Token::Close(e) => return Ok(e),
            _ => return Err(Refusal::BadText),
        }
    }
}

// Whether the list that begins at place `at` has the name that begins at place s.
fn is_listed(text: &[u8], at: usize, s: usize) -> bool
    requires { ScanAsked text.now at s }
    ensures { result ≡ among (name_at text.now s) (listed (tokens_at text.now at)) }
{
    let mut i = at;
    while let Token::Name(n, e) = text_tokens::next_token(text, i) {
        if text_tokens::same_name(text, s, n) {
            return true;
        }
        i = e;
    }
    false
}

// Whether VAR lists the name that begins at place s and has hash h.
pub fn declared(text: &[u8], table: &Table, s: usize, h: usize) -> bool
    requires { LookAsked text.now table.now s h }
    ensures { (vs : List Name) → VariablesKept text.now table.now vs → result ≡ among (name_at text.now s) vs }
{
    let Some(hint) = table.hints[h % HINTS] else {
        return false;
    };
    if text_tokens::same_name(text, usize::from(hint), s) {
        return true;
    }
    let k = search(text, table, s);
    if is_kept_at(text, table, k, s) {
        return true;
    }
    match table.rest {
        Some(rest) => is_listed(text, usize::from(rest), s),
        None => false,
    }
}
