// The numbers of names: their places in the tables so far, or new ones.
ghost use Rattle.std.specs.Prelude.{◌≡◌, List, ◌<◌, length};
ghost use Rattle.texts.specs.Tokens.{Name};
ghost use Rattle.texts.specs.Numbers.{place};
ghost use Rattle.texts.specs.Working.{Numbering, use_numbered, uses_numbered};
ghost use Rattle.text_tokens.specs.Told.{name_at};
ghost use Rattle.text_names.specs.Table.{hashes, VariablesKept};
ghost use Rattle.text_sides.specs.Sides.{kept_uses};
ghost use Rattle.text_reader.specs.Tables.{name_entry, kept_names, a_use, FindAsked, Sought, VariableAsked, VariableTold, SymbolAsked, SymbolTold, UseAsked, UsesAsked, TablesKept, NumberingGoes, NumberingTold};

use pack_reader::Pack;
use terms::{FIRST_VARIABLE, MOST_SYMBOLS, MOST_VARIABLES};
use text_names::Table;
use text_sides::Use;

// A place in a text lies below this.
const PLACES: usize = 65536;

// Document 01's limit on a symbol's arguments.
const MOST_ARITY: usize = 8;

// The entries of the names so far: the text's symbols, and the rule's variables.
#[derive(Clone, Copy)]
pub struct Names {
    pub symbols: [u64; MOST_SYMBOLS],
    pub variables: [u64; MOST_VARIABLES],
}

// How many symbols, variables of the rule and nodes there are so far.
#[derive(Clone, Copy)]
pub struct Seen {
    pub symbols: usize,
    pub variables: usize,
    pub nodes: usize,
}

// An entry of a table of names: the place where the name begins, and its hash, so that most names are told apart by one number.
fn entry(s: usize, h: usize) -> u64
    requires { (s < 65536) × (h < hashes) }
    ensures { result ≡ name_entry s h }
{
    (h * PLACES + s) as u64
}

// The number of the name that begins at place s and has hash h among the first n, if it is there.
fn find(text: &[u8], names: &[u64], n: usize, s: usize, h: usize) -> Option<usize>
    requires { FindAsked text.now names.now n s h }
    ensures { Sought (place (name_at text.now s) (kept_names text.now names.now n)) n result }
{
    for i in 0..n {
        let x = names[i] as usize;
        if x / PLACES == h && text_tokens::same_name(text, s, x % PLACES) {
            return Some(i);
        }
    }
    None
}

// A variable's number, the next one if it is new. None: there are too many.
fn number_variable(
    text: &[u8],
    s: usize,
    h: usize,
    variables: &mut [u64],
    n: usize,
) -> Option<usize>
    requires { VariableAsked text.now s h variables.old n }
    ensures { VariableTold text.now s h variables.old variables.new n result }
{
    if let Some(i) = find(text, variables, n, s, h) {
        return Some(i);
    }
    if MOST_VARIABLES <= n {
        return None;
    }
    variables[n] = entry(s, h);
    Some(n)
}

// A symbol's number, the next one if it is new. None: there are too many, it has too many arguments, or another number of them before.
fn number_symbol(
    text: &[u8],
    s: usize,
    h: usize,
    count: usize,
    symbols: &mut [u64],
    arities: &mut [u8],
    n: usize,
) -> Option<usize>
    requires { SymbolAsked text.now s h count symbols.old arities.old n }
    ensures { SymbolTold text.now s h count symbols.old symbols.new arities.old arities.new n result }
{
    if let Some(i) = find(text, symbols, n, s, h) {
        if usize::from(arities[i]) != count {
            return None;
        }
        return Some(i);
    }
    if MOST_SYMBOLS <= n {
        return None;
    }
    if MOST_ARITY < count {
        return None;
    }
    symbols[n] = entry(s, h);
    arities[n] = count as u8;
    Some(n)
}

// Numbers one name and keeps its node. None: a count is over its limit, or a symbol has two arities.
fn number_use(
    text: &[u8],
    table: &Table,
    s: usize,
    count: usize,
    names: &mut Names,
    pack: &mut Pack,
    seen: Seen,
) -> Option<Seen>
    requires { UseAsked text.now table.now s count names.old.symbols pack.old.arities names.old.variables pack.old.nodes seen }
    ensures goes { NumberingGoes text.now names.new.symbols pack.new.arities names.new.variables pack.new.nodes seen.nodes 1 result }
    ensures starts { pack.new.starts ≡ pack.old.starts }
    ensures told { (vs : List Name) (x : Numbering) → VariablesKept text.now table.now vs → TablesKept text.now names.old.symbols pack.old.arities names.old.variables pack.old.nodes seen x → NumberingTold (use_numbered vs (a_use text.now s count) x) text.now names.new.symbols pack.new.arities names.new.variables pack.new.nodes result }
{
    let k = seen.nodes;
    let h = text_names::hash(text, s);
    if text_names::declared(text, table, s, h) {
        let v = number_variable(text, s, h, &mut names.variables, seen.variables)?;
        pack.nodes[k] = FIRST_VARIABLE + v as u8;
        return Some(Seen {
            variables: seen.variables.max(v + 1),
            nodes: k + 1,
            ..seen
        });
    }
    let f = number_symbol(
        text,
        s,
        h,
        count,
        &mut names.symbols,
        &mut pack.arities,
        seen.symbols,
    )?;
    pack.nodes[k] = f as u8;
    Some(Seen {
        symbols: seen.symbols.max(f + 1),
        nodes: k + 1,
        ..seen
    })
}

// Numbers names of a side.
pub fn number_uses(
    text: &[u8],
    table: &Table,
    uses: &[Use],
    names: &mut Names,
    pack: &mut Pack,
    seen: Seen,
) -> Option<Seen>
    requires { UsesAsked text.now table.now uses.now names.old.symbols pack.old.arities names.old.variables pack.old.nodes seen }
    ensures goes { NumberingGoes text.now names.new.symbols pack.new.arities names.new.variables pack.new.nodes seen.nodes (length uses.now) result }
    ensures starts { pack.new.starts ≡ pack.old.starts }
    ensures told { (vs : List Name) (x : Numbering) → VariablesKept text.now table.now vs → TablesKept text.now names.old.symbols pack.old.arities names.old.variables pack.old.nodes seen x → NumberingTold (uses_numbered vs (kept_uses text.now uses.now (length uses.now)) x) text.now names.new.symbols pack.new.arities names.new.variables pack.new.nodes result }
{
    let mut now = seen;
    for u in uses {
        now = number_use(
            text,
            table,
            usize::from(u.place),
            usize::from(u.count),
            names,
            pack,
            now,
        )?;
    }
    Some(now)
}
