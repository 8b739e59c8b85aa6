#![tactic(auto)]
// Terms kept as bytes, a byte a node in prefix order.
ghost use Rattle.std.specs.Prelude.{◌≡◌, ◌+◌, ◌≤◌, ◌<◌, length};
ghost use Rattle.terms.specs.Sides.{flat};
ghost use Rattle.terms.specs.Kept.{code_arity, TermAt, symbols_room};

// Document 01's limits on a pack's symbols and on a rule's variables.
pub const MOST_SYMBOLS: usize = 64;

pub const MOST_VARIABLES: usize = 16;

// Room for the nodes of all rules.
pub const NODES_ROOM: usize = 4096;

// A node's byte is a symbol's number, or from here on a variable's.
pub const FIRST_VARIABLE: u8 = MOST_SYMBOLS as u8;

// A plain symbol, and the tuple symbol (document 01: marked symbol) of a defined one: never taken for each other.
#[derive(Clone, Copy)]
pub struct Symbol(pub u16);

#[derive(Clone, Copy)]
pub struct Marked(pub u16);

// How many arguments a node has.
pub fn code_arity(arities: &[u8], code: u8) -> usize
    requires { length arities.now ≡ symbols_room }
    ensures { (result ≡ code_arity arities.now code) × (result < 256) }
{
    let c = usize::from(code);
    if c < MOST_SYMBOLS {
        return usize::from(arities[c]);
    }
    0
}

// The place after the term that is kept at `at`.
pub fn skip(arities: &[u8], nodes: &[u8], at: usize) -> usize
    requires { (length arities.now ≡ symbols_room) × (length nodes.now ≤ 65536) × TermAt arities.now nodes.now at }
    ensures { (s : TermAt arities.now nodes.now at) → result ≡ at + length (flat s.term) }
{
    let mut wanted = 1;
    let mut i = at;
    while 0 < wanted {
        wanted = wanted - 1 + code_arity(arities, nodes[i]);
        i = i + 1;
    }
    i
}
