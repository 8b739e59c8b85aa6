// The sides of a rule in bytes: 4, 5, 6.
ghost use Rattle.std.specs.Prelude.{◌≡◌, ◌&&◌, List, [], ◌∷◌, ◌++◌, ℕ, length};
ghost use Rattle.records.specs.Answers.{outcome_of};
ghost use Rattle.terms.specs.Kept.{part};
ghost use Rattle.packs.specs.PackReading.{variable_count};
ghost use Rattle.pack_reader.specs.Stored.{all_seen, SeenIn, rule_judged, LeftAsked, LeftJudged, RightAsked, RightJudged, SidesAsked};

use records::Refusal;
use terms::{FIRST_VARIABLE, MOST_SYMBOLS, MOST_VARIABLES};

// The byte after those of the variables.
const PAST_VARIABLES: usize = MOST_SYMBOLS + MOST_VARIABLES;

// Notes the node's variable, if it has one.
fn note(code: u8, seen: &mut [bool])
    requires { length seen.old ≡ variable_count }
    ensures { (length seen.new ≡ variable_count) × ((cs : List ℕ) → SeenIn cs seen.old → SeenIn (cs ++ (code ∷ [])) seen.new) }
{
    let c = usize::from(code);
    if MOST_SYMBOLS <= c && c < PAST_VARIABLES {
        seen[c - MOST_SYMBOLS] = true;
    }
}

// Whether the node is a symbol's, or its variable was noted.
fn is_noted(code: u8, seen: &[bool]) -> bool
    requires { length seen.now ≡ variable_count }
    ensures { (cs : List ℕ) → all_seen seen.now (code ∷ cs) ≡ (result && all_seen seen.now cs) }
{
    let c = usize::from(code);
    c < MOST_SYMBOLS || c < PAST_VARIABLES && seen[c - MOST_SYMBOLS]
}

// Notes the variables of a left side, and says whether its nodes are exactly one term: one pass for both.
fn left_side(arities: &[u8], nodes: &[u8], from: usize, to: usize, seen: &mut [bool]) -> bool
    requires { LeftAsked arities.now nodes.now from to seen.old }
    ensures { LeftJudged arities.now (part nodes.now from to) seen.new result }
{
    let mut wanted = 1;
    for i in from..to {
        if wanted == 0 {
            return false;
        }
        wanted = wanted - 1 + terms::code_arity(arities, nodes[i]);
        note(nodes[i], seen);
    }
    wanted == 0
}

// Whether all variables of a right side are among those of the left, where its nodes are exactly one term: one pass for both.
fn right_side(arities: &[u8], nodes: &[u8], from: usize, to: usize, seen: &[bool]) -> Option<bool>
    requires { RightAsked arities.now nodes.now from to seen.now }
    ensures { RightJudged arities.now (part nodes.now from to) seen.now result }
{
    let mut wanted = 1;
    let mut closed = true;
    for i in from..to {
        if wanted == 0 {
            return None;
        }
        wanted = wanted - 1 + terms::code_arity(arities, nodes[i]);
        closed = closed && is_noted(nodes[i], seen);
    }
    if wanted == 0 {
        return Some(closed);
    }
    None
}

// A rule after its last node: 4, 5, 6.
pub fn judge_rule(
    arities: &[u8],
    nodes: &[u8],
    left: usize,
    right: usize,
    end: usize,
) -> Result<(), Refusal>
    requires { SidesAsked arities.now nodes.now left right end }
    ensures { outcome_of result ≡ rule_judged arities.now (part nodes.now left right) (part nodes.now right end) }
{
    let mut seen = [false; MOST_VARIABLES];
    if !left_side(arities, nodes, left, right, &mut seen) {
        return Err(Refusal::BrokenSide);
    }
    let Some(closed) = right_side(arities, nodes, right, end, &seen) else {
        return Err(Refusal::BrokenSide);
    };
    if FIRST_VARIABLE <= nodes[left] {
        return Err(Refusal::BareLeft);
    }
    if closed {
        return Ok(());
    }
    Err(Refusal::LooseVariable)
}
