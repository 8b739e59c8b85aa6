// The weights of a weighting in the table, and all rules and the pairs present under them.
ghost use Rattle.std.specs.Prelude.{◌≡◌, IfSome, List, ◌+◌, ◌*◌, ◌≤◌, ◌<◌, get_or, set};
ghost use Rattle.polynomials.specs.Polynomials.{Weight};
ghost use Rattle.weights.specs.Table.{TableIs};
ghost use Rattle.checker.specs.Working.{own_base, rules_verdict, with_verdict, number_after, Standing, PutAll, FillAsked, Filled, ClearAsked, Cleared, WeightsAgree, RulesAsked, PresentAsked, PresentJudged};

use pack_reader::Pack;
use records::{MOST_PAIRS, Record};
use terms::{MOST_SYMBOLS, Marked, NODES_ROOM, Symbol};
use weights::sums::SUMS;
use weights::table::CELLS;
use weights::{PairVerdict, Verdict};

// Stores a value in the cell of a weight record: W is of a symbol, M of a tuple symbol.
fn store(table: &mut [u16; CELLS], r: Record, value: u16)
    requires { (r.a < 64) × (r.b ≤ 8) }
    ensures { table.new ≡ set table.old (own_base r.kind + (9 * r.a + r.b)) value }
{
    let i = usize::from(r.b);
    if r.kind == b'W' {
        weights::table::put(table, Symbol(r.a), i, value);
    } else {
        weights::table::put(table, Marked(r.a), i, value);
    }
}

// Puts into the cells of the weight records of a kind that stand from record `from` on their values, or 0 if it clears them. Answers
// the record after them.
fn put_all(
    certificate: &[u8],
    from: usize,
    kind: u8,
    clears: bool,
    table: &mut [u16; CELLS],
) -> usize
    requires { Standing certificate.now from kind }
    ensures { PutAll clears certificate.now from kind table.old table.new result }
{
    let n = certificate.len() / 8;
    for at in from..n {
        let r = records::record_at(certificate, 8 * at);
        if r.kind != kind {
            return at;
        }
        store(table, r, if clears { 0 } else { r.c });
    }
    from.max(n)
}

// Fills the table from the weight records of a kind that stand from record `from` on. Answers the record after them.
pub fn fill(certificate: &[u8], from: usize, kind: u8, table: &mut [u16; CELLS]) -> usize
    requires { FillAsked certificate.now from kind table.old }
    ensures { Filled certificate.now from kind table.old table.new result }
{
    put_all(certificate, from, kind, false, table)
}

// Clears the table by the weight records that filled it, which stand from record `from` on.
pub fn clear(certificate: &[u8], from: usize, kind: u8, table: &mut [u16; CELLS])
    requires { ClearAsked certificate.now from kind table.old }
    ensures { Cleared kind table.old table.new }
{
    put_all(certificate, from, kind, true, table);
}

// Compares the W records from record `from` on with those from record `before` on. Answers the record after them, where they are the
// same.
pub fn same_weights(certificate: &[u8], before: usize, from: usize) -> Option<usize>
    requires { before < from }
    ensures { IfSome result (λ after. WeightsAgree certificate.now before from after) }
{
    let n = certificate.len() / 8;
    let mut i = before;
    let mut at = from;
    while at < n {
        let x = records::word_at(certificate, 8 * i);
        let y = records::word_at(certificate, 8 * at);
        // Equality before the kind, for one load of each: DECISIONS 79.
        if x != y {
            if Record::from(x).kind == b'W' || Record::from(y).kind == b'W' {
                return None;
            }
            return Some(at);
        }
        if Record::from(x).kind != b'W' {
            return Some(at);
        }
        i += 1;
        at += 1;
    }
    // They end the file: the same if those before end here too.
    if i < n {
        let x = records::record_at(certificate, 8 * i);
        if x.kind != b'W' {
            return Some(at);
        }
    }
    None
}

// All rules: over if one is, else failing if one fails.
pub fn judge_rules(pack: &Pack, table: &[u16; CELLS]) -> Verdict
    requires { RulesAsked pack.now.rules pack.now.arities pack.now.starts pack.now.nodes }
    ensures { (a : RulesAsked pack.now.rules pack.now.arities pack.now.starts pack.now.nodes) (ws ms : List Weight) → TableIs table.now ws → result ≡ rules_verdict a.kept.system ws ms }
{
    let mut found = Verdict::Holds;
    for i in 0..pack.rules {
        let left = usize::from(pack.starts[2 * i]);
        let right = usize::from(pack.starts[2 * i + 1]);
        let end = usize::from(pack.starts[2 * i + 2]);
        match weights::judging::judge_rule(&pack.arities, table, &pack.nodes, left, right, end) {
            Verdict::Over => {
                return Verdict::Over;
            }
            Verdict::Fails => {
                found = Verdict::Fails;
            }
            Verdict::Holds => {}
        }
    }
    found
}

// What the pairs present come to under a weighting: whether one is over the limit and, where none is, whether one rises, one stays,
// one falls.
#[derive(Clone, Copy)]
pub struct Tally {
    pub over: bool,
    pub rises: bool,
    pub stays: bool,
    pub falls: bool,
}

// With one more pair.
#[tactic(auto, unfolding(crate::specs::Working::with_verdict))]
fn noted(t: Tally, v: PairVerdict) -> Tally
    ensures { result ≡ with_verdict t v }
{
    match v {
        PairVerdict::Over => Tally { over: true, ..t },
        PairVerdict::Rises => Tally { rises: true, ..t },
        PairVerdict::Stays => Tally { stays: true, ..t },
        PairVerdict::Falls => Tally { falls: true, ..t },
    }
}

// Gives a pair that stays the number of the next weighting; any other keeps the number that it has, and nothing is written.
fn renumber(lefts: &mut [u8; MOST_PAIRS], at: usize, v: PairVerdict, number: u8)
    requires { (at < 2048) × (number < 8) × (get_or lefts.old at 0 ≡ number) }
    ensures { lefts.new ≡ set lefts.old at (number_after v number) }
{
    if v == PairVerdict::Stays {
        lefts[at] = number + 1;
    }
}

// The pairs present of those whose records stand from record `from` on, where their arguments are within the limit. The left side is
// worked out once for consecutive pairs of a rule. A pair that stays gets the number of the next weighting.
pub fn judge_pairs(
    certificate: &[u8],
    from: usize,
    count: usize,
    first: usize,
    number: u8,
    lefts: &mut [u8; MOST_PAIRS],
    pack: &Pack,
    table: &[u16; CELLS],
) -> Tally
    requires { PresentAsked certificate.now from count first number pack.now.rules pack.now.arities pack.now.starts pack.now.nodes lefts.old }
    ensures { PresentJudged certificate.now from count first number pack.now.rules pack.now.arities pack.now.starts pack.now.nodes table.now lefts.old lefts.new result }
{
    let mut sums = [0u64; SUMS];
    let mut last = None;
    let mut found = Tally {
        over: false,
        rises: false,
        stays: false,
        falls: false,
    };
    for i in 0..count {
        // The others have left.
        if lefts[first + i] == number {
            let r = records::record_at(certificate, 8 * (from + i));
            let rule = usize::from(r.a);
            let left = usize::from(pack.starts[2 * rule]);
            let middle = usize::from(pack.starts[2 * rule + 1]);
            let end = usize::from(pack.starts[2 * rule + 2]);
            let right = middle + usize::from(r.b);
            if last != Some(rule) {
                sums = [0u64; SUMS];
                weights::judging::marked_side(
                    &pack.arities,
                    table,
                    &pack.nodes,
                    left,
                    middle,
                    true,
                    &mut sums,
                );
                last = Some(rule);
            }
            let v = weights::judging::judge_call(
                &pack.arities,
                table,
                &pack.nodes,
                right,
                end,
                true,
                &sums,
            );
            found = noted(found, v);
            if found.over {
                return found;
            }
            renumber(lefts, first + i, v, number);
        }
    }
    found
}
