// The rules of a pack.
ghost use Rattle.std.specs.Prelude.{◌≡◌, [], ◌+◌, ◌*◌, drop, take, set};
ghost use Rattle.records.specs.Answers.{outcome_of};
ghost use Rattle.records.specs.Records.{all_records};
ghost use Rattle.records.specs.Rows.{row_number};
ghost use Rattle.packs.specs.PackReading.{pack_from, between_rules};
ghost use Rattle.pack_reader.specs.Stored.{rule_header, node_steps, RuleAsked, RuleRead, EndsAsked, RulesAsked, RulesRead, row_after, FlagsAsked, Flagged};

use crate::MOST_RULES;
use records::order::{Before, End};
use records::{Record, Refusal};
use terms::MOST_SYMBOLS;

// As wide as the fields that hold such a count.
const MOST_NODES: u16 = crate::MOST_NODES as u16;

// R's fields: 2, then 3.
fn header(r: Record, i: usize) -> Result<(), Refusal>
    ensures { outcome_of result ≡ rule_header i r }
{
    if r.one != 0 {
        return Err(Refusal::StrayRecord);
    }
    if usize::from(r.a) != i {
        return Err(Refusal::StrayRecord);
    }
    if MOST_RULES <= i {
        return Err(Refusal::OutOfRange);
    }
    if r.b < 1 {
        return Err(Refusal::OutOfRange);
    }
    if MOST_NODES < r.b {
        return Err(Refusal::OutOfRange);
    }
    if r.c < 1 {
        return Err(Refusal::OutOfRange);
    }
    if MOST_NODES < r.c {
        return Err(Refusal::OutOfRange);
    }
    Ok(())
}

// One rule's nodes and 4, 5, 6. Answers the row of the last node's kind.
fn read_rule(
    pack: &[u8],
    from: usize,
    b: usize,
    c: usize,
    symbols: usize,
    arities: &[u8],
    nodes: &mut [u8],
    base: usize,
) -> Result<Before, Refusal>
    requires { RuleAsked pack.now from b c symbols arities.now nodes.old base }
    ensures { RuleRead (node_steps symbols 2 (b + c) (drop from (all_records pack.now))) b arities.now result base nodes.old nodes.new }
{
    let last = crate::nodes::read_nodes(pack, from, b + c, symbols, nodes, base)?;
    crate::sides::judge_rule(arities, nodes, base, base + b, base + b + c)?;
    Ok(last)
}

// Keeps where rule i's right side begins and where it ends.
fn keep_ends(starts: &mut [u16], i: usize, middle: usize, end: usize)
    requires { EndsAsked starts.old i middle end }
    ensures { starts.new ≡ set (set starts.old (2 * i + 1) middle) (2 * i + 2) end }
{
    starts[2 * i + 1] = middle as u16;
    starts[2 * i + 2] = end as u16;
}

// What stands before the first rule.
fn row_after(symbols: usize) -> Before
    ensures { row_number result ≡ row_after symbols }
{
    if symbols == 0 {
        return Before::StartOfPack;
    }
    Before::Symbol
}

// Reads the rules, the first of them record `symbols`, to the end. Answers how many there are.
pub fn read_rules(
    pack: &[u8],
    symbols: usize,
    arities: &[u8],
    starts: &mut [u16],
    nodes: &mut [u8],
) -> Result<usize, Refusal>
    requires { RulesAsked pack.now symbols arities.now starts.old nodes.old }
    ensures { RulesRead (pack_from (drop symbols (all_records pack.now)) (between_rules (row_after symbols) (take symbols arities.now) [])) (take symbols arities.now) result starts.new nodes.new }
{
    let n = pack.len() / 8;
    let mut last = row_after(symbols);
    let mut at = symbols;
    let mut base = 0;
    let mut i = 0;
    starts[0] = 0;
    // How far a turn goes only the header tells.
    while at < n {
        let Some(r) = records::read_wanted(pack, 8 * at, last, 0, false) else {
            return Err(Refusal::StrayRecord);
        };
        header(r, i)?;
        let b = usize::from(r.b);
        let c = usize::from(r.c);
        last = read_rule(pack, at + 1, b, c, symbols, arities, nodes, base)?;
        let end = base + b + c;
        keep_ends(starts, i, base + b, end);
        at = at + 1 + b + c;
        base = end;
        i = i + 1;
    }
    // A pack without rules ends here too.
    if records::order::may_end(last, End::Pack, 0, false) {
        return Ok(i);
    }
    Err(Refusal::StrayRecord)
}

// Flags the root of each left side.
pub fn flag_defined(starts: &[u16], nodes: &[u8], rules: usize, defined: &mut [u8])
    requires { FlagsAsked starts.now nodes.now rules defined.old }
    ensures { Flagged starts.now nodes.now rules defined.new }
{
    defined.fill(0);
    for i in 0..rules {
        let at = usize::from(starts[2 * i]);
        let c = usize::from(nodes[at]);
        if c < MOST_SYMBOLS {
            defined[c] = 1;
        }
    }
}
