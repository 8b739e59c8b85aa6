// Each component in turn: 10, or weighting by weighting 11, 12, 13, 17.
ghost use Rattle.std.specs.Prelude.{◌≡◌};
ghost use Rattle.records.specs.Answers.{outcome_of};
ghost use Rattle.checker.specs.Working.{chosen, ComponentJudged, RefillAsked, Refilled, CallsAsked, CallsJudged, UnweightedAsked, TurnAsked, TurnJudged, WeightedAsked, WeightedJudged, ComponentAsked, ComponentAnswered, ComponentsAsked, ComponentsJudged};

use crate::weighing::Tally;
use pack_reader::Pack;
use records::{MOST_PAIRS, Record, Refusal};
use terms::{MOST_SYMBOLS, NODES_ROOM};
use weights::Verdict;
use weights::table::CELLS;

// Which weighting of a component is judged: its number, whether it is the last, and the number of the component's first pair among
// all that the certificate names.
#[derive(Clone, Copy)]
pub struct Turn {
    pub number: u8,
    pub last: bool,
    pub first: usize,
}

// What a component that passed came to: the record after it, and where the W records begin whose weights the table then holds, if it
// holds any.
#[derive(Clone, Copy)]
pub struct Found {
    pub next: usize,
    pub weights: Option<usize>,
}

// The first in document 02's order: 11 for either, 12 for the rules, 13 for a pair that rises or remains after the last weighting, 17
// where no pair leaves.
fn choose(rules: Verdict, pairs: Tally, last: bool, next: usize) -> Result<usize, Refusal>
    ensures { outcome_of result ≡ chosen rules pairs last next }
{
    if rules == Verdict::Over || pairs.over {
        return Err(Refusal::Heavy);
    }
    if rules == Verdict::Fails {
        return Err(Refusal::RuleRises);
    }
    if pairs.rises {
        return Err(Refusal::PairStays);
    }
    if last && pairs.stays {
        return Err(Refusal::PairStays); // one remains
    }
    if !pairs.falls {
        return Err(Refusal::NoneLeaves);
    }
    Ok(next)
}

// Puts the W records from record `from` on into the table, in place of those from record `before` on, if it holds any. Answers the
// record after them.
fn refill(certificate: &[u8], before: Option<usize>, from: usize, table: &mut [u16; CELLS]) -> usize
    requires { RefillAsked certificate.now before from table.old }
    ensures { Refilled certificate.now from table.old table.new result }
{
    if let Some(before) = before {
        crate::weighing::clear(certificate, before, b'W', table);
    }
    crate::weighing::fill(certificate, from, b'W', table)
}

// The pairs present of those from record `from` on, under the table and the M records from record `middle` on, and what they and the
// rules come to, where no rule is over.
fn judge_calls(
    certificate: &[u8],
    from: usize,
    count: usize,
    middle: usize,
    verdict: Verdict,
    turn: Turn,
    lefts: &mut [u8; MOST_PAIRS],
    pack: &Pack,
    table: &mut [u16; CELLS],
) -> Result<usize, Refusal>
    requires { CallsAsked certificate.now from count middle pack.now.rules pack.now.arities pack.now.starts pack.now.nodes table.old lefts.old turn }
    ensures { CallsJudged certificate.now from count middle pack.now.rules pack.now.arities pack.now.starts pack.now.nodes table.old table.new lefts.old lefts.new turn verdict result }
{
    let next = crate::weighing::fill(certificate, middle, b'M', table);
    let c = crate::weighing::judge_pairs(
        certificate,
        from,
        count,
        turn.first,
        turn.number,
        lefts,
        pack,
        table,
    );
    crate::weighing::clear(certificate, middle, b'M', table);
    choose(verdict, c, turn.last, next)
}

// One weighting of the component whose C record is record `at`; its W records begin at record `from`. Answers the record after its M
// records. The rules are not judged again under the weights that were judged just before, which are in the table; the table then holds
// those of this one.
fn one_weighting(
    certificate: &[u8],
    at: usize,
    count: usize,
    from: usize,
    turn: Turn,
    before: Option<usize>,
    table: &mut [u16; CELLS],
    lefts: &mut [u8; MOST_PAIRS],
    pack: &Pack,
) -> Result<usize, Refusal>
    requires { TurnAsked certificate.now at count from before pack.now.rules pack.now.arities pack.now.starts pack.now.nodes table.old lefts.old turn }
    ensures { TurnJudged certificate.now at count from before pack.now.rules pack.now.arities pack.now.starts pack.now.nodes table.old table.new lefts.old lefts.new turn result }
{
    if let Some(before) = before
        && let Some(middle) = crate::weighing::same_weights(certificate, before, from)
    {
        return judge_calls(
            certificate,
            at + 1,
            count,
            middle,
            Verdict::Holds,
            turn,
            lefts,
            pack,
            table,
        );
    }
    let middle = refill(certificate, before, from, table);
    let r = crate::weighing::judge_rules(pack, table);
    // 11 whatever the pairs are.
    if r == Verdict::Over {
        return Err(Refusal::Heavy);
    }
    judge_calls(
        certificate,
        at + 1,
        count,
        middle,
        r,
        turn,
        lefts,
        pack,
        table,
    )
}

// The weightings of a component, one after the other, over the pairs that are present. In the end `lefts` has for each of its pairs the
// number of the weighting under which it left.
fn weighted(
    certificate: &[u8],
    at: usize,
    count: usize,
    weightings: u8,
    first: usize,
    before: Option<usize>,
    table: &mut [u16; CELLS],
    lefts: &mut [u8; MOST_PAIRS],
    pack: &Pack,
) -> Result<Found, Refusal>
    requires { WeightedAsked certificate.now at count weightings first before pack.now.rules pack.now.arities pack.now.starts pack.now.nodes table.old lefts.old }
    ensures { WeightedJudged certificate.now at count weightings first before pack.now.rules pack.now.arities pack.now.starts pack.now.nodes table.old table.new lefts.old lefts.new result }
{
    let mut weights = before;
    let mut from = at + 1 + count;
    for number in 0..weightings {
        let last = number + 1 == weightings;
        let turn = Turn {
            number,
            last,
            first,
        };
        let next = one_weighting(
            certificate,
            at,
            count,
            from,
            turn,
            weights,
            table,
            lefts,
            pack,
        )?;
        weights = Some(from);
        // Past the L record of the next one.
        from = next + 1;
    }
    // No L stands after the last.
    Ok(Found {
        next: from - 1,
        weights,
    })
}

// A component without a weighting: 10. Answers the record after it.
fn unweighted(certificate: &[u8], at: usize, pack: &Pack) -> Result<usize, Refusal>
    requires { UnweightedAsked certificate.now at pack.now.rules pack.now.arities pack.now.starts pack.now.nodes pack.now.defined }
    ensures { (a : UnweightedAsked certificate.now at pack.now.rules pack.now.arities pack.now.starts pack.now.nodes pack.now.defined) → ComponentJudged a.kept.system a.there.component at result }
{
    let r = records::record_at(certificate, 8 * (at + 1));
    let rule = usize::from(r.a);
    let right = usize::from(pack.starts[2 * rule + 1]) + usize::from(r.b);
    let view = pack.view();
    if pair_finder::arcs::arc_from(&view, right, rule) {
        return Err(Refusal::SelfArc);
    }
    Ok(at + 2)
}

// The component whose C record, `header`, is record `at`.
fn judge_component(
    certificate: &[u8],
    at: usize,
    header: Record,
    first: usize,
    before: Option<usize>,
    table: &mut [u16; CELLS],
    lefts: &mut [u8; MOST_PAIRS],
    pack: &Pack,
) -> Result<Found, Refusal>
    requires { ComponentAsked certificate.now at header first before pack.now.rules pack.now.arities pack.now.starts pack.now.nodes pack.now.defined table.old lefts.old }
    ensures { ComponentAnswered certificate.now at header first before pack.now.rules pack.now.arities pack.now.starts pack.now.nodes pack.now.defined table.old table.new lefts.old lefts.new result }
{
    if header.b == 0 {
        let next = unweighted(certificate, at, pack)?;
        return Ok(Found {
            next,
            weights: before,
        });
    }
    weighted(
        certificate,
        at,
        usize::from(header.c),
        (header.b % 256) as u8,
        first,
        before,
        table,
        lefts,
        pack,
    )
}

// All components: the first refusal. Where there is none, `lefts` has for each pair, in the certificate's order, the number of the
// weighting under which it left.
pub fn judge_components(
    certificate: &[u8],
    components: usize,
    pack: &Pack,
    lefts: &mut [u8; MOST_PAIRS],
) -> Result<(), Refusal>
    requires { ComponentsAsked certificate.now components pack.now.rules pack.now.arities pack.now.starts pack.now.nodes pack.now.defined lefts.old }
    ensures { ComponentsJudged certificate.now components pack.now.rules pack.now.arities pack.now.starts pack.now.nodes pack.now.defined lefts.old lefts.new result }
{
    let mut table = [0u16; CELLS];
    let mut before = None;
    let mut at = 0;
    let mut first = 0;
    for _i in 0..components {
        let header = records::record_at(certificate, 8 * at);
        let found = judge_component(
            certificate,
            at,
            header,
            first,
            before,
            &mut table,
            lefts,
            pack,
        )?;
        before = found.weights;
        at = found.next;
        first += usize::from(header.c);
    }
    Ok(())
}
