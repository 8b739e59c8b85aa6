// One rule, and one pair, under the weights of the table.
ghost use Rattle.std.specs.Prelude.{◌≡◌, true, false, not, List, length, replicate, ℕ, ◌-◌, ◌≤◌};
ghost use Rattle.terms.specs.Kept.{nodes_room};
ghost use Rattle.polynomials.specs.Polynomials.{Weight};
ghost use Rattle.polynomials.specs.Judging.{rule_over, rule_rises, call_over, call_rises, call_falls};
ghost use Rattle.rewriting.specs.Pairs.{arguments};
ghost use Rattle.polynomials.specs.Limit.{over};
ghost use Rattle.weights.specs.Table.{TableIs, MarkedIs};
ghost use Rattle.weights.specs.Sums.{Summed};
ghost use Rattle.weights.specs.Working.{Weighable, Applied, rooted, rooted_over, SideSummed, verdict, pair_verdict};

use crate::sums::{BEFORE_VARIABLES, SUMS};
use crate::table::{CELLS, Head};
use crate::{PairVerdict, Verdict};
use terms::{MOST_SYMBOLS, Marked, NODES_ROOM, Symbol};

// The polynomial of the side of a rule that is kept from `at` to `end` or ends before, in sums that were 0.
fn side(
    arities: &[u8; MOST_SYMBOLS],
    table: &[u16; CELLS],
    nodes: &[u8; NODES_ROOM],
    at: usize,
    end: usize,
    sums: &mut [u64; SUMS],
)
    requires { (length nodes.now ≤ nodes_room) × Weighable arities.now nodes.now at (end - at) × (sums.old ≡ replicate 17 0) }
    ensures summed { (w : Weighable arities.now nodes.now at (end - at)) (ws : List Weight) → TableIs table.now ws → Summed (rooted_over ws ws w.term) (rooted ws ws w.term) sums.new }
    ensures long { length sums.new ≡ 17 }
{
    let code = nodes[at];
    let c = usize::from(code);
    if MOST_SYMBOLS <= c {
        sums[c - BEFORE_VARIABLES] = 1;
        return;
    }
    let row = Symbol(u16::from(code)).row();
    crate::form_at(sums, 1, at, row, table, nodes, arities, end, false);
}

// The rule whose sides are kept from `left` to `right` and from there to `end`: holds if its left is at least its right.
pub fn judge_rule(
    arities: &[u8; MOST_SYMBOLS],
    table: &[u16; CELLS],
    nodes: &[u8; NODES_ROOM],
    left: usize,
    right: usize,
    end: usize,
) -> Verdict
    requires { (length nodes.now ≤ nodes_room) × Weighable arities.now nodes.now left (right - left) × Weighable arities.now nodes.now right (end - right) }
    ensures { (l : Weighable arities.now nodes.now left (right - left)) (m : Weighable arities.now nodes.now right (end - right)) (ws ms : List Weight) → TableIs table.now ws → result ≡ verdict (rule_over (record { weights = ws; marked = ms }) (record { left = l.term; right = m.term })) (not (rule_rises (record { weights = ws; marked = ms }) (record { left = l.term; right = m.term }))) }
{
    let mut x = [0u64; SUMS];
    side(arities, table, nodes, left, right, &mut x);
    if crate::sums::over(&x) {
        return Verdict::Over;
    }
    let mut y = [0u64; SUMS];
    side(arities, table, nodes, right, end, &mut y);
    if crate::sums::over(&y) {
        return Verdict::Over;
    }
    if crate::sums::all_at_least(&x, &y) {
        return Verdict::Holds;
    }
    Verdict::Fails
}

// The polynomial of the side of a pair that is kept from `at` to `end` or ends before, its root being a tuple symbol, in sums that were 0. Where `skips` says
// that the arguments are within the limit, it is not asked again below a weight 0.
pub fn marked_side(
    arities: &[u8; MOST_SYMBOLS],
    table: &[u16; CELLS],
    nodes: &[u8; NODES_ROOM],
    at: usize,
    end: usize,
    skips: bool,
    sums: &mut [u64; SUMS],
)
    requires { (length nodes.now ≤ nodes_room) × Applied arities.now nodes.now at (end - at) × (sums.old ≡ replicate 17 0) }
    ensures side_summed { SideSummed arities.now nodes.now table.now at (end - at) skips sums.new }
    ensures long { length sums.new ≡ 17 }
{
    let row = Marked(u16::from(nodes[at])).row();
    crate::form_at(sums, 1, at, row, table, nodes, arities, end, skips);
}

// The pair whose left side `marked_side` has summed up in x, and whose right side is kept at `at`.
pub fn judge_call(
    arities: &[u8; MOST_SYMBOLS],
    table: &[u16; CELLS],
    nodes: &[u8; NODES_ROOM],
    at: usize,
    end: usize,
    skips: bool,
    x: &[u64; SUMS],
) -> PairVerdict
    requires { (length nodes.now ≤ nodes_room) × Applied arities.now nodes.now at (end - at) × (length x.now ≡ 17) }
    ensures { (there before : ℕ) (l : Applied arities.now nodes.now there before) (m : Applied arities.now nodes.now at (end - at)) (ws ms : List Weight) → SideSummed arities.now nodes.now table.now there before skips x.now → TableIs table.now ws → MarkedIs table.now ms → (skips ≡ true → (over ws (arguments l.side.term) ≡ false) × (over ws (arguments m.side.term) ≡ false)) → result ≡ pair_verdict (call_over (record { weights = ws; marked = ms }) (record { left = l.side.term; right = m.side.term })) (call_rises (record { weights = ws; marked = ms }) (record { left = l.side.term; right = m.side.term })) (call_falls (record { weights = ws; marked = ms }) (record { left = l.side.term; right = m.side.term })) }
{
    if crate::sums::over(x) {
        return PairVerdict::Over;
    }
    let mut y = [0u64; SUMS];
    marked_side(arities, table, nodes, at, end, skips, &mut y);
    if crate::sums::over(&y) {
        return PairVerdict::Over;
    }
    if !crate::sums::all_at_least(x, &y) {
        return PairVerdict::Rises;
    }
    if x[0] <= y[0] {
        return PairVerdict::Stays;
    }
    PairVerdict::Falls
}
