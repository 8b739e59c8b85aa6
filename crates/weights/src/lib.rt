#![tactic(auto)]
// Linear polynomials: the polynomial of a side, the limit, and their order.
pub mod judging;
pub mod sums;
pub mod table;

ghost use Rattle.std.specs.Prelude.{◌≡◌, false, List, ◌+◌, ◌-◌, ◌≤◌, ◌<◌, ltb, length, get_or};
ghost use Rattle.terms.specs.Kept.{nodes_room};
ghost use Rattle.terms.specs.Sides.{flat};
ghost use Rattle.polynomials.specs.Polynomials.{Weight, scaled_sum};
ghost use Rattle.polynomials.specs.Limit.{limit};
ghost use Rattle.weights.specs.Table.{RowIs, TableIs};
ghost use Rattle.weights.specs.Sums.{numbers, Sums, AddsTo};
ghost use Rattle.weights.specs.Working.{Weighable, rooted, rooted_over, KnownWithin};

use sums::{BEFORE_VARIABLES, SUMS};
use table::{CELLS, Head};
use terms::{MOST_SYMBOLS, NODES_ROOM, Symbol};

// What rules are found to be: over the limit, a left side not at least its right, or each at least its right.
#[derive(Clone, Copy, PartialEq, Eq)]
pub enum Verdict {
    Over,
    Fails,
    Holds,
}

// What a pair is found to be: over the limit, or its left side not at least its right, at least but not greater, or greater.
#[derive(Clone, Copy, PartialEq, Eq)]
pub enum PairVerdict {
    Over,
    Rises,
    Stays,
    Falls,
}

// Adds `factor` times the polynomial of the term kept at `at`, an application that ends before `end`, its root's weights in the
// table from `row` on. Answers the place after it. As soon as a number passes the limit, the first sum does, and nothing else is
// known. Under the factor 0 only the limit is asked, and not even that where `skips` says that it is known. The parameters used
// most come first: six go in registers.
pub fn form_at(
    sums: &mut [u64; SUMS],
    factor: u64,
    at: usize,
    row: usize,
    table: &[u16; CELLS],
    nodes: &[u8; NODES_ROOM],
    arities: &[u8; MOST_SYMBOLS],
    end: usize,
    skips: bool,
) -> usize
    requires { Weighable arities.now nodes.now at (end - at) × (get_or nodes.now at 0 < 64) × (row + 8 < 1152) × (factor ≤ limit + 1) × Sums sums.old × (length nodes.now ≤ nodes_room) }
    ensures bounded { (length sums.new ≡ 17) × (ltb limit (get_or sums.new 0 0) ≡ false → Sums sums.new) }
    ensures ends { (w : Weighable arities.now nodes.now at (end - at)) → ltb limit (get_or sums.new 0 0) ≡ false → result ≡ at + length (flat w.term) }
    ensures means { (w : Weighable arities.now nodes.now at (end - at)) (rs ws : List Weight) → RowIs table.now row (get_or nodes.now at 0) rs → TableIs table.now ws → KnownWithin skips factor rs ws w.term → AddsTo (rooted_over rs ws w.term) (scaled_sum factor (numbers (rooted rs ws w.term)) sums.old) sums.new }
{
    if factor == 0 {
        if skips {
            return terms::skip(arities, nodes, at);
        }
        let mut fresh = [0u64; SUMS];
        let after = form_at(&mut fresh, 1, at, row, table, nodes, arities, end, false);
        if sums::over(&fresh) {
            sums::set_over(sums);
        }
        return after;
    }
    sums::add(sums, 0, factor * u64::from(table[row]));
    if sums::over(sums) {
        return at;
    }
    let n = usize::from(arities[usize::from(nodes[at])]);
    if n == 0 {
        return at + 1;
    }
    let mut next = at + 1;
    for i in 1..n {
        let code = nodes[next];
        let k = sums::cap(factor * u64::from(table[row + i]));
        let c = usize::from(code);
        // A variable or a constant is weighed in place.
        if MOST_SYMBOLS <= c {
            sums::add(sums, c - BEFORE_VARIABLES, k);
            next += 1;
        } else {
            let first = Symbol(u16::from(code)).row();
            if arities[c] == 0 {
                sums::add(sums, 0, k * u64::from(table[first]));
                next += 1;
            } else {
                next = form_at(sums, k, next, first, table, nodes, arities, end, skips);
            }
        }
        if sums::over(sums) {
            return next;
        }
    }
    let code = nodes[next];
    let k = sums::cap(factor * u64::from(table[row + n]));
    let c = usize::from(code);
    if MOST_SYMBOLS <= c {
        sums::add(sums, c - BEFORE_VARIABLES, k);
        return next + 1;
    }
    let first = Symbol(u16::from(code)).row();
    if arities[c] == 0 {
        sums::add(sums, 0, k * u64::from(table[first]));
        return next + 1;
    }
    // The last call of all, so that a chain of unary symbols is a loop.
    form_at(sums, k, next, first, table, nodes, arities, end, skips)
}
