// Arcs between pairs of a pack that was read.
ghost use Rattle.std.specs.Prelude.{◌≡◌, ◌||◌, not, List, ℕ, ◌+◌, eqb, length};
ghost use Rattle.rewriting.specs.Terms.{System};
ghost use Rattle.terms.specs.Kept.{symbols_room};
ghost use Rattle.pack_reader.specs.Stored.{Stored};
ghost use Rattle.pairs.specs.Listing.{a_pair};
ghost use Rattle.pairs.specs.Arcs.{may_meet, compatible, a_meeting, meetings, agrees, all_agree, arc, reach_arc};
ghost use Rattle.pair_finder.specs.Walking.{is_open, jumps, enters, Walkable, TwoTerms, Reaching, NextAnswer, MeetingAt, Laid, ArcAsked, ArcToAsked, ArcReached, PlaceAnswer};

use pack_reader::PackView;
use records::Refusal;
use terms::FIRST_VARIABLE;

// A node at which the first term of a walk is open: a variable, or a defined symbol.
#[tactic(auto, unfolding(crate::specs::Walking::is_open))]
fn is_open(pack: &PackView, c: u8) -> bool
    requires { length pack.now.defined.now ≡ symbols_room }
    ensures { result ≡ is_open pack.now.defined.now c }
{
    FIRST_VARIABLE <= c || crate::listing::is_defined(pack, c)
}

// The walk skips a term on either side.
#[tactic(auto, unfolding(crate::specs::Walking::jumps))]
fn jumps(pack: &PackView, both: bool, c: u8, d: u8) -> bool
    requires { length pack.now.defined.now ≡ symbols_room }
    ensures { result ≡ jumps pack.now.defined.now both c d }
{
    FIRST_VARIABLE <= d || is_open(pack, c) || both && crate::listing::is_defined(pack, d)
}

// The walk goes one node on on both sides: the same constructor stands there.
#[tactic(auto, unfolding(crate::specs::Walking::enters))]
fn enters(pack: &PackView, both: bool, c: u8, d: u8) -> bool
    requires { length pack.now.defined.now ≡ symbols_room }
    ensures { result ≡ enters pack.now.defined.now both c d }
{
    c == d && !jumps(pack, both, c, d)
}

// Each argument of the one list, kept from u to `end`, may meet the argument of the other, kept from v on. A defined root leaves a
// term of the first list open and, if `both`, one of the other list too.
fn may_meet(pack: &PackView, both: bool, u: usize, end: usize, v: usize) -> bool
    requires { Walkable pack.now.arities.now pack.now.defined.now pack.now.nodes.now pack.now.nodes.now u end v }
    ensures { (w : Walkable pack.now.arities.now pack.now.defined.now pack.now.nodes.now pack.now.nodes.now u end v) → result ≡ may_meet both w.system w.first w.other }
{
    let mut i = u;
    let mut k = v;
    while i < end {
        let c = pack.nodes[i];
        let d = pack.nodes[k];
        if enters(pack, both, c, d) {
            i += 1;
            k += 1;
        } else {
            if !jumps(pack, both, c, d) {
                return false;
            }
            i = terms::skip(pack.arities, pack.nodes, i);
            k = terms::skip(pack.arities, pack.nodes, k);
        }
    }
    true
}

// Two variables, whose bytes are given, are not the same, or the terms that they meet, kept from a to `end` and at b, have a
// common instance.
fn fits(pack: &PackView, a: usize, end: usize, variable: u8, b: usize, other: u8) -> bool
    requires { TwoTerms pack.now.arities.now pack.now.defined.now pack.now.nodes.now a end b }
    ensures { (w : TwoTerms pack.now.arities.now pack.now.defined.now pack.now.nodes.now a end b) → result ≡ (not (eqb other variable) || compatible w.system w.first w.other) }
{
    other != variable || may_meet(pack, true, a, end, b)
}

// Two places among the nodes: one in the first list of a walk, and one in the other.
#[derive(Clone, Copy)]
struct Places {
    first: usize,
    other: usize,
}

// Where in the two lists, kept from u to `end` and from v on, a variable of the second first meets a term that is not open.
fn next_meeting(pack: &PackView, u: usize, end: usize, v: usize) -> Option<Places>
    requires { Reaching pack.now.arities.now pack.now.defined.now pack.now.nodes.now u end v }
    ensures { (w : Reaching pack.now.arities.now pack.now.defined.now pack.now.nodes.now u end v) → NextAnswer w.walk.system pack.now.arities.now pack.now.defined.now pack.now.nodes.now u end w.walk.first w.walk.other result }
{
    let mut i = u;
    let mut k = v;
    while i < end {
        if is_open(pack, pack.nodes[i]) {
            i = terms::skip(pack.arities, pack.nodes, i);
            k = terms::skip(pack.arities, pack.nodes, k);
        } else {
            if FIRST_VARIABLE <= pack.nodes[k] {
                return Some(Places { first: i, other: k });
            }
            i += 1;
            k += 1;
        }
    }
    None
}

// The term kept from `at` to u is compatible with all that its variable, whose byte is `variable`, meets in the two lists.
fn agrees(pack: &PackView, at: usize, variable: u8, u: usize, end: usize, v: usize) -> bool
    requires { MeetingAt pack.now.arities.now pack.now.defined.now pack.now.nodes.now at variable u end v }
    ensures { (m : MeetingAt pack.now.arities.now pack.now.defined.now pack.now.nodes.now at variable u end v) → result ≡ agrees m.lists.walk.system (a_meeting m.variable m.term) (meetings m.lists.walk.system m.lists.walk.first m.lists.walk.other) }
{
    let mut i = u;
    let mut k = v;
    while let Some(met) = next_meeting(pack, i, end, k) {
        if !fits(pack, at, u, variable, met.first, pack.nodes[met.other]) {
            return false;
        }
        i = terms::skip(pack.arities, pack.nodes, met.first);
        k = met.other + 1;
    }
    true
}

// All that each variable meets in the two lists is compatible.
fn all_agree(pack: &PackView, u: usize, end: usize, v: usize) -> bool
    requires { Reaching pack.now.arities.now pack.now.defined.now pack.now.nodes.now u end v }
    ensures { (w : Reaching pack.now.arities.now pack.now.defined.now pack.now.nodes.now u end v) → result ≡ all_agree w.walk.system (meetings w.walk.system w.walk.first w.walk.other) }
{
    let mut i = u;
    let mut k = v;
    while let Some(met) = next_meeting(pack, i, end, k) {
        let next = terms::skip(pack.arities, pack.nodes, met.first);
        let after = met.other + 1;
        if !agrees(pack, met.first, pack.nodes[met.other], next, end, after) {
            return false;
        }
        i = next;
        k = after;
    }
    true
}

// Document 01's arc runs from the pair whose right side is kept from `right` to `end` to the pairs of rule `other`.
pub fn reaches_to(pack: &PackView, right: usize, end: usize, other: usize) -> bool
    requires { ArcToAsked pack.now.arities.now pack.now.starts.now pack.now.nodes.now pack.now.defined.now right end other }
    ensures { (a : ArcAsked pack.now.arities.now pack.now.starts.now pack.now.nodes.now pack.now.defined.now right other) → result ≡ reach_arc a.kept.system a.pair (a_pair other 0) }
{
    let left = usize::from(pack.starts[2 * other]);
    pack.nodes[right] == pack.nodes[left] && may_meet(pack, false, right + 1, end, left + 1)
}

// Where it does, an arc runs if all that the variables of the left side meet agrees.
pub fn agrees_to(pack: &PackView, right: usize, end: usize, other: usize) -> bool
    requires { ArcReached pack.now.arities.now pack.now.starts.now pack.now.nodes.now pack.now.defined.now right end other }
    ensures { (a : ArcReached pack.now.arities.now pack.now.starts.now pack.now.nodes.now pack.now.defined.now right end other) → result ≡ arc a.ended.asked.kept.system a.ended.asked.pair (a_pair other 0) }
{
    let left = usize::from(pack.starts[2 * other]);
    all_agree(pack, right + 1, end, left + 1)
}

// An arc runs from the pair whose right side is kept from `right` to `end` to the pairs of rule `other`.
pub fn arc_to(pack: &PackView, right: usize, end: usize, other: usize) -> bool
    requires { ArcToAsked pack.now.arities.now pack.now.starts.now pack.now.nodes.now pack.now.defined.now right end other }
    ensures { (a : ArcAsked pack.now.arities.now pack.now.starts.now pack.now.nodes.now pack.now.defined.now right other) → result ≡ arc a.kept.system a.pair (a_pair other 0) }
{
    reaches_to(pack, right, end, other) && agrees_to(pack, right, end, other)
}

// The same where the end is not known yet. It has the check for its only caller, and does not call `arc_to`, so that it is built
// in there; that keeps the check quick.
pub fn arc_from(pack: &PackView, right: usize, other: usize) -> bool
    requires { ArcAsked pack.now.arities.now pack.now.starts.now pack.now.nodes.now pack.now.defined.now right other }
    ensures { (a : ArcAsked pack.now.arities.now pack.now.starts.now pack.now.nodes.now pack.now.defined.now right other) → result ≡ arc a.kept.system a.pair (a_pair other 0) }
{
    let end = terms::skip(pack.arities, pack.nodes, right);
    reaches_to(pack, right, end, other) && agrees_to(pack, right, end, other)
}

// Where among the nodes the right side of a pair is kept, or 7.
pub fn place_of(pack: &PackView, rule: usize, place: usize) -> Result<usize, Refusal>
    requires { Laid pack.now.starts.now pack.now.nodes.now pack.now.rules × (length pack.now.defined.now ≡ symbols_room) }
    ensures { (p : System) (symbols : ℕ) (arities : List ℕ) → Stored p symbols pack.now.rules arities pack.now.starts.now pack.now.nodes.now pack.now.defined.now → PlaceAnswer p pack.now.starts.now rule place result }
{
    if pack.rules <= rule {
        return Err(Refusal::NoSuchPair);
    }
    let from = usize::from(pack.starts[2 * rule + 1]);
    let to = usize::from(pack.starts[2 * rule + 2]);
    if to - from <= place {
        return Err(Refusal::NoSuchPair);
    }
    if crate::listing::is_defined(pack, pack.nodes[from + place]) {
        return Ok(from + place);
    }
    Err(Refusal::NoSuchPair)
}
