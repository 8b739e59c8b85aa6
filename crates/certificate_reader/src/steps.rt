// One record of a certificate, of a kind that may stand there.
ghost use Rattle.std.specs.Prelude.{◌≡◌, ◌&&◌, List, ℕ, ◌≤◌, ◌<◌, ltb, leb, length, get_or};
ghost use Rattle.std.proofs.Math.Option.{some};
ghost use Rattle.rewriting.specs.Terms.{System};
ghost use Rattle.records.specs.Order.{c_component, p_pair, w_weight, m_marked, l_weighting};
ghost use Rattle.pack_reader.specs.Stored.{Stored};
ghost use Rattle.pair_finder.specs.Walking.{is_defined};
ghost use Rattle.certificates.specs.Components.{Component, first_weighting};
ghost use Rattle.certificates.specs.CertificateReading.{CertificateReading, cert_step, component_read, pair_read, weight_read, marked_read, weighting_read};
ghost use Rattle.certificate_reader.specs.Working.{Mirrors, StepsAs, KeyIs, SteppedAs, PairAsked, PlaceAsked, MarkedPlaceAsked, WeightAsked, MarkedAsked, WeightingAsked, StepAsked};

use crate::State;
use pack_reader::PackView;
use records::order::Before;
use records::{Record, Refusal};
use terms::{Marked, Symbol};

// The limits of documents 01 and 02 on a component's pairs and weightings, as wide as the fields that hold them.
const MOST_PAIRS: u16 = records::MOST_PAIRS as u16;

const MOST_WEIGHTINGS: u16 = 8;

// Two numbers as one that rises with them.
fn key(a: u16, b: u16) -> u64
    ensures { KeyIs a b result }
{
    65536 * u64::from(a) + u64::from(b)
}

// How many of a component's weightings C itself begins: the first, if there is one.
fn first(weightings: u16) -> u16
    ensures { (result ≡ length (first_weighting weightings)) × (result ≤ weightings) }
{
    if weightings == 0 {
        return 0;
    }
    1
}

// C: its number, weightings and pairs.
fn component(r: Record, s: State) -> Result<State, Refusal>
    requires { s.number < 65536 }
    ensures { SteppedAs s result ((x : CertificateReading) → Mirrors s x → r.kind ≡ c_component → StepsAs (component_read r x) result) }
{
    if s.more != 0 {
        return Err(Refusal::StrayRecord);
    }
    if r.one != 0 {
        return Err(Refusal::StrayRecord);
    }
    if usize::from(r.a) != s.number {
        return Err(Refusal::StrayRecord);
    }
    if r.b == 0 {
        if 1 < r.c {
            return Err(Refusal::StrayRecord);
        }
    }
    if MOST_WEIGHTINGS < r.b {
        return Err(Refusal::OutOfRange);
    }
    if r.c < 1 {
        return Err(Refusal::OutOfRange);
    }
    if MOST_PAIRS < r.c {
        return Err(Refusal::OutOfRange);
    }
    let begun = first(r.b);
    Ok(State {
        last: Before::Component,
        number: s.number + 1,
        due: usize::from(r.c),
        weighted: r.b != 0,
        more: usize::from(r.b - begun),
        begun: usize::from(begun),
        pair_key: None,
        weight_key: None,
        marked_key: None,
    })
}

// P: a rule and a place, rising; 7 where they name no pair.
fn pair(r: Record, s: State, pack: &PackView) -> Result<State, Refusal>
    requires { PairAsked s pack.now.rules pack.now.starts.now pack.now.nodes.now pack.now.defined.now }
    ensures { SteppedAs s result ((p : System) (x : CertificateReading) (c : Component) → Stored p pack.now.symbols pack.now.rules pack.now.arities.now pack.now.starts.now pack.now.nodes.now pack.now.defined.now → Mirrors s x → x.begun ≡ some c → r.kind ≡ p_pair → StepsAs (pair_read p r x c) result) }
{
    if r.one != 0 {
        return Err(Refusal::StrayRecord);
    }
    if r.c != 0 {
        return Err(Refusal::StrayRecord);
    }
    let k = key(r.a, r.b);
    if Some(k) <= s.pair_key {
        return Err(Refusal::StrayRecord);
    }
    let Ok(_) = pair_finder::arcs::place_of(pack, usize::from(r.a), usize::from(r.b)) else {
        return Err(Refusal::NoSuchPair);
    };
    Ok(State {
        last: Before::Pair,
        due: s.due - 1,
        pair_key: Some(k),
        ..s
    })
}

// The symbol's constant, or one of its arguments.
fn is_place(pack: &PackView, f: Symbol, i: u16) -> bool
    requires { PlaceAsked pack.now.symbols pack.now.arities.now }
    ensures { result ≡ (ltb f.0 pack.now.symbols && leb i (get_or pack.now.arities.now f.0 0)) }
{
    let a = usize::from(f.0);
    if pack.symbols <= a {
        return false;
    }
    i <= u16::from(pack.arities[a])
}

// The same of a tuple symbol, which a defined symbol has.
fn is_marked_place(pack: &PackView, f: Marked, i: u16) -> bool
    requires { MarkedPlaceAsked pack.now.symbols pack.now.arities.now pack.now.defined.now }
    ensures { result ≡ ((ltb f.0 pack.now.symbols && leb i (get_or pack.now.arities.now f.0 0)) && is_defined pack.now.defined.now f.0) }
{
    if !is_place(pack, Symbol(f.0), i) {
        return false;
    }
    pair_finder::listing::is_defined(pack, f.0 as u8)
}

// W: a symbol, a place of it and the value there.
fn weight(r: Record, s: State, pack: &PackView) -> Result<State, Refusal>
    requires { WeightAsked s pack.now.symbols pack.now.arities.now }
    ensures { SteppedAs s result ((p : System) (x : CertificateReading) (c : Component) → Stored p pack.now.symbols pack.now.rules pack.now.arities.now pack.now.starts.now pack.now.nodes.now pack.now.defined.now → Mirrors s x → x.begun ≡ some c → s.due ≡ 0 → r.kind ≡ w_weight → StepsAs (weight_read p r x c) result) }
{
    if r.one != 0 {
        return Err(Refusal::StrayRecord);
    }
    let k = key(r.a, r.b);
    if Some(k) <= s.weight_key {
        return Err(Refusal::StrayRecord);
    }
    if !is_place(pack, Symbol(r.a), r.b) {
        return Err(Refusal::OutOfRange);
    }
    Ok(State {
        last: Before::Weight,
        due: 0,
        weight_key: Some(k),
        ..s
    })
}

// M: the same of a tuple symbol.
fn marked(r: Record, s: State, pack: &PackView) -> Result<State, Refusal>
    requires { MarkedAsked s pack.now.symbols pack.now.arities.now pack.now.defined.now }
    ensures { SteppedAs s result ((p : System) (x : CertificateReading) (c : Component) → Stored p pack.now.symbols pack.now.rules pack.now.arities.now pack.now.starts.now pack.now.nodes.now pack.now.defined.now → Mirrors s x → x.begun ≡ some c → s.due ≡ 0 → r.kind ≡ m_marked → StepsAs (marked_read p r x c) result) }
{
    if r.one != 0 {
        return Err(Refusal::StrayRecord);
    }
    let k = key(r.a, r.b);
    if Some(k) <= s.marked_key {
        return Err(Refusal::StrayRecord);
    }
    if !is_marked_place(pack, Marked(r.a), r.b) {
        return Err(Refusal::OutOfRange);
    }
    Ok(State {
        last: Before::Marked,
        due: 0,
        marked_key: Some(k),
        ..s
    })
}

// L: the number of the weighting that it begins.
fn weighting(r: Record, s: State) -> Result<State, Refusal>
    requires { WeightingAsked s }
    ensures { SteppedAs s result ((x : CertificateReading) (c : Component) → Mirrors s x → x.begun ≡ some c → s.due ≡ 0 → r.kind ≡ l_weighting → StepsAs (weighting_read r x c) result) }
{
    if r.one != 0 {
        return Err(Refusal::StrayRecord);
    }
    if usize::from(r.a) != s.begun {
        return Err(Refusal::StrayRecord);
    }
    if r.b != 0 {
        return Err(Refusal::StrayRecord);
    }
    if r.c != 0 {
        return Err(Refusal::StrayRecord);
    }
    if s.more == 0 {
        return Err(Refusal::StrayRecord);
    }
    Ok(State {
        last: Before::Weighting,
        due: 0,
        more: s.more - 1,
        begun: s.begun + 1,
        weight_key: None, // a weighting's W and M records rise anew
        marked_key: None,
        ..s
    })
}

// One record, of a kind that the table lets stand here.
pub fn step(r: Record, s: State, pack: &PackView) -> Result<State, Refusal>
    requires { StepAsked r s pack.now.symbols pack.now.rules pack.now.arities.now pack.now.starts.now pack.now.nodes.now pack.now.defined.now }
    ensures { SteppedAs s result ((p : System) (x : CertificateReading) → Stored p pack.now.symbols pack.now.rules pack.now.arities.now pack.now.starts.now pack.now.nodes.now pack.now.defined.now → Mirrors s x → StepsAs (cert_step p r x) result) }
{
    if r.kind == b'C' {
        return component(r, s);
    }
    if r.kind == b'P' {
        return pair(r, s, pack);
    }
    // W is the only kind above P; tested so, the kinds are compared one by one and need no jump through a table.
    if b'P' < r.kind {
        return weight(r, s, pack);
    }
    if r.kind == b'M' {
        return marked(r, s, pack);
    }
    // The table lets no other kind stand.
    weighting(r, s)
}
