#![tactic(auto)]
// 8 and 9: every pair stands once, and no arc leads back to a lower component.
ghost use Rattle.std.specs.Prelude.{◌≡◌, ◌<◌, ◌≤◌, length};
ghost use Rattle.partition.specs.Working.{slot, back_to, back_at, Keys, Roots, Lowered, NotedEntry, KeysAsked, BackAsked, SearchAsked, SearchAnswer, BackAskedOf, Judgeable, OrderingAsked, OrderedAs};

use entries::{Entry, Store};
use pack_reader::{MOST_NODES, MOST_RULES, PackView};
use records::{MOST_PAIRS, Refusal};
use terms::MOST_SYMBOLS;

// Above the number of every component.
const NO_COMPONENT: u16 = 65535;

// Lowers entry s to this component.
fn lower(lows: &mut [u16], s: usize, number: u16)
    ensures { Lowered s number lows.old lows.new }
{
    if s < lows.len() {
        lows[s] = number.min(lows[s]);
    }
}

// Lowers the rule's lowest component to the entry's and takes the pair's slot. Says whether it was taken before.
fn note(e: Entry, lows: &mut [u16], seen: &mut [bool]) -> bool
    requires { slot e < length seen.old }
    ensures { NotedEntry e lows.old lows.new seen.old seen.new result }
{
    lower(lows, usize::from(e.rule), e.component);
    let slot = MOST_NODES * usize::from(e.rule) + usize::from(e.place);
    std::mem::replace(&mut seen[slot], true)
}

// The root of each rule's left side and the rule's lowest component, as one number.
fn keep_keys(pack: &PackView, lows: &[u16], keys: &mut [u32])
    requires { KeysAsked pack.now.rules pack.now.starts.now pack.now.nodes.now lows.now keys.old }
    ensures { Keys pack.now.rules pack.now.starts.now pack.now.nodes.now lows.now keys.new }
{
    for s in 0..pack.rules {
        let at = usize::from(pack.starts[2 * s]);
        keys[s] = 65536 * u32::from(pack.nodes[at]) + u32::from(lows[s]);
    }
}

// The lowest component of the rules with each root.
fn lowest_of_roots(pack: &PackView, lows: &[u16], roots: &mut [u16])
    requires { KeysAsked pack.now.rules pack.now.starts.now pack.now.nodes.now lows.now roots.old }
    ensures { Roots pack.now.rules pack.now.starts.now pack.now.nodes.now lows.now roots.new }
{
    for s in 0..pack.rules {
        let at = usize::from(pack.starts[2 * s]);
        lower(roots, usize::from(pack.nodes[at]), lows[s]);
    }
}

// The next rule from `first` on with a pair in a component below `own` to which document 01's arc leads from the pair whose right
// side is kept from `right` to `end`; no arc leads back to a rule before it.
fn reached_from(
    pack: &PackView,
    keys: &[u32],
    right: usize,
    end: usize,
    own: u16,
    first: usize,
) -> Option<usize>
    requires { SearchAsked pack.now.rules pack.now.arities.now pack.now.starts.now pack.now.nodes.now pack.now.defined.now keys.now right end × (first ≤ pack.now.rules) }
    ensures { (a : SearchAsked pack.now.rules pack.now.arities.now pack.now.starts.now pack.now.nodes.now pack.now.defined.now keys.now right end) → SearchAnswer a.asked.kept.system a.asked.lows own a.asked.pair pack.now.rules first result }
{
    let from = 65536 * u32::from(pack.nodes[right]);
    for s in first..pack.rules {
        // One test for both: the rule has this root, and a component below `own`.
        if keys[s].wrapping_sub(from) < u32::from(own)
            && pair_finder::arcs::reaches_to(pack, right, end, s)
        {
            return Some(s);
        }
    }
    None
}

// An arc leads from the pair whose right side is kept at `right` to a rule with a pair in a component below `own`.
fn back_from(pack: &PackView, keys: &[u32], roots: &[u16], right: usize, own: u16) -> bool
    requires { BackAsked pack.now.rules pack.now.arities.now pack.now.starts.now pack.now.nodes.now pack.now.defined.now keys.now roots.now right }
    ensures { (a : BackAsked pack.now.rules pack.now.arities.now pack.now.starts.now pack.now.nodes.now pack.now.defined.now keys.now roots.now right) → result ≡ back_to a.kept.system a.lows own a.pair pack.now.rules }
{
    // No rule with this root has a lower component.
    if own <= roots[usize::from(pack.nodes[right])] {
        return false;
    }
    let end = terms::skip(pack.arities, pack.nodes, right);
    let mut s = 0;
    while let Some(reached) = reached_from(pack, keys, right, end, own, s) {
        if pair_finder::arcs::agrees_to(pack, right, end, reached) {
            return true;
        }
        s = reached + 1;
    }
    false
}

// The same from the pair of an entry.
fn back_from_entry(e: Entry, pack: &PackView, keys: &[u32], roots: &[u16]) -> bool
    requires { BackAskedOf e pack.now.rules pack.now.arities.now pack.now.starts.now pack.now.nodes.now pack.now.defined.now keys.now roots.now }
    ensures { (a : BackAskedOf e pack.now.rules pack.now.arities.now pack.now.starts.now pack.now.nodes.now pack.now.defined.now keys.now roots.now) → result ≡ back_at a.kept.system a.lows pack.now.rules e }
{
    let right = usize::from(pack.starts[2 * usize::from(e.rule) + 1]) + usize::from(e.place);
    back_from(pack, keys, roots, right, e.component)
}

// 8, then 9, by the entries of a certificate that was read. The certificate itself is there for the contract.
pub fn judge(
    certificate: &[u8],
    store: Store,
    components: usize,
    pack: &PackView,
) -> Result<(), Refusal>
    requires { OrderingAsked certificate.now store components pack.now.rules pack.now.arities.now pack.now.starts.now pack.now.nodes.now pack.now.defined.now }
    ensures { (j : Judgeable certificate.now components pack.now.rules pack.now.arities.now pack.now.starts.now pack.now.nodes.now pack.now.defined.now) → OrderedAs j.kept.system j.all result }
{
    let n = store.count;
    if n != pair_finder::listing::count_pairs(pack) {
        return Err(Refusal::PairCount);
    }
    let mut lows = [NO_COMPONENT; MOST_RULES];
    let mut seen = [false; MOST_PAIRS];
    let entries = &store.entries[..n];
    for e in entries {
        if note(*e, &mut lows, &mut seen) {
            return Err(Refusal::PairCount);
        }
    }
    // One component has no lower one.
    if components <= 1 {
        return Ok(());
    }
    let mut keys = [0u32; MOST_RULES];
    keep_keys(pack, &lows, &mut keys);
    let mut roots = [NO_COMPONENT; MOST_SYMBOLS];
    lowest_of_roots(pack, &lows, &mut roots);
    for e in entries {
        if back_from_entry(*e, pack, &keys, &roots) {
            return Err(Refusal::BackArc);
        }
    }
    Ok(())
}
