// The pairs of a pack that was read, and their records.
ghost use Rattle.std.specs.Prelude.{◌≡◌, ◌++◌, map, ◌+◌, ◌*◌, ◌≤◌, ◌<◌, length, drop};
ghost use Rattle.terms.specs.Kept.{part, symbols_room};
ghost use Rattle.pairs.specs.Listing.{a_pair, pair_bytes};
ghost use Rattle.pair_finder.specs.Walking.{is_defined, places, first_pairs, Laid, Written};

use pack_reader::PackView;
use records::Record;
use terms::MOST_SYMBOLS;

// The node applies a defined symbol.
#[tactic(auto, unfolding(crate::specs::Walking::is_defined))]
pub fn is_defined(pack: &PackView, code: u8) -> bool
    requires { length pack.now.defined.now ≡ symbols_room }
    ensures { result ≡ is_defined pack.now.defined.now code }
{
    let c = usize::from(code);
    c < MOST_SYMBOLS && pack.defined[c] == 1
}

// How many nodes of a side apply a defined symbol.
fn count_in(pack: &PackView, from: usize, to: usize) -> usize
    requires { (from ≤ to) × (to ≤ length pack.now.nodes.now) × (length pack.now.defined.now ≡ symbols_room) }
    ensures { result ≡ length (places pack.now.defined.now 0 (part pack.now.nodes.now from to)) }
{
    pack.nodes[from..to]
        .iter()
        .filter(|c| is_defined(pack, **c))
        .count()
}

// How many pairs there are.
pub fn count_pairs(pack: &PackView) -> usize
    requires { Laid pack.now.starts.now pack.now.nodes.now pack.now.rules × (length pack.now.defined.now ≡ symbols_room) }
    ensures { result ≡ length (first_pairs pack.now.starts.now pack.now.nodes.now pack.now.defined.now pack.now.rules) }
{
    (0..pack.rules)
        .map(|i| {
            let from = usize::from(pack.starts[2 * i + 1]);
            let to = usize::from(pack.starts[2 * i + 2]);
            count_in(pack, from, to)
        })
        .sum()
}

// Writes the records of rule `rule`'s pairs from byte `at` on. Answers the byte after them.
fn write_in(
    list: &mut [u8],
    at: usize,
    pack: &PackView,
    rule: usize,
    from: usize,
    to: usize,
) -> usize
    requires { (rule < 64) × (from ≤ to) × (to ≤ from + 32) × (to ≤ length pack.now.nodes.now) × (length pack.now.defined.now ≡ symbols_room) × (at + 8 * length (places pack.now.defined.now 0 (part pack.now.nodes.now from to)) ≤ length list.old) }
    ensures { Written at (map (a_pair rule) (places pack.now.defined.now 0 (part pack.now.nodes.now from to))) result list.old list.new }
{
    let mut next = at;
    for i in from..to {
        if is_defined(pack, pack.nodes[i]) {
            records::write_record(
                list,
                next,
                Record {
                    kind: b'P',
                    one: 0,
                    a: rule as u16,
                    b: (i - from) as u16,
                    c: 0,
                },
            );
            next += 8;
        }
    }
    next
}

// Writes all records.
pub fn write_pairs(list: &mut [u8], pack: &PackView)
    requires { Laid pack.now.starts.now pack.now.nodes.now pack.now.rules × (length pack.now.defined.now ≡ symbols_room) × (8 * length (first_pairs pack.now.starts.now pack.now.nodes.now pack.now.defined.now pack.now.rules) ≤ length list.old) }
    ensures { list.new ≡ pair_bytes (first_pairs pack.now.starts.now pack.now.nodes.now pack.now.defined.now pack.now.rules) ++ drop (8 * length (first_pairs pack.now.starts.now pack.now.nodes.now pack.now.defined.now pack.now.rules)) list.old }
{
    let mut at = 0;
    for i in 0..pack.rules {
        let from = usize::from(pack.starts[2 * i + 1]);
        let to = usize::from(pack.starts[2 * i + 2]);
        at = write_in(list, at, pack, i, from, to);
    }
}
