// The table of weights: nine cells for each symbol, its constant and then its arguments, and after them nine for each tuple symbol.
// A cell is found by a `Symbol` or by a `Marked` alone, so that neither's weights are taken for the other's.
ghost use Rattle.std.specs.Prelude.{◌≡◌, ℕ, ◌+◌, ◌≤◌, ◌<◌, set};
ghost use Rattle.weights.specs.Table.{row, marked_row, symbol_within, marked_within};

use terms::{MOST_SYMBOLS, Marked, Symbol};

// A symbol has at most 8 arguments.
const ROW: usize = 9;

// Where the cells of the tuple symbols begin, and how many cells there are.
const MARKED: usize = MOST_SYMBOLS * ROW;

pub const CELLS: usize = 2 * MOST_SYMBOLS * ROW;

// What has cells of its own: a symbol, or the tuple symbol of one. The trait's clauses say for both where they begin.
pub trait Head {
    ghost number: { Self → ℕ };

    ghost first: { Self → ℕ };

    // Where its cells begin.
    fn row(self) -> usize
        ensures { result ≡ first self };

    ghost within: { (f : Self) → number f < 64 → first f + 8 < 1152 };
}

impl Head for Symbol {
    ghost number = { λ f. f.0 };

    ghost first = { λ f. row f.0 };

    ghost within = { λ f h. symbol_within f.0 h };

    fn row(self) -> usize {
        ROW * usize::from(self.0)
    }
}

impl Head for Marked {
    ghost number = { λ f. f.0 };

    ghost first = { λ f. marked_row f.0 };

    ghost within = { λ f h. marked_within f.0 h };

    fn row(self) -> usize {
        MARKED + ROW * usize::from(self.0)
    }
}

// Stores a weight: i is 0 for the constant, or the number of an argument.
pub fn put<H: Head>(table: &mut [u16; CELLS], f: H, i: usize, value: u16)
    requires { (H.number f < 64) × (i ≤ 8) }
    ensures { table.new ≡ set table.old (H.first f + i) value }
{
    table[f.row() + i] = value;
}
