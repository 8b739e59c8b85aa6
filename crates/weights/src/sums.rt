// Seventeen sums, a polynomial's constant first and then its coefficients. As soon as one passes the limit the first does: it tells.
ghost use Rattle.std.specs.Prelude.{◌≡◌, false, ◌+◌, ◌≤◌, ◌<◌, ltb, length, get_or, set};
ghost use Rattle.polynomials.specs.Limit.{limit};
ghost use Rattle.polynomials.specs.Polynomials.{each_at_least};
ghost use Rattle.weights.specs.Sums.{most_part, capped, Sums, AddsTo};

use terms::{MOST_SYMBOLS, MOST_VARIABLES};

// A constant, and a coefficient for each variable.
pub const SUMS: usize = MOST_VARIABLES + 1;

// Variable v's sum is the one after number v; its byte is v past the symbols.
pub const BEFORE_VARIABLES: usize = MOST_SYMBOLS - 1;

// Document 01's limit on every constant and coefficient.
const LIMIT: u64 = 4294967295;

const PAST_LIMIT: u64 = LIMIT + 1;

pub fn passes(x: u64) -> bool
    ensures { result ≡ ltb limit x }
{
    LIMIT < x
}

// A factor past the limit is past it in every product that is not 0, however large it is.
pub fn cap(x: u64) -> u64
    ensures { result ≡ capped x }
{
    if passes(x) {
        return PAST_LIMIT;
    }
    x
}

// Whether a sum has passed the limit.
pub fn over(sums: &[u64; SUMS]) -> bool
    ensures { result ≡ ltb limit (get_or sums.now 0 0) }
{
    passes(sums[0])
}

pub fn set_over(sums: &mut [u64; SUMS])
    ensures { sums.new ≡ set sums.old 0 (limit + 1) }
{
    sums[0] = PAST_LIMIT;
}

// Adds x to sum i.
pub fn add(sums: &mut [u64; SUMS], i: usize, x: u64)
    requires { (i < 17) × Sums sums.old × (x ≤ most_part) }
    ensures { AddsTo false (set sums.old i (get_or sums.old i 0 + x)) sums.new }
{
    let s = sums[i] + x;
    sums[i] = s;
    if passes(s) {
        set_over(sums);
    }
}

// Each is at least the other's.
pub fn all_at_least(xs: &[u64; SUMS], ys: &[u64; SUMS]) -> bool
    requires { (length xs.now ≡ 17) × (length ys.now ≡ 17) }
    ensures { result ≡ each_at_least xs.now ys.now }
{
    xs.iter().zip(ys).all(|(x, y)| x >= y)
}
