// The symbols of a pack.
ghost use Rattle.std.specs.Prelude.{◌≡◌};
ghost use Rattle.records.specs.Answers.{outcome_of};
ghost use Rattle.records.specs.Records.{all_records};
ghost use Rattle.pack_reader.specs.Stored.{arity_outcome, symbol_steps, SymbolsAsked, SymbolsRead};

use records::order::Before;
use records::{Record, Refusal};
use terms::MOST_SYMBOLS;

// Document 01's limit on a symbol's arguments.
const MOST_ARITY: u16 = 8;

// The arity that symbol i's record gives: 2, then 3.
fn arity_of(r: Record, i: usize) -> Result<u8, Refusal>
    ensures { outcome_of result ≡ arity_outcome i r }
{
    if r.one != 0 {
        return Err(Refusal::StrayRecord);
    }
    if r.c != 0 {
        return Err(Refusal::StrayRecord);
    }
    if usize::from(r.a) != i {
        return Err(Refusal::StrayRecord);
    }
    if MOST_SYMBOLS <= i {
        return Err(Refusal::OutOfRange);
    }
    if MOST_ARITY < r.b {
        return Err(Refusal::OutOfRange);
    }
    Ok(r.b as u8)
}

// Reads the symbols, up to the first rule or the end. Answers how many there are.
pub fn read_symbols(pack: &[u8], arities: &mut [u8]) -> Result<usize, Refusal>
    requires { SymbolsAsked pack.now arities.old }
    ensures { SymbolsRead (symbol_steps 0 0 (all_records pack.now)) result arities.new }
{
    let n = pack.len() / 8;
    let mut last = Before::StartOfPack;
    for i in 0..n {
        let Some(r) = records::read_wanted(pack, 8 * i, last, 0, false) else {
            return Err(Refusal::StrayRecord);
        };
        if r.kind != b'S' {
            return Ok(i);
        }
        arities[i] = arity_of(r, i)?;
        last = Before::Symbol;
    }
    Ok(n)
}
