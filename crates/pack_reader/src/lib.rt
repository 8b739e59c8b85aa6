#![tactic(auto)]
// Reads a pack, refusals 1 to 6, into arrays that the caller lends.
pub mod nodes;
mod rules;
pub mod sides;
mod symbols;

ghost use Rattle.std.specs.Prelude.{◌≡◌};
ghost use Rattle.packs.specs.PackReading.{read_pack};
ghost use Rattle.pack_reader.specs.Stored.{PackReadAs};

use records::{MOST_PACK_BYTES, Refusal};
use terms::{MOST_SYMBOLS, NODES_ROOM};

// Document 01's limit on a pack's rules.
pub const MOST_RULES: usize = 64;

// Document 01's limit on the nodes of a side.
pub const MOST_NODES: usize = 32;

// Where each side's nodes start, and where the last one's end.
pub const STARTS_ROOM: usize = 2 * MOST_RULES + 1;

// A pack as it is kept: its symbols' arities, where each side's nodes start, the nodes, and a flag for each defined symbol.
#[derive(Clone, Copy)]
pub struct Pack {
    pub symbols: usize,
    pub rules: usize,
    pub arities: [u8; MOST_SYMBOLS],
    pub starts: [u16; STARTS_ROOM],
    pub nodes: [u8; NODES_ROOM],
    pub defined: [u8; MOST_SYMBOLS],
}

impl Pack {
    // Room for a pack, with none in it.
    pub fn new() -> Pack
        ensures { (result.symbols ≡ 0) × (result.rules ≡ 0) }
    {
        Pack {
            symbols: 0,
            rules: 0,
            arities: [0; MOST_SYMBOLS],
            starts: [0; STARTS_ROOM],
            nodes: [0; NODES_ROOM],
            defined: [0; MOST_SYMBOLS],
        }
    }

    // The pack to be looked at.
    pub fn view(&self) -> PackView<'_>
        ensures { (result.symbols ≡ self.now.symbols) × (result.rules ≡ self.now.rules) × (result.arities.now ≡ self.now.arities) × (result.starts.now ≡ self.now.starts) × (result.nodes.now ≡ self.now.nodes) × (result.defined.now ≡ self.now.defined) }
    {
        PackView {
            symbols: self.symbols,
            rules: self.rules,
            arities: &self.arities,
            starts: &self.starts,
            nodes: &self.nodes,
            defined: &self.defined,
        }
    }
}

// A pack as it is looked at, whatever the length of its arrays.
#[derive(Clone, Copy)]
pub struct PackView<'a> {
    pub symbols: usize,
    pub rules: usize,
    pub arities: &'a [u8],
    pub starts: &'a [u16],
    pub nodes: &'a [u8],
    pub defined: &'a [u8],
}

// Reads the pack that the file holds.
pub fn read_pack(file: &[u8], pack: &mut Pack) -> Result<(), Refusal>
    ensures { PackReadAs (read_pack file.now) result pack.new }
{
    if MOST_PACK_BYTES < file.len() {
        return Err(Refusal::CutFile);
    }
    if file.len() % 8 != 0 {
        return Err(Refusal::CutFile);
    }
    let symbols = symbols::read_symbols(file, &mut pack.arities)?;
    let rules = rules::read_rules(
        file,
        symbols,
        &pack.arities,
        &mut pack.starts,
        &mut pack.nodes,
    )?;
    rules::flag_defined(&pack.starts, &pack.nodes, rules, &mut pack.defined);
    pack.symbols = symbols;
    pack.rules = rules;
    Ok(())
}
