#![tactic(auto)]
// Reads a text of rules, refusals 15 and 16, into a pack that the caller lends.
mod numbering;
mod rules;

ghost use Rattle.texts.specs.TextReading.{read_text};
ghost use Rattle.text_reader.specs.Tables.{PackTold};

use pack_reader::Pack;
use records::{MOST_TEXT_BYTES, Refusal};
use text_names::Table;

// Reads the pack that a text spells; which symbols are defined it does not flag. What is outside the grammar is refused first,
// wherever it stands, by a loop; the readers of terms and lists, which call each other, then meet no other text.
pub fn read_text(text: &[u8], pack: &mut Pack) -> Result<(), Refusal>
    ensures { PackTold (read_text text.now) result pack.new }
{
    if MOST_TEXT_BYTES < text.len() {
        return Err(Refusal::BadText);
    }
    let mut table = Table::new();
    let at = text_grammar::rules_place(text, &mut table)?;
    let counts = rules::read_rules(text, at, &table, pack)?;
    pack.symbols = counts.symbols;
    pack.rules = counts.rules;
    Ok(())
}
