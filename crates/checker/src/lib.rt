#![tactic(auto)]
// The check of a pack and a certificate that were read: 8 to 13 and 17.
mod component;
mod weighing;

ghost use Rattle.partition.specs.Working.{Judgeable};
ghost use Rattle.checker.specs.Working.{AllJudged};

use entries::Store;
use pack_reader::Pack;
use records::{MOST_PAIRS, Refusal};
use terms::{MOST_SYMBOLS, NODES_ROOM};

// Judges a certificate that was read. Where it is accepted, answers the entries of its pairs: each tells the weighting under which its
// pair left, or 0 where the component has none.
pub fn judge(certificate: &[u8], components: usize, pack: &Pack) -> Result<Store, Refusal>
    requires { Judgeable certificate.now components pack.now.rules pack.now.arities pack.now.starts pack.now.nodes pack.now.defined }
    ensures { (j : Judgeable certificate.now components pack.now.rules pack.now.arities pack.now.starts pack.now.nodes pack.now.defined) → AllJudged j.kept.system j.all result }
{
    let store = entries::keep(certificate);
    let view = pack.view();
    partition::judge(certificate, store, components, &view)?;
    let mut lefts = [0u8; MOST_PAIRS];
    component::judge_components(certificate, components, pack, &mut lefts)?;
    Ok(entries::tell(store, &lefts))
}
