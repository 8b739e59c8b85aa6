// The check and the arc question over a pack that was read.
ghost use Rattle.std.specs.Prelude.{◌≡◌, List, ℕ};
ghost use Rattle.records.specs.Answers.{outcome_of};
ghost use Rattle.records.specs.Outcomes.{passed, refusal};
ghost use Rattle.packs.specs.PackReading.{read_pack};
ghost use Rattle.pairs.specs.Listing.{a_pair};
ghost use Rattle.pairs.specs.Answers.{arc_question};
ghost use Rattle.pairs.specs.Says.{ArcAs};
ghost use Rattle.pair_finder.specs.Walking.{SystemKept};
ghost use Rattle.certificates.specs.CertificateReading.{read_certificate};
ghost use Rattle.judging.specs.Check.{check_read};
ghost use Rattle.teldyzhom.specs.Entries.{checked_number};
ghost use Rattle.teldyzhom.specs.Kept.{CheckAsked};

use entries::Store;
use pack_reader::{Pack, PackView};
use records::Refusal;

// What a certificate comes to by its judgement. The entries of an accepted one nobody asks for yet.
fn accepted(judged: Result<Store, Refusal>) -> Result<(), Refusal>
    ensures { checked_number result ≡ refusal (outcome_of judged) }
{
    judged?;
    Ok(())
}

// Checks a certificate that has passed 1: accepted, or the first refusal, 2 to 13 or 17.
pub fn check_kept(certificate: &[u8], pack: &Pack) -> Result<(), Refusal>
    requires { CheckAsked certificate.now pack.now }
    ensures { (a : CheckAsked certificate.now pack.now) → checked_number result ≡ check_read a.system (read_certificate a.system certificate.now) }
{
    let view = pack.view();
    let components = certificate_reader::read_components(certificate, &view)?;
    accepted(checker::judge(certificate, components, pack))
}

// Says whether an arc runs between two pairs: yes, no, or 7.
pub fn arc_kept(
    pack: &PackView,
    rule: usize,
    place: usize,
    other_rule: usize,
    other_place: usize,
) -> Result<bool, Refusal>
    requires { SystemKept pack.now.rules pack.now.arities.now pack.now.starts.now pack.now.nodes.now pack.now.defined.now }
    ensures { (k : SystemKept pack.now.rules pack.now.arities.now pack.now.starts.now pack.now.nodes.now pack.now.defined.now) (bs : List ℕ) → read_pack bs ≡ passed k.system → ArcAs (arc_question bs (a_pair rule place) (a_pair other_rule other_place)) result }
{
    let right = pair_finder::arcs::place_of(pack, rule, place)?;
    pair_finder::arcs::place_of(pack, other_rule, other_place)?;
    // Not `arc_from`, which is the check's alone (DECISIONS 89).
    let end = terms::skip(pack.arities, pack.nodes, right);
    Ok(pair_finder::arcs::arc_to(pack, right, end, other_rule))
}
