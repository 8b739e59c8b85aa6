#![tactic(auto)]
// Reads a certificate: refusals 2, 3 and 7, and how many components there are.
mod steps;

ghost use Rattle.rewriting.specs.Terms.{System};
ghost use Rattle.records.specs.Records.{all_records};
ghost use Rattle.records.specs.Order.{components_start};
ghost use Rattle.pack_reader.specs.Stored.{Stored};
ghost use Rattle.certificates.specs.CertificateReading.{components_from};
ghost use Rattle.certificate_reader.specs.Working.{CertificateRead, ReadingAsked};

use pack_reader::PackView;
use records::Refusal;
use records::order::{Before, End};

// What has been read: the last record's row of the table and the components begun. Of the last component: the pairs still
// due, whether it has a weighting, the weightings still to begin and those begun (the next L's number), the key of its last P
// record and those of its last weighting's last W and M records.
#[derive(Clone, Copy)]
pub struct State {
    pub last: Before,
    pub number: usize,
    pub due: usize,
    pub weighted: bool,
    pub more: usize,
    pub begun: usize,
    pub pair_key: Option<u64>,
    pub weight_key: Option<u64>,
    pub marked_key: Option<u64>,
}

// Reads the components in a certificate of a pack that was read. Answers how many there are.
pub fn read_components(certificate: &[u8], pack: &PackView) -> Result<usize, Refusal>
    requires { ReadingAsked certificate.now pack.now.symbols pack.now.rules pack.now.arities.now pack.now.starts.now pack.now.nodes.now pack.now.defined.now }
    ensures { (p : System) → Stored p pack.now.symbols pack.now.rules pack.now.arities.now pack.now.starts.now pack.now.nodes.now pack.now.defined.now → CertificateRead (components_from p components_start (all_records certificate.now)) result }
{
    let n = certificate.len() / 8;
    let mut s = State {
        last: Before::StartOfComponents,
        number: 0,
        due: 0,
        weighted: false,
        more: 0,
        begun: 0,
        pair_key: None,
        weight_key: None,
        marked_key: None,
    };
    for i in 0..n {
        let Some(r) = records::read_wanted(certificate, 8 * i, s.last, s.due, s.weighted) else {
            return Err(Refusal::StrayRecord);
        };
        s = steps::step(r, s, pack)?;
    }
    if !records::order::may_end(s.last, End::Certificate, s.due, s.weighted) {
        return Err(Refusal::StrayRecord);
    }
    if s.more != 0 {
        return Err(Refusal::StrayRecord);
    }
    Ok(s.number)
}
