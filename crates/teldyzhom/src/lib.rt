// The loader's four entries: the check, the listing, the arc question and the reader of texts.
#![tactic(auto)]

mod kept;

ghost use Rattle.std.specs.Prelude.{◌≡◌, length, Ok};
ghost use Rattle.pairs.specs.Listing.{a_pair};
ghost use Rattle.pairs.specs.Answers.{listing, arc_question, buffer_after};
ghost use Rattle.pairs.specs.Says.{ListedAs, ArcAs};
ghost use Rattle.judging.specs.Check.{check};
ghost use Rattle.texts.specs.TextReading.{text_pack, pack_after};
ghost use Rattle.texts.specs.Says.{ReadAs};
ghost use Rattle.teldyzhom.specs.Entries.{checked_number, Accepting};

use pack_reader::Pack;
use records::{MOST_CERTIFICATE_BYTES, Refusal};

// Judges the two files: accepted, or the first refusal, 1 to 13 or 17.
fn judge_files(pack: &[u8], certificate: &[u8]) -> Result<(), Refusal>
    ensures { checked_number result ≡ check pack.now certificate.now }
{
    if MOST_CERTIFICATE_BYTES < certificate.len() {
        return Err(Refusal::CutFile);
    }
    if certificate.len() % 8 != 0 {
        return Err(Refusal::CutFile);
    }
    let mut read = Pack::new();
    pack_reader::read_pack(pack, &mut read)?;
    kept::check_kept(certificate, &read)
}

// Checks a certificate for a pack: accepted, or the first refusal, 1 to 13 or 17. Accepted means that the files are as the documents want
// them, that all chains of the pack's dependency pairs end and that all derivations from all terms over its symbols end.
pub fn check_certificate(pack: &[u8], certificate: &[u8]) -> Result<(), Refusal>
    ensures says { checked_number result ≡ check pack.now certificate.now }
    ensures means { Accepting (result ≡ Ok tt) pack.now certificate.now }
{
    records::all_bytes(pack);
    records::all_bytes(certificate);
    judge_files(pack, certificate)
}

// Lists the pairs of a pack as P records in the caller's buffer, rising. Answers how many there are; a refusal leaves the
// buffer untouched, and no byte after the records changes.
pub fn list_pairs(pack: &[u8], list: &mut [u8]) -> Result<usize, Refusal>
    ensures says { ListedAs (listing pack.now (length list.old)) result }
    ensures leaves { list.new ≡ buffer_after (listing pack.now (length list.old)) list.old }
{
    let mut read = Pack::new();
    pack_reader::read_pack(pack, &mut read)?;
    let view = read.view();
    let n = pair_finder::listing::count_pairs(&view);
    if list.len() / 8 < n {
        return Err(Refusal::ShortList);
    }
    pair_finder::listing::write_pairs(list, &view);
    Ok(n)
}

// Says whether an arc runs from one pair of a pack to another.
pub fn arc_runs(
    pack: &[u8],
    rule: u32,
    place: u32,
    other_rule: u32,
    other_place: u32,
) -> Result<bool, Refusal>
    ensures { ArcAs (arc_question pack.now (a_pair rule place) (a_pair other_rule other_place)) result }
{
    let mut read = Pack::new();
    pack_reader::read_pack(pack, &mut read)?;
    let view = read.view();
    kept::arc_kept(
        &view,
        rule as usize,
        place as usize,
        other_rule as usize,
        other_place as usize,
    )
}

// Reads a text of rules as the solvers write them, and writes its pack to the caller's buffer. Answers the pack's length in bytes; a
// refusal leaves the buffer untouched, and no byte after the pack changes.
pub fn read_text(text: &[u8], pack: &mut [u8]) -> Result<usize, Refusal>
    ensures says { ReadAs (text_pack text.now (length pack.old)) result }
    ensures leaves { pack.new ≡ pack_after (text_pack text.now (length pack.old)) pack.old }
{
    let mut read = Pack::new();
    text_reader::read_text(text, &mut read)?;
    let size = pack_writer::pack_length(&read);
    if pack.len() < size {
        return Err(Refusal::ShortList);
    }
    pack_writer::write_pack(pack, &read);
    Ok(size)
}
