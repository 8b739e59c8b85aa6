// The entries as C functions, with the same clauses; include/teldyzhom.h declares them.
#![tactic(auto)]

ghost use Rattle.std.specs.Prelude.{◌≡◌, length};
ghost use Rattle.records.specs.Answers.{number_of};
ghost use Rattle.records.specs.Outcomes.{refusal};
ghost use Rattle.pairs.specs.Listing.{a_pair};
ghost use Rattle.pairs.specs.Answers.{listing, arc_question, buffer_after, list_value};
ghost use Rattle.judging.specs.Check.{check};
ghost use Rattle.texts.specs.TextReading.{text_pack, pack_after, pack_value};
ghost use Rattle.teldyzhom.specs.Entries.{Accepting, arc_value};

use records::Refusal;

// A refusal's number and 0, or 0 and a value.
#[repr(C)]
#[derive(Clone, Copy)]
pub struct Reply {
    pub number: u32,
    pub value: u32,
}

// What is told of a refusal.
impl From<Refusal> for Reply {
    ghost from_gives = { λ x r. (r.number ≡ number_of x) × (r.value ≡ 0) };

    fn from(x: Refusal) -> Reply {
        Reply {
            number: u32::from(x),
            value: 0,
        }
    }
}

// 0 for accepted, with all that it means, or the refusal's number.
#[unsafe(no_mangle)]
pub extern "C" fn teldyzhom_check(pack: &[u8], certificate: &[u8]) -> u32
    ensures says { result ≡ check pack.now certificate.now }
    ensures means { Accepting (result ≡ 0) pack.now certificate.now }
{
    match teldyzhom::check_certificate(pack, certificate) {
        Ok(()) => 0,
        Err(x) => u32::from(x),
    }
}

// How many pairs were listed.
#[unsafe(no_mangle)]
pub extern "C" fn teldyzhom_list(pack: &[u8], list: &mut [u8]) -> Reply
    ensures number { result.number ≡ refusal (listing pack.now (length list.old)) }
    ensures value { result.value ≡ list_value (listing pack.now (length list.old)) }
    ensures leaves { list.new ≡ buffer_after (listing pack.now (length list.old)) list.old }
{
    match teldyzhom::list_pairs(pack, list) {
        Err(x) => Reply::from(x),
        Ok(n) => Reply {
            number: 0,
            value: n as u32,
        },
    }
}

// 1 for yes, 0 for no.
#[unsafe(no_mangle)]
pub extern "C" fn teldyzhom_arc(
    pack: &[u8],
    rule: u32,
    place: u32,
    other_rule: u32,
    other_place: u32,
) -> Reply
    ensures number { result.number ≡ refusal (arc_question pack.now (a_pair rule place) (a_pair other_rule other_place)) }
    ensures value { result.value ≡ arc_value (arc_question pack.now (a_pair rule place) (a_pair other_rule other_place)) }
{
    match teldyzhom::arc_runs(pack, rule, place, other_rule, other_place) {
        Err(x) => Reply::from(x),
        Ok(runs) => Reply {
            number: 0,
            value: u32::from(runs),
        },
    }
}

// How many bytes the text's pack has.
#[unsafe(no_mangle)]
pub extern "C" fn teldyzhom_read_text(text: &[u8], pack: &mut [u8]) -> Reply
    ensures number { result.number ≡ refusal (text_pack text.now (length pack.old)) }
    ensures value { result.value ≡ pack_value (text_pack text.now (length pack.old)) }
    ensures leaves { pack.new ≡ pack_after (text_pack text.now (length pack.old)) pack.old }
{
    match teldyzhom::read_text(text, pack) {
        Err(x) => Reply::from(x),
        Ok(n) => Reply {
            number: 0,
            value: n as u32,
        },
    }
}
