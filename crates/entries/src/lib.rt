#![tactic(auto)]
// The pairs that a certificate names, kept as entries of rule, place and component, and the weightings under which they left.
ghost use Rattle.std.specs.Prelude.{◌≡◌, suc, ◌%◌, ◌≤◌, ◌<◌, length};
ghost use Rattle.records.specs.Records.{all_records};
ghost use Rattle.entries.specs.Entries.{numbered, entry, with_entry, Keeps, HasRoom, Told};

use records::{MOST_PAIRS, Record};

// The weighting is 0 until it is told. No byte is left between the fields, so that all entries are cleared at once.
#[derive(Clone, Copy)]
pub struct Entry {
    pub rule: u8,
    pub place: u8,
    pub component: u16,
    pub weighting: u16,
}

// The entries of the pairs that a certificate names, in its order, and how many there are. The count last, for a quick copy: DECISIONS 35.
#[derive(Clone, Copy)]
pub struct Store {
    pub entries: [Entry; MOST_PAIRS],
    pub count: usize,
}

// The number of the component that a record belongs to.
fn numbered(r: Record, before: u16) -> u16
    requires { before < 65535 }
    ensures { result ≡ numbered before r }
{
    if r.kind == b'C' {
        return before + 1;
    }
    before
}

// The entry that a record gives.
fn entry_of(r: Record, component: u16) -> Entry
    ensures { result ≡ entry r component }
{
    Entry {
        rule: (r.a % 256) as u8,
        place: (r.b % 256) as u8,
        component,
        weighting: 0,
    }
}

// Puts the entry at its place, if there is one.
fn enter(entries: &mut [Entry], at: usize, entry: Entry)
    ensures { entries.new ≡ with_entry entries.old at entry }
{
    if at < entries.len() {
        entries[at] = entry;
    }
}

// Enters the pairs record by record. Answers how many pairs there are.
fn enter_all(certificate: &[u8], entries: &mut [Entry]) -> usize
    requires { (length certificate.now % 8 ≡ 0) × (length certificate.now ≤ 24576) × (length entries.old ≡ 2048) }
    ensures { Keeps (all_records certificate.now) (record { count = result; entries = entries.new }) }
{
    let n = certificate.len() / 8;
    let mut number = 0u16;
    let mut count = 0;
    for i in 0..n {
        let r = Record::from(records::word_at(certificate, 8 * i));
        number = numbered(r, number);
        if r.kind == b'P' {
            enter(entries, count, entry_of(r, number));
            count += 1;
        }
    }
    count
}

// Keeps the pairs of a certificate.
pub fn keep(certificate: &[u8]) -> Store
    requires { (length certificate.now % 8 ≡ 0) × (length certificate.now ≤ 24576) }
    ensures { Keeps (all_records certificate.now) result }
{
    let mut entries = [Entry {
        rule: 0,
        place: 0,
        component: 0,
        weighting: 0,
    }; MOST_PAIRS];
    let count = enter_all(certificate, &mut entries);
    Store { entries, count }
}

// Puts into each entry the weighting under which its pair left.
pub fn tell(store: Store, weightings: &[u8; MOST_PAIRS]) -> Store
    requires { HasRoom store }
    ensures { Told store weightings.now result }
{
    let n = store.count;
    let mut entries = store.entries;
    for i in 0..n {
        entries[i].weighting = u16::from(weightings[i]);
    }
    Store { entries, count: n }
}
