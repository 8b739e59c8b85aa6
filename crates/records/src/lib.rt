#![tactic(auto)]
// Records of 8 bytes, of which both files are made, and the table of which kind may stand after which.
mod meaning;
pub mod order;
pub mod reader;

ghost use Rattle.std.specs.Prelude.{◌≡◌, Option, true, ◌++◌, ◌+◌, ◌≤◌, ◌<◌, length, take, drop};
ghost use Rattle.records.specs.Records.{record_at, fields, WordAt, record_bytes, all_bytes};
ghost use Rattle.records.specs.Rows.{row_number};
ghost use Rattle.records.specs.Wanted.{wanted_at};
ghost use Rattle.records.specs.Answers.{number_of};

use order::Before;

// Document 01's limits on a pack's bytes, a certificate's bytes and a pack's pairs.
pub const MOST_PACK_BYTES: usize = 33792;

pub const MOST_CERTIFICATE_BYTES: usize = 24576;

pub const MOST_PAIRS: usize = 2048;

// Document 02's limit on a text's bytes.
pub const MOST_TEXT_BYTES: usize = 32768;

// What bytes 1, 2, 4 and 6 of a record, where fields begin, count for in its number.
const BYTE_1: u64 = 0x100;

const BYTE_2: u64 = 0x10000;

const BYTE_4: u64 = 0x100000000;

const BYTE_6: u64 = 0x1000000000000;

// A record as its fields. Byte 0 is the kind, byte 1 is `one`, and a, b and c are two bytes each, low byte first.
#[derive(Clone, Copy, Debug, PartialEq, Eq)]
pub struct Record {
    pub kind: u8,
    pub one: u8,
    pub a: u16,
    pub b: u16,
    pub c: u16,
}

// Document 01's refusals 1 to 14 in its order, and document 02's, 15 to 24.
#[derive(Clone, Copy, Debug, PartialEq, Eq)]
pub enum Refusal {
    CutFile = 1,
    StrayRecord,
    OutOfRange,
    BrokenSide,
    BareLeft,
    LooseVariable,
    NoSuchPair,
    PairCount,
    BackArc,
    SelfArc,
    Heavy,
    RuleRises,
    PairStays,
    ShortList,
    BadText,
    TextLimits,
    NoneLeaves,
    LostArgument,
    RuleStays,
    Full,
    WrongContinuation,
    EndsDiffer,
    SideSpent,
    NoSuchRule,
}

// The refusal's number in document 01's table.
impl From<Refusal> for u32 {
    ghost from_gives = { λ x n. n ≡ number_of x };

    fn from(x: Refusal) -> u32 {
        x as u32
    }
}

// What a slice holds are bytes. It does nothing: whoever calls it may say so in a contract.
pub fn all_bytes(s: &[u8])
    ensures { all_bytes s.now ≡ true }
{}

// The record that begins at byte i, put together as one number.
pub fn word_at(s: &[u8], i: usize) -> u64
    requires { i + 8 ≤ length s.now }
    ensures { WordAt s.now i result }
{
    // For the contract: the fields are found again because these are bytes.
    all_bytes(s);
    u64::from_le_bytes([
        s[i],
        s[i + 1],
        s[i + 2],
        s[i + 3],
        s[i + 4],
        s[i + 5],
        s[i + 6],
        s[i + 7],
    ])
}

// The fields of a record that was put together as a number.
impl From<u64> for Record {
    ghost from_gives = { λ word r. r ≡ fields word };

    fn from(word: u64) -> Record {
        Record {
            kind: (word % BYTE_1) as u8,
            one: (word / BYTE_1 % BYTE_1) as u8,
            a: (word / BYTE_2 % BYTE_2) as u16,
            b: (word / BYTE_4 % BYTE_2) as u16,
            c: (word / BYTE_6 % BYTE_2) as u16,
        }
    }
}

// The record that begins at byte i.
pub fn record_at(s: &[u8], i: usize) -> Record
    requires { i + 8 ≤ length s.now }
    ensures { result ≡ record_at s.now i }
{
    Record::from(word_at(s, i))
}

// Writes a record at byte `at`.
pub fn write_record(list: &mut [u8], at: usize, r: Record)
    requires { at + 8 ≤ length list.old }
    ensures { list.new ≡ take at list.old ++ (record_bytes r ++ drop (at + 8) list.old) }
{
    // Byte by byte: a slice of eight is copied by a call, and a listing took a sixth longer.
    list[at] = r.kind;
    list[at + 1] = r.one;
    list[at + 2] = (r.a % 256) as u8;
    list[at + 3] = (r.a / 256 % 256) as u8;
    list[at + 4] = (r.b % 256) as u8;
    list[at + 5] = (r.b / 256 % 256) as u8;
    list[at + 6] = (r.c % 256) as u8;
    list[at + 7] = (r.c / 256 % 256) as u8;
}

// The record that begins at byte i, if the table lets its kind stand there. A reader of the file gives it.
pub fn read_wanted(s: &[u8], i: usize, before: Before, due: usize, weighted: bool) -> Option<Record>
    requires { i + 8 ≤ length s.now }
    ensures { result ≡ wanted_at s.now i (row_number before) due weighted }
{
    let mut reader = reader::Reader { file: s, at: i };
    reader.next_wanted(before, due, weighted)
}
