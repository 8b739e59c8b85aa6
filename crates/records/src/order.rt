// Which kind may stand after which: the documents' table, asked by both readers.
ghost use Rattle.std.specs.Prelude.{◌≡◌, ◌/◌, ◌%◌, ◌^◌, ◌<◌, eqb};
ghost use Rattle.records.specs.Order.{index, may_follow};
ghost use Rattle.records.specs.Rows.{column_at, row_number, edge, RowSays};

// What stands before a record, a row of the table each: the start of a pack, of a certificate or of its components, or a record by its
// kind.
#[derive(Clone, Copy, Debug, PartialEq, Eq)]
pub enum Before {
    StartOfPack,
    Symbol,
    Rule,
    Application,
    Variable,
    StartOfComponents,
    Component,
    Pair,
    Weight,
    Marked,
    Weighting,
    Counting,
    Innermost,
    Other,
    StartOfCertificate,
}

// Which file ends.
#[derive(Clone, Copy, Debug, PartialEq, Eq)]
pub enum End {
    Pack,
    Certificate,
}

// The columns: the letters from A to Z, the ends of a pack and of a certificate, and one for every other byte.
const LETTERS: usize = 26;

const PACK_END: usize = LETTERS;

const CERTIFICATE_END: usize = LETTERS + 1;

const OTHER: usize = LETTERS + 2;

// A column's bit in a row.
const C: u32 = 0x4;

const F: u32 = 0x20;

const L: u32 = 0x800;

const M: u32 = 0x1000;

const P: u32 = 0x8000;

const R: u32 = 0x20000;

const S: u32 = 0x40000;

const V: u32 = 0x200000;

const W: u32 = 0x400000;

const END_OF_PACK: u32 = 0x4000000;

const END_OF_CERTIFICATE: u32 = 0x8000000;

// What may stand, by what stands before.
const AFTER_PACK_START: u32 = S + END_OF_PACK;

const AFTER_S: u32 = S + R + END_OF_PACK;

const AFTER_R: u32 = F + V;

const INSIDE_RULE: u32 = F + V;

const AFTER_RULE: u32 = R + END_OF_PACK;

const AFTER_CERTIFICATE_START: u32 = C + END_OF_CERTIFICATE;

const AFTER_COMPONENTS_START: u32 = C + END_OF_CERTIFICATE;

const AFTER_C: u32 = P;

const AMONG_PAIRS: u32 = P;

const AFTER_PAIRS: u32 = C + END_OF_CERTIFICATE;

const AFTER_WEIGHTED_PAIRS: u32 = C + END_OF_CERTIFICATE + W + M + L;

const AFTER_W: u32 = W + M + L + C + END_OF_CERTIFICATE;

const AFTER_M: u32 = M + L + C + END_OF_CERTIFICATE;

const AFTER_L: u32 = AFTER_W;

// A row: the bits while the count lasts, after it, and after it in a component with a weighting.
#[derive(Clone, Copy)]
struct Row {
    lasts: u32,
    done: u32,
    weighted: u32,
}

// A row whose columns hang on no count.
fn ever(x: u32) -> Row
    ensures { (result.lasts ≡ x) × (result.done ≡ x) × (result.weighted ≡ x) }
{
    Row {
        lasts: x,
        done: x,
        weighted: x,
    }
}

// A row whose columns hang on the count alone.
fn counted(lasts: u32, done: u32) -> Row
    ensures { (result.lasts ≡ lasts) × (result.done ≡ done) × (result.weighted ≡ done) }
{
    Row {
        lasts,
        done,
        weighted: done,
    }
}

// The row of what stands before. A `match` is kept as a table in memory; a constant array is laid out anew at each use.
fn row_of(before: Before) -> Row
    ensures { RowSays (row_number before) result }
{
    match before {
        Before::StartOfPack => ever(AFTER_PACK_START),
        Before::Symbol => ever(AFTER_S),
        Before::Rule => ever(AFTER_R),
        Before::Application | Before::Variable => counted(INSIDE_RULE, AFTER_RULE),
        Before::StartOfComponents => ever(AFTER_COMPONENTS_START),
        Before::Component => ever(AFTER_C),
        Before::Pair => Row {
            lasts: AMONG_PAIRS,
            done: AFTER_PAIRS,
            weighted: AFTER_WEIGHTED_PAIRS,
        },
        Before::Weight => ever(AFTER_W),
        Before::Marked => ever(AFTER_M),
        Before::Weighting => ever(AFTER_L),
        Before::StartOfCertificate => ever(AFTER_CERTIFICATE_START),
        Before::Counting | Before::Innermost | Before::Other => ever(0),
    }
}

// The column of a record's kind.
fn column(kind: u8) -> usize
    ensures { (result < 29) × (column_at result ≡ index kind) }
{
    if kind.is_ascii_uppercase() {
        return usize::from(kind - b'A');
    }
    OTHER
}

// Whether a column's bit is set.
fn has(columns: u32, next: usize) -> bool
    requires { next < 29 }
    ensures { result ≡ eqb (columns / 2 ^ next % 2) 1 }
{
    (columns >> next) % 2 == 1
}

// Whether column `next` may come, by the row of what stands before, the count still due and whether the component has a
// weighting.
fn may_follow(before: Before, next: usize, due: usize, weighted: bool) -> bool
    requires { next < 29 }
    ensures { result ≡ may_follow (row_number before) (column_at next) due weighted }
{
    let r = row_of(before);
    if due != 0 {
        return has(r.lasts, next);
    }
    if weighted {
        return has(r.weighted, next);
    }
    has(r.done, next)
}

// Whether a record of this kind may stand.
pub fn kind_may_follow(before: Before, kind: u8, due: usize, weighted: bool) -> bool
    ensures { result ≡ may_follow (row_number before) (index kind) due weighted }
{
    may_follow(before, column(kind), due, weighted)
}

// Whether a file of this sort may end.
pub fn may_end(before: Before, end: End, due: usize, weighted: bool) -> bool
    ensures { result ≡ may_follow (row_number before) (edge end) due weighted }
{
    match end {
        End::Pack => may_follow(before, PACK_END, due, weighted),
        End::Certificate => may_follow(before, CERTIFICATE_END, due, weighted),
    }
}
