// The reader of both files: it knows its place, and gives the record there.
ghost use Rattle.std.specs.Prelude.{◌≡◌, ◌+◌, ◌≤◌, length};
ghost use Rattle.records.specs.Rows.{row_number};
ghost use Rattle.records.specs.Wanted.{wanted_at};

use crate::Record;
use crate::order::Before;

// A file, and the byte where its next record begins.
#[derive(Drop)]
pub struct Reader<'a> {
    pub file: &'a [u8],
    pub at: usize,
}

// The work: the record that begins at byte i, if the table lets its kind stand there.
fn wanted_in(s: &[u8], i: usize, before: Before, due: usize, weighted: bool) -> Option<Record>
    requires { i + 8 ≤ length s.now }
    ensures { result ≡ wanted_at s.now i (row_number before) due weighted }
{
    let r = crate::record_at(s, i);
    if crate::order::kind_may_follow(before, r.kind, due, weighted) {
        return Some(r);
    }
    None
}

impl<'a> Reader<'a> {
    // The next record, if the table lets its kind stand there. The reader moves on past it.
    pub fn next_wanted(&mut self, before: Before, due: usize, weighted: bool) -> Option<Record>
        requires { self.old.at + 8 ≤ length self.old.file.now }
        ensures record { result ≡ wanted_at self.old.file.now self.old.at (row_number before) due weighted }
        ensures same { self.new.file ≡ self.old.file }
        ensures on { self.new.at ≡ self.old.at + 8 }
    {
        let at = self.at;
        self.at = at + 8;
        wanted_in(self.file, at, before, due, weighted)
    }
}
