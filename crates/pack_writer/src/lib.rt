#![tactic(auto)]
// Writes a pack from the arrays in which it is kept to the caller's buffer.
ghost use Rattle.std.specs.Prelude.{◌≡◌, map, ◌*◌, ◌≤◌, length, take};
ghost use Rattle.terms.specs.Kept.{part, symbols_room};
ghost use Rattle.packs.specs.PackReading.{most_symbols};
ghost use Rattle.packs.specs.Encoding.{pack_bytes, symbol_records};
ghost use Rattle.pack_writer.specs.Writing.{PackAsked, WritingAsked, written, byte_record, rule_between, RecordsWritten, NodesAsked, RuleAsked};

use pack_reader::Pack;
use records::Record;
use terms::FIRST_VARIABLE;

// How many bytes the pack has.
pub fn pack_length(pack: &Pack) -> usize
    requires { PackAsked pack.now.symbols pack.now.rules pack.now.arities pack.now.starts pack.now.nodes }
    ensures { (q : PackAsked pack.now.symbols pack.now.rules pack.now.arities pack.now.starts pack.now.nodes) → result ≡ length (pack_bytes q.system) }
{
    8 * (pack.symbols + pack.rules + usize::from(pack.starts[2 * pack.rules]))
}

// Writes the symbols' records from byte 0 on. Answers the byte after them.
fn write_symbols(out: &mut [u8], pack: &Pack) -> usize
    requires { (pack.now.symbols ≤ most_symbols) × (8 * pack.now.symbols ≤ length out.old) }
    ensures { RecordsWritten 0 (symbol_records 0 (take pack.now.symbols pack.now.arities)) result out.old out.new }
{
    for i in 0..pack.symbols {
        records::write_record(
            out,
            8 * i,
            Record {
                kind: b'S',
                one: 0,
                a: i as u16,
                b: u16::from(pack.arities[i]),
                c: 0,
            },
        );
    }
    8 * pack.symbols
}

// A node's record.
fn node_record(code: u8) -> Record
    ensures { result ≡ byte_record code }
{
    if code < FIRST_VARIABLE {
        return Record {
            kind: b'F',
            one: 0,
            a: u16::from(code),
            b: 0,
            c: 0,
        };
    }
    Record {
        kind: b'V',
        one: 0,
        a: u16::from(code - FIRST_VARIABLE),
        b: 0,
        c: 0,
    }
}

// Writes the records of some nodes from byte `at` on. Answers the byte after them.
fn write_nodes(out: &mut [u8], at: usize, pack: &Pack, from: usize, to: usize) -> usize
    requires { NodesAsked out.old at pack.now.nodes from to }
    ensures { RecordsWritten at (map byte_record (part pack.now.nodes from to)) result out.old out.new }
{
    for (i, code) in pack.nodes[from..to].iter().enumerate() {
        records::write_record(out, at + 8 * i, node_record(*code));
    }
    at + 8 * (to - from)
}

// Writes rule i's records from byte `at` on: how many nodes each side has, then the nodes. Answers the byte after them.
fn write_rule(
    out: &mut [u8],
    at: usize,
    i: usize,
    pack: &Pack,
    left: usize,
    right: usize,
    end: usize,
) -> usize
    requires { RuleAsked out.old at i pack.now.nodes left right end }
    ensures { RecordsWritten at (rule_between pack.now.nodes i left right end) result out.old out.new }
{
    records::write_record(
        out,
        at,
        Record {
            kind: b'R',
            one: 0,
            a: i as u16,
            b: (right - left) as u16,
            c: (end - right) as u16,
        },
    );
    write_nodes(out, at + 8, pack, left, end)
}

// Writes the pack's bytes: its symbols, then rule after rule.
pub fn write_pack(out: &mut [u8], pack: &Pack)
    requires { WritingAsked out.old pack.now.symbols pack.now.rules pack.now.arities pack.now.starts pack.now.nodes }
    ensures { (q : WritingAsked out.old pack.now.symbols pack.now.rules pack.now.arities pack.now.starts pack.now.nodes) → out.new ≡ written q.pack.system out.old }
{
    let mut at = write_symbols(out, pack);
    for i in 0..pack.rules {
        at = write_rule(
            out,
            at,
            i,
            pack,
            usize::from(pack.starts[2 * i]),
            usize::from(pack.starts[2 * i + 1]),
            usize::from(pack.starts[2 * i + 2]),
        );
    }
}
