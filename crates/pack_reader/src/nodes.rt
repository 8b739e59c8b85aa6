// The nodes of a rule, a byte each.
ghost use Rattle.std.specs.Prelude.{◌≡◌, ◌+◌, ◌/◌, ◌≤◌, ◌<◌, drop};
ghost use Rattle.records.specs.Answers.{outcome_of};
ghost use Rattle.records.specs.Records.{all_records};
ghost use Rattle.records.specs.Rows.{row_number};
ghost use Rattle.pack_reader.specs.Stored.{node_outcome, coded, node_steps, NodesAsked, NodesRead};

use records::order::Before;
use records::{Record, Refusal};
use terms::{FIRST_VARIABLE, MOST_VARIABLES};

// A node's byte: 2 for a field that is not zero, 3 for a number out of range.
pub fn node_code(r: Record, symbols: usize) -> Result<u8, Refusal>
    requires { symbols ≤ 64 }
    ensures { outcome_of result ≡ coded (node_outcome symbols r) }
{
    if r.one != 0 {
        return Err(Refusal::StrayRecord);
    }
    if r.b != 0 {
        return Err(Refusal::StrayRecord);
    }
    if r.c != 0 {
        return Err(Refusal::StrayRecord);
    }
    let a = usize::from(r.a);
    if r.kind == b'V' {
        if a < MOST_VARIABLES {
            return Ok(FIRST_VARIABLE + a as u8);
        }
        return Err(Refusal::OutOfRange);
    }
    if a < symbols {
        return Ok(a as u8);
    }
    Err(Refusal::OutOfRange)
}

// What stands before the next node: an application, or a variable.
fn row_of(code: u8) -> Before
    requires { code < 128 }
    ensures { row_number result ≡ 3 + code / 64 }
{
    if code < FIRST_VARIABLE {
        return Before::Application;
    }
    Before::Variable
}

// Reads `count` nodes, the first of them record `from`, to nodes[base..]. Answers the row of the last one's kind.
pub fn read_nodes(
    pack: &[u8],
    from: usize,
    count: usize,
    symbols: usize,
    nodes: &mut [u8],
    base: usize,
) -> Result<Before, Refusal>
    requires { NodesAsked pack.now from count symbols nodes.old base }
    ensures { NodesRead (node_steps symbols 2 count (drop from (all_records pack.now))) result base nodes.old nodes.new }
{
    let n = pack.len() / 8;
    let mut last = Before::Rule;
    for j in 0..count {
        // After R, F and V the table lets no pack end while nodes are due.
        if n <= from + j {
            return Err(Refusal::StrayRecord);
        }
        let Some(r) = records::read_wanted(pack, 8 * (from + j), last, count - j, false) else {
            return Err(Refusal::StrayRecord);
        };
        let code = node_code(r, symbols)?;
        nodes[base + j] = code;
        last = row_of(code);
    }
    Ok(last)
}
