// The rules of a text in the grammar.
ghost use Rattle.std.specs.Prelude.{◌≡◌, true, List, ◌∷◌, ◌++◌, ◌+◌, length};
ghost use Rattle.texts.specs.Tokens.{Name, Token as TextToken, arrow};
ghost use Rattle.texts.specs.Spelling.{TermPhrase, TextRule, spelled};
ghost use Rattle.texts.specs.Numbers.{uses};
ghost use Rattle.texts.specs.Working.{Numbering, new_rule, none_yet, side_numbered, rule_numbered, rules_numbered};
ghost use Rattle.text_tokens.specs.Told.{tokens_at};
ghost use Rattle.text_sides.specs.Sides.{no_list};
ghost use Rattle.text_names.specs.Table.{VariablesKept};
ghost use Rattle.text_grammar.specs.Grammar.{RulesStand};
ghost use Rattle.text_reader.specs.Tables.{TablesKept, ReadAsked, SideGoes, SideKeptTold, RuleGoes, RuleTold, RulesGiven, RulesTold};

use crate::numbering::{Names, Seen, number_uses};
use pack_reader::{MOST_NODES, MOST_RULES, Pack};
use records::Refusal;
use terms::{MOST_SYMBOLS, MOST_VARIABLES};
use text_names::Table;
use text_sides::Use;
use text_tokens::Token;

// The place after a side, and the counts there.
#[derive(Clone, Copy)]
struct SideKept {
    next: usize,
    seen: Seen,
}

// The place after a rule, the nodes up to its right side, and the counts there.
#[derive(Clone, Copy)]
struct RuleKept {
    next: usize,
    middle: usize,
    seen: Seen,
}

// How many symbols and rules a text has.
#[derive(Clone, Copy)]
pub struct Counts {
    pub symbols: usize,
    pub rules: usize,
}

// Reads the side at place `at` and numbers its names. None: one of the counts is over its limit, or a symbol has two arities.
fn read_side(
    text: &[u8],
    at: usize,
    table: &Table,
    found: &mut [Use],
    names: &mut Names,
    pack: &mut Pack,
    seen: Seen,
) -> Option<SideKept>
    requires { ReadAsked text.now at table.now found.old names.old.symbols pack.old.arities names.old.variables pack.old.nodes seen 32 }
    ensures goes { SideGoes text.now at found.new names.new.symbols pack.new.arities names.new.variables pack.new.nodes seen.nodes result }
    ensures starts { pack.new.starts ≡ pack.old.starts }
    ensures told { (vs : List Name) (x : Numbering) (p : TermPhrase) (rest : List TextToken) → VariablesKept text.now table.now vs → TablesKept text.now names.old.symbols pack.old.arities names.old.variables pack.old.nodes seen x → tokens_at text.now at ≡ spelled p ++ rest → no_list rest ≡ true → SideKeptTold (side_numbered vs p x) rest text.now names.new.symbols pack.new.arities names.new.variables pack.new.nodes result }
{
    let side = text_sides::term_at(text, at, 0, found)?;
    let uses = &found[..side.names];
    let seen = number_uses(text, table, uses, names, pack, seen)?;
    Some(SideKept {
        next: side.next,
        seen,
    })
}

// Reads the rule at place `at`. None: as for a side.
fn read_rule(
    text: &[u8],
    at: usize,
    table: &Table,
    found: &mut [Use],
    names: &mut Names,
    pack: &mut Pack,
    seen: Seen,
) -> Option<RuleKept>
    requires { ReadAsked text.now at table.now found.old names.old.symbols pack.old.arities names.old.variables pack.old.nodes seen 64 }
    ensures goes { RuleGoes text.now at found.new names.new.symbols pack.new.arities names.new.variables pack.new.nodes seen.nodes result }
    ensures starts { pack.new.starts ≡ pack.old.starts }
    ensures told { (vs : List Name) (x : Numbering) (p : TextRule) (rest : List TextToken) → VariablesKept text.now table.now vs → TablesKept text.now names.old.symbols pack.old.arities names.old.variables pack.old.nodes seen (new_rule x) → tokens_at text.now at ≡ spelled p.left ++ (arrow ∷ (spelled p.right ++ rest)) → no_list rest ≡ true → RuleTold (rule_numbered vs p x) (length x.nodes + length (uses p.left)) rest text.now names.new.symbols pack.new.arities names.new.variables pack.new.nodes result }
{
    let left = read_side(text, at, table, found, names, pack, seen)?;
    let Token::Arrow(b) = text_tokens::next_token(text, left.next) else {
        return None;
    };
    let right = read_side(text, b, table, found, names, pack, left.seen)?;
    Some(RuleKept {
        next: right.next,
        middle: left.seen.nodes,
        seen: right.seen,
    })
}

// Reads the rules from place `at` on, up to the parenthesis that closes them.
pub fn read_rules(text: &[u8], at: usize, table: &Table, pack: &mut Pack) -> Result<Counts, Refusal>
    requires { RulesGiven text.now at table.now pack.old.arities pack.old.starts pack.old.nodes }
    ensures { (vs : List Name) (rs : List TextRule) → VariablesKept text.now table.now vs → RulesStand text.now at vs rs → RulesTold (rules_numbered vs 0 rs none_yet) rs result pack.new.arities pack.new.starts pack.new.nodes }
{
    let mut names = Names {
        symbols: [0; MOST_SYMBOLS],
        variables: [0; MOST_VARIABLES],
    };
    let mut found = [Use { place: 0, count: 0 }; MOST_NODES];
    let mut count = 0;
    let mut kept = 0;
    let mut rules = 0;
    let mut i = at;
    pack.starts[0] = 0;
    while let Token::Name(_, _) = text_tokens::next_token(text, i) {
        if MOST_RULES <= rules {
            return Err(Refusal::TextLimits);
        }
        let seen = Seen {
            symbols: count,
            variables: 0,
            nodes: kept,
        };
        let Some(rule) = read_rule(text, i, table, &mut found, &mut names, pack, seen) else {
            return Err(Refusal::TextLimits);
        };
        pack.starts[2 * rules + 1] = rule.middle as u16;
        pack.starts[2 * rules + 2] = rule.seen.nodes as u16;
        count = rule.seen.symbols;
        kept = rule.seen.nodes;
        rules += 1;
        i = rule.next;
    }
    Ok(Counts {
        symbols: count,
        rules,
    })
}
