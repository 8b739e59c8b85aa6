#![tactic(auto)]
// Whether a text is in the grammar: nothing here calls itself, however deep the text is nested.
ghost use Rattle.std.specs.Prelude.{◌≡◌, leb, List};
ghost use Rattle.texts.specs.Tokens.{Name, tokens};
ghost use Rattle.texts.specs.TextReading.{at_start, rules_from, heading_read, parse};
ghost use Rattle.text_tokens.specs.Told.{tokens_at, PlaceIn};
ghost use Rattle.text_names.specs.Table.{VariablesKept};
ghost use Rattle.text_grammar.specs.Grammar.{rank, is_some, no_tokens, rules_behind, RulesAsked, GrammarAsked, HeadingTold, BehindTold, GrammarTold};

use records::Refusal;
use text_names::Table;
use text_tokens::Token;

// The words that the two sections begin with.
const VAR: &[u8] = b"VAR";

const RULES: &[u8] = b"RULES";

// Where the loop stands.
#[derive(Clone, Copy, PartialEq, Eq)]
enum Mode {
    // A term must come.
    Wanted,
    // A list was just opened.
    Opened,
    // A name was just read, so that its list may come.
    Named,
    // A term has ended, or no rule has begun.
    Ended,
}

impl Mode {
    // No term is being waited for.
    fn is_after_term(self) -> bool
        ensures { result ≡ leb 2 (rank self) }
    {
        matches!(self, Mode::Named | Mode::Ended)
    }
}

// Nothing stands from place `at` on.
fn at_end(text: &[u8], at: usize) -> bool
    requires { PlaceIn text.now at }
    ensures { result ≡ no_tokens (tokens_at text.now at) }
{
    matches!(text_tokens::next_token(text, at), Token::End)
}

// Whether rules and the parenthesis that closes the text stand from place `at` on. `depth` lists are open; `right` tells that the
// rule's arrow was read, and is so before the first rule.
fn rules_stand(text: &[u8], at: usize, table: &Table) -> bool
    requires { RulesAsked text.now at table.now }
    ensures { (vs : List Name) → VariablesKept text.now table.now vs → result ≡ is_some (rules_from vs at_start (tokens_at text.now at)) }
{
    let mut mode = Mode::Ended;
    let mut depth: usize = 0;
    let mut right = true;
    let mut last = 0;
    let mut i = at;
    loop {
        match text_tokens::next_token(text, i) {
            Token::Name(s, e) => {
                if mode.is_after_term() {
                    if 0 < depth || !right {
                        return false;
                    }
                    right = false;
                }
                mode = Mode::Named;
                last = s;
                i = e;
            }
            Token::Open(e) => {
                if mode != Mode::Named {
                    return false;
                }
                if text_names::declared(text, table, last, text_names::hash(text, last)) {
                    return false;
                }
                depth += 1;
                mode = Mode::Opened;
                i = e;
            }
            Token::Close(e) => {
                if mode == Mode::Wanted {
                    return false;
                }
                if depth == 0 {
                    return right && at_end(text, e);
                }
                depth -= 1;
                mode = Mode::Ended;
                i = e;
            }
            Token::Comma(e) => {
                if !mode.is_after_term() || depth == 0 {
                    return false;
                }
                mode = Mode::Wanted;
                i = e;
            }
            Token::Arrow(e) => {
                if !mode.is_after_term() || 0 < depth || right {
                    return false;
                }
                right = true;
                mode = Mode::Wanted;
                i = e;
            }
            Token::Bad | Token::End => return false,
        }
    }
}

// A parenthesis and a word. Answers the place after it.
fn heading(text: &[u8], at: usize, word: &[u8]) -> Result<usize, Refusal>
    requires { PlaceIn text.now at }
    ensures { HeadingTold text.now (heading_read word.now (tokens_at text.now at)) result }
{
    let Token::Open(a) = text_tokens::next_token(text, at) else {
        return Err(Refusal::BadText);
    };
    let Token::Name(s, e) = text_tokens::next_token(text, a) else {
        return Err(Refusal::BadText);
    };
    if text_tokens::is_word(text, s, word) {
        return Ok(e);
    }
    Err(Refusal::BadText)
}

// The place where the rules of a text in the grammar begin, and the table of its variables; else 15.
pub fn rules_place(text: &[u8], table: &mut Table) -> Result<usize, Refusal>
    requires { GrammarAsked text.now table.old }
    ensures { GrammarTold text.now (parse (tokens text.now)) result table.new }
{
    let a = heading(text, 0, VAR)?;
    let b = text_names::read_variables(text, a, table)?;
    rules_behind(text, b, table)
}

// The rules behind the variables.
fn rules_behind(text: &[u8], at: usize, table: &Table) -> Result<usize, Refusal>
    requires { RulesAsked text.now at table.now }
    ensures { (vs : List Name) → VariablesKept text.now table.now vs → BehindTold text.now vs (rules_behind vs (tokens_at text.now at)) result }
{
    let r = heading(text, at, RULES)?;
    if rules_stand(text, r, table) {
        return Ok(r);
    }
    Err(Refusal::BadText)
}
