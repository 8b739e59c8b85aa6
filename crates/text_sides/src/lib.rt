#![tactic(auto)]
// The names of a side with their counts of arguments. The reader of a term and the reader of an argument list call each other; the
// bytes left fall.
ghost use Rattle.std.specs.Prelude.{◌≡◌, true, List, ◌∷◌, ◌++◌};
ghost use Rattle.texts.specs.Tokens.{Token as TextToken, closes};
ghost use Rattle.texts.specs.Spelling.{TermPhrase, ListPhrase, spelled};
ghost use Rattle.texts.specs.Numbers.{uses};
ghost use Rattle.text_tokens.specs.Told.{tokens_at};
ghost use Rattle.text_sides.specs.Sides.{no_list, SideAsked, Goes, ListGoes, SideTold, ListTold};

use pack_reader::MOST_NODES;
use text_tokens::Token;

// A name of a side: the place where it begins, and how many arguments it has.
#[derive(Clone, Copy)]
pub struct Use {
    pub place: u16,
    pub count: u16,
}

// What was read of a term: the place after it, and how many names there are.
#[derive(Clone, Copy)]
pub struct SideRead {
    pub next: usize,
    pub names: usize,
}

// The same of an argument list, and how many arguments it has.
#[derive(Clone, Copy)]
pub struct ListRead {
    pub next: usize,
    pub names: usize,
    pub arguments: usize,
}

// Reads the term at place `at`, with `have` names of its side before it. None: there is one name too many.
#[cycle(list_at_term_at)]
pub fn term_at(text: &[u8], at: usize, have: usize, found: &mut [Use]) -> Option<SideRead>
    requires { SideAsked text.now at have found.old }
    ensures goes { Goes text.now at have result found.new }
    ensures told { (p : TermPhrase) (rest : List TextToken) → tokens_at text.now at ≡ spelled p ++ rest → no_list rest ≡ true → SideTold text.now have (uses p) rest result found.old found.new }
{
    if MOST_NODES <= have {
        return None;
    }
    let Token::Name(s, e) = text_tokens::next_token(text, at) else {
        return None;
    };
    let place = s as u16;
    found[have] = Use { place, count: 0 };
    let Token::Open(b) = text_tokens::next_token(text, e) else {
        return Some(SideRead {
            next: e,
            names: have + 1,
        });
    };
    let list = list_at(text, b, have + 1, found)?;
    found[have] = Use {
        place,
        count: list.arguments as u16,
    };
    Some(SideRead {
        next: list.next,
        names: list.names,
    })
}

// Reads the argument list whose parenthesis was just read.
#[cycle(list_at_term_at)]
fn list_at(text: &[u8], at: usize, have: usize, found: &mut [Use]) -> Option<ListRead>
    requires { SideAsked text.now at have found.old }
    ensures goes { ListGoes text.now at have result found.new }
    ensures told { (ps : ListPhrase) (rest : List TextToken) → tokens_at text.now at ≡ spelled ps ++ (closes ∷ rest) → ListTold text.now have ps rest result found.old found.new }
{
    if let Token::Close(e) = text_tokens::next_token(text, at) {
        return Some(ListRead {
            next: e,
            names: have,
            arguments: 0,
        });
    }
    let mut i = at;
    let mut names = have;
    let mut arguments = 0;
    loop {
        let term = term_at(text, i, names, found)?;
        names = term.names;
        arguments += 1;
        match text_tokens::next_token(text, term.next) {
            Token::Close(next) => {
                return Some(ListRead {
                    next,
                    names,
                    arguments,
                });
            }
            Token::Comma(e) => {
                i = e;
            }
            _ => {
                return None;
            }
        }
    }
}
