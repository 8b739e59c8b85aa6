#![tactic(auto)]
// The tokens of a text, one after the other, and the names in it, by the places where they begin.
ghost use Rattle.std.specs.Prelude.{◌≡◌, ◌+◌, ◌≤◌, length};
ghost use Rattle.texts.specs.Tokens.{in_name, blank, most_text_bytes};
ghost use Rattle.texts.specs.Spelling.{same};
ghost use Rattle.text_tokens.specs.Told.{name_at, character, Told, Past, PlaceIn, Skipped, ByteAt, NameBegins, DashAt};

// Document 02's limit on a name's characters.
const MOST_CHARACTERS: usize = 24;

// The next token, and where it ends; a name's start before that.
#[derive(Clone, Copy)]
pub enum Token {
    Name(usize, usize),
    Open(usize),
    Close(usize),
    Comma(usize),
    Arrow(usize),
    Bad,
    End,
}

// A letter, digit, underscore or apostrophe. Most bytes are small letters, so they are asked for first.
#[tactic(auto, unfolding(texts::specs::Tokens::in_name))]
pub fn in_name(b: u8) -> bool
    ensures { result ≡ in_name b }
{
    b.is_ascii_lowercase() || matches!(b, b'0'..=b'9' | b'A'..=b'Z' | b'_' | b'\'')
}

// These four tests come out as one, a pattern's alternatives don't.
#[tactic(auto, unfolding(texts::specs::Tokens::blank))]
fn is_blank(b: u8) -> bool
    ensures { result ≡ blank b }
{
    b == b' ' || b == b'\t' || b == b'\n' || b == b'\r'
}

// The place after the bytes from place `at` on that pass the test.
fn past<F: Fn(u8) -> bool>(text: &[u8], at: usize, passes: F) -> usize
    requires within { at ≤ length text.now }
    requires callable { F.IsAlwaysCallable passes }
    ensures { Past (F.post passes) text.now at result }
{
    for i in at..text.len() {
        if !passes(text[i]) {
            return i;
        }
    }
    text.len()
}

// The place after the blanks.
fn skip_blanks(text: &[u8], at: usize) -> usize
    requires { at ≤ length text.now }
    ensures { Skipped text.now at result }
{
    past(text, at, is_blank)
}

// The place after the characters of a name.
fn name_end(text: &[u8], at: usize) -> usize
    requires { at ≤ length text.now }
    ensures { result ≡ at + length (name_at text.now at) }
{
    past(text, at, in_name)
}

// The arrow whose dash stands at place i.
fn arrow_at(text: &[u8], i: usize) -> Token
    requires { DashAt text.now i }
    ensures { Told text.now i result }
{
    match text.get(i + 1) {
        Some(b'>') => Token::Arrow(i + 2),
        _ => Token::Bad,
    }
}

// The name that begins at place i.
fn name_token(text: &[u8], i: usize) -> Token
    requires { NameBegins text.now i }
    ensures { Told text.now i result }
{
    let e = name_end(text, i);
    if MOST_CHARACTERS < e - i {
        return Token::Bad;
    }
    Token::Name(i, e)
}

// The token that begins at place i.
fn token_at(text: &[u8], i: usize) -> Token
    requires { ByteAt text.now i }
    ensures { Told text.now i result }
{
    match text[i] {
        b if in_name(b) => name_token(text, i),
        b'(' => Token::Open(i + 1),
        b')' => Token::Close(i + 1),
        b',' => Token::Comma(i + 1),
        b'-' => arrow_at(text, i),
        _ => Token::Bad,
    }
}

// The next token from a place on.
pub fn next_token(text: &[u8], at: usize) -> Token
    requires { PlaceIn text.now at }
    ensures { Told text.now at result }
{
    let i = skip_blanks(text, at);
    if i == text.len() {
        return Token::End;
    }
    token_at(text, i)
}

// The character of a name at a place; none where no name goes on.
pub fn character(text: &[u8], i: usize) -> Option<u8>
    ensures { result ≡ character text.now i }
{
    match text.get(i) {
        Some(&b) if in_name(b) => Some(b),
        _ => None,
    }
}

// Whether the names that begin at two places are the same.
pub fn same_name(text: &[u8], a: usize, b: usize) -> bool
    requires { (a ≤ 65535) × (b ≤ 65535) × (length text.now ≤ most_text_bytes) }
    ensures { result ≡ same (name_at text.now a) (name_at text.now b) }
{
    let mut i = 0;
    while let Some(c) = character(text, a + i) {
        if text.get(b + i) != Some(&c) {
            return false;
        }
        i += 1;
    }
    character(text, b + i).is_none()
}

// Whether the name that begins at a place is a word.
pub fn is_word(text: &[u8], s: usize, word: &[u8]) -> bool
    requires { s ≤ 65535 }
    ensures { result ≡ same (name_at text.now s) word.now }
{
    for (i, w) in word.iter().enumerate() {
        if character(text, s + i) != Some(*w) {
            return false;
        }
    }
    character(text, s + word.len()).is_none()
}
