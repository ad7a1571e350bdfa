ghost use Rattle.std.specs.Prelude.{◌≡◌, ◌∷◌, ◌==◌, ◌||◌, ◌≤◌, length, nat_le, min, SomeIff};
ghost use Rattle.std.specs.List.{prefix_len, list_all};
ghost use Rattle.phrase_tree.specs.Name.{IsName};
ghost use Rattle.phrase_reader.specs.Tokens.{is_blank, begins_word, continues_word, decimal_from, is_decimal, is_digit, word_token, after_sign, after_signs, front, word_lexeme, mark, decimal_token};

use crate::refusal::Kind;
use crate::token::{Leaf, Op, Token};
use phrase_tree::{Arg, Name, Split};

/// What stands at the front of a text: a token and its length, the refusal of a byte or of a word with
/// the offset of what is refused, or the end.
#[derive(Clone, Copy, Debug, PartialEq, Eq)]
pub enum Lexeme {
    Read(Token, usize),
    Refused(Kind, usize),
    End,
}

fn is_blank(byte: u8) -> bool
    ensures { result ≡ is_blank byte }
{
    byte == b' ' || byte == b'\t' || byte == b'\r' || byte == b'\n'
}

fn begins_word(byte: u8) -> bool
    ensures { result ≡ begins_word byte }
{
    byte.is_ascii_uppercase() || byte.is_ascii_lowercase() || byte.is_ascii_digit()
}

fn continues_word(byte: u8) -> bool
    ensures { result ≡ continues_word byte }
{
    begins_word(byte) || byte == b'_'
}

/// How many blanks stand at the front.
#[tactic(auto, using(crate::proofs::Words::few_blanks))]
pub fn blanks(text: &[u8]) -> usize
    ensures longest { result ≡ prefix_len is_blank text.now }
    ensures few { result ≤ length text.now }
{
    text.iter().take_while(|byte| is_blank(**byte)).count()
}

fn word_len(text: &[u8]) -> usize
    ensures { result ≡ prefix_len continues_word text.now }
{
    text.iter()
        .take_while(|byte| continues_word(**byte))
        .count()
}

fn are_digits(word: &[u8]) -> bool
    ensures { result ≡ list_all is_digit word.now }
{
    word.iter().all(|byte| byte.is_ascii_digit())
}

fn is_decimal(word: &[u8]) -> bool
    ensures { result ≡ is_decimal word.now }
{
    let [first, rest @ ..] = word else {
        return false;
    };
    if *first == b'0' {
        return rest.is_empty();
    }
    are_digits(word)
}

/// The number that digits write, or 4294967296 if it is greater.
#[tactic(auto, using(crate::proofs::Words::capped_more))]
fn capped_decimal(digits: &[u8]) -> u64
    ensures { result ≡ min (decimal_from 0 digits.now) 4294967296 }
{
    let mut value: u64 = 0;
    for digit in digits {
        value = (10 * value + u64::from(digit.saturating_sub(b'0'))).min(4_294_967_296);
    }
    value
}

#[tactic(auto, using(crate::proofs::Words::name_utf8))]
fn name_of(word: &[u8]) -> Option<Name>
    ensures { SomeIff result (IsName word.now) word.now }
{
    let Ok(text) = str::from_utf8(word) else {
        return None;
    };
    Name::read(text)
}

#[tactic(auto, unfolding(crate::specs::Tokens::decimal_token))]
fn decimal_token(word: &[u8]) -> Result<Token, Kind>
    ensures { result ≡ decimal_token word.now }
{
    let value = capped_decimal(word);
    if value > 4_294_967_295 {
        return Err(Kind::NumberTooLarge);
    }
    Ok(Token::Value(Arg::Number(value as u32)))
}

fn word_token(word: &[u8]) -> Result<Token, Kind>
    ensures { result ≡ word_token word.now }
{
    if word == b"CPY".as_slice() {
        return Ok(Token::Leaf(Leaf::Cpy));
    }
    if word == b"SIG".as_slice() {
        return Ok(Token::Leaf(Leaf::Sig));
    }
    if word == b"HSH".as_slice() {
        return Ok(Token::Leaf(Leaf::Hsh));
    }
    if word == b"NUL".as_slice() {
        return Ok(Token::Leaf(Leaf::Nul));
    }
    if word == b"USM".as_slice() {
        return Ok(Token::Usm);
    }
    if word == b"KIM".as_slice() {
        return Ok(Token::Kim);
    }
    if let Some(name) = name_of(word) {
        return Ok(Token::Value(Arg::Word(name)));
    }
    if is_decimal(word) {
        return decimal_token(word);
    }
    Err(Kind::Word)
}

fn word_lexeme(word: &[u8]) -> Lexeme
    ensures { result ≡ word_lexeme word.now }
{
    match word_token(word) {
        Ok(token) => Lexeme::Read(token, word.len()),
        Err(kind) => Lexeme::Refused(kind, 0),
    }
}

fn after_signs(left: bool, parallel: bool, rest: &[u8]) -> Lexeme
    ensures { result ≡ after_signs left parallel rest.now }
{
    let [byte, ..] = rest else {
        return Lexeme::Refused(Kind::Char, 2);
    };
    if *byte != b'+' && *byte != b'-' {
        return Lexeme::Refused(Kind::Char, 2);
    }
    let split = Split {
        left,
        right: *byte == b'+',
    };
    Lexeme::Read(Token::Op(Op { parallel, split }), 3)
}

fn after_sign(left: bool, rest: &[u8]) -> Lexeme
    ensures { result ≡ after_sign left rest.now }
{
    let [byte, rest @ ..] = rest else {
        return Lexeme::Refused(Kind::Char, 1);
    };
    if !left && *byte == b'>' {
        return Lexeme::Read(Token::Arrow, 2);
    }
    if *byte == b'<' || *byte == b'~' {
        return after_signs(left, *byte == b'~', rest);
    }
    Lexeme::Refused(Kind::Char, 1)
}

fn mark(byte: u8) -> Option<Token>
    ensures { result ≡ mark byte }
{
    match byte {
        b'(' => Some(Token::OpenRound),
        b')' => Some(Token::CloseRound),
        b'[' => Some(Token::OpenSquare),
        b']' => Some(Token::CloseSquare),
        b'@' => Some(Token::At),
        _ => None,
    }
}

/// What stands at the front of a text that does not begin with a blank. Its time is linear in its
/// length.
pub fn front(text: &[u8]) -> Lexeme
    ensures { result ≡ front text.now }
{
    let [first, rest @ ..] = text else {
        return Lexeme::End;
    };
    if let Some(token) = mark(*first) {
        return Lexeme::Read(token, 1);
    }
    if *first == b'+' || *first == b'-' {
        return after_sign(*first == b'+', rest);
    }
    if begins_word(*first) {
        return word_lexeme(&text[..word_len(text)]);
    }
    Lexeme::Refused(Kind::Char, 0)
}
