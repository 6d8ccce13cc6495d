//! The lexeme at the front of some bytes, the longest of its kind.

ghost use Rattle.std.specs.Prelude.{◌≡◌, ◌+◌, ◌<◌, ◌≤◌, length, map};
ghost use Rattle.hsail_reader.specs.Lexemes.{comment_at, name_at, class_at, register_at, header_words, header_view, header_among, dollar_at, number_at, modifier_length, piece_length, pieces_length, word_at, lexeme_at};
ghost use Rattle.hsail_reader.specs.Spelling.{is_blank, is_mark};

use crate::rows::bracketed_table;
use crate::scan::{
    align, closing, continues_name, decimal, has_name, line_run, name_run, number, starts_name,
    strip,
};
use crate::token::{Header, HeaderName, Lexeme, LexemeKind, TokenKind};
use crate::types::{Register, RegisterClass};
use crate::words::modifier_of;

fn header_names() -> &'static [HeaderName]
    ensures { map header_view result.now ≡ header_words }
{
    &[
        HeaderName("base", Header::Base),
        HeaderName("full", Header::Full),
        HeaderName("large", Header::Large),
        HeaderName("default", Header::Default),
        HeaderName("zero", Header::Zero),
        HeaderName("near", Header::Near),
    ]
}

fn blank(byte: u8) -> bool
    ensures { result ≡ is_blank byte }
{
    byte == b' ' || byte == b'\t' || byte == b'\n' || byte == b'\r'
}

fn mark(byte: u8) -> bool
    ensures { result ≡ is_mark byte }
{
    b"(){}[],;:+-".contains(&byte)
}

/// A comment, behind its first slash.
fn comment(bytes: &[u8]) -> Option<Lexeme>
    ensures { result ≡ comment_at bytes.now }
{
    match bytes {
        [b'/', line @ ..] => Some(Lexeme::new(LexemeKind::Comment, line_run(line) + 2)),
        [b'*', inside @ ..] => Some(Lexeme::new(LexemeKind::Comment, closing(inside)? + 2)),
        _ => None,
    }
}

/// A name behind its first byte `&`, `%` or `@`.
fn name(kind: TokenKind, bytes: &[u8]) -> Option<Lexeme>
    ensures { result ≡ name_at kind bytes.now }
{
    if !has_name(bytes) {
        return None;
    }
    Some(Lexeme::new(LexemeKind::Token(kind), name_run(bytes) + 1))
}

/// The class whose letter stands at the front.
fn class(bytes: &[u8]) -> Option<RegisterClass>
    ensures { result ≡ class_at bytes.now }
{
    match bytes {
        [b'c', ..] => Some(RegisterClass::Control),
        [b's', ..] => Some(RegisterClass::Single),
        [b'd', ..] => Some(RegisterClass::Double),
        _ => None,
    }
}

/// A register behind its dollar.
fn register(bytes: &[u8]) -> Option<Lexeme>
    ensures { result ≡ register_at bytes.now }
{
    let class = class(bytes)?;
    let (_, digits) = bytes.split_first()?;
    let number = decimal(digits)?;
    let register = Register {
        class,
        number: number.value,
    };
    let kind = LexemeKind::Token(TokenKind::Register(register));
    Some(Lexeme::new(kind, number.length + 2))
}

/// A word of the header behind its dollar.
fn header(bytes: &[u8]) -> Option<Lexeme>
    ensures { result ≡ header_among header_words bytes.now }
{
    let mut names = header_names();
    while let [HeaderName(name, header), others @ ..] = names {
        if strip(name.as_bytes(), bytes).is_some() {
            let kind = LexemeKind::Token(TokenKind::Header(*header));
            return Some(Lexeme::new(kind, name.len() + 1));
        }
        names = others;
    }
    None
}

/// What stands behind a dollar.
fn dollar(bytes: &[u8]) -> Option<Lexeme>
    ensures { result ≡ dollar_at bytes.now }
{
    match register(bytes) {
        Some(found) => Some(found),
        None => header(bytes),
    }
}

fn numeral(bytes: &[u8]) -> Option<Lexeme>
    ensures { result ≡ number_at bytes.now }
{
    let number = number(bytes)?;
    let kind = LexemeKind::Token(TokenKind::Number(number.value));
    Some(Lexeme::new(kind, number.length))
}

/// How many bytes the modifier with brackets at the front takes, or 0.
fn modifier(bytes: &[u8]) -> usize
    ensures value { result ≡ modifier_length bytes.now }
    ensures bound { result ≤ length bytes.now }
{
    match modifier_of(bracketed_table(), bytes) {
        Some((_, rest)) => bytes.len() - rest.len(),
        None => 0,
    }
}

/// How many bytes the next piece of a word takes, or 0 at its end. A modifier begins with `_`.
#[tactic(auto, using(crate::proofs::Fronts::plain_byte))]
fn piece(bytes: &[u8]) -> usize
    ensures value { result ≡ piece_length bytes.now }
    ensures bound { result ≤ length bytes.now }
{
    let [first, ..] = bytes else {
        return 0;
    };
    if *first != b'_' {
        return usize::from(continues_name(*first));
    }
    match modifier(bytes) {
        0 => usize::from(continues_name(*first)),
        length => length,
    }
}

/// How many bytes a word takes whose first byte stands before these.
#[tactic(auto, using(crate::proofs::Pieces::pieces_length_step))]
fn pieces(bytes: &[u8]) -> usize
    ensures value { result ≡ pieces_length 0 1 bytes.now }
    ensures bound { result ≤ length bytes.now + 1 }
{
    let mut rest = bytes;
    let mut length = 1;
    loop {
        let step = piece(rest);
        if step == 0 {
            return length;
        }
        length += step;
        rest = rest.split_at(step).1;
    }
}

/// The word at the front, whose first byte begins a name.
fn word(bytes: &[u8]) -> Lexeme
    requires { 0 < length bytes.now }
    ensures { result ≡ word_at bytes.now }
{
    let length = match align(bytes) {
        Some(align) => align.length,
        None => pieces(bytes.split_at(1).1),
    };
    Lexeme::new(LexemeKind::Token(TokenKind::Word), length)
}

/// The lexeme at the front, if there is one.
pub fn lexeme(bytes: &[u8]) -> Option<Lexeme>
    ensures { result ≡ lexeme_at bytes.now }
{
    let [first, rest @ ..] = bytes else {
        return None;
    };
    match *first {
        b if blank(b) => Some(Lexeme::new(LexemeKind::Blank, 1)),
        b'/' => comment(rest),
        b'&' => name(TokenKind::Global, rest),
        b'%' => name(TokenKind::Variable, rest),
        b'@' => name(TokenKind::Label, rest),
        b'$' => dollar(rest),
        b if mark(b) => Some(Lexeme::new(LexemeKind::Token(TokenKind::Mark(b)), 1)),
        b if starts_name(b) => Some(word(bytes)),
        _ => numeral(bytes),
    }
}
