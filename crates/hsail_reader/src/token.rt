//! Lexemes and tokens: the words of a kernel text.

ghost use Rattle.std.specs.Prelude.{◌≡◌};
ghost use Rattle.hsail_reader.specs.Bytes.{spelled};
ghost use Rattle.hsail_reader.specs.Lexemes.{lexed};

use crate::types::Register;

/// A lexeme at the front of some bytes: what it is, and how many bytes it takes.
#[derive(Clone, Copy)]
pub struct Lexeme {
    pub kind: LexemeKind,
    pub length: usize,
}

impl Lexeme {
    pub fn new(kind: LexemeKind, length: usize) -> Lexeme
        ensures { result ≡ lexed kind length }
    {
        Lexeme { kind, length }
    }
}

/// Blanks and comments only separate; the others are tokens.
#[derive(Clone, Copy)]
pub enum LexemeKind {
    /// A space, a tab, a carriage return or a line feed.
    Blank,
    /// `//` to the end of the line, or `/* */`.
    Comment,
    Token(TokenKind),
}

/// What a token is (PRM, Lexical Elements).
#[derive(Clone, Copy)]
pub enum TokenKind {
    /// `&name`: a module or a kernel.
    Global,
    /// `%name`: a variable of a kernel.
    Variable,
    /// `@name`: a label.
    Label,
    /// `$c`, `$s` or `$d` and a decimal number.
    Register(Register),
    /// `$base` and its kin, which stand in the module's header.
    Header(Header),
    /// A whole number, decimal or hexadecimal.
    Number(u64),
    /// One of `( ) { } [ ] , ; : + -`, as its byte.
    Mark(u8),
    /// A name, with modifiers inside or at its end; or `align(n)`.
    Word,
}

/// The words of a module's header (PRM, Module Header).
#[derive(Clone, Copy)]
pub enum Header {
    Base,
    Full,
    Large,
    Default,
    Zero,
    Near,
}

/// A token of a text: what it is, the slice of the text that it is, how many bytes stand before it,
/// and its line, from 1.
#[derive(Clone, Copy)]
pub struct Token<'a> {
    pub kind: TokenKind,
    pub text: &'a [u8],
    pub place: usize,
    pub line: u32,
}

/// A number at the front of some bytes, or a name with its brackets: its value, and how many bytes
/// spell it.
#[derive(Clone, Copy)]
pub struct Prefix<X> {
    pub value: X,
    pub length: usize,
}

impl<X> Prefix<X> {
    pub fn new(value: X, length: usize) -> Prefix<X>
        ensures { result ≡ spelled value length }
    {
        Prefix { value, length }
    }
}

/// A word of the header without its dollar, and what it is.
#[derive(Clone, Copy)]
pub struct HeaderName(pub &'static str, pub Header);
