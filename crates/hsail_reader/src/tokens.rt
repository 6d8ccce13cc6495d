//! The tokens of a text.

ghost use Rattle.std.specs.Prelude.{◌≡◌, ◌+◌, ◌≤◌, ◌++◌, length, take, OnOk};
ghost use Rattle.hsail_reader.specs.Faults.{Gives};
ghost use Rattle.hsail_reader.specs.Tokens.{token_views, tokens_of};
ghost use Rattle.hsail_reader.specs.TextTokens.{line_after, kept};

use crate::fault::{Flaw, PlacedFlaw, Stop};
use crate::lexeme::lexeme;
use crate::token::{LexemeKind, Token};
use std::alloc::{AllocError, Global};

/// The line behind some bytes.
fn line_behind_bytes(line: u32, bytes: &[u8]) -> u32
    requires { line + length bytes.now ≤ 65537 }
    ensures value { result ≡ line_after line bytes.now }
    ensures bound { result ≤ line + length bytes.now }
{
    let mut rest = bytes;
    let mut reached = line;
    while let [first, tail @ ..] = rest {
        if *first == b'\n' {
            reached += 1;
        }
        rest = tail;
    }
    reached
}

/// Puts a lexeme behind the tokens, if it is a token.
fn keep<'a>(
    tokens: &mut Vec<Token<'a>>,
    kind: LexemeKind,
    text: &'a [u8],
    place: usize,
    line: u32,
) -> Result<(), AllocError>
    ensures { OnOk result (token_views tokens.new.items ≡ token_views tokens.old.items ++ kept kind text.now place line) }
{
    if let LexemeKind::Token(kind) = kind {
        tokens.push(Token {
            kind,
            text,
            place,
            line,
        })?;
    }
    Ok(())
}

/// The tokens of a text, each with the slice of the text that it is.
pub fn tokens(alloc: Global, text: &[u8]) -> Result<Vec<Token<'_>>, Stop>
    requires { length text.now ≤ 65536 }
    ensures { Gives (λ v. token_views v.items) result (tokens_of text.now) }
{
    let mut tokens = Vec::new(alloc);
    let mut rest = text;
    let mut place = 0;
    let mut line = 1;
    while !rest.is_empty() {
        let Some(found) = lexeme(rest) else {
            return Err(Stop::Refused(PlacedFlaw {
                place: Some(place),
                flaw: Flaw::Lexeme,
            }));
        };
        let (front, behind) = rest.split_at(found.length);
        keep(&mut tokens, found.kind, front, place, line)?;
        line = line_behind_bytes(line, front);
        place += found.length;
        rest = behind;
    }
    Ok(tokens)
}
