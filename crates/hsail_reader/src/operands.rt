//! The operands of instructions, each read at the front of some tokens.

ghost use Rattle.std.specs.Prelude.{◌≡◌, IfOk};
ghost use Rattle.hsail_reader.specs.declared.fault.Stop.TheVariants as stop;
ghost use Rattle.hsail_reader.specs.Faults.{Gives, placed_flaw};
ghost use Rattle.hsail_reader.specs.Tokens.{token_views};
ghost use Rattle.hsail_reader.specs.Grammar as grammar;
ghost use Rattle.hsail_reader.specs.Grammars as grammars;
ghost use Rattle.hsail_reader.specs.Grammars.{begins, place_of, read};
ghost use Rattle.hsail_reader.specs.Terminals as terminals;

use crate::fault::{Flaw, PlacedFlaw, Stop};
use crate::module::{Address, Indexed, Relative, SegmentPlace};
use crate::token::{Token, TokenKind};
use crate::types::{Constant, Register, Source};
use sequences::Sequence;
use std::alloc::{AllocError, Global};

/// The tokens from a place on.
pub type Tokens<'a, 't> = &'a [Token<'t>];

/// What is read at the front of some tokens, with the tokens behind it.
pub type Read<'a, 't, X> = Result<(X, Tokens<'a, 't>), Stop>;

/// A fault at the first of these tokens, or at the end of the text.
pub fn refused(tokens: &[Token<'_>], flaw: Flaw) -> Stop
    ensures { result ≡ stop.Refused (placed_flaw (place_of (token_views tokens.now)) flaw) }
{
    let place = match tokens {
        [] => None,
        [first, ..] => Some(first.place),
    };
    Stop::Refused(PlacedFlaw { place, flaw })
}

/// The line of the first token, or 0 at the end of the text.
pub fn line_of(tokens: &[Token<'_>]) -> u32
    ensures { result ≡ grammars.line_of (token_views tokens.now) }
{
    match tokens {
        [] => 0,
        [first, ..] => first.line,
    }
}

/// Whether the first token is this mark.
pub fn has_mark(mark: u8, tokens: &[Token<'_>]) -> bool
    ensures { result ≡ begins (terminals.mark mark) (token_views tokens.now) }
{
    match tokens {
        [first, ..] => match first.kind {
            TokenKind::Mark(byte) => byte == mark,
            _ => false,
        },
        [] => false,
    }
}

/// The tokens behind this mark.
pub fn mark<'a, 't>(mark: u8, tokens: Tokens<'a, 't>) -> Result<Tokens<'a, 't>, Stop>
    ensures { Gives (λ x. (tt, token_views x.now)) result (read (terminals.mark mark) (token_views tokens.now)) }
{
    if let [first, rest @ ..] = tokens {
        if let TokenKind::Mark(byte) = first.kind {
            if byte == mark {
                return Ok(rest);
            }
        }
    }
    Err(refused(tokens, Flaw::Syntax))
}

/// A register.
pub fn register<'a, 't>(tokens: Tokens<'a, 't>) -> Read<'a, 't, Register>
    ensures { Gives (λ x. (x.0, token_views x.1.now)) result (read terminals.register (token_views tokens.now)) }
{
    if let [first, rest @ ..] = tokens {
        if let TokenKind::Register(register) = first.kind {
            return Ok((register, rest));
        }
    }
    Err(refused(tokens, Flaw::Syntax))
}

/// A number without a sign.
pub fn number<'a, 't>(tokens: Tokens<'a, 't>) -> Read<'a, 't, u64>
    ensures { Gives (λ x. (x.0, token_views x.1.now)) result (read terminals.number (token_views tokens.now)) }
{
    if let [first, rest @ ..] = tokens {
        if let TokenKind::Number(number) = first.kind {
            return Ok((number, rest));
        }
    }
    Err(refused(tokens, Flaw::Syntax))
}

/// The bytes of a name in memory of their own.
pub fn copied(alloc: Global, name: &[u8]) -> Result<Sequence<u8>, AllocError>
    ensures { IfOk result (λ x. x ≡ name.now) }
{
    Ok(Sequence::from_vec(Vec::from_slice(alloc, name)?))
}

/// `&name`
pub fn global<'a, 't>(alloc: Global, tokens: Tokens<'a, 't>) -> Read<'a, 't, Sequence<u8>>
    ensures { Gives (λ x. (x.0, token_views x.1.now)) result (read terminals.global (token_views tokens.now)) }
{
    if let [first, rest @ ..] = tokens {
        if let TokenKind::Global = first.kind {
            return Ok((copied(alloc, first.text)?, rest));
        }
    }
    Err(refused(tokens, Flaw::Syntax))
}

/// `%name`
pub fn variable<'a, 't>(alloc: Global, tokens: Tokens<'a, 't>) -> Read<'a, 't, Sequence<u8>>
    ensures { Gives (λ x. (x.0, token_views x.1.now)) result (read terminals.variable (token_views tokens.now)) }
{
    if let [first, rest @ ..] = tokens {
        if let TokenKind::Variable = first.kind {
            return Ok((copied(alloc, first.text)?, rest));
        }
    }
    Err(refused(tokens, Flaw::Syntax))
}

/// `@name`
pub fn label<'a, 't>(alloc: Global, tokens: Tokens<'a, 't>) -> Read<'a, 't, Sequence<u8>>
    ensures { Gives (λ x. (x.0, token_views x.1.now)) result (read terminals.label (token_views tokens.now)) }
{
    if let [first, rest @ ..] = tokens {
        if let TokenKind::Label = first.kind {
            return Ok((copied(alloc, first.text)?, rest));
        }
    }
    Err(refused(tokens, Flaw::Syntax))
}

/// A number, with the sign that stood before it.
#[tactic(auto, unfolding(crate::specs::Grammar::signed))]
fn signed<'a, 't>(negative: bool, tokens: Tokens<'a, 't>) -> Read<'a, 't, Constant>
    ensures { Gives (λ x. (x.0, token_views x.1.now)) result (read (grammar.signed negative) (token_views tokens.now)) }
{
    let (magnitude, rest) = number(tokens)?;
    let constant = Constant {
        negative,
        magnitude,
    };
    Ok((constant, rest))
}

/// A number with an optional sign.
#[tactic(auto, unfolding(crate::specs::Grammar::constant))]
fn constant<'a, 't>(tokens: Tokens<'a, 't>) -> Read<'a, 't, Constant>
    ensures { Gives (λ x. (x.0, token_views x.1.now)) result (read grammar.constant (token_views tokens.now)) }
{
    if let [first, rest @ ..] = tokens {
        match first.kind {
            TokenKind::Mark(b'-') => return signed(true, rest),
            TokenKind::Mark(b'+') => return signed(false, rest),
            _ => {}
        }
    }
    signed(false, tokens)
}

/// A register, or a number with an optional sign.
#[tactic(auto, unfolding(crate::specs::Grammar::source))]
pub fn source<'a, 't>(tokens: Tokens<'a, 't>) -> Read<'a, 't, Source>
    ensures { Gives (λ x. (x.0, token_views x.1.now)) result (read grammar.source (token_views tokens.now)) }
{
    if let [first, rest @ ..] = tokens {
        if let TokenKind::Register(register) = first.kind {
            return Ok((Source::Register(register), rest));
        }
    }
    let (constant, rest) = constant(tokens)?;
    Ok((Source::Constant(constant), rest))
}

/// What is added to a register: `- n`, `+ n` or nothing.
#[tactic(auto, unfolding(crate::specs::Grammar::offset))]
fn offset<'a, 't>(tokens: Tokens<'a, 't>) -> Read<'a, 't, Constant>
    ensures { Gives (λ x. (x.0, token_views x.1.now)) result (read grammar.offset (token_views tokens.now)) }
{
    if let [first, rest @ ..] = tokens {
        match first.kind {
            TokenKind::Mark(b'-') => return signed(true, rest),
            TokenKind::Mark(b'+') => return signed(false, rest),
            _ => {}
        }
    }
    let none = Constant {
        negative: false,
        magnitude: 0,
    };
    Ok((none, tokens))
}

/// A number; or a register and what is added to it.
#[tactic(auto, unfolding(crate::specs::Grammar::place))]
fn place<'a, 't>(tokens: Tokens<'a, 't>) -> Read<'a, 't, SegmentPlace>
    ensures { Gives (λ x. (x.0, token_views x.1.now)) result (read grammar.place (token_views tokens.now)) }
{
    if let [first, rest @ ..] = tokens {
        if let TokenKind::Number(number) = first.kind {
            return Ok((SegmentPlace::Absolute(number), rest));
        }
    }
    let (register, rest) = register(tokens)?;
    let (offset, rest) = offset(rest)?;
    Ok((SegmentPlace::Relative(Relative { register, offset }), rest))
}

/// A place and the bracket behind it.
#[tactic(auto, unfolding(crate::specs::Grammar::place_inside))]
fn place_inside<'a, 't>(tokens: Tokens<'a, 't>) -> Read<'a, 't, SegmentPlace>
    ensures { Gives (λ x. (x.0, token_views x.1.now)) result (read grammar.place_inside (token_views tokens.now)) }
{
    let (place, rest) = place(tokens)?;
    let rest = mark(b']', rest)?;
    Ok((place, rest))
}

/// What stands behind `[%x]`: an index in brackets, or nothing.
#[tactic(auto, unfolding(crate::specs::Grammar::index))]
fn index<'a, 't>(variable: Sequence<u8>, tokens: Tokens<'a, 't>) -> Read<'a, 't, Address>
    ensures { Gives (λ x. (x.0, token_views x.1.now)) result (read (grammar.index variable) (token_views tokens.now)) }
{
    if !has_mark(b'[', tokens) {
        return Ok((Address::Variable(variable), tokens));
    }
    let rest = mark(b'[', tokens)?;
    let (place, rest) = place_inside(rest)?;
    Ok((Address::Indexed(Indexed { variable, place }), rest))
}

/// What stands behind the first bracket of an address.
#[tactic(auto, unfolding(crate::specs::Grammar::address_inside))]
fn inside<'a, 't>(alloc: Global, tokens: Tokens<'a, 't>) -> Read<'a, 't, Address>
    ensures { Gives (λ x. (x.0, token_views x.1.now)) result (read grammar.address_inside (token_views tokens.now)) }
{
    if let [first, rest @ ..] = tokens {
        if let TokenKind::Variable = first.kind {
            let variable = copied(alloc, first.text)?;
            let rest = mark(b']', rest)?;
            return index(variable, rest);
        }
    }
    let (place, rest) = place_inside(tokens)?;
    Ok((Address::Place(place), rest))
}

/// An address in brackets.
#[tactic(auto, unfolding(crate::specs::Grammar::address))]
pub fn address<'a, 't>(alloc: Global, tokens: Tokens<'a, 't>) -> Read<'a, 't, Address>
    ensures { Gives (λ x. (x.0, token_views x.1.now)) result (read grammar.address (token_views tokens.now)) }
{
    let rest = mark(b'[', tokens)?;
    inside(alloc, rest)
}
