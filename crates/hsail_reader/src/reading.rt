//! The module's line, and the whole text.

ghost use Rattle.std.specs.Prelude.{◌≡◌, ◌<◌, ◌≤◌, ◌↔◌, length, Err};
ghost use Rattle.hsail_reader.specs.Faults.{Gives, too_long};
ghost use Rattle.hsail_reader.specs.Tokens.{token_views};
ghost use Rattle.hsail_reader.specs.Grammar.{AnswersByGrammar, field, fields};
ghost use Rattle.hsail_reader.specs.Grammars.{read};
ghost use Rattle.hsail_reader.specs.Limits.{most_text_bytes};
ghost use Rattle.hsail_reader.specs.Syntax.{module_at, read_at, reading, Answers};
ghost use Rattle.hsail_reader.specs.Terminals as terminals;
ghost use Rattle.hsail_reader.specs.declared.reading.TheConstants.{MAX_TEXT};

use crate::fault::{Flaw, ReadCause, ReadError, ReadFault, Stop, told};
use crate::kernel_reading::{kernels, word_of_token};
use crate::module::{Module, Profile, Rounding};
use crate::operands::{Read, Tokens, global, mark, refused};
use crate::token::{Header, Token, TokenKind};
use crate::tokens::tokens;
use crate::words::Word;
use std::alloc::Global;

/// The most bytes of a text.
const MAX_TEXT: usize = 65_536;

/// The code's limit of a text is that of the rules. It does nothing.
pub fn law_numbers_are_those_of_the_rules()
    ensures { MAX_TEXT ≡ most_text_bytes }
{}

/// What the module's line says behind the name.
#[derive(Clone, Copy)]
pub struct Fields {
    pub minor: u8,
    pub profile: Profile,
    pub rounding: Rounding,
}

/// `: 1`, the major version.
fn major<'a, 't>(tokens: Tokens<'a, 't>) -> Result<Tokens<'a, 't>, Stop>
    ensures { Gives (λ x. (tt, token_views x.now)) result (read (field terminals.major) (token_views tokens.now)) }
{
    let rest = mark(b':', tokens)?;
    if let [first, behind @ ..] = rest {
        if let TokenKind::Number(1) = first.kind {
            return Ok(behind);
        }
    }
    Err(refused(rest, Flaw::Syntax))
}

/// `: minor`, the minor version.
fn minor<'a, 't>(tokens: Tokens<'a, 't>) -> Read<'a, 't, u8>
    ensures { Gives (λ x. (x.0, token_views x.1.now)) result (read (field terminals.minor) (token_views tokens.now)) }
{
    let rest = mark(b':', tokens)?;
    if let [first, behind @ ..] = rest {
        if let TokenKind::Number(number) = first.kind {
            if number < 3 {
                return Ok((number as u8, behind));
            }
        }
    }
    Err(refused(rest, Flaw::Syntax))
}

/// `: $base` or `: $full`
fn profile<'a, 't>(tokens: Tokens<'a, 't>) -> Read<'a, 't, Profile>
    ensures { Gives (λ x. (x.0, token_views x.1.now)) result (read (field terminals.profile) (token_views tokens.now)) }
{
    let rest = mark(b':', tokens)?;
    let [first, behind @ ..] = rest else {
        return Err(refused(rest, Flaw::Syntax));
    };
    match first.kind {
        TokenKind::Header(Header::Base) => Ok((Profile::Base, behind)),
        TokenKind::Header(Header::Full) => Ok((Profile::Full, behind)),
        _ => Err(refused(rest, Flaw::Syntax)),
    }
}

/// `: $large`, the machine model.
fn large<'a, 't>(tokens: Tokens<'a, 't>) -> Result<Tokens<'a, 't>, Stop>
    ensures { Gives (λ x. (tt, token_views x.now)) result (read (field terminals.large) (token_views tokens.now)) }
{
    let rest = mark(b':', tokens)?;
    if let [first, behind @ ..] = rest {
        if let TokenKind::Header(Header::Large) = first.kind {
            return Ok(behind);
        }
    }
    Err(refused(rest, Flaw::Syntax))
}

/// `: $default`, `: $zero` or `: $near`
fn rounding<'a, 't>(tokens: Tokens<'a, 't>) -> Read<'a, 't, Rounding>
    ensures { Gives (λ x. (x.0, token_views x.1.now)) result (read (field terminals.rounding) (token_views tokens.now)) }
{
    let rest = mark(b':', tokens)?;
    let [first, behind @ ..] = rest else {
        return Err(refused(rest, Flaw::Syntax));
    };
    match first.kind {
        TokenKind::Header(Header::Default) => Ok((Rounding::Default, behind)),
        TokenKind::Header(Header::Zero) => Ok((Rounding::Zero, behind)),
        TokenKind::Header(Header::Near) => Ok((Rounding::Near, behind)),
        _ => Err(refused(rest, Flaw::Syntax)),
    }
}

/// `: 1 : minor : profile : $large : rounding`
#[tactic(auto, unfolding(crate::specs::Grammar::fields))]
fn header_fields<'a, 't>(tokens: Tokens<'a, 't>) -> Read<'a, 't, Fields>
    ensures { Gives (λ x. (x.0, token_views x.1.now)) result (read fields (token_views tokens.now)) }
{
    let rest = major(tokens)?;
    let (minor, rest) = minor(rest)?;
    let (profile, rest) = profile(rest)?;
    let rest = large(rest)?;
    let (rounding, rest) = rounding(rest)?;
    let fields = Fields {
        minor,
        profile,
        rounding,
    };
    Ok((fields, rest))
}

/// The module that the tokens are, to the end of the text.
#[tactic(auto, unfolding(crate::specs::Syntax::module_at, crate::specs::Grammar::module_text))]
fn whole(alloc: Global, tokens: &[Token<'_>]) -> Result<Module, Stop>
    ensures { Gives (λ m. m) result (module_at (token_views tokens.now)) }
{
    let [first, rest @ ..] = tokens else {
        return Err(refused(tokens, Flaw::Syntax));
    };
    let Some(Word::Module) = word_of_token(first) else {
        return Err(refused(tokens, Flaw::Syntax));
    };
    let (name, rest) = global(alloc, rest)?;
    let (fields, rest) = header_fields(rest)?;
    let (kernels, _) = kernels(alloc, rest)?;
    let Fields {
        minor,
        profile,
        rounding,
    } = fields;
    Ok(Module {
        name,
        minor,
        profile,
        rounding,
        kernels,
    })
}

/// The module that the tokens of a text are.
fn parsed(alloc: Global, text: &[u8]) -> Result<Module, Stop>
    requires { length text.now ≤ MAX_TEXT }
    ensures { Gives (λ m. m) result (read_at text.now) }
{
    let tokens = tokens(alloc, text)?;
    whole(alloc, tokens.as_slice())
}

/// The module that a text is (PRM, HSAIL Syntax and Semantics, in the integer profile), or its fault:
/// a text over 65,536 bytes; else the first place where no lexeme begins; else the first token at
/// which no module goes on.
#[tactic(auto, unfolding(crate::specs::Syntax::reading))]
pub fn read_module(alloc: Global, text: &[u8]) -> Result<Module, ReadError>
    ensures exact { Answers result (reading text.now) }
    ensures grammar { AnswersByGrammar text.now result }
    ensures too_long { (result ≡ Err (ReadError.Fault too_long)) ↔ (most_text_bytes < length text.now) }
{
    if text.len() > MAX_TEXT {
        return Err(ReadError::Fault(ReadFault {
            line: 1,
            column: 1,
            cause: ReadCause::TooLong,
        }));
    }
    match parsed(alloc, text) {
        Ok(module) => Ok(module),
        Err(stop) => Err(told(text, stop)),
    }
}
