//! Items, arguments and kernels, each read at the front of some tokens.

ghost use Rattle.std.specs.Prelude.{◌≡◌, Ok};
ghost use Rattle.hsail_reader.specs.Faults.{Gives};
ghost use Rattle.hsail_reader.specs.Tokens.{token_views, token_view};
ghost use Rattle.hsail_reader.specs.Grammar as grammar;
ghost use Rattle.hsail_reader.specs.Grammars.{read};
ghost use Rattle.hsail_reader.specs.Terminals as terminals;

use crate::fault::{Flaw, Stop};
use crate::instructions::operands;
use crate::module::{Argument, GroupVariable, Instruction, Item, Kernel, Label};
use crate::operands::{
    Read, Tokens, copied, global, has_mark, line_of, mark, number, refused, variable,
};
use crate::token::{Token, TokenKind};
use crate::types::{Alignment, DataType};
use crate::words::{Word, classify, variable_alignment};
use sequences::Sequence;
use std::alloc::Global;

/// What a token is as a word, if it is one.
pub fn word_of_token(token: &Token<'_>) -> Option<Word>
    ensures { result ≡ terminals.word_at (token_view token.now) }
{
    match token.kind {
        TokenKind::Word => Some(classify(token.text)),
        _ => None,
    }
}

/// What the first token is as a word, if it is one.
fn first_word(tokens: &[Token<'_>]) -> Option<Word>
    ensures { result ≡ terminals.first_word (token_views tokens.now) }
{
    match tokens {
        [] => None,
        [first, ..] => word_of_token(first),
    }
}

/// The flaw at a token that can't begin what is read: a word that no row has, or another.
fn flaw_at_begin(word: Option<Word>) -> Flaw
    ensures { result ≡ terminals.flaw_at_begin word }
{
    match word {
        Some(Word::Outside | Word::Unknown) => Flaw::NotInProfile,
        _ => Flaw::Syntax,
    }
}

/// The flaw at a token behind `align(n)` that is no variable's word.
fn flaw_behind_align(word: Option<Word>) -> Flaw
    ensures { result ≡ terminals.flaw_behind_align word }
{
    match word {
        Some(Word::Outside) => Flaw::NotInProfile,
        _ => Flaw::Syntax,
    }
}

/// `align(n)` with an n that a variable may have, if the word is one.
fn align_of(word: Option<Word>) -> Option<Alignment>
    ensures { result ≡ terminals.picked terminals.align_of word }
{
    match word {
        Some(Word::Align(n)) => variable_alignment(n),
        _ => None,
    }
}

/// The type of a variable of the group segment, if the word is one of its.
fn group_of(word: Option<Word>) -> Option<DataType>
    ensures { result ≡ terminals.picked terminals.group_of word }
{
    match word {
        Some(Word::GroupVariable(kind)) => Some(kind),
        _ => None,
    }
}

/// `group_T` behind `align(n)`.
fn group_kind<'a, 't>(tokens: Tokens<'a, 't>) -> Read<'a, 't, DataType>
    ensures { Gives (λ x. (x.0, token_views x.1.now)) result (read (terminals.group terminals.behind_align) (token_views tokens.now)) }
{
    let [first, rest @ ..] = tokens else {
        return Err(refused(tokens, Flaw::Syntax));
    };
    let word = word_of_token(first);
    match group_of(word) {
        Some(kind) => Ok((kind, rest)),
        None => Err(refused(tokens, flaw_behind_align(word))),
    }
}

/// `[n]` behind the name of a group variable, which may be absent.
#[tactic(auto, unfolding(crate::specs::Grammar::extent))]
fn extent<'a, 't>(tokens: Tokens<'a, 't>) -> Read<'a, 't, Option<u64>>
    ensures { Gives (λ x. (x.0, token_views x.1.now)) result (read grammar.extent (token_views tokens.now)) }
{
    if !has_mark(b'[', tokens) {
        return Ok((None, tokens));
    }
    let rest = mark(b'[', tokens)?;
    let (length, rest) = number(rest)?;
    let rest = mark(b']', rest)?;
    Ok((Some(length), rest))
}

/// `%name`, `[n]` and `;` behind `align(n)` and `group_T`.
#[tactic(auto, unfolding(crate::specs::Grammar::declared))]
fn declared<'a, 't>(
    alloc: Global,
    line: u32,
    align: Option<Alignment>,
    kind: DataType,
    tokens: Tokens<'a, 't>,
) -> Read<'a, 't, Item>
    ensures { Gives (λ x. (x.0, token_views x.1.now)) result (read (grammar.declared line align kind) (token_views tokens.now)) }
{
    let (name, rest) = variable(alloc, tokens)?;
    let (length, rest) = extent(rest)?;
    let rest = mark(b';', rest)?;
    let variable = GroupVariable {
        line,
        align,
        kind,
        name,
        length,
    };
    Ok((Item::Variable(variable), rest))
}

/// `group_T %name`, `[n]` and `;` behind `align(n)`.
#[tactic(auto, unfolding(crate::specs::Grammar::aligned))]
fn aligned<'a, 't>(
    alloc: Global,
    line: u32,
    align: Alignment,
    tokens: Tokens<'a, 't>,
) -> Read<'a, 't, Item>
    ensures { Gives (λ x. (x.0, token_views x.1.now)) result (read (grammar.aligned line align) (token_views tokens.now)) }
{
    let (kind, rest) = group_kind(tokens)?;
    declared(alloc, line, Some(align), kind, rest)
}

/// An instruction and `;`, which begin with this word.
#[tactic(auto, unfolding(crate::specs::Grammar::performed))]
fn instruction<'a, 't>(
    alloc: Global,
    word: Option<Word>,
    tokens: Tokens<'a, 't>,
) -> Read<'a, 't, Item>
    requires { word ≡ terminals.first_word (token_views tokens.now) }
    ensures { Gives (λ x. (x.0, token_views x.1.now)) result (read grammar.performed (token_views tokens.now)) }
{
    let [first, rest @ ..] = tokens else {
        return Err(refused(tokens, Flaw::Syntax));
    };
    match word {
        Some(Word::Instruction(opcode)) => {
            let line = first.line;
            let (operation, rest) = operands(alloc, opcode, rest)?;
            let rest = mark(b';', rest)?;
            Ok((Item::Instruction(Instruction { line, operation }), rest))
        }
        word => Err(refused(tokens, flaw_at_begin(word))),
    }
}

/// A variable of the group segment without `align(n)`, or an instruction; it begins with this word.
#[tactic(auto, unfolding(crate::specs::Grammar::plain))]
fn plain<'a, 't>(alloc: Global, word: Option<Word>, tokens: Tokens<'a, 't>) -> Read<'a, 't, Item>
    requires { word ≡ terminals.first_word (token_views tokens.now) }
    ensures { Gives (λ x. (x.0, token_views x.1.now)) result (read grammar.plain (token_views tokens.now)) }
{
    if let [first, rest @ ..] = tokens {
        if let Some(kind) = group_of(word) {
            return declared(alloc, first.line, None, kind, rest);
        }
    }
    instruction(alloc, word, tokens)
}

/// An item that begins with no label.
#[tactic(auto, unfolding(crate::specs::Grammar::unlabelled))]
fn unlabelled<'a, 't>(alloc: Global, tokens: Tokens<'a, 't>) -> Read<'a, 't, Item>
    ensures { Gives (λ x. (x.0, token_views x.1.now)) result (read grammar.unlabelled (token_views tokens.now)) }
{
    let word = first_word(tokens);
    if let [first, rest @ ..] = tokens {
        if let Some(align) = align_of(word) {
            return aligned(alloc, first.line, align, rest);
        }
    }
    plain(alloc, word, tokens)
}

/// An item of a kernel's body.
#[tactic(auto, unfolding(crate::specs::Grammar::item, crate::specs::Grammar::labelled))]
fn read_item<'a, 't>(alloc: Global, tokens: Tokens<'a, 't>) -> Read<'a, 't, Item>
    ensures { Gives (λ x. (x.0, token_views x.1.now)) result (read grammar.item (token_views tokens.now)) }
{
    if let [first, rest @ ..] = tokens {
        if let TokenKind::Label = first.kind {
            let line = first.line;
            let name = copied(alloc, first.text)?;
            let rest = mark(b':', rest)?;
            return Ok((Item::Label(Label { line, name }), rest));
        }
    }
    unlabelled(alloc, tokens)
}

/// `{` and items up to the closing brace.
#[tactic(auto, unfolding(crate::specs::Grammar::items))]
fn items<'a, 't>(alloc: Global, tokens: Tokens<'a, 't>) -> Read<'a, 't, Sequence<Item>>
    ensures { Gives (λ x. (x.0, token_views x.1.now)) result (read grammar.items (token_views tokens.now)) }
{
    let mut items = Vec::new(alloc);
    let mut rest = mark(b'{', tokens)?;
    'items: while !has_mark(b'}', rest) {
        let (item, behind) = read_item(alloc, rest)?;
        items.push(item)?;
        rest = behind;
    }
    Ok((Sequence::from_vec(items), rest))
}

/// `align(n)`, which may be absent.
#[tactic(auto, unfolding(crate::specs::Grammar::alignment))]
fn alignment<'a, 't>(tokens: Tokens<'a, 't>) -> Read<'a, 't, Option<Alignment>>
    ensures { Gives (λ x. (x.0, token_views x.1.now)) result (read grammar.alignment (token_views tokens.now)) }
{
    if let [first, rest @ ..] = tokens {
        if let Some(align) = align_of(word_of_token(first)) {
            return Ok((Some(align), rest));
        }
    }
    Ok((None, tokens))
}

/// `kernarg_T`, behind `align(n)` or where none stands.
fn argument_kind<'a, 't>(align: Option<Alignment>, tokens: Tokens<'a, 't>) -> Read<'a, 't, DataType>
    ensures { Gives (λ x. (x.0, token_views x.1.now)) result (read (terminals.kernarg (grammar.kernarg_flaw align)) (token_views tokens.now)) }
{
    let [first, rest @ ..] = tokens else {
        return Err(refused(tokens, Flaw::Syntax));
    };
    match word_of_token(first) {
        Some(Word::Argument(kind)) => Ok((kind, rest)),
        word if align.is_some() => Err(refused(tokens, flaw_behind_align(word))),
        word => Err(refused(tokens, flaw_at_begin(word))),
    }
}

/// An argument of a kernel.
#[tactic(auto, unfolding(crate::specs::Grammar::argument))]
fn read_argument<'a, 't>(alloc: Global, tokens: Tokens<'a, 't>) -> Read<'a, 't, Argument>
    ensures { Gives (λ x. (x.0, token_views x.1.now)) result (read grammar.argument (token_views tokens.now)) }
{
    let line = line_of(tokens);
    let (align, rest) = alignment(tokens)?;
    let (kind, rest) = argument_kind(align, rest)?;
    let (name, rest) = variable(alloc, rest)?;
    let argument = Argument {
        line,
        align,
        kind,
        name,
    };
    Ok((argument, rest))
}

/// An argument behind a comma.
#[tactic(auto, unfolding(crate::specs::Grammar::next_argument))]
fn next_argument<'a, 't>(alloc: Global, tokens: Tokens<'a, 't>) -> Read<'a, 't, Argument>
    ensures { Gives (λ x. (x.0, token_views x.1.now)) result (read grammar.next_argument (token_views tokens.now)) }
{
    let rest = mark(b',', tokens)?;
    read_argument(alloc, rest)
}

/// The first argument, and further ones up to the closing parenthesis.
#[tactic(auto, unfolding(crate::specs::Grammar::some_arguments))]
fn some_arguments<'a, 't>(alloc: Global, tokens: Tokens<'a, 't>) -> Read<'a, 't, Sequence<Argument>>
    ensures { Gives (λ x. (x.0, token_views x.1.now)) result (read grammar.some_arguments (token_views tokens.now)) }
{
    let mut arguments = Vec::new(alloc);
    let (first, mut rest) = read_argument(alloc, tokens)?;
    arguments.push(first)?;
    'arguments: while !has_mark(b')', rest) {
        let (argument, behind) = next_argument(alloc, rest)?;
        arguments.push(argument)?;
        rest = behind;
    }
    Ok((Sequence::from_vec(arguments), rest))
}

/// `( )` or `( arguments )`
#[tactic(auto, unfolding(crate::specs::Grammar::signature))]
fn signature<'a, 't>(alloc: Global, tokens: Tokens<'a, 't>) -> Read<'a, 't, Sequence<Argument>>
    ensures { Gives (λ x. (x.0, token_views x.1.now)) result (read grammar.signature (token_views tokens.now)) }
{
    let rest = mark(b'(', tokens)?;
    if has_mark(b')', rest) {
        let rest = mark(b')', rest)?;
        return Ok((Sequence::new(alloc), rest));
    }
    let (arguments, rest) = some_arguments(alloc, rest)?;
    let rest = mark(b')', rest)?;
    Ok((arguments, rest))
}

/// The tokens behind a mark that may be absent.
fn skipped<'a, 't>(mark: u8, tokens: Tokens<'a, 't>) -> Tokens<'a, 't>
    ensures { read (terminals.optional (terminals.mark mark)) (token_views tokens.now) ≡ Ok (tt, token_views result.now) }
{
    match tokens {
        [_, rest @ ..] if has_mark(mark, tokens) => rest,
        _ => tokens,
    }
}

/// `{ items }` and `;`, which may be absent.
#[tactic(auto, unfolding(crate::specs::Grammar::body))]
fn body<'a, 't>(alloc: Global, tokens: Tokens<'a, 't>) -> Read<'a, 't, Sequence<Item>>
    ensures { Gives (λ x. (x.0, token_views x.1.now)) result (read grammar.body (token_views tokens.now)) }
{
    let (items, rest) = items(alloc, tokens)?;
    let rest = mark(b'}', rest)?;
    Ok((items, skipped(b';', rest)))
}

/// `kernel` behind `prog`.
fn behind_prog<'a, 't>(tokens: Tokens<'a, 't>) -> Result<Tokens<'a, 't>, Stop>
    ensures { Gives (λ x. (tt, token_views x.now)) result (read (terminals.kernel_word terminals.syntax) (token_views tokens.now)) }
{
    if let [first, rest @ ..] = tokens {
        if let Some(Word::Kernel) = word_of_token(first) {
            return Ok(rest);
        }
    }
    Err(refused(tokens, Flaw::Syntax))
}

/// `prog kernel` or `kernel`
#[tactic(auto, unfolding(crate::specs::Grammar::kernel_begin))]
fn kernel_begin<'a, 't>(tokens: Tokens<'a, 't>) -> Result<Tokens<'a, 't>, Stop>
    ensures { Gives (λ x. (tt, token_views x.now)) result (read grammar.kernel_begin (token_views tokens.now)) }
{
    let [first, rest @ ..] = tokens else {
        return Err(refused(tokens, Flaw::Syntax));
    };
    match word_of_token(first) {
        Some(Word::Prog) => behind_prog(rest),
        Some(Word::Kernel) => Ok(rest),
        word => Err(refused(tokens, flaw_at_begin(word))),
    }
}

/// A kernel.
#[tactic(auto, unfolding(crate::specs::Grammar::kernel))]
fn read_kernel<'a, 't>(alloc: Global, tokens: Tokens<'a, 't>) -> Read<'a, 't, Kernel>
    ensures { Gives (λ x. (x.0, token_views x.1.now)) result (read grammar.kernel (token_views tokens.now)) }
{
    let line = line_of(tokens);
    let rest = kernel_begin(tokens)?;
    let (name, rest) = global(alloc, rest)?;
    let (arguments, rest) = signature(alloc, rest)?;
    let (items, rest) = body(alloc, rest)?;
    let kernel = Kernel {
        line,
        name,
        arguments,
        items,
    };
    Ok((kernel, rest))
}

/// Whether no token is left.
fn none_left(tokens: &[Token<'_>]) -> bool
    ensures { result ≡ grammar.is_none_left (token_views tokens.now) }
{
    match tokens {
        [] => true,
        [_, ..] => false,
    }
}

/// `;` and kernels up to the end of the text.
#[tactic(auto, unfolding(crate::specs::Grammar::kernels))]
pub fn kernels<'a, 't>(alloc: Global, tokens: Tokens<'a, 't>) -> Read<'a, 't, Sequence<Kernel>>
    ensures { Gives (λ x. (x.0, token_views x.1.now)) result (read grammar.kernels (token_views tokens.now)) }
{
    let mut kernels = Vec::new(alloc);
    let mut rest = mark(b';', tokens)?;
    'kernels: while !none_left(rest) {
        let (kernel, behind) = read_kernel(alloc, rest)?;
        kernels.push(kernel)?;
        rest = behind;
    }
    Ok((Sequence::from_vec(kernels), rest))
}
