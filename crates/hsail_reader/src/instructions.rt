//! The operands of instructions, as their rows have them.

ghost use Rattle.std.specs.Prelude.{IfOk};
ghost use Rattle.hsail_reader.specs.Faults.{Gives};
ghost use Rattle.hsail_reader.specs.RowOperations.{HasShape, IsRowWord};
ghost use Rattle.hsail_reader.specs.Tokens.{token_views};
ghost use Rattle.hsail_reader.specs.Grammar as grammar;
ghost use Rattle.hsail_reader.specs.Grammars.{read};

use crate::module::{Access, Operand, Operands, Operation, Target, TypedSource};
use crate::operands::{Read, Tokens, address, label, mark, number, register, source};
use crate::rows::{Shape, Shapes};
use crate::types::DataType;
use crate::words::Opcode;
use std::alloc::Global;

/// An operand of a row, behind a word of a type.
fn operand<'a, 't>(
    alloc: Global,
    shape: Shape,
    word: DataType,
    tokens: Tokens<'a, 't>,
) -> Read<'a, 't, Operand>
    ensures read { Gives (λ x. (x.0, token_views x.1.now)) result (read (grammar.operand shape word) (token_views tokens.now)) }
    ensures shape { IfOk result (λ x. HasShape shape word x.0) }
{
    match shape {
        Shape::Absent => Ok((Operand::Absent, tokens)),
        Shape::Target(at) => {
            let (register, rest) = register(tokens)?;
            let kind = at.kind(word);
            Ok((Operand::Target(Target { kind, register }), rest))
        }
        Shape::Source(at) => {
            let (source, rest) = source(tokens)?;
            let kind = at.kind(word);
            Ok((Operand::Source(TypedSource { kind, source }), rest))
        }
        Shape::Address(segment) => {
            let (address, rest) = address(alloc, tokens)?;
            let access = Access {
                segment,
                kind: word,
                address,
            };
            Ok((Operand::Address(access), rest))
        }
        Shape::Label => {
            let (name, rest) = label(alloc, tokens)?;
            Ok((Operand::Label(name), rest))
        }
        Shape::Dimension => {
            let (number, rest) = number(tokens)?;
            Ok((Operand::Dimension(number), rest))
        }
    }
}

/// An operand behind a comma, where the row has one.
fn next_operand<'a, 't>(
    alloc: Global,
    shape: Shape,
    kind: DataType,
    tokens: Tokens<'a, 't>,
) -> Read<'a, 't, Operand>
    ensures read { Gives (λ x. (x.0, token_views x.1.now)) result (read (grammar.next_operand shape kind) (token_views tokens.now)) }
    ensures shape { IfOk result (λ x. HasShape shape kind x.0) }
{
    if let Shape::Absent = shape {
        return Ok((Operand::Absent, tokens));
    }
    let rest = mark(b',', tokens)?;
    operand(alloc, shape, kind, rest)
}

/// The operands behind the word of an instruction.
#[tactic(auto, unfolding(crate::specs::Grammar::operands))]
pub fn operands<'a, 't>(
    alloc: Global,
    opcode: Opcode,
    tokens: Tokens<'a, 't>,
) -> Read<'a, 't, Operation>
    requires { IsRowWord opcode }
    ensures { Gives (λ x. (x.0, token_views x.1.now)) result (read (grammar.operands opcode) (token_views tokens.now)) }
{
    let kind = opcode.kind;
    let Shapes(first, second, third, fourth) = opcode.operands;
    let (first, rest) = operand(alloc, first, kind, tokens)?;
    let (second, rest) = next_operand(alloc, second, kind, rest)?;
    let (third, rest) = next_operand(alloc, third, kind, rest)?;
    let (fourth, rest) = next_operand(alloc, fourth, kind, rest)?;
    let operands = Operands {
        first,
        second,
        third,
        fourth,
    };
    let operation = Operation::new(opcode.form, opcode.modifiers, kind, operands);
    Ok((operation, rest))
}
