//! The forms of lines, a row each: its first word, what that asks, and what its further words stand for.

ghost use Rattle.std.specs.Prelude.{◌≡◌, map};
ghost use Rattle.script.specs.Forms.{form_rows, form_view, is_of, verb_among, verb_of};

use crate::operations::{condition, operation};
use crate::rights::{kind, rights};
use std::fmt;
use words::{address, are_bytes, decimal, is_packet_word, is_word, packet, signed};

/// What the first word of a line says.
#[derive(Clone, Copy, Debug, PartialEq, Eq)]
pub enum Verb {
    Grant,
    Revoke,
    Queue,
    Stop,
    Close,
    Reserve,
    Room,
    Word,
    Publish,
    Submit,
    Look,
    Part,
    Peek,
    Take,
    Clear,
    Advance,
    Retire,
    Serve,
    Run,
    Poll,
    Finish,
    Write,
    Read,
    Signal,
    Load,
    Test,
    List,
    Errors,
    Audit,
    Reload,
    Rotate,
}

/// What a further word of a line stands for.
#[derive(Clone, Copy, Debug, PartialEq, Eq)]
pub enum Class {
    /// A client or an object, by its name.
    Name,
    /// A kind of objects.
    Kind,
    /// Rights.
    Rights,
    /// A decimal number of 64 bits.
    Number,
    /// An address.
    Address,
    /// Bytes.
    Bytes,
    /// A packet: 64 bytes.
    Packet,
    /// A packet's word: eight bytes.
    Word,
    /// An operation on a signal that has one value.
    Operation,
    /// The operation on a signal that has two.
    Swap,
    /// A condition on a signal's value.
    Condition,
    /// A signal's value: a signed decimal number of 64 bits.
    Value,
}

/// A further word of a form: what it is called where forms are shown, and what it stands for.
#[derive(Clone, Copy)]
pub struct Operand {
    pub called: &'static str,
    pub class: Class,
}

/// A form of a line: its first word, what that asks, and its further words. It is shown as `stop Q`.
#[derive(Clone, Copy)]
pub struct LineForm {
    pub verb: Verb,
    pub name: &'static str,
    pub operands: &'static [Operand],
}

macro_rules! forms {
    ($($verb:ident $name:literal $($called:literal $class:ident),*;)*) => {
        [$(LineForm { verb: Verb::$verb, name: $name, operands: &[$(Operand { called: $called, class: Class::$class }),*] }),*]
    };
}

// The forms: first those that most lines have, as a line's word is looked for from the first on.
const FORMS: [LineForm; 32] = forms! {
    Submit "submit" "Q" Number, "PRODUCER" Number, "PACKET" Packet;
    Serve "serve" "Q" Number;
    Run "run" "Q" Number, "ID" Number;
    Finish "finish" "Q" Number, "ID" Number;
    Publish "publish" "Q" Number, "PRODUCER" Number, "T" Number, "PACKET" Packet;
    Poll "poll" "Q" Number, "ID" Number;
    Grant "grant" "CLIENT" Name, "KIND" Kind, "NAME" Name, "RIGHT,RIGHT" Rights;
    Revoke "revoke" "CLIENT" Name, "KIND" Kind, "NAME" Name, "RIGHT,RIGHT" Rights;
    Queue "queue" "CLIENT" Name, "AGENT" Name, "SIZE" Number, "PRODUCERS" Number;
    Stop "stop" "Q" Number;
    Close "close" "Q" Number;
    Reserve "reserve" "Q" Number, "PRODUCER" Number;
    Room "room" "Q" Number, "PRODUCER" Number, "T" Number;
    Word "word" "Q" Number, "PRODUCER" Number, "T" Number, "K" Number, "WORD" Word;
    Look "look" "Q" Number;
    Part "part" "Q" Number, "K" Number;
    Peek "peek" "Q" Number;
    Take "take" "Q" Number;
    Clear "clear" "Q" Number;
    Advance "advance" "Q" Number;
    Retire "retire" "Q" Number;
    Write "write" "CLIENT" Name, "ADDRESS" Address, "BYTES" Bytes;
    Read "read" "CLIENT" Name, "ADDRESS" Address, "N" Number;
    Signal "signal" "CLIENT" Name, "NAME" Name, "OP" Operation, "V" Value;
    Signal "signal" "CLIENT" Name, "NAME" Name, "cas" Swap, "EXPECTED" Value, "V" Value;
    Load "load" "CLIENT" Name, "NAME" Name;
    Test "test" "CLIENT" Name, "NAME" Name, "CONDITION" Condition, "V" Value;
    Reload "reload" "N" Number;
    List "list" "CLIENT" Name;
    Errors "errors" "Q" Number;
    Audit "audit" ;
    Rotate "rotate" ;
};

/// The forms of lines, those that most lines have first: those of a verb stand together.
pub fn line_forms() -> &'static [LineForm]
    ensures { map form_view result.now ≡ form_rows }
{
    &FORMS
}

// The verb of the first of some forms that begins with a word.
fn verb_among(forms: &[LineForm], word: &[u8]) -> Option<Verb>
    ensures { result ≡ verb_among (map form_view forms.now) word.now }
{
    let mut rest = forms;
    while let [form, others @ ..] = rest {
        if is_word(word, form.name) {
            return Some(form.verb);
        }
        rest = others;
    }
    None
}

/// The verb of a word, if a line may begin with it.
#[tactic(auto, unfolding(crate::specs::Forms::verb_of))]
pub fn verb_named(word: &[u8]) -> Option<Verb>
    ensures { result ≡ verb_of word.now }
{
    verb_among(line_forms(), word)
}

impl Class {
    /// Whether a word is one that the class stands for.
    pub fn has(self, word: &[u8]) -> bool
        ensures { result ≡ is_of self word.now }
    {
        match self {
            Class::Name => true,
            Class::Kind => kind(word).is_some(),
            Class::Rights => rights(word).is_some(),
            Class::Number => decimal(word).is_some(),
            Class::Address => address(word).is_some(),
            Class::Bytes => are_bytes(word),
            Class::Packet => packet(word).is_some(),
            Class::Word => is_packet_word(word),
            Class::Operation => operation(word, 0).is_some(),
            Class::Swap => is_word(word, "cas"),
            Class::Condition => condition(word).is_some(),
            Class::Value => signed(word).is_some(),
        }
    }

    // What may stand there, in words.
    fn text(self) -> &'static str {
        match self {
            Class::Name => "a name",
            Class::Kind => "agent, region, signal or kernel",
            Class::Rights =>
                "rights with commas between them, of USE, READ, WRITE, WAIT, CHANGE and LAUNCH, or -",
            Class::Number => "a decimal number of 64 bits",
            Class::Address => "an address: 16 hexadecimal digits",
            Class::Word => "a packet's word: 16 hexadecimal digits",
            Class::Bytes => "bytes: pairs of hexadecimal digits",
            Class::Packet => "a packet: 128 hexadecimal digits",
            Class::Operation => "store, add, subtract, and, or, xor, exchange or cas",
            Class::Swap => "cas",
            Class::Condition => "EQ, NE, LT or GTE",
            Class::Value => "a decimal number of 64 bits, with - in front below 0",
        }
    }
}

impl fmt::Display for Class {
    fn fmt<W: fmt::Write>(&self, f: &mut fmt::Formatter<W>) -> fmt::Result {
        f.write_str(self.text())
    }
}

impl fmt::Display for LineForm {
    fn fmt<W: fmt::Write>(&self, f: &mut fmt::Formatter<W>) -> fmt::Result {
        f.write_str(self.name)?;
        for operand in self.operands {
            f.write_str(" ")?;
            f.write_str(operand.called)?;
        }
        Ok(())
    }
}
