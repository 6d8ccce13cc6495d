//! Readers and writers that tell whether they have failed, and those of std as such: blocks of bytes are read, and texts
//! written, in as many calls as they take for them.

ghost use Rattle.std.specs.Prelude.{◌≡◌, ◌<◌, length, IfErr, OnErr, OnOk, true};
ghost use Rattle.std.specs.Io.KnownBytes.{Appends, Keeps};
ghost use Rattle.script.specs.Streams.{AppendsBeginning, ReadsBlock, Takes, after_taking};
ghost use Rattle.script.specs.declared.fault.ScriptFault.TheVariants.{Read, Write};

use crate::fault::ScriptFault;
use std::io;

// The most writes for one text, of those that are interrupted too (own).
const MOST_WRITES: u64 = 1 << 40;

/// What a reader answers to a read.
#[derive(Clone, Copy)]
pub enum ReadAnswer {
    /// It gave so many bytes, none only at the end.
    Gave(usize),
    /// The read was interrupted, and is to be made again.
    Interrupted,
    /// It failed.
    Failed,
}

/// What a writer answers to a write of some bytes.
#[derive(Clone, Copy)]
pub enum WriteAnswer {
    /// It took so many of them.
    Took(usize),
    /// The write was interrupted, and is to be made again.
    Interrupted,
    /// It failed, or took none.
    Failed,
}

/// Who gives a run its bytes.
pub trait Source {
    ghost use Rattle.std.specs.Prelude.{◌≡◌, ◌<◌, ℕ, List, Option, Bool, length, true};
    ghost use Rattle.std.specs.Io.KnownBytes.{Keeps};
    ghost use Rattle.script.specs.Streams.{HasRead, after_read};

    /// The bytes that are left, where they are known.
    ghost remaining: { Self → Option (List ℕ) };

    /// Whether it has failed.
    ghost failed: { Self → Bool };

    /// Reads once.
    fn ask(&mut self, block: &mut [u8]) -> ReadAnswer
        requires room { 0 < length block.old }
        ensures block { HasRead (remaining self.old) (remaining self.new) result block.new }
        ensures noted { failed self.new ≡ after_read result (failed self.old) };

    /// It was asked as often as a run asks: it counts as failed.
    fn give_up(&mut self)
        ensures kept { Keeps (remaining self.old) (remaining self.new) }
        ensures noted { failed self.new ≡ true };
}

/// Who takes a run's replies.
pub trait Sink {
    ghost use Rattle.std.specs.Prelude.{◌≡◌, ℕ, List, Option, Bool, true};
    ghost use Rattle.std.specs.Io.KnownBytes.{Keeps};
    ghost use Rattle.script.specs.Streams.{HasTaken, after_flush, after_write};

    /// The bytes that it holds, where they are known.
    ghost contents: { Self → Option (List ℕ) };

    /// Whether it has failed.
    ghost failed: { Self → Bool };

    /// Writes once.
    fn hand(&mut self, bytes: &[u8]) -> WriteAnswer
        ensures held { HasTaken (contents self.old) (contents self.new) result bytes.now }
        ensures noted { failed self.new ≡ after_write result (failed self.old) };

    /// Has it pass on what it holds: whether it did.
    fn pass_on(&mut self) -> bool
        ensures kept { Keeps (contents self.old) (contents self.new) }
        ensures noted { failed self.new ≡ after_flush result (failed self.old) };

    /// It was asked as often as a text asks: it counts as failed.
    fn give_up(&mut self)
        ensures kept { Keeps (contents self.old) (contents self.new) }
        ensures noted { failed self.new ≡ true };
}

/// A reader or a writer of std, with whether it has failed.
#[derive(Drop)]
pub struct Noted<T> {
    inner: T,
    failed: bool,
}

impl<T> Noted<T> {
    /// One that hasn't failed.
    pub fn new(inner: T) -> Noted<T> {
        Noted {
            inner,
            failed: false,
        }
    }
}

impl<R: io::Read> Source for Noted<R> {
    ghost remaining = { λ noted. R.remaining noted.inner };

    ghost failed = { λ noted. noted.failed };

    fn ask(&mut self, block: &mut [u8]) -> ReadAnswer {
        match self.inner.read(block) {
            Ok(count) => ReadAnswer::Gave(count),
            Err(error) if error.kind() == io::ErrorKind::Interrupted => ReadAnswer::Interrupted,
            Err(_) => {
                self.failed = true;
                ReadAnswer::Failed
            }
        }
    }

    fn give_up(&mut self) {
        self.failed = true;
    }
}

impl<W: io::Write> Sink for Noted<W> {
    ghost contents = { λ noted. W.contents noted.inner };

    ghost failed = { λ noted. noted.failed };

    fn hand(&mut self, bytes: &[u8]) -> WriteAnswer {
        match self.inner.write(bytes) {
            Ok(0) => {}
            Ok(count) => return WriteAnswer::Took(count),
            Err(error) if error.kind() == io::ErrorKind::Interrupted => {
                return WriteAnswer::Interrupted;
            }
            Err(_) => {}
        }
        self.failed = true;
        WriteAnswer::Failed
    }

    fn pass_on(&mut self) -> bool {
        if self.inner.flush().is_err() {
            self.failed = true;
            return false;
        }
        true
    }

    fn give_up(&mut self) {
        self.failed = true;
    }
}

/// Reads once: the count of bytes, or none where the read was interrupted and is to be made again.
pub fn read_once<R: Source>(reader: &mut R, block: &mut [u8]) -> Result<Option<usize>, ScriptFault>
    requires room { 0 < length block.old }
    ensures block { ReadsBlock (R.remaining reader.old) (R.remaining reader.new) result block.new }
    ensures fault { IfErr result (λ fault. fault ≡ Read) }
    ensures read { OnOk result (R.failed reader.new ≡ R.failed reader.old) }
    ensures failed { OnErr result (R.failed reader.new ≡ true) }
{
    match reader.ask(block) {
        ReadAnswer::Gave(count) => Ok(Some(count)),
        ReadAnswer::Interrupted => Ok(None),
        ReadAnswer::Failed => Err(ScriptFault::Read),
    }
}

/// Writes bytes, in as many writes as the writer takes for them. Where it fails it holds a beginning of them.
pub fn write_through<W: Sink>(writer: &mut W, bytes: &[u8]) -> Result<(), ScriptFault>
    ensures handed { OnOk result (Appends (W.contents writer.old) (W.contents writer.new) bytes.now) }
    ensures begun { OnErr result (AppendsBeginning (W.contents writer.old) (W.contents writer.new) bytes.now) }
    ensures fault { IfErr result (λ fault. fault ≡ Write) }
    ensures written { OnOk result (W.failed writer.new ≡ W.failed writer.old) }
    ensures failed { OnErr result (W.failed writer.new ≡ true) }
{
    let mut taken = 0;
    for _ in 0..MOST_WRITES {
        if taken >= bytes.len() {
            return Ok(());
        }
        let (_taken, rest) = bytes.split_at(taken);
        match write_once(writer, rest) {
            Some(count) => taken += count,
            None => return Err(ScriptFault::Write),
        }
    }
    writer.give_up();
    Err(ScriptFault::Write)
}

// Writes once: how many bytes the writer took, 0 where the write was interrupted and is to be made again, and none
// where it failed or took no byte.
fn write_once<W: Sink>(writer: &mut W, bytes: &[u8]) -> Option<usize>
    ensures taken { Takes (W.contents writer.old) (W.contents writer.new) result bytes.now }
    ensures noted { W.failed writer.new ≡ after_taking result (W.failed writer.old) }
{
    match writer.hand(bytes) {
        WriteAnswer::Took(count) => Some(count),
        WriteAnswer::Interrupted => Some(0),
        WriteAnswer::Failed => None,
    }
}

/// Has the writer pass on what it holds.
pub fn flush_once<W: Sink>(writer: &mut W) -> Result<(), ScriptFault>
    ensures kept { Keeps (W.contents writer.old) (W.contents writer.new) }
    ensures fault { IfErr result (λ fault. fault ≡ Write) }
    ensures flushed { OnOk result (W.failed writer.new ≡ W.failed writer.old) }
    ensures failed { OnErr result (W.failed writer.new ≡ true) }
{
    if writer.pass_on() {
        Ok(())
    } else {
        Err(ScriptFault::Write)
    }
}
