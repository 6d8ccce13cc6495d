//! Runs of a script whose reader or writer fails at each of its calls in turn, once and from then on, is interrupted,
//! or gives or takes few bytes at a time.

use crate::worlds::fresh;
use script::{Noted, ScriptFault, run_script};
use std::alloc::{AllocError, Global};
use std::io::{self, ErrorKind};
use std::test::*;
use world::World;

/// What is granted before the script.
const GRANT: &str = "grant nora signal cue WAIT\n";

/// A script, each of its lines with the reply to it. None changes the world, so all runs are over one. The last line
/// ends with the script.
const LINES: [(&str, &str); 6] = [
    ("load nora cue\n", "value 3\n"),
    ("# a remark\n", ""),
    ("list nora\n", "list 1\nsignal 1 cue WAIT\n"),
    ("stop 1\n", "refused 2 UnknownQueue\n"),
    ("test nora cue GTE 3\n", "true\n"),
    ("audit", "audit 1\n1 grant nora signal 1 WAIT\n"),
];

/// The calls at which a stream answers with an error: from 1 on, and 0 for none.
#[derive(Clone, Copy)]
struct Trouble {
    call: usize,
    goes_on: bool,
    kind: ErrorKind,
}

impl Trouble {
    fn none() -> Trouble {
        Trouble::once(0, ErrorKind::Other)
    }

    fn once(call: usize, kind: ErrorKind) -> Trouble {
        Trouble {
            call,
            goes_on: false,
            kind,
        }
    }

    fn meets(self, call: usize) -> bool {
        self.call == call || (self.goes_on && self.call < call)
    }
}

/// A reader of some bytes that gives at most so many at a time.
#[derive(Drop)]
struct Source<'a> {
    bytes: &'a [u8],
    most: usize,
    calls: usize,
    trouble: Trouble,
}

impl<'a> Source<'a> {
    fn new(bytes: &'a [u8], most: usize, trouble: Trouble) -> Source<'a> {
        Source {
            bytes,
            most,
            calls: 0,
            trouble,
        }
    }
}

impl<'a> io::Read for Source<'a> {
    fn read(&mut self, buffer: &mut [u8]) -> io::Result<usize> {
        self.calls = self.calls.saturating_add(1);
        if self.trouble.meets(self.calls) {
            return Err(io::Error::from(self.trouble.kind));
        }
        let most = buffer.len().min(self.most);
        self.bytes.read(&mut buffer[..most])
    }
}

/// A writer that keeps what it is given, and takes at most so many bytes at a time.
#[derive(Drop)]
struct Sink {
    taken: Vec<u8>,
    most: usize,
    calls: usize,
    trouble: Trouble,
}

impl Sink {
    fn new(alloc: Global, most: usize, trouble: Trouble) -> Sink {
        Sink {
            taken: Vec::new(alloc),
            most,
            calls: 0,
            trouble,
        }
    }
}

impl io::Write for Sink {
    fn write(&mut self, bytes: &[u8]) -> io::Result<usize> {
        self.calls = self.calls.saturating_add(1);
        if self.trouble.meets(self.calls) {
            return Err(io::Error::from(self.trouble.kind));
        }
        let most = bytes.len().min(self.most);
        self.taken.extend_from_slice(&bytes[..most])?;
        Ok(most)
    }

    fn flush(&mut self) -> io::Result<()> {
        Ok(())
    }
}

/// What stands on the two sides of some lines, one after the other.
#[derive(Drop)]
struct Texts {
    script: String,
    replies: String,
}

fn texts_of(alloc: Global, lines: &[(&str, &str)]) -> Result<Texts, AllocError> {
    let mut script = String::new(alloc);
    let mut replies = String::new(alloc);
    for (line, reply) in lines {
        script.push_str(line)?;
        replies.push_str(reply)?;
    }
    Ok(Texts { script, replies })
}

/// How many bytes of replies are owed to the lines that end in so many bytes of the script.
fn owed(lines: &[(&str, &str)], read: usize) -> usize {
    let mut end = 0usize;
    let mut owed = 0usize;
    for (line, reply) in lines {
        end = end.saturating_add(line.len());
        if end <= read && line.ends_with("\n") {
            owed = owed.saturating_add(reply.len());
        }
    }
    owed
}

// (`run_script` has a rich contract, so it is called here alone)
fn run(
    alloc: Global,
    world: &mut World,
    source: &mut Source<'_>,
    sink: &mut Sink,
) -> Result<(), ScriptFault> {
    let (reader, writer) = (&mut Noted::new(source), &mut Noted::new(sink));
    run_script(alloc, reader, writer, world, &[])
}

// (a world that a test owned would be dear to prove)
fn granted(alloc: Global, mut world: World) -> Result<World, Fail> {
    let mut source = Source::new(GRANT.as_bytes(), GRANT.len(), Trouble::none());
    let mut sink = Sink::new(alloc, GRANT.len(), Trouble::none());
    match run(alloc, &mut world, &mut source, &mut sink) {
        Ok(()) => Ok(world),
        Err(_) => Err("nothing is granted".into()),
    }
}

/// A world in which the grant was made.
fn ready(alloc: Global) -> Result<World, Fail> {
    granted(alloc, fresh(alloc)?)
}

/// How a run ends: its outcome, how many bytes of the replies were written, and how many reads and writes were made.
#[derive(Clone, Copy, PartialEq, Eq)]
struct Ending {
    outcome: Result<(), ScriptFault>,
    written: usize,
    reads: usize,
    writes: usize,
}

/// How a run of the script ends, with this trouble of the reader and of the writer, each of which moves at most so
/// many bytes at a time; none where what was written is no beginning of the replies.
fn ending_of(
    alloc: Global,
    world: &mut World,
    texts: &Texts,
    most: usize,
    reading: Trouble,
    writing: Trouble,
) -> Option<Ending> {
    let mut source = Source::new(texts.script.as_bytes(), most, reading);
    let mut sink = Sink::new(alloc, most, writing);
    let outcome = run(alloc, world, &mut source, &mut sink);
    if !texts.replies.as_bytes().starts_with(sink.taken.as_slice()) {
        return None;
    }
    Some(Ending {
        outcome,
        written: sink.taken.len(),
        reads: source.calls,
        writes: sink.calls,
    })
}

/// How a run without trouble ends whose streams move a byte at a time: all is read, the end too, and written.
fn whole(texts: &Texts) -> Ending {
    Ending {
        outcome: Ok(()),
        written: texts.replies.len(),
        reads: texts.script.len().saturating_add(1),
        writes: texts.replies.len(),
    }
}

/// How a run ends whose read of this number fails: all replies to the lines before are written.
fn ended_at_read(call: usize) -> Ending {
    let owed = owed(&LINES, call.saturating_sub(1));
    Ending {
        outcome: Err(ScriptFault::Read),
        written: owed,
        reads: call,
        writes: owed,
    }
}

/// Whether a run ends by the failure of its write of this number, the bytes before being written.
fn has_ended_at_write(ending: Option<Ending>, call: usize) -> bool {
    match ending {
        Some(ending) => {
            ending.outcome == Err(ScriptFault::Write)
                && ending.written == call.saturating_sub(1)
                && ending.writes == call
        }
        None => false,
    }
}

/// Trouble at this call, and at all after it if it goes on.
fn failing(call: usize, goes_on: bool) -> Trouble {
    Trouble {
        call,
        goes_on,
        kind: ErrorKind::BrokenPipe,
    }
}

/// Whether each run ends by the failure of a read, for every read.
fn reads_fail(alloc: Global, mut world: World, texts: &Texts, goes_on: bool) -> bool {
    let mut well = true;
    for call in 1..=whole(texts).reads {
        let reading = failing(call, goes_on);
        let ending = ending_of(alloc, &mut world, texts, 1, reading, Trouble::none());
        well = well && ending == Some(ended_at_read(call));
    }
    well
}

/// Whether each run ends by the failure of a write, for every write.
fn writes_fail(alloc: Global, mut world: World, texts: &Texts, goes_on: bool) -> bool {
    let mut well = true;
    for call in 1..=whole(texts).writes {
        let writing = failing(call, goes_on);
        let ending = ending_of(alloc, &mut world, texts, 1, Trouble::none(), writing);
        well = well && has_ended_at_write(ending, call);
    }
    well
}

/// Whether all is as without trouble, but for one read more, where a read is interrupted, for every read.
fn reads_go_on(alloc: Global, mut world: World, texts: &Texts) -> bool {
    let mut well = true;
    let whole = whole(texts);
    for call in 1..=whole.reads {
        let reading = Trouble::once(call, ErrorKind::Interrupted);
        let ending = ending_of(alloc, &mut world, texts, 1, reading, Trouble::none());
        let reads = whole.reads.saturating_add(1);
        well = well && ending == Some(Ending { reads, ..whole });
    }
    well
}

/// The same of writes.
fn writes_go_on(alloc: Global, mut world: World, texts: &Texts) -> bool {
    let mut well = true;
    let whole = whole(texts);
    for call in 1..=whole.writes {
        let writing = Trouble::once(call, ErrorKind::Interrupted);
        let ending = ending_of(alloc, &mut world, texts, 1, Trouble::none(), writing);
        let writes = whole.writes.saturating_add(1);
        well = well && ending == Some(Ending { writes, ..whole });
    }
    well
}

/// Whether a run without trouble, of streams that move a byte at a time, loses nothing.
fn loses_nothing(alloc: Global, mut world: World, texts: &Texts) -> bool {
    let none = Trouble::none();
    ending_of(alloc, &mut world, texts, 1, none, none) == Some(whole(texts))
}

/// Whether a run ends at its first write, of which the writer takes nothing.
fn ends_at_nothing(alloc: Global, mut world: World, texts: &Texts) -> bool {
    let mut source = Source::new(texts.script.as_bytes(), 4096, Trouble::none());
    let mut sink = Sink::new(alloc, 0, Trouble::none());
    let outcome = run(alloc, &mut world, &mut source, &mut sink);
    outcome == Err(ScriptFault::Write) && sink.calls == 1
}

#[test]
fn streams_that_move_a_byte_at_a_time_lose_nothing(rt: HostRuntime) -> Result<(), Fail> {
    let texts = texts_of(rt.alloc(), &LINES)?;
    assert!(rt; loses_nothing(rt.alloc(), ready(rt.alloc())?, &texts));
    Ok(())
}

#[test]
fn each_read_that_fails_once_ends_the_run(rt: HostRuntime) -> Result<(), Fail> {
    let texts = texts_of(rt.alloc(), &LINES)?;
    assert!(rt; reads_fail(rt.alloc(), ready(rt.alloc())?, &texts, false));
    Ok(())
}

#[test]
fn each_read_from_which_on_all_fail_ends_the_run(rt: HostRuntime) -> Result<(), Fail> {
    let texts = texts_of(rt.alloc(), &LINES)?;
    assert!(rt; reads_fail(rt.alloc(), ready(rt.alloc())?, &texts, true));
    Ok(())
}

#[test]
fn each_write_that_fails_once_ends_the_run(rt: HostRuntime) -> Result<(), Fail> {
    let texts = texts_of(rt.alloc(), &LINES)?;
    assert!(rt; writes_fail(rt.alloc(), ready(rt.alloc())?, &texts, false));
    Ok(())
}

#[test]
fn each_write_from_which_on_all_fail_ends_the_run(rt: HostRuntime) -> Result<(), Fail> {
    let texts = texts_of(rt.alloc(), &LINES)?;
    assert!(rt; writes_fail(rt.alloc(), ready(rt.alloc())?, &texts, true));
    Ok(())
}

#[test]
fn each_read_that_is_interrupted_is_made_again(rt: HostRuntime) -> Result<(), Fail> {
    let texts = texts_of(rt.alloc(), &LINES)?;
    assert!(rt; reads_go_on(rt.alloc(), ready(rt.alloc())?, &texts));
    Ok(())
}

#[test]
fn each_write_that_is_interrupted_is_made_again(rt: HostRuntime) -> Result<(), Fail> {
    let texts = texts_of(rt.alloc(), &LINES)?;
    assert!(rt; writes_go_on(rt.alloc(), ready(rt.alloc())?, &texts));
    Ok(())
}

#[test]
fn a_writer_that_takes_nothing_ends_the_run(rt: HostRuntime) -> Result<(), Fail> {
    let texts = texts_of(rt.alloc(), &LINES)?;
    assert!(rt; ends_at_nothing(rt.alloc(), ready(rt.alloc())?, &texts));
    Ok(())
}
