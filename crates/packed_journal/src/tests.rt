//! Words and entries as bytes, written by hand from the form's definition.

use crate::{
    Head, JournalReader, JournalWriter, Step, Unread, law_blocks_end_where_they_are_full,
    law_cut_journals_are_read_as_cut, law_read_entries_are_written, law_read_journals_are_written,
    law_read_words_are_written, law_written_entries_are_read, law_written_journals_are_read,
    law_written_words_are_read, read_bytes, read_digest, read_entry, read_flags, read_number,
    read_packet, read_signed, read_small, read_tag, read_tiny, write_bytes, write_digest,
    write_entry, write_flags, write_number, write_packet, write_signed, write_tag,
};
use std::alloc::{AllocError, Global};
use std::test::*;

// The tag 8; 300, which is 2 * 128 + 44; -2; the byte 90; a packet of whose eight words the first (7) and the last (9 in
// its highest byte) aren't zero; and the second and the fifth of five flags.
const WORDS: [u8; 18] = [
    8, 172, 2, 3, 1, 90, 129, 7, 128, 128, 128, 128, 128, 128, 128, 128, 9, 18,
];

// Packet 0 of queue 1, a FILL of 4 bytes 90 at 4294967296 with completion signal 1, is taken and launched: of its eight words
// the first, the third to the fifth, and the last aren't zero.
const TAKE: [u8; 19] = [
    2, 1, 0, 157, 132, 168, 128, 128, 8, 128, 128, 128, 128, 16, 4, 90, 1, 2, 0,
];

// Queue 1 is closed, and its packet 0 released; WRITE on region 1 is taken from client 1; client 1 opens queue 2 of two slots on
// agent 1.
const CLOSE: [u8; 7] = [6, 1, 0, 1, 2, 1, 0];

const REVOKE: [u8; 7] = [4, 1, 1, 1, 4, 0, 0];

const OPEN: [u8; 7] = [1, 1, 1, 2, 1, 2, 0];

// Policy 7, 7 .. is put in force, which allows anyone READ and WRITE on each region, and denies nothing.
const RELOAD: [u8; 41] = [
    12, 7, 7, 7, 7, 7, 7, 7, 7, 7, 7, 7, 7, 7, 7, 7, 7, 7, 7, 7, 7, 7, 7, 7, 7, 7, 7, 7, 7, 7, 7,
    7, 7, 1, 0, 0, 1, 6, 0, 0, 0,
];

// A head of policy 7, 7 .. and an audit of 64 places; the packet's take and the close; and the end of the block, whose digest is
// one of Python's hashlib.
const JOURNAL: [u8; 134] = [
    106, 111, 117, 114, 110, 97, 108, 2, 7, 7, 7, 7, 7, 7, 7, 7, 7, 7, 7, 7, 7, 7, 7, 7, 7, 7, 7,
    7, 7, 7, 7, 7, 7, 7, 7, 7, 7, 7, 7, 7, 64, 1, 2, 1, 0, 157, 132, 168, 128, 128, 8, 128, 128,
    128, 128, 16, 4, 90, 1, 2, 0, 6, 1, 0, 1, 2, 1, 0, 0, 26, 40, 154, 209, 45, 251, 18, 180, 82,
    2, 66, 19, 42, 217, 53, 183, 244, 50, 221, 231, 174, 178, 255, 217, 222, 239, 195, 239, 188,
    90, 162, 19, 199, 103, 210, 232, 200, 92, 87, 30, 119, 220, 91, 185, 71, 126, 48, 173, 182,
    189, 55, 242, 231, 141, 167, 142, 189, 207, 174, 172, 66, 152, 80, 149, 11,
];

// The packet of the words.
fn packet() -> [u8; 64] {
    let mut packet = [0; 64];
    packet[0] = 7;
    packet[63] = 9;
    packet
}

// The words, written by the calls.
fn write_words(out: &mut Vec<u8>) -> Result<(), AllocError> {
    write_tag(out, 8)?;
    write_number(out, 300)?;
    write_signed(out, -2)?;
    write_bytes(out, &[90])?;
    write_packet(out, &packet())?;
    write_flags(out, &[false, true, false, false, true])
}

// Whether the words are read as what they tell.
fn are_read(bytes: &[u8]) -> Result<bool, Unread> {
    let (tag, rest) = read_tag(bytes)?;
    let (number, rest) = read_number(rest)?;
    let (signed, rest) = read_signed(rest)?;
    let (read, rest) = read_bytes(rest)?;
    let numbers = tag == 8 && number == 300 && signed == -2;
    Ok(numbers && read == [90].as_slice() && are_last(rest)?)
}

// Whether the packet and the flags are read.
fn are_last(bytes: &[u8]) -> Result<bool, Unread> {
    let wanted = packet();
    let read = read_packet(bytes)?;
    Ok(read.0 == wanted && are_flags(read.1)?)
}

// Whether the flags are read, and nothing stands behind them.
fn are_flags(bytes: &[u8]) -> Result<bool, Unread> {
    let wanted = [false, true, false, false, true];
    let read = read_flags(bytes)?;
    Ok(read.0 == wanted && read.1.is_empty())
}

// Writes the entry that some bytes are read as, or nothing.
fn write_again(alloc: Global, out: &mut Vec<u8>, bytes: &[u8]) -> Result<(), AllocError> {
    if let Ok(((entry, policy), _)) = read_entry(alloc, bytes)? {
        let _written = write_entry(out, &entry, &policy.unwrap_or([0; 32]));
    }
    Ok(())
}

// Whether bytes are read as an entry that is written so.
fn is_entry(alloc: Global, bytes: &[u8]) -> Result<bool, AllocError> {
    let mut out = Vec::new(alloc);
    write_again(alloc, &mut out, bytes)?;
    Ok(out.as_slice() == bytes)
}

// Writes the entry that some bytes are read as behind a journal.
fn put(
    alloc: Global,
    writer: &mut JournalWriter,
    out: &mut Vec<u8>,
    bytes: &[u8],
) -> Result<bool, AllocError> {
    match read_entry(alloc, bytes)? {
        Ok(((entry, policy), _)) => Ok(
            writer
                .write_entry(out, &entry, &policy.unwrap_or([0; 32]))
                .is_ok(),
        ),
        Err(_) => Ok(false),
    }
}

// Writes the journal.
fn write_journal(alloc: Global, out: &mut Vec<u8>) -> Result<bool, AllocError> {
    let head = Head {
        policy: [7; 32],
        room: 64,
    };
    let mut writer = JournalWriter::begin(out, &head)?;
    let first = put(alloc, &mut writer, out, &TAKE)?;
    let second = put(alloc, &mut writer, out, &CLOSE)?;
    writer.end(out)?;
    Ok(first && second)
}

// The bytes behind an entry, if one is read.
fn behind_entry<'a>(
    alloc: Global,
    reader: &mut JournalReader,
    bytes: &'a [u8],
) -> Result<&'a [u8], AllocError> {
    match reader.next(alloc, bytes)? {
        Ok((Step::Entry(_, _), rest)) => Ok(rest),
        _ => Ok(&[]),
    }
}

// Whether two entries are read, and the end.
fn is_journal(alloc: Global, bytes: &[u8]) -> Result<bool, AllocError> {
    let Ok(((head, reader), rest)) = JournalReader::begin(alloc, bytes)? else {
        return Ok(false);
    };
    let mut reader = reader;
    let rest = behind_entry(alloc, &mut reader, rest)?;
    let rest = behind_entry(alloc, &mut reader, rest)?;
    match reader.next(alloc, rest)? {
        Ok((Step::End, rest)) => Ok(head.room == 64 && rest.is_empty()),
        _ => Ok(false),
    }
}

#[test]
fn words_are_written_as_by_hand(rt: HostRuntime) -> Result<(), Fail> {
    let mut out = Vec::new(rt.alloc());
    write_words(&mut out)?;
    assert!(rt; out.as_slice() == WORDS.as_slice());
    Ok(())
}

#[test]
fn a_digest_is_written_as_it_is(rt: HostRuntime) -> Result<(), Fail> {
    let mut out = Vec::new(rt.alloc());
    write_digest(&mut out, &[7; 32])?;
    assert!(rt; out.as_slice() == [7; 32].as_slice());
    Ok(())
}

#[test]
fn words_are_read_as_by_hand(rt: HostRuntime) -> Result<(), Fail> {
    assert!(rt; are_read(&WORDS) == Ok(true));
    assert!(rt; read_small(&[172, 2]).is_ok());
    assert!(rt; read_tiny(&[63]).is_ok());
    assert!(rt; read_digest(&[7; 32]).is_ok());
    Ok(())
}

#[test]
fn entries_are_read_and_written_as_by_hand(rt: HostRuntime) -> Result<(), Fail> {
    assert!(rt; is_entry(rt.alloc(), &TAKE)?);
    assert!(rt; is_entry(rt.alloc(), &CLOSE)?);
    assert!(rt; is_entry(rt.alloc(), &REVOKE)?);
    assert!(rt; is_entry(rt.alloc(), &OPEN)?);
    assert!(rt; is_entry(rt.alloc(), &RELOAD)?);
    Ok(())
}

#[test]
fn a_journal_is_written_and_read_as_by_hand(rt: HostRuntime) -> Result<(), Fail> {
    let mut out = Vec::new(rt.alloc());
    assert!(rt; write_journal(rt.alloc(), &mut out)?);
    assert!(rt; out.as_slice() == JOURNAL.as_slice());
    assert!(rt; is_journal(rt.alloc(), &JOURNAL)?);
    Ok(())
}

#[test]
fn laws_do_nothing(_rt: HostRuntime) -> Result<(), Fail> {
    law_written_words_are_read();
    law_read_words_are_written();
    law_written_entries_are_read();
    law_read_entries_are_written();
    law_written_journals_are_read();
    law_read_journals_are_written();
    law_cut_journals_are_read_as_cut();
    law_blocks_end_where_they_are_full();
    Ok(())
}
