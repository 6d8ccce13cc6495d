//! A journal of three entries, whose digests were made by another program (`hashlib` of Python), and lines that don't
//! belong to it.

use journal::{Chain, Head, read_entry, read_entry_line, write_end, write_entry_line, write_head};
use sequences::Sequence;
use std::alloc::{AllocError, Global};
use std::test::*;

// The SHA-256 of "a policy".
const POLICY: [u8; 32] = [
    27, 85, 21, 135, 5, 150, 34, 240, 214, 47, 250, 138, 55, 18, 7, 16, 74, 49, 198, 213, 155, 190,
    45, 101, 99, 197, 25, 158, 81, 217, 242, 103,
];

const ENTRIES: [&str; 3] = [
    " stop 1 accepted 0",
    " grant 1 agent 1 1 accepted 0",
    " finish 1 0 accepted 2 signal 1 1 0 release 1 0",
];

const HEAD: &str =
    "journal 1 65536 6 1 1b551587059622f0d62ffa8a371207104a31c6d59bbe2d6563c5199e51d9f267 679524639720d452a5a23b4e2586f9350756a495796ceef451bca1034e3bcdd1";

const LINES: [&str; 3] = [
    "7 stop 1 accepted 0 02982801a14302bcdc78989c73bf25acbe89fe8b4716429d9b03e69de4422e1e",
    "8 grant 1 agent 1 1 accepted 0 56a0ef7cf7c6a6e5916b0808257a173479a8dff646dec68492a50f8df1a78bb5",
    "9 finish 1 0 accepted 2 signal 1 1 0 release 1 0 c5f05eb7688743dde7e9d286a5b1909d378d6b74b111aba4ea9a1f01cbdfb05d",
];

const END: &str = "end 9 1581f6020ec4335c1a798cabe9c381252b38dfa1a74f238e88d99bccda1e4608";

// The head of the journal.
fn head(alloc: Global) -> Result<Head, AllocError> {
    let mut policies = Sequence::new(alloc);
    policies.push(POLICY)?;
    Ok(Head {
        capacity: 65536,
        before: 6,
        policies,
    })
}

// The journal's lines, one behind the other.
fn written(alloc: Global, head: &Head) -> Result<String, AllocError> {
    let mut out = String::new(alloc);
    let mut chain = write_head(&mut out, alloc, head)?;
    out.push_str("\n")?;
    for text in ENTRIES {
        if let Some(entry) = read_entry(alloc, text.as_bytes())? {
            if chain.number < 1000 {
                chain = write_entry_line(&mut out, alloc, &chain, &entry)?;
            }
        }
        out.push_str("\n")?;
    }
    write_end(&mut out, alloc, &chain)?;
    out.push_str("\n")?;
    Ok(out)
}

// The journal as another program wrote it.
fn expected(alloc: Global) -> Result<String, AllocError> {
    let mut out = String::new(alloc);
    writeln!(out, "{HEAD}")?;
    for line in LINES {
        writeln!(out, "{line}")?;
    }
    writeln!(out, "{END}")?;
    Ok(out)
}

// Where the journal stands behind its head.
fn begun(alloc: Global) -> Result<Chain, AllocError> {
    let mut out = String::new(alloc);
    write_head(&mut out, alloc, &head(alloc)?)
}

// Whether a line is that of the journal's first entry.
fn is_first(alloc: Global, line: &[u8]) -> Result<bool, AllocError> {
    let chain = begun(alloc)?;
    if chain.number < 1000 {
        Ok(read_entry_line(alloc, &chain, line)?.is_some())
    } else {
        Ok(false)
    }
}

// How many lines that differ in one byte from the journal's first are read.
fn changed_lines(alloc: Global) -> Result<usize, AllocError> {
    let mut read: usize = 0;
    for line in LINES.get(0) {
        for place in 0..line.len() {
            let mut bytes = Vec::new(alloc);
            bytes.extend_from_slice(line.as_bytes())?;
            if let Some(byte) = bytes.as_mut_slice().get_mut(place) {
                *byte ^= 1;
            }
            if is_first(alloc, bytes.as_slice())? {
                read = read.saturating_add(1);
            }
        }
    }
    Ok(read)
}

#[test]
fn a_journal_is_written_as_another_program_writes_it(rt: HostRuntime) -> Result<(), Fail> {
    let head = head(rt.alloc())?;
    assert_eq!(rt;
        written(rt.alloc(), &head)?.as_str(),
        expected(rt.alloc())?.as_str()
    );
    Ok(())
}

#[test]
fn only_the_line_behind_the_head_is_read(rt: HostRuntime) -> Result<(), Fail> {
    let alloc = rt.alloc();
    assert!(rt; is_first(alloc, LINES[0].as_bytes())?);
    assert!(rt; !is_first(alloc, LINES[1].as_bytes())?);
    assert!(rt; !is_first(alloc, LINES[2].as_bytes())?);
    assert!(rt; !is_first(alloc, HEAD.as_bytes())?);
    assert!(rt; !is_first(alloc, END.as_bytes())?);
    assert!(rt; !is_first(alloc, ENTRIES[0].as_bytes())?);
    Ok(())
}

#[test]
fn no_line_with_a_byte_changed_is_read(rt: HostRuntime) -> Result<(), Fail> {
    assert_eq!(rt; changed_lines(rt.alloc())?, 0);
    Ok(())
}
