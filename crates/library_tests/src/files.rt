//! How runs end early.

use crate::studio::POLICY;
use commands::{Status, check_policy, run_policy};
use script::Noted;
use std::alloc::AllocError;
use std::io;
use std::test::*;

/// A writer that takes nothing, as a full disk does.
#[derive(Drop)]
struct Full;

impl io::Write for Full {
    fn write(&mut self, _: &[u8]) -> io::Result<usize> {
        Err(io::Error::from(AllocError))
    }

    fn flush(&mut self) -> io::Result<()> {
        Ok(())
    }
}

/// A writer that takes all bytes and can pass none on, as a pipe that nobody reads any more.
#[derive(Drop)]
struct Stuck;

impl io::Write for Stuck {
    fn write(&mut self, bytes: &[u8]) -> io::Result<usize> {
        Ok(bytes.len())
    }

    fn flush(&mut self) -> io::Result<()> {
        Err(io::Error::from(AllocError))
    }
}

/// A reader of some bytes that fails after them, as a broken pipe does.
#[derive(Drop)]
struct Broken<'a> {
    bytes: &'a [u8],
}

impl<'a> io::Read for Broken<'a> {
    fn read(&mut self, buffer: &mut [u8]) -> io::Result<usize> {
        if self.bytes.is_empty() {
            return Err(io::Error::from(AllocError));
        }
        self.bytes.read(buffer)
    }
}

#[test]
fn a_writer_that_fails_is_told(rt: HostRuntime) {
    let mut err = Vec::new(rt.alloc());
    let status = check_policy(
        rt.alloc(),
        POLICY.as_bytes(),
        &mut Noted::new(Full),
        &mut Noted::new(&mut err),
    );
    assert_eq!(rt; status, Status::Failed);
    assert!(rt; err.as_slice() == b"write fault\n".as_slice());
    let mut err = Vec::new(rt.alloc());
    let mut script = "audit\n".as_bytes();
    let status = run_policy(
        rt.alloc(),
        POLICY.as_bytes(),
        10,
        &mut Noted::new(&mut script),
        &mut Noted::new(Full),
        &mut Noted::new(&mut err),
    );
    assert_eq!(rt; status, Status::Failed);
    assert!(rt; err.as_slice() == b"write fault\n".as_slice());
}

#[test]
fn a_writer_that_passes_nothing_on_is_told(rt: HostRuntime) {
    let mut err = Vec::new(rt.alloc());
    let status = check_policy(
        rt.alloc(),
        POLICY.as_bytes(),
        &mut Noted::new(Stuck),
        &mut Noted::new(&mut err),
    );
    assert_eq!(rt; status, Status::Failed);
    assert!(rt; err.as_slice() == b"write fault\n".as_slice());
    let mut err = Vec::new(rt.alloc());
    let mut script = "audit\n".as_bytes();
    let status = run_policy(
        rt.alloc(),
        POLICY.as_bytes(),
        10,
        &mut Noted::new(&mut script),
        &mut Noted::new(Stuck),
        &mut Noted::new(&mut err),
    );
    assert_eq!(rt; status, Status::Failed);
    assert!(rt; err.as_slice() == b"write fault\n".as_slice());
}

#[test]
fn a_writer_of_faults_that_fails_is_told_by_the_status(rt: HostRuntime) {
    let mut out = Vec::new(rt.alloc());
    let status = check_policy(
        rt.alloc(),
        "clients".as_bytes(),
        &mut Noted::new(&mut out),
        &mut Noted::new(Full),
    );
    assert_eq!(rt; status, Status::Failed);
    assert!(rt; out.as_slice().is_empty());
}

#[test]
fn a_reader_that_fails_is_told_behind_the_replies(rt: HostRuntime) {
    let mut out = Vec::new(rt.alloc());
    let mut err = Vec::new(rt.alloc());
    let mut script = Broken {
        bytes: "audit\naud".as_bytes(),
    };
    let status = run_policy(
        rt.alloc(),
        POLICY.as_bytes(),
        10,
        &mut Noted::new(&mut script),
        &mut Noted::new(&mut out),
        &mut Noted::new(&mut err),
    );
    assert_eq!(rt; status, Status::Failed);
    assert!(rt; out.as_slice() == b"audit 0\n".as_slice());
    assert!(rt; err.as_slice() == b"read fault\n".as_slice());
}
