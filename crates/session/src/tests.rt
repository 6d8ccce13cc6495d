//! Records as bytes, calls with what they are answered, and files with what is wrong with them: all written by hand.

use crate::{
    Call, Cause, Command, Digest, Entry, Fault, Head, Limit, Limits, NewQueue, Pace, Place, Places,
    Request, Table, Unread, Verdict, client_of_token, client_of_user, command_of, keep_line,
    limits_of, request_of, text_of_limit,
};
use std::alloc::Global;
use std::test::*;

// A head that is cut.
const SHORT: [u8; 63] = [0; 63];

// A record without bytes behind it: what it asks, the tag 9, a status, and the low bytes of its first two numbers.
fn record(asks: u8, status: u8, first: u8, second: u8) -> [u8; 64] {
    let mut record = [0; 64];
    record[0] = asks;
    record[4] = 9;
    record[8] = status;
    record[16] = first;
    record[24] = second;
    record
}

// What a client asks by a record, if it is one.
fn asked(record: &[u8]) -> Option<Request> {
    request_of(&Head::read(record)?)
}

// What an administrator asks by a record, if it is one.
fn commanded(record: &[u8]) -> Option<Command> {
    command_of(&Head::read(record)?)
}

#[test]
fn records_are_read(rt: HostRuntime) -> Result<(), Fail> {
    assert!(rt; asked(&record(2, 0, 1, 4)) == Some(Request::Queue(NewQueue { agent: 1, size: 4 })));
    assert!(rt; asked(&record(3, 0, 7, 0)) == Some(Request::Close(7)));
    assert!(rt; commanded(&record(41, 0, 3, 0)) == Some(Command::Drop(3)));
    Ok(())
}

#[test]
fn other_records_are_none(rt: HostRuntime) -> Result<(), Fail> {
    // a number that it doesn't use, what an administrator asks, a status, and a head that is cut
    assert!(rt; asked(&record(3, 0, 7, 1)).is_none());
    assert!(rt; asked(&record(41, 0, 3, 0)).is_none());
    assert!(rt; asked(&record(3, 1, 7, 0)).is_none());
    assert!(rt; Head::read(&SHORT).is_none());
    Ok(())
}

#[test]
fn a_third_in_a_window_of_two_is_too_many(rt: HostRuntime) -> Result<(), Fail> {
    let mut pace = Pace {
        begun: 100,
        count: 1,
    };
    assert!(rt; pace.counts(105, 10, 2));
    assert!(rt; !pace.counts(109, 10, 2));
    assert!(rt; pace.counts(110, 10, 2));
    Ok(())
}

// Two users, a session each: what each call is answered.
const CALLS: [(Call, Verdict); 29] = [
    // who has no line may not come; session 1 is the first that does
    (Call::Come { user: 2003, now: 0 }, Verdict::Unknown),
    (Call::Come { user: 2001, now: 0 }, Verdict::Make),
    // nothing before it says who it is, once and in 2 s
    (
        Call::Open {
            session: 1,
            queue: 1,
        },
        Verdict::NotNow,
    ),
    (
        Call::Greet {
            session: 1,
            client: 1,
            now: 2_000_000,
        },
        Verdict::TooLate,
    ),
    (
        Call::Greet {
            session: 1,
            client: 1,
            now: 1_999_999,
        },
        Verdict::Make,
    ),
    (
        Call::Greet {
            session: 1,
            client: 2,
            now: 1_999_999,
        },
        Verdict::NotNow,
    ),
    (
        Call::Open {
            session: 1,
            queue: 1,
        },
        Verdict::Make,
    ),
    (
        Call::Come {
            user: 2002,
            now: 10,
        },
        Verdict::Make,
    ),
    (
        Call::Greet {
            session: 2,
            client: 2,
            now: 20,
        },
        Verdict::Make,
    ),
    // another's queue is closed by nobody else, and its number is given once
    (
        Call::Close {
            session: 2,
            queue: 1,
        },
        Verdict::NotYours,
    ),
    (Call::Closed { queue: 1 }, Verdict::NotYours),
    (
        Call::Open {
            session: 2,
            queue: 1,
        },
        Verdict::NotYours,
    ),
    (
        Call::Open {
            session: 2,
            queue: 2,
        },
        Verdict::Make,
    ),
    (
        Call::Open {
            session: 2,
            queue: 3,
        },
        Verdict::Quota,
    ),
    (
        Call::Close {
            session: 2,
            queue: 2,
        },
        Verdict::Make,
    ),
    (
        Call::Open {
            session: 2,
            queue: 3,
        },
        Verdict::Make,
    ),
    // 64 MB of mirrors a client
    (
        Call::Mirror {
            session: 1,
            region: 1,
            bytes: 67_108_863,
        },
        Verdict::Make,
    ),
    (
        Call::Mirror {
            session: 1,
            region: 2,
            bytes: 2,
        },
        Verdict::Quota,
    ),
    (
        Call::Mirror {
            session: 1,
            region: 1,
            bytes: 1,
        },
        Verdict::NotNow,
    ),
    (
        Call::Mirror {
            session: 1,
            region: 2,
            bytes: 1,
        },
        Verdict::Make,
    ),
    // one answer waits at most, and nothing is looked at while one does
    (Call::Unsent { session: 2 }, Verdict::Make),
    (Call::Unsent { session: 2 }, Verdict::Quota),
    (
        Call::Message {
            session: 2,
            now: 30,
        },
        Verdict::NotNow,
    ),
    (Call::Sent { session: 2 }, Verdict::Make),
    (
        Call::Message {
            session: 2,
            now: 40,
        },
        Verdict::Make,
    ),
    (
        Call::Message {
            session: 2,
            now: 50,
        },
        Verdict::TooOften,
    ),
    (
        Call::Message {
            session: 2,
            now: 10_030,
        },
        Verdict::Make,
    ),
    // what is gone does nothing more
    (Call::Gone { session: 1 }, Verdict::Make),
    (
        Call::Open {
            session: 1,
            queue: 4,
        },
        Verdict::NotNow,
    ),
];

// Limits with one queue a client, and two messages in a window.
fn small() -> Limits {
    let mut limits = Limits::usual();
    limits.set(Limit::Queues, 1);
    limits.set(Limit::Messages, 2);
    limits
}

// A table for two users.
fn table(alloc: Global) -> Result<Table, Fail> {
    let places = Places {
        sessions: 4,
        queues: 4,
        mirrors: 4,
    };
    Ok(Table::new(alloc, small(), &[2001, 2002], places)?)
}

// How many calls are answered as they are to be, until one isn't.
fn answered(table: &mut Table, calls: &[(Call, Verdict)]) -> usize {
    for (place, (call, verdict)) in calls.iter().enumerate() {
        if table.make(call) != *verdict {
            return place;
        }
    }
    calls.len()
}

#[test]
fn calls_are_answered(rt: HostRuntime) -> Result<(), Fail> {
    let mut table = table(rt.alloc())?;
    assert_eq!(rt; answered(&mut table, &CALLS), 29);
    Ok(())
}

#[test]
fn a_gone_sessions_queue_is_closed(rt: HostRuntime) -> Result<(), Fail> {
    let mut table = table(rt.alloc())?;
    assert_eq!(rt; answered(&mut table, &CALLS), 29);
    assert_eq!(rt; table.due(), Some(1));
    assert!(rt; table.closed(1) == Verdict::Make);
    assert_eq!(rt; table.due(), None);
    Ok(())
}

// A file in which all is well.
const FILE: &str =
    "# who is who\n\nuser 2001 alice\n token\t72cd6e8422c407fb6d098690f1130b7ded7ec2f7f5e1d30bd9d521f015363793 bob\r\nlimit queues 6\n";

// Its token.
const DIGEST: Digest = Digest {
    first: 0x72cd6e8422c407fb,
    second: 0x6d098690f1130b7d,
    third: 0xed7ec2f7f5e1d30b,
    fourth: 0xd9d521f015363793,
};

// Files, and where what is wrong with them.
const WRONG: [(&str, u64, u64, u64, Cause); 11] = [
    ("user 1 a\nusers 2 b\n", 2, 1, 5, Cause::UnknownWord),
    ("user 1\n", 1, 7, 0, Cause::Missing),
    ("user 1 a b", 1, 10, 1, Cause::TooMuch),
    ("user 4294967296 a", 1, 6, 10, Cause::NoNumber),
    ("user -1 a", 1, 6, 2, Cause::NoNumber),
    ("token 72CD a", 1, 7, 4, Cause::NoDigest),
    ("limit queue 6", 1, 7, 5, Cause::UnknownLimit),
    ("limit queues six", 1, 14, 3, Cause::NoNumber),
    (
        "limit queues 65",
        1,
        14,
        2,
        Cause::OutOfBounds(Limit::Queues),
    ),
    ("user 1 a\n\nuser 01 b", 3, 6, 2, Cause::Twice),
    ("limit queues 6\nlimit queues 7", 2, 7, 6, Cause::Twice),
];

// What the lines of a file say.
fn read_who(alloc: Global, file: &[u8]) -> Result<Vec<Entry>, Unread> {
    let mut entries = Vec::new(alloc);
    for (place, line) in file.split(|byte| *byte == b'\n').enumerate() {
        keep_line(&mut entries, (place as u64).saturating_add(1), line)?;
    }
    Ok(entries)
}

// Whether a file is refused for this word.
fn is_refused(alloc: Global, file: &str, fault: Fault) -> bool {
    match read_who(alloc, file.as_bytes()) {
        Ok(_) => false,
        Err(unread) => unread == Unread::Fault(fault),
    }
}

// How many files are refused as they are to be, until one isn't.
fn refused(alloc: Global, files: &[(&str, u64, u64, u64, Cause)]) -> usize {
    for (place, (file, line, column, length, cause)) in files.iter().enumerate() {
        let at = Place {
            line: *line,
            column: *column,
            length: *length,
        };
        let fault = Fault {
            place: at,
            cause: *cause,
        };
        if !is_refused(alloc, file, fault) {
            return place;
        }
    }
    files.len()
}

#[test]
fn wrong_files_are_refused(rt: HostRuntime) -> Result<(), Fail> {
    assert_eq!(rt; refused(rt.alloc(), &WRONG), 11);
    Ok(())
}

// What a file says of a user, a token and the queues.
fn says(entries: &[Entry]) -> bool {
    client_of_user(entries, 2001)
        == Some(Place {
            line: 3,
            column: 11,
            length: 5,
        })
        && client_of_token(entries, &DIGEST)
            == Some(Place {
                line: 4,
                column: 73,
                length: 3,
            })
        && client_of_user(entries, 2002).is_none()
        && limits_of(entries).queues == 6
        && limits_of(entries).sessions == 16
}

// Whether a file says that.
fn file_says(alloc: Global, file: &str) -> bool {
    match read_who(alloc, file.as_bytes()) {
        Ok(entries) => says(entries.as_slice()),
        Err(_) => false,
    }
}

#[test]
fn a_file_is_read(rt: HostRuntime) -> Result<(), Fail> {
    assert!(rt; file_says(rt.alloc(), FILE));
    Ok(())
}

#[test]
fn limits_are_printed(rt: HostRuntime) -> Result<(), Fail> {
    let text = text_of_limit(rt.alloc(), &Limits::usual(), Limit::Mirrors)?;
    assert_eq!(rt; text.as_str(), "limit mirrors 67108864\n");
    Ok(())
}
