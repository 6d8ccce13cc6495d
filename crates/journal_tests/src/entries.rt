//! Texts of entries, each read and written again, and texts that are no entry's.

use journal::{read_entry, write_entry};
use std::alloc::{AllocError, Global};
use std::test::*;

const ENTRIES: [&str; 36] = [
    " open 1 1 64 opened 1 0",
    " open 4294967295 4294967295 18446744073709551615 opened 18446744073709551615 0",
    " grant 1 agent 1 1 accepted 0",
    " grant 1 region 2 6 accepted 0",
    " revoke 2 signal 18446744073709551615 24 accepted 0",
    " revoke 2 kernel 1 255 accepted 0",
    " stop 3 accepted 1 release 3 0",
    " close 3 accepted 0",
    " close 18446744073709551615 accepted 2 release 18446744073709551615 0 release 18446744073709551615 7",
    " run 1 0 ran 0 3 1 write 4294967296 5a5a5a5a",
    " run 1 0 faulted 1 0 A3 at 1 2 9 global 18446744073709551615 2 signal 1 1 0 release 1 0",
    " run 1 0 faulted 1 0 A7 at 0 0 12 group 4294967295 1 release 1 0",
    " run 1 0 faulted 1 0 A5 at 0 0 12 nowhere 1 release 1 0",
    " run 1 0 done 0",
    " poll 1 4 pending 01000 0",
    " poll 1 4 ready 11111 0",
    " poll 1 4 failed 1 4 B1 whole 1 release 1 4",
    " finish 1 0 accepted 2 signal 1 1 0 release 1 0",
    " write 1 4294967296  accepted 1 write 4294967296 ",
    " write 1 4294967296 00ff10 accepted 1 write 4294967296 00ff10",
    " signal 1 3 store -9223372036854775808 changed 0 1 signal 3 0 -9223372036854775808",
    " signal 1 3 add 9223372036854775807 changed 0 1 signal 3 0 9223372036854775807",
    " signal 1 3 subtract 1 changed 0 1 signal 3 0 -1",
    " signal 1 3 and 6 changed 0 1 signal 3 -1 6",
    " signal 1 3 or 1 changed 0 1 signal 3 6 7",
    " signal 1 3 xor -1 changed 0 1 signal 3 7 -8",
    " signal 1 3 exchange 5 changed -8 1 signal 3 -8 5",
    " signal 1 3 cas 5 6 changed 5 1 signal 3 5 6",
    " reload 0 0 accepted 0",
    " reload 2 anyone each region 6 client 2 one kernel 1 32 1 client 1 each agent 1 accepted 0",
    " take 1 0 04140080000000000000000000000000000000000100000004000000000000005a00000000000000000000000000000000000000000000000100000000000000 launched 0",
    " take 1 0 04140080000000000000000000000000000000000100000004000000000000005a00000000000000000000000000000000000000000000000100000000000000 denied 1 0 L10 whole 0",
    " take 1 0 04140080000000000000000000000000000000000100000004000000000000005a00000000000000000000000000000000000000000000000100000000000000 waiting barrier 0",
    " take 1 0 04140080000000000000000000000000000000000100000004000000000000005a00000000000000000000000000000000000000000000000100000000000000 waiting active 0",
    " take 1 0 04140080000000000000000000000000000000000100000004000000000000005a00000000000000000000000000000000000000000000000100000000000000 waiting slots 0",
    " reload 0 1 anyone each signal 8 accepted 0",
];

const NO_ENTRIES: [&str; 25] = [
    "",
    " ",
    "open 1 1 64 opened 1 0",
    " open 1 1 64 opened 1",
    " open 1 1 64 opened 1 0 ",
    " open 1 1 64 opened 1 0 0",
    " open 1  1 64 opened 1 0",
    " open 1 1 opened 1 0",
    " open 4294967296 1 64 opened 1 0",
    " open 1 1 18446744073709551616 opened 1 0",
    " open -1 1 64 opened 1 0",
    " Open 1 1 64 opened 1 0",
    " close accepted 0",
    " close 3 0 accepted 0",
    " grant 1 agent 1 256 accepted 0",
    " grant 1 object 1 1 accepted 0",
    " run 1 0 ran 0 3 2 write 4294967296 5a5a5a5a",
    " run 1 0 ran 0 3 1 write 4294967296 5a5a5a5",
    " run 1 0 ran 0 3 1 write 4294967296 5A5A5A5A",
    " run 1 0 faulted 1 0 A8 whole 0",
    " poll 1 4 ready 1111 0",
    " poll 1 4 ready 111111 0",
    " poll 1 4 ready 11112 0",
    " signal 1 3 store 9223372036854775808 changed 0 0",
    " take 1 0 0004140080000000000000000000000000000000000100000004000000000000005a00000000000000000000000000000000000000000000000100000000000000 launched 0",
];

// Whether a text is an entry's that is written the same.
fn comes_back(alloc: Global, text: &str) -> Result<bool, AllocError> {
    let Some(entry) = read_entry(alloc, text.as_bytes())? else {
        return Ok(false);
    };
    let mut written = String::new(alloc);
    write_entry(&mut written, &entry)?;
    Ok(written.as_str() == text)
}

// How many of some texts are an entry's that is written the same.
fn coming_back(alloc: Global, texts: &[&str]) -> Result<usize, AllocError> {
    let mut count: usize = 0;
    for text in texts {
        if comes_back(alloc, text)? {
            count = count.saturating_add(1);
        }
    }
    Ok(count)
}

// How many of some texts are an entry's.
fn read_of(alloc: Global, texts: &[&str]) -> Result<usize, AllocError> {
    let mut count: usize = 0;
    for text in texts {
        if read_entry(alloc, text.as_bytes())?.is_some() {
            count = count.saturating_add(1);
        }
    }
    Ok(count)
}

#[test]
fn each_text_of_an_entry_is_read_and_written_again(rt: HostRuntime) -> Result<(), Fail> {
    assert_eq!(rt; coming_back(rt.alloc(), &ENTRIES)?, 36);
    Ok(())
}

#[test]
fn no_other_text_is_read(rt: HostRuntime) -> Result<(), Fail> {
    assert_eq!(rt; read_of(rt.alloc(), &NO_ENTRIES)?, 0);
    Ok(())
}
