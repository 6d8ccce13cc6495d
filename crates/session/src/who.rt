//! The file that says who is who, and what each may have.

ghost use Rattle.std.specs.Prelude.{◌≡◌, ◌+◌, ◌≤◌, ◌<◌, ◌^◌, ◌++◌, length, IfOk, MatchResult, Ok, string_bytes};
ghost use Rattle.session.specs.Lines.{word_behind, bytes_of_word};
ghost use Rattle.session.specs.Limits.{usual};
ghost use Rattle.session.specs.Who.{place_of, fault, kind_of, limit_among, all_limits, entry_of, three_words, same_digest, is_same, is_among, said, said_by, said_once, says_nothing, with_said, list_of, for_user, for_token, first_of, with_entry, limits_from, user_by, token_by, limit_by, bound_by, text_of_limit, IsTold};

use crate::limits::{ALL, Limit, Limits};
use crate::lines::{
    Digest, Word, bytes_of_word, decimal_of, digest_of, is_word, word_behind, word_from,
};
use std::alloc::Global;
use std::fmt::{self, Write};

/// Where a word of a file stands: its line and the column of its first byte, both from 1, and how many bytes it has.
#[derive(Clone, Copy, PartialEq, Eq)]
pub struct Place {
    pub line: u64,
    pub column: u64,
    pub length: u64,
}

/// What a line says, by its first word.
#[derive(Clone, Copy)]
pub enum Kind {
    User,
    Token,
    Limit,
}

/// What a line says.
#[derive(Clone, Copy)]
pub enum Entry {
    /// A user of the machine is the client that is named there.
    User(u32, Place),
    /// Who has the token of this digest is the client that is named there.
    Token(Digest, Place),
    /// A limit is this number.
    Limit(Limit, u64),
}

/// What is wrong with a word.
#[derive(Clone, Copy, PartialEq, Eq)]
pub enum Cause {
    /// A line begins with `user`, `token` or `limit`.
    UnknownWord,
    /// A line has three words.
    Missing,
    /// A line has no fourth word.
    TooMuch,
    /// It is no decimal number, or one that is too large.
    NoNumber,
    /// It isn't 64 hexadecimal digits, in lower case.
    NoDigest,
    /// There is no such limit.
    UnknownLimit,
    /// This limit can't be that number.
    OutOfBounds(Limit),
    /// An earlier line says it.
    Twice,
}

/// A word with which something is wrong.
#[derive(Clone, Copy, PartialEq, Eq)]
pub struct Fault {
    pub place: Place,
    pub cause: Cause,
}

/// Why a file wasn't read.
#[derive(Clone, Copy, PartialEq, Eq)]
pub enum Unread {
    /// Something is wrong with it.
    Fault(Fault),
    /// There was no memory for what it says.
    NoMemory,
}

// Where a word of a line stands.
fn place_of(number: u64, word: Word) -> Place
    requires { word.start + 1 < 2 ^ 64 }
    ensures { result ≡ place_of number word }
{
    Place {
        line: number,
        column: word.start as u64 + 1,
        length: word.length as u64,
    }
}

// What is wrong with a word of a line.
fn wrong_word(number: u64, word: Word, cause: Cause) -> Fault
    requires { word.start + 1 < 2 ^ 64 }
    ensures { result ≡ fault number word cause }
{
    Fault {
        place: place_of(number, word),
        cause,
    }
}

// Which kind of line it is, by its first word.
fn kind_of(word: &[u8]) -> Option<Kind>
    ensures { result ≡ kind_of word.now }
{
    if is_word(word, "user") {
        Some(Kind::User)
    } else if is_word(word, "token") {
        Some(Kind::Token)
    } else if is_word(word, "limit") {
        Some(Kind::Limit)
    } else {
        None
    }
}

// The limit of a name.
#[tactic(auto, unfolding(crate::specs::Who::limit_among))]
fn limit_among(limits: &[Limit], word: &[u8]) -> Option<Limit>
    ensures { result ≡ limit_among limits.now word.now }
{
    match limits {
        [] => None,
        [limit, rest @ ..] => {
            if is_word(word, limit.name()) {
                Some(*limit)
            } else {
                limit_among(rest, word)
            }
        }
    }
}

fn limit_named(word: &[u8]) -> Option<Limit>
    ensures { result ≡ limit_among all_limits word.now }
{
    limit_among(&ALL, word)
}

// A line of a user.
fn user_line(number: u64, key: Word, name: Word, user: Option<u64>) -> Result<Entry, Fault>
    requires key { key.start + 1 < 2 ^ 64 }
    requires name { name.start + 1 < 2 ^ 64 }
    ensures { result ≡ user_by number key name user }
{
    match user {
        None => Err(wrong_word(number, key, Cause::NoNumber)),
        Some(user) => {
            if user < 1 << 32 {
                Ok(Entry::User(user as u32, place_of(number, name)))
            } else {
                Err(wrong_word(number, key, Cause::NoNumber))
            }
        }
    }
}

// A line of a token.
fn token_line(number: u64, key: Word, name: Word, digest: Option<Digest>) -> Result<Entry, Fault>
    requires key { key.start + 1 < 2 ^ 64 }
    requires name { name.start + 1 < 2 ^ 64 }
    ensures { result ≡ token_by number key name digest }
{
    match digest {
        None => Err(wrong_word(number, key, Cause::NoDigest)),
        Some(digest) => Ok(Entry::Token(digest, place_of(number, name))),
    }
}

// A line of a limit that is known.
fn bound_line(number: u64, value: Word, limit: Limit, said: Option<u64>) -> Result<Entry, Fault>
    requires { value.start + 1 < 2 ^ 64 }
    ensures { result ≡ bound_by number value limit said }
{
    match said {
        None => Err(wrong_word(number, value, Cause::NoNumber)),
        Some(said) => {
            if limit.is_within(said) {
                Ok(Entry::Limit(limit, said))
            } else {
                Err(wrong_word(number, value, Cause::OutOfBounds(limit)))
            }
        }
    }
}

// A line of a limit.
fn limit_line(number: u64, line: &[u8], key: Word, value: Word) -> Result<Entry, Fault>
    requires key { key.start + key.length ≤ length line.now }
    requires value { value.start + value.length ≤ length line.now }
    ensures { result ≡ limit_by number line.now key value (limit_among all_limits (bytes_of_word line.now key)) }
{
    match limit_named(bytes_of_word(line, key)) {
        None => Err(wrong_word(number, key, Cause::UnknownLimit)),
        Some(limit) => bound_line(number, value, limit, decimal_of(bytes_of_word(line, value))),
    }
}

// A line of a kind.
fn entry_line(number: u64, line: &[u8], kind: Kind, key: Word, value: Word) -> Result<Entry, Fault>
    requires key { key.start + key.length ≤ length line.now }
    requires value { value.start + value.length ≤ length line.now }
    ensures { result ≡ entry_of number line.now kind key value }
{
    match kind {
        Kind::User => user_line(number, key, value, decimal_of(bytes_of_word(line, key))),
        Kind::Token => token_line(number, key, value, digest_of(bytes_of_word(line, key))),
        Kind::Limit => limit_line(number, line, key, value),
    }
}

// A line of a kind, if it has three words.
fn three_words(
    number: u64,
    line: &[u8],
    kind: Kind,
    second: Word,
    third: Word,
) -> Result<Entry, Fault>
    requires second { second.start + second.length ≤ length line.now }
    requires third { third.start + third.length ≤ length line.now }
    ensures { result ≡ three_words number line.now kind second third (word_behind line.now third) }
{
    if third.length == 0 {
        return Err(wrong_word(number, third, Cause::Missing));
    }
    let fourth = word_behind(line, third);
    if fourth.length == 0 {
        entry_line(number, line, kind, second, third)
    } else {
        Err(wrong_word(number, fourth, Cause::TooMuch))
    }
}

// Whether two digests are one.
fn same_digest(one: &Digest, other: &Digest) -> bool
    ensures { result ≡ same_digest one.now other.now }
{
    one.first == other.first
        && one.second == other.second
        && one.third == other.third
        && one.fourth == other.fourth
}

// Whether two entries are of one user, of one token, or of one limit.
fn is_same(one: &Entry, other: &Entry) -> bool
    ensures { result ≡ is_same one.now other.now }
{
    match one {
        Entry::User(user, _) => match other {
            Entry::User(other, _) => *user == *other,
            Entry::Token(_, _) => false,
            Entry::Limit(_, _) => false,
        },
        Entry::Token(digest, _) => match other {
            Entry::User(_, _) => false,
            Entry::Token(other, _) => same_digest(digest, other),
            Entry::Limit(_, _) => false,
        },
        Entry::Limit(limit, _) => match other {
            Entry::User(_, _) => false,
            Entry::Token(_, _) => false,
            Entry::Limit(other, _) => is_word(limit.name().as_bytes(), other.name()),
        },
    }
}

// Whether an entry is among others, by what it is of.
fn is_among(entries: &[Entry], more: &Entry) -> bool
    ensures { result ≡ is_among entries.now more.now }
{
    entries.iter().any(|entry| is_same(entry, more))
}

// An entry that no earlier line has.
fn said_once(
    entries: &[Entry],
    number: u64,
    key: Word,
    read: Result<Entry, Fault>,
) -> Result<Option<Entry>, Fault>
    requires { key.start + 1 < 2 ^ 64 }
    ensures { result ≡ said_once entries.now number key read }
{
    match read {
        Err(wrong) => Err(wrong),
        Ok(more) => {
            if is_among(entries, &more) {
                Err(wrong_word(number, key, Cause::Twice))
            } else {
                Ok(Some(more))
            }
        }
    }
}

// What a line says, by its first word.
fn said_by(
    entries: &[Entry],
    number: u64,
    line: &[u8],
    first: Word,
    kind: Option<Kind>,
) -> Result<Option<Entry>, Fault>
    requires { first.start + first.length ≤ length line.now }
    ensures { result ≡ said_by entries.now number line.now first kind }
{
    match kind {
        None => Err(wrong_word(number, first, Cause::UnknownWord)),
        Some(kind) => {
            let second = word_behind(line, first);
            let third = word_behind(line, second);
            said_once(
                entries,
                number,
                second,
                three_words(number, line, kind, second, third),
            )
        }
    }
}

// Whether a line says nothing, by its first word.
fn says_nothing(word: &[u8]) -> bool
    ensures { result ≡ says_nothing word.now }
{
    match word {
        [] => true,
        [byte, ..] => *byte == b'#',
    }
}

// What a line says, behind the entries of those before it.
fn said(entries: &[Entry], number: u64, line: &[u8]) -> Result<Option<Entry>, Fault>
    ensures { result ≡ said entries.now number line.now }
{
    let first = word_from(line, 0);
    let word = bytes_of_word(line, first);
    if says_nothing(word) {
        Ok(None)
    } else {
        said_by(entries, number, line, first, kind_of(word))
    }
}

// One more entry.
fn keep(entries: &mut Vec<Entry>, more: Option<Entry>) -> Result<(), Unread>
    ensures { MatchResult result (λ _. entries.new.items ≡ entries.old.items ++ list_of more) (λ unread. unread ≡ Unread.NoMemory) }
{
    match more {
        None => Ok(()),
        Some(entry) => match entries.push(entry) {
            Ok(()) => Ok(()),
            Err(_) => Err(Unread::NoMemory),
        },
    }
}

/// What a line of this number says becomes an entry behind those of the lines before it, or what is wrong with its first wrong word
/// is told. It takes memory for the entry alone.
pub fn keep_line(entries: &mut Vec<Entry>, number: u64, line: &[u8]) -> Result<(), Unread>
    ensures { MatchResult result (λ _. with_said entries.old.items (said entries.old.items number line.now) ≡ Ok entries.new.items) (λ unread. IsTold unread (with_said entries.old.items (said entries.old.items number line.now))) }
{
    match said(entries.as_slice(), number, line) {
        Err(wrong) => Err(Unread::Fault(wrong)),
        Ok(more) => keep(entries, more),
    }
}

// Where the client stands that an entry names for a user.
fn for_user(user: u32, entry: &Entry) -> Option<Place>
    ensures { result ≡ for_user user entry.now }
{
    match entry {
        Entry::User(of, place) => { if *of == user { Some(*place) } else { None } }
        Entry::Token(_, _) => None,
        Entry::Limit(_, _) => None,
    }
}

// Where the client stands that an entry names for who has a token of this digest.
fn for_token(digest: &Digest, entry: &Entry) -> Option<Place>
    ensures { result ≡ for_token digest.now entry.now }
{
    match entry {
        Entry::User(_, _) => None,
        Entry::Token(of, place) => {
            if same_digest(of, digest) {
                Some(*place)
            } else {
                None
            }
        }
        Entry::Limit(_, _) => None,
    }
}

/// Where the client of a user of the machine is named.
pub fn client_of_user(entries: &[Entry], user: u32) -> Option<Place>
    ensures { result ≡ first_of (for_user user) entries.now }
{
    for entry in entries {
        match for_user(user, entry) {
            None => {}
            Some(place) => return Some(place),
        }
    }
    None
}

/// Where the client is named who has a token of this digest.
pub fn client_of_token(entries: &[Entry], digest: &Digest) -> Option<Place>
    ensures { result ≡ first_of (for_token digest.now) entries.now }
{
    for entry in entries {
        match for_token(digest, entry) {
            None => {}
            Some(place) => return Some(place),
        }
    }
    None
}

// Limits, with what an entry says of them.
fn with_entry(mut limits: Limits, entry: &Entry) -> Limits
    ensures { result ≡ with_entry limits entry.now }
{
    match entry {
        Entry::User(_, _) => {}
        Entry::Token(_, _) => {}
        Entry::Limit(limit, number) => limits.set(*limit, *number),
    }
    limits
}

/// The limits, as the entries say them.
pub fn limits_of(entries: &[Entry]) -> Limits
    ensures { result ≡ limits_from usual entries.now }
{
    let mut limits = Limits::usual();
    for entry in entries {
        limits = with_entry(limits, entry);
    }
    limits
}

/// The line that says what a limit is.
pub fn text_of_limit(alloc: Global, limits: &Limits, limit: Limit) -> Result<String, fmt::Error>
    ensures { IfOk result (λ text. string_bytes text ≡ text_of_limit limits.now limit) }
{
    let mut text = String::new(alloc);
    writeln!(text, "limit {} {}", limit.name(), limits.of(limit))?;
    Ok(text)
}
