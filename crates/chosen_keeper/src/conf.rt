ghost use Rattle.std.specs.Prelude.{◌≡◌, ◌≤◌, ◌+◌, length, take, drop, IfOk, List, ℕ};
ghost use Rattle.std.specs.List.{position_or_len};
ghost use Rattle.chosen_keeper.specs.Conf as spec;

use desk_io::{Blanks, OutOfMemory, Run, Text, runs_between};
use desk_time::read_number;
use std::alloc::Global;

/// What a word after the first sets, as `host=127.0.0.1`.
#[derive(Clone, Copy, Debug, PartialEq, Eq)]
pub enum Key {
    /// The server's address: `localhost`, or four numbers with dots.
    Host,
    /// The server's port, from 1 to 65535.
    Port,
    /// The database.
    Dbname,
    /// The user.
    User,
    /// The file whose first line is the password. Without it the server asks for none.
    Passfile,
    /// `required` if the server must have a synchronous standby, as it must without this word, or `none`.
    Standby,
    /// `yes` if the server may be another machine, to which nothing is encrypted, or `no`.
    Insecure,
}

const KEYS: [Key; 7] = [
    Key::Host,
    Key::Port,
    Key::Dbname,
    Key::User,
    Key::Passfile,
    Key::Standby,
    Key::Insecure,
];

impl Key {
    /// Returns the text before the `=`.
    pub fn name(self) -> &'static str
        ensures { result.now ≡ spec.name_of self }
    {
        match self {
            Key::Host => "host",
            Key::Port => "port",
            Key::Dbname => "dbname",
            Key::User => "user",
            Key::Passfile => "passfile",
            Key::Standby => "standby",
            Key::Insecure => "insecure",
        }
    }

    // Whether a server is named without this word.
    fn is_optional(self) -> bool
        ensures { result ≡ spec.is_optional self }
    {
        match self {
            Key::Host | Key::Port | Key::Dbname | Key::User => false,
            Key::Passfile | Key::Standby | Key::Insecure => true,
        }
    }
}

/// A server at which rows are kept.
#[derive(Debug, Drop)]
pub struct Conf {
    pub host: Text,
    pub port: u16,
    pub database: Text,
    pub user: Text,
    /// The file of the password, or an empty name.
    pub passfile: Text,
    /// Whether the server must have a synchronous standby.
    pub standby: bool,
}

/// Why a text names no server.
#[derive(Clone, Copy, Debug, PartialEq, Eq)]
pub enum ConfFault {
    /// The first word isn't `postgresql`.
    NotPostgresql,
    /// So many words from the end, one sets nothing that is known.
    Unknown(u64),
    /// So many words from the end, one sets what a later one sets too.
    Twice(u64),
    /// No word sets this.
    Missing(Key),
    /// The value of this isn't one.
    BadValue(Key),
    /// The host is another machine, and `insecure=yes` is missing.
    Remote,
}

// The place of the first `=`, or the length if there is none.
fn equals_at(word: &[u8]) -> usize
    ensures value { result ≡ position_or_len spec.is_equals word.now }
    ensures within { result ≤ length word.now }
{
    for (i, b) in word.iter().enumerate() {
        if *b == b'=' {
            return i;
        }
    }
    word.len()
}

// The bytes before the first `=`.
fn front(word: &[u8]) -> &[u8]
    ensures { result.now ≡ spec.front word.now }
{
    &word[..equals_at(word)]
}

// The bytes after the first `=`.
fn value(word: &[u8]) -> &[u8]
    ensures { result.now ≡ spec.value word.now }
{
    let end = equals_at(word);
    if end < word.len() {
        &word[end + 1..]
    } else {
        &[]
    }
}

// Whether a word sets this.
fn sets(word: &[u8], key: Key) -> bool
    ensures { result ≡ spec.sets key word.now }
{
    key.name().as_bytes() == front(word)
}

// Whether a word sets something that is known.
fn is_among(keys: &[Key], word: &[u8]) -> bool
    ensures { result ≡ spec.is_among keys.now word.now }
{
    for key in keys {
        if sets(word, *key) {
            return true;
        }
    }
    false
}

fn is_known(word: &[u8]) -> bool
    ensures { result ≡ spec.is_known word.now }
{
    is_among(&KEYS, word)
}

// Whether one of the words sets what this one sets.
fn is_again(word: &[u8], others: &[Run<'_>]) -> bool
    ensures { result ≡ spec.is_again word.now others.now }
{
    for other in others {
        if front(other.bytes()) == front(word) {
            return true;
        }
    }
    false
}

// The first word that is unknown, or sets what a later one sets too.
fn word_fault(words: &[Run<'_>]) -> Option<ConfFault>
    ensures { result ≡ spec.word_fault words.now }
{
    let mut left = words;
    while let [word, rest @ ..] = left {
        if !is_known(word.bytes()) {
            return Some(ConfFault::Unknown(rest.len() as u64));
        }
        if is_again(word.bytes(), rest) {
            return Some(ConfFault::Twice(rest.len() as u64));
        }
        left = rest;
    }
    None
}

// Whether one of the words sets this.
fn is_set(words: &[Run<'_>], key: Key) -> bool
    ensures { result ≡ spec.is_set key words.now }
{
    for word in words {
        if sets(word.bytes(), key) {
            return true;
        }
    }
    false
}

// What the first word that sets this sets it to; nothing if no word does.
fn set_to<'a>(words: &[Run<'a>], key: Key) -> &'a [u8]
    ensures { result.now ≡ spec.set_to key words.now }
{
    for word in words {
        if sets(word.bytes(), key) {
            return value(word.bytes());
        }
    }
    &[]
}

fn has_no_zero(text: &[u8]) -> bool
    ensures { result ≡ spec.has_no_zero text.now }
{
    text.iter().all(|b| *b != 0)
}

// A text for the server isn't empty, and has no zero byte, which ends a text there.
fn is_text(text: &[u8]) -> bool
    ensures { result ≡ spec.is_text text.now }
{
    match text {
        [] => false,
        [_, ..] => has_no_zero(text),
    }
}

fn port_of(text: &[u8]) -> Option<u64>
    ensures { result ≡ spec.port_of text.now }
{
    read_number(65_535, text)
}

fn is_port(text: &[u8]) -> bool
    ensures { result ≡ spec.is_port text.now }
{
    match port_of(text) {
        Some(port) => port != 0,
        None => false,
    }
}

fn is_value(key: Key, text: &[u8]) -> bool
    ensures { result ≡ spec.is_value key text.now }
{
    match key {
        Key::Host => is_text(text),
        Key::Port => is_port(text),
        Key::Dbname => is_text(text),
        Key::User => is_text(text),
        Key::Passfile => is_text(text),
        Key::Standby => text == b"required".as_slice() || text == b"none".as_slice(),
        Key::Insecure => text == b"yes".as_slice() || text == b"no".as_slice(),
    }
}

fn key_fault(words: &[Run<'_>], key: Key) -> Option<ConfFault>
    ensures { result ≡ spec.key_fault words.now key }
{
    if !is_set(words, key) {
        if key.is_optional() {
            None
        } else {
            Some(ConfFault::Missing(key))
        }
    } else if is_value(key, set_to(words, key)) {
        None
    } else {
        Some(ConfFault::BadValue(key))
    }
}

// The first key at fault.
fn keys_fault(keys: &[Key], words: &[Run<'_>]) -> Option<ConfFault>
    ensures { result ≡ spec.keys_fault keys.now words.now }
{
    for key in keys {
        if let Some(fault) = key_fault(words, *key) {
            return Some(fault);
        }
    }
    None
}

fn is_loopback(host: &[u8]) -> bool
    ensures { result ≡ spec.is_loopback host.now }
{
    match host {
        [b'1', b'2', b'7', b'.', ..] => true,
        _ => false,
    }
}

// Whether a host is this machine. A host that isn't `localhost` must be an address of four numbers.
fn is_local(host: &[u8]) -> bool
    ensures { result ≡ spec.is_local host.now }
{
    host == b"localhost".as_slice() || is_loopback(host)
}

fn may_reach(words: &[Run<'_>]) -> bool
    ensures { result ≡ spec.may_reach words.now }
{
    is_local(set_to(words, Key::Host)) || set_to(words, Key::Insecure) == b"yes".as_slice()
}

fn settings_fault(words: &[Run<'_>]) -> Option<ConfFault>
    ensures { result ≡ spec.settings_fault words.now }
{
    if let Some(fault) = word_fault(words) {
        return Some(fault);
    }
    if let Some(fault) = keys_fault(&KEYS, words) {
        return Some(fault);
    }
    if may_reach(words) {
        None
    } else {
        Some(ConfFault::Remote)
    }
}

fn port_or_none(text: &[u8]) -> u16
    ensures { result ≡ spec.port_or_none text.now }
{
    match read_number(65_535, text) {
        Some(port) => port as u16,
        None => 0,
    }
}

// The server that words without a fault name.
fn conf_from(alloc: Global, words: &[Run<'_>]) -> Result<Conf, OutOfMemory>
    ensures { IfOk result (λ c. c ≡ spec.conf_from words.now) }
{
    Ok(Conf {
        host: Text::of(alloc, set_to(words, Key::Host))?,
        port: port_or_none(set_to(words, Key::Port)),
        database: Text::of(alloc, set_to(words, Key::Dbname))?,
        user: Text::of(alloc, set_to(words, Key::User))?,
        passfile: Text::of(alloc, set_to(words, Key::Passfile))?,
        standby: set_to(words, Key::Standby) != b"none".as_slice(),
    })
}

fn settings(alloc: Global, words: &[Run<'_>]) -> Result<Result<Conf, ConfFault>, OutOfMemory>
    ensures { IfOk result (λ r. r ≡ spec.settings words.now) }
{
    match settings_fault(words) {
        Some(fault) => Ok(Err(fault)),
        None => Ok(Ok(conf_from(alloc, words)?)),
    }
}

fn conf_of(alloc: Global, words: &[Run<'_>]) -> Result<Result<Conf, ConfFault>, OutOfMemory>
    ensures { IfOk result (λ r. r ≡ spec.conf_of words.now) }
{
    match words {
        [] => Ok(Err(ConfFault::NotPostgresql)),
        [first, rest @ ..] => {
            if first.bytes() == b"postgresql".as_slice() {
                settings(alloc, rest)
            } else {
                Ok(Err(ConfFault::NotPostgresql))
            }
        }
    }
}

/// Reads the server that a text names: the word `postgresql`, and then words that each set a `Key`, in any order, with
/// blanks or line feeds between them.
pub fn read_conf(alloc: Global, text: &[u8]) -> Result<Result<Conf, ConfFault>, OutOfMemory>
    ensures { IfOk result (λ r. r ≡ spec.read_conf text.now) }
{
    let words = runs_between::<Blanks>(alloc, text)?;
    conf_of(alloc, &words)
}

/// Returns the password in the text of its file: the first line, without its end.
pub fn read_password(text: &[u8]) -> &[u8]
    ensures { result.now ≡ spec.read_password text.now }
{
    for (i, b) in text.iter().enumerate() {
        if *b == b'\n' {
            return &text[..i];
        }
    }
    text
}
