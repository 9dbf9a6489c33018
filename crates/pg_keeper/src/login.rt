ghost use Rattle.std.specs.Prelude.{◌≡◌, ◌==◌, ◌<◌, length};

use crate::ending::{Cause, Trouble};
use desk_net::Link;
use desk_time::read_number;
use pg_scram::{Answer, Login, client_final, client_first, is_verified};
use pg_wire::{FRONT, Lost, push_sasl_first, push_sasl_last, read_message, send, sqlstate};
use std::alloc::Global;

// The most messages before the server is ready.
const MOST_MESSAGES: u64 = 10_000;

// The first version of the server that is accepted, and the most digits of one.
const FIRST_VERSION: u64 = 13;

const MOST_VERSION: u64 = 999;

const VERSION: &[u8] = b"server_version\0";

// The SQLSTATE of a login that the client refuses.
const NO_LOGIN: [u8; 5] = *b"28000";

// What the server has reported of itself.
#[derive(Clone, Copy)]
struct Settings {
    version: bool,
    encoding: bool,
    client: bool,
    strings: bool,
}

// How far the login is: whether the server has proved that it knows the password, and whether it let the client in.
#[derive(Drop)]
struct Progress {
    answer: Option<Answer>,
    is_known: bool,
    is_in: bool,
}

// Whether a text begins with the number of an accepted version.
fn is_version(text: &[u8]) -> bool {
    let end = match text.iter().position(|b| !b.is_ascii_digit()) {
        Some(place) => place,
        None => text.len(),
    };
    match text.get(..end) {
        None => false,
        Some(digits) => match read_number(MOST_VERSION, digits) {
            Some(version) => version >= FIRST_VERSION,
            None => false,
        },
    }
}

// Notes a setting that the server reports.
fn noted(settings: Settings, content: &[u8]) -> Settings {
    let mut settings = settings;
    if let Some(version) = content.strip_prefix(VERSION) {
        settings.version = is_version(version);
    } else if content.starts_with(b"server_encoding\0") {
        settings.encoding = content == b"server_encoding\0UTF8\0".as_slice();
    } else if content.starts_with(b"client_encoding\0") {
        settings.client = content == b"client_encoding\0UTF8\0".as_slice();
    } else if content.starts_with(b"standard_conforming_strings\0") {
        settings.strings = content == b"standard_conforming_strings\0on\0".as_slice();
    }
    settings
}

// Why the server can't serve a desk, if it can't.
fn unfit(settings: Settings) -> Option<Cause> {
    if !settings.version {
        Some(Cause::Version)
    } else if !(settings.encoding && settings.client) {
        Some(Cause::Encoding)
    } else if !settings.strings {
        Some(Cause::Strings)
    } else {
        None
    }
}

// What the login comes to once the server is ready.
fn ended(progress: &Progress, settings: Settings) -> Result<(), Trouble> {
    if !progress.is_in {
        return Err(Trouble::Failed(Cause::Unproved));
    }
    match unfit(settings) {
        Some(cause) => Err(Trouble::Failed(cause)),
        None => Ok(()),
    }
}

// Whether the server offers the mechanism.
fn offers_scram(mechanisms: &[u8]) -> bool {
    for name in mechanisms.split(|b| *b == 0) {
        if name == b"SCRAM-SHA-256".as_slice() {
            return true;
        }
    }
    false
}

fn send_first<L: Link>(alloc: Global, link: &mut L, login: Login<'_>) -> Result<(), Trouble> {
    let first = client_first(alloc, login)?;
    let mut request = Vec::new(alloc);
    push_sasl_first(alloc, &mut request, &first)?;
    send(link, &request)?;
    Ok(())
}

fn send_last<L: Link>(
    alloc: Global,
    link: &mut L,
    login: Login<'_>,
    first: &[u8],
) -> Result<Answer, Trouble> {
    let answer = client_final(alloc, login, first)?;
    let mut request = Vec::new(alloc);
    push_sasl_last(&mut request, &answer.message)?;
    send(link, &request)?;
    Ok(answer)
}

// Whether the server's last message proves that it knows the password.
fn is_proved(answer: &Option<Answer>, last: &[u8]) -> bool {
    match answer {
        None => false,
        Some(answer) => is_verified(answer, last),
    }
}

// Takes a step of the login.
fn step<L: Link>(
    alloc: Global,
    link: &mut L,
    login: Login<'_>,
    progress: &mut Progress,
    content: &[u8],
) -> Result<(), Trouble> {
    match content {
        [0, 0, 0, 0] => {
            if !progress.is_known {
                return Err(Trouble::Failed(Cause::Unproved));
            }
            progress.is_in = true;
        }
        [0, 0, 0, 10, mechanisms @ ..] => {
            if !offers_scram(mechanisms) {
                return Err(Trouble::Failed(Cause::Refused(NO_LOGIN)));
            }
            progress.is_known = false;
            send_first(alloc, link, login)?;
        }
        [0, 0, 0, 11, first @ ..] => {
            progress.answer = Some(send_last(alloc, link, login, first)?);
        }
        [0, 0, 0, 12, last @ ..] => {
            if !is_proved(&progress.answer, last) {
                return Err(Trouble::Failed(Cause::Unproved));
            }
            progress.is_known = true;
        }
        _ => return Err(Trouble::Failed(Cause::Refused(NO_LOGIN))),
    }
    Ok(())
}

/// Logs in after the startup message: without a password if the login has none, and else by SCRAM-SHA-256, in which
/// the server must prove that it knows the password. The server must be of version 13 or later, use UTF8 and have
/// `standard_conforming_strings` on.
pub fn log_in<L: Link>(alloc: Global, link: &mut L, login: Login<'_>) -> Result<(), Trouble> {
    let mut content = [0u8; FRONT];
    let mut settings = Settings {
        version: false,
        encoding: false,
        client: false,
        strings: false,
    };
    let mut progress = Progress {
        answer: None,
        is_known: login.password.is_empty(),
        is_in: false,
    };
    for _ in 0..MOST_MESSAGES {
        let seen = read_message(link, &mut content)?;
        let front = &content[..seen.kept];
        match seen.tag {
            b'R' => step(alloc, link, login, &mut progress, front)?,
            b'S' => settings = noted(settings, front),
            b'K' | b'N' => {}
            b'E' => return Err(Trouble::Failed(Cause::Refused(sqlstate(front)))),
            b'Z' => return ended(&progress, settings),
            _ => return Err(Trouble::from(Lost)),
        }
    }
    Err(Trouble::from(Lost))
}
