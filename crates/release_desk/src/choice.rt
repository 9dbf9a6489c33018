use chosen_keeper::{Conf, ConfFault, EitherKeeper, Key, read_conf, read_password};
use desk_io::{OutOfMemory, Text};
use pg_keeper::{Account, PgKeeper, TcpDial};
use sqlite_keeper::SqliteKeeper;
use std::io::ErrorKind;
use std::net::{Ipv4Addr, SocketAddr, SocketAddrV4};
use std::{fs, str};

// The file that names a server.
const CONF: &str = "rows.conf";

/// Why the file that is to name a server can't be used.
#[derive(Clone, Copy)]
pub(crate) enum ChoiceFault {
    /// It can't be read.
    Unreadable,
    /// It names no server.
    Conf(ConfFault),
    /// The file of the password can't be read.
    Passfile,
}

/// The keeper that the working directory asks for, and why it isn't a keeper that can be opened, if it isn't.
#[derive(Drop)]
pub(crate) struct Choice {
    pub(crate) keeper: EitherKeeper,
    pub(crate) reason: Reason,
}

/// What was read of the file that names a server, and why it can't be used.
#[derive(Drop)]
pub(crate) struct Reason {
    pub(crate) text: Text,
    pub(crate) fault: Option<ChoiceFault>,
}

// The keeper of the rows in `desk.db`.
fn file_choice(rt: HostRuntime) -> Result<Choice, OutOfMemory> {
    let path = String::from_str(rt.alloc(), "desk.db")?;
    Ok(Choice {
        keeper: EitherKeeper::File(SqliteKeeper::new(rt, path)),
        reason: Reason {
            text: Text::of(rt.alloc(), b"")?,
            fault: None,
        },
    })
}

// A keeper that no load opens, for this fault.
fn no_choice(rt: HostRuntime, text: Text, fault: ChoiceFault) -> Result<Choice, OutOfMemory> {
    let login = Account {
        user: Text::of(rt.alloc(), b"")?,
        database: Text::of(rt.alloc(), b"")?,
        password: Text::of(rt.alloc(), b"")?,
        standby: true,
    };
    let reason = Reason {
        text,
        fault: Some(fault),
    };
    let keeper = EitherKeeper::Server(PgKeeper::new(TcpDial::new(rt, None), login));
    Ok(Choice { keeper, reason })
}

// The address of a host, which is `localhost` or four numbers with dots.
fn address_of(host: &[u8], port: u16) -> Option<SocketAddr> {
    if host == b"localhost".as_slice() {
        let address = SocketAddrV4::new(Ipv4Addr::LOCALHOST, port);
        return Some(SocketAddr::V4(address));
    }
    let host = str::from_utf8(host).ok()?;
    let address = host.parse::<Ipv4Addr>().ok()?;
    Some(SocketAddr::V4(SocketAddrV4::new(address, port)))
}

// The password in the file of this name; an empty one without a name. None means that the file can't be read.
fn password_of(rt: HostRuntime, name: &Text) -> Result<Option<Text>, OutOfMemory> {
    if name.bytes().is_empty() {
        return Ok(Some(Text::of(rt.alloc(), b"")?));
    }
    let Ok(name) = str::from_utf8(name.bytes()) else {
        return Ok(None);
    };
    match fs::read(&rt, name) {
        Ok(text) => Ok(Some(Text::of(rt.alloc(), read_password(&text))?)),
        Err(error) if error.kind() == ErrorKind::OutOfMemory => Err(OutOfMemory),
        Err(_) => Ok(None),
    }
}

// The keeper of the server that a text names.
fn server_choice(rt: HostRuntime, text: Text, conf: Conf) -> Result<Choice, OutOfMemory> {
    let Conf {
        host,
        port,
        database,
        user,
        passfile,
        standby,
    } = conf;
    let address = address_of(host.bytes(), port);
    if address.is_none() {
        return no_choice(rt, text, ChoiceFault::Conf(ConfFault::BadValue(Key::Host)));
    }
    match password_of(rt, &passfile)? {
        Some(password) => {
            let login = Account {
                user,
                database,
                password,
                standby,
            };
            let keeper = EitherKeeper::Server(PgKeeper::new(TcpDial::new(rt, address), login));
            Ok(Choice {
                keeper,
                reason: Reason { text, fault: None },
            })
        }
        None => no_choice(rt, text, ChoiceFault::Passfile),
    }
}

/// Returns the keeper that the working directory asks for: of the server that `rows.conf` names, or without that file of
/// `desk.db`.
pub(crate) fn chosen(rt: HostRuntime) -> Result<Choice, OutOfMemory> {
    match fs::read(&rt, CONF) {
        Ok(bytes) => {
            let text = Text::from_vec(bytes);
            match read_conf(rt.alloc(), text.bytes())? {
                Ok(conf) => server_choice(rt, text, conf),
                Err(fault) => no_choice(rt, text, ChoiceFault::Conf(fault)),
            }
        }
        Err(error) if error.kind() == ErrorKind::NotFound => file_choice(rt),
        Err(error) if error.kind() == ErrorKind::OutOfMemory => Err(OutOfMemory),
        Err(_) => {
            let text = Text::of(rt.alloc(), b"")?;
            no_choice(rt, text, ChoiceFault::Unreadable)
        }
    }
}

/// Leaves the rows to the next desk: checkpoints the log into the file, or ends the session at the server.
pub(crate) fn leave(keeper: EitherKeeper) {
    match keeper {
        // If this fails, the write-ahead log still holds what isn't in the file.
        EitherKeeper::File(keeper) => {
            let _ = keeper.leave();
        }
        EitherKeeper::Server(keeper) => keeper.leave(),
    }
}
