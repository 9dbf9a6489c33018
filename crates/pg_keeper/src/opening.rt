ghost use Rattle.std.specs.Prelude.{◌≡◌, OnOk};
ghost use Rattle.pg_keeper.specs.Loads.{Limits};

use crate::dial::Dial;
use crate::ending::{Cause, Trouble};
use crate::login::log_in;
use desk_io::Text;
use desk_net::Link;
use pg_scram::Login;
use pg_wire::{
    Answer, FRONT, push_parse, push_query, push_setting, push_startup, push_sync, read_message,
    send, settle,
};
use std::alloc::Global;

// The session that holds this lock is the desk of its database. The number has no meaning. A desk that has just died may
// hold the lock for a moment more, so this waits as long as `lock_timeout` allows.
const LOCK: &[u8] = b"select pg_advisory_lock(7309453)::text = ''";

// The SQLSTATE of a lock that isn't free.
const NOT_FREE: [u8; 5] = *b"55P03";

// The session that holds the lock.
const HOLDER: &[u8] =
    b"select 'process ' || pid || ', address ' || coalesce(host(client_addr), 'local') || ', application ' \
|| coalesce(application_name, '') from pg_locks join pg_stat_activity using (pid) \
where locktype = 'advisory' and objid = 7309453 and granted \
and database = (select oid from pg_database where datname = current_database()) limit 1";

// Whether the server takes changes, which a standby doesn't.
const IS_PRIMARY: &[u8] = b"select not pg_is_in_recovery()";

const IS_PLAIN: &[u8] = b"select current_setting('transaction_isolation') = 'read committed' \
and current_setting('transaction_read_only') = 'off'";

// Whether the server flushes each commit to the disk.
const IS_FLUSHED: &[u8] =
    b"select current_setting('fsync') = 'on' and current_setting('synchronous_commit') <> 'off'";

// Whether each commit waits until a standby has flushed it to its disk.
const HAS_STANDBY: &[u8] = b"select current_setting('synchronous_standby_names') <> '' \
and current_setting('synchronous_commit') in ('on', 'remote_apply')";

const TABLE: &[u8] =
    b"create table if not exists kept (kind smallint not null, key bigint not null, body text not null, \
primary key (kind, key))";

// Whether the table is the desk's: an ordinary, logged table with these columns and this key, with no trigger, rule or
// row security.
const IS_OURS: &[u8] =
    b"select relkind = 'r' and relpersistence = 'p' and not relhastriggers and not relhasrules and not relrowsecurity \
and (select string_agg(attname || ' ' || format_type(atttypid, atttypmod) || ' ' || attnotnull, ', ' order by attnum) \
from pg_attribute where attrelid = c.oid and attnum > 0 and not attisdropped) \
= 'kind smallint true, key bigint true, body text true' \
and exists (select from pg_constraint where conrelid = c.oid \
and pg_get_constraintdef(oid) = 'PRIMARY KEY (kind, key)') \
from pg_class c where oid = 'kept'::regclass";

const PUT: &[u8] = b"insert into kept (kind, key, body) values ($1, $2, $3) \
on conflict (kind, key) do update set body = excluded.body";

const REMOVE: &[u8] = b"delete from kept where kind = $1 and key = $2";

// A key is stored by its bits, so those from 2^63 on are negative there, and come last.
const ALL: &[u8] = b"select kind, key, body from kept order by kind, key < 0, key";

// The most messages of an answer to a question.
const MOST_MESSAGES: u64 = 1_000;

// The numbers of the types in the server's catalog.
const SMALLINT: u32 = 21;

const BIGINT: u32 = 20;

const TEXT: u32 = 25;

/// Who the keeper is at the server, and in which database. An empty password means that the server asks for none. No
/// text may contain a zero byte.
#[derive(Drop)]
pub struct Account {
    pub user: Text,
    pub database: Text,
    pub password: Text,
    /// Whether the server must have a synchronous standby.
    pub standby: bool,
}

// The query that limits each statement to five seconds. The load, which comes before, may take longer.
const LIMIT: [u8; 34] = *b"Q\0\0\0\x21set statement_timeout = 5000\0";

// Settings of the session. At `warning` the server reports a commit for whose standby it stopped waiting. The timeout
// of a lock is below that of an answer, so that a change for which a lock isn't free is refused and not lost.
const SETTINGS: [(&[u8], &[u8]); 11] = [
    (b"application_name", b"desk"),
    (b"client_encoding", b"UTF8"),
    (b"client_min_messages", b"warning"),
    (b"default_transaction_isolation", b"read committed"),
    (b"default_transaction_read_only", b"off"),
    (b"synchronous_commit", b"on"),
    (b"lock_timeout", b"4000"),
    (b"statement_timeout", b"120000"),
    (b"tcp_keepalives_idle", b"5"),
    (b"tcp_keepalives_interval", b"2"),
    (b"tcp_keepalives_count", b"3"),
];

fn push_settings(out: &mut Vec<u8>, settings: &[(&[u8], &[u8])]) -> Result<(), Trouble> {
    for (name, value) in settings {
        push_setting(out, name, value)?;
    }
    Ok(())
}

fn send_startup<L: Link>(alloc: Global, link: &mut L, account: &Account) -> Result<(), Trouble> {
    let mut settings = Vec::new(alloc);
    push_setting(&mut settings, b"user", account.user.bytes())?;
    push_setting(&mut settings, b"database", account.database.bytes())?;
    push_settings(&mut settings, &SETTINGS)?;
    let mut request = Vec::new(alloc);
    push_startup(alloc, &mut request, &settings)?;
    send(link, &request)?;
    Ok(())
}

// Sends a request, and returns the answer unless it is a refusal.
fn asked<L: Link>(link: &mut L, request: &[u8]) -> Result<Answer, Trouble> {
    send(link, request)?;
    let answer = settle(link)?;
    match answer.refused {
        None => Ok(answer),
        Some(state) => Err(Trouble::Failed(Cause::Refused(state))),
    }
}

fn asked_by<L: Link>(alloc: Global, link: &mut L, sql: &[u8]) -> Result<Answer, Trouble> {
    let mut request = Vec::new(alloc);
    push_query(alloc, &mut request, sql)?;
    asked(link, &request)
}

// Asks for something that must be true.
fn require<L: Link>(alloc: Global, link: &mut L, sql: &[u8], cause: Cause) -> Result<(), Trouble> {
    let answer = asked_by(alloc, link, sql)?;
    if answer.is_true {
        Ok(())
    } else {
        Err(Trouble::Failed(cause))
    }
}

// The text of the first column of a row, as far as its front shows it.
fn first_column(front: &[u8]) -> &[u8] {
    match front {
        [_, _, _, _, a, b, text @ ..] => {
            let length = u16::from_be_bytes([*a, *b]) as usize;
            text.get(..length).unwrap_or(text)
        }
        _ => b"",
    }
}

// Asks for a text of one row, for people to read. It is empty if there is no row.
fn asked_text<L: Link>(alloc: Global, link: &mut L, sql: &[u8]) -> Result<Text, Trouble> {
    let mut request = Vec::new(alloc);
    push_query(alloc, &mut request, sql)?;
    send(link, &request)?;
    let mut text = Text::of(alloc, b"")?;
    let mut content = [0u8; FRONT];
    for _ in 0..MOST_MESSAGES {
        let seen = read_message(link, &mut content)?;
        let front = &content[..seen.kept];
        match seen.tag {
            b'D' => text = Text::of(alloc, first_column(front))?,
            b'Z' => return Ok(text),
            _ => {}
        }
    }
    Err(Trouble::Failed(Cause::Lost))
}

fn prepare<L: Link>(alloc: Global, link: &mut L) -> Result<(), Trouble> {
    let mut request = Vec::new(alloc);
    push_parse(alloc, &mut request, b"p", PUT, &[SMALLINT, BIGINT, TEXT])?;
    push_parse(alloc, &mut request, b"d", REMOVE, &[SMALLINT, BIGINT])?;
    push_parse(alloc, &mut request, b"a", ALL, &[])?;
    push_sync(&mut request)?;
    asked(link, &request)?;
    Ok(())
}

// Takes the lock. If it isn't free, asks who holds it.
fn lock<L: Link>(alloc: Global, link: &mut L, holder: &mut Option<Text>) -> Result<(), Trouble> {
    match require(alloc, link, LOCK, Cause::Locked) {
        Err(Trouble::Failed(Cause::Refused(state))) if state == NOT_FREE => {
            *holder = Some(asked_text(alloc, link, HOLDER)?);
            Err(Trouble::Failed(Cause::Locked))
        }
        answer => answer,
    }
}

// Asks whether the server and its settings are fit.
fn inspect<L: Link>(alloc: Global, link: &mut L, account: &Account) -> Result<(), Trouble> {
    require(alloc, link, IS_PRIMARY, Cause::Standby)?;
    require(alloc, link, IS_PLAIN, Cause::Isolation)?;
    require(alloc, link, IS_FLUSHED, Cause::Unflushed)?;
    if account.standby {
        require(alloc, link, HAS_STANDBY, Cause::NoStandby)?;
    }
    Ok(())
}

// Makes a session of the desk over a new link.
fn begin<L: Link>(
    alloc: Global,
    link: &mut L,
    account: &Account,
    nonce: &[u8],
    holder: &mut Option<Text>,
) -> Result<(), Trouble> {
    send_startup(alloc, link, account)?;
    let login = Login {
        user: b"",
        password: account.password.bytes(),
        nonce,
    };
    log_in(alloc, link, login)?;
    inspect(alloc, link, account)?;
    lock(alloc, link, holder)?;
    asked_by(alloc, link, TABLE)?;
    require(alloc, link, IS_OURS, Cause::ForeignTable)?;
    prepare(alloc, link)
}

/// Limits each later statement to five seconds.
#[tactic(auto, using(crate::proofs::LoadLaws::limits))]
pub fn limit<L: Link>(link: &mut L) -> Result<(), Trouble>
    ensures { OnOk result (Limits (L.seen link.old).crossed (L.seen link.new).crossed) }
{
    send(link, &LIMIT)?;
    let answer = settle(link)?;
    match answer.refused {
        None => Ok(()),
        Some(state) => Err(Trouble::Failed(Cause::Refused(state))),
    }
}

// Maps each byte to a letter, so that the nonce is printable.
fn spell(bytes: &mut [u8]) {
    for i in 0..bytes.len() {
        bytes[i] = b'A' + bytes[i] % 16;
    }
}

fn drawn<D: Dial>(dial: &mut D) -> Result<[u8; 24], Trouble> {
    match dial.nonce() {
        Ok(nonce) => {
            let mut nonce = nonce;
            spell(&mut nonce);
            Ok(nonce)
        }
        Err(_) => Err(Trouble::Failed(Cause::NotReached)),
    }
}

/// Opens a connection that holds the lock and has its statements prepared. The lock is released when the connection
/// ends. If another session holds the lock, `holder` tells which.
pub fn opened<D: Dial>(
    alloc: Global,
    dial: &mut D,
    account: &Account,
    holder: &mut Option<Text>,
) -> Result<D::Link, Trouble> {
    let nonce = drawn(dial)?;
    let Ok(mut link) = dial.dial() else {
        return Err(Trouble::Failed(Cause::NotReached));
    };
    begin(alloc, &mut link, account, &nonce, holder)?;
    Ok(link)
}
