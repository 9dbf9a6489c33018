use crate::{ConfFault, Key, read_conf, read_password};
use desk_io::OutOfMemory;
use std::alloc::Global;
use std::test::Fail;

const WHOLE: &[u8] =
    b"postgresql host=127.0.0.1 port=5432 dbname=desk user=ada passfile=/etc/desk/key\n";

// Whether the text names this server.
fn names(
    alloc: Global,
    text: &[u8],
    host: &[u8],
    port: u16,
    passfile: &[u8],
    standby: bool,
) -> Result<bool, OutOfMemory> {
    match read_conf(alloc, text)? {
        Ok(conf) => Ok(
            conf.host.bytes() == host
                && conf.port == port
                && conf.database.bytes() == b"desk".as_slice()
                && conf.user.bytes() == b"ada".as_slice()
                && conf.passfile.bytes() == passfile
                && conf.standby == standby,
        ),
        Err(_) => Ok(false),
    }
}

// Whether the text names no server, for this fault.
fn lacks(alloc: Global, text: &[u8], wanted: ConfFault) -> Result<bool, OutOfMemory> {
    match read_conf(alloc, text)? {
        Ok(_) => Ok(false),
        Err(fault) => Ok(fault == wanted),
    }
}

#[test]
fn names_a_server(rt: HostRuntime) -> Result<(), Fail> {
    let alloc = rt.alloc();
    assert!(rt; names(alloc, WHOLE, b"127.0.0.1", 5432, b"/etc/desk/key", true) == Ok(true));
    let alone = b"  postgresql\tuser=ada standby=none\r\ndbname=desk port=1 host=localhost";
    assert!(rt; names(alloc, alone, b"localhost", 1, b"", false) == Ok(true));
    let far =
        b"postgresql user=ada dbname=desk port=65535 host=10.0.0.2 insecure=yes standby=required";
    assert!(rt; names(alloc, far, b"10.0.0.2", 65_535, b"", true) == Ok(true));
    let odd = b"postgresql user=ada dbname=desk port=5432 host=127.0.0.1 passfile=a=b";
    assert!(rt; names(alloc, odd, b"127.0.0.1", 5432, b"a=b", true) == Ok(true));
    Ok(())
}

#[test]
fn refuses_other_texts(rt: HostRuntime) -> Result<(), Fail> {
    let alloc = rt.alloc();
    assert!(rt; lacks(alloc, b"", ConfFault::NotPostgresql) == Ok(true));
    assert!(rt; lacks(alloc, b"mysql host=127.0.0.1", ConfFault::NotPostgresql) == Ok(true));
    let word = b"postgresql host=127.0.0.1 sslmode=off port=5432 dbname=desk user=ada";
    assert!(rt; lacks(alloc, word, ConfFault::Unknown(3)) == Ok(true));
    let word = b"postgresql host=127.0.0.1 port=5432 dbname=desk user=ada Port=1";
    assert!(rt; lacks(alloc, word, ConfFault::Unknown(0)) == Ok(true));
    let twice = b"postgresql host=127.0.0.1 port=5432 dbname=desk user=ada port=5433";
    assert!(rt; lacks(alloc, twice, ConfFault::Twice(3)) == Ok(true));
    let less = b"postgresql host=127.0.0.1 port=5432 dbname=desk";
    assert!(rt; lacks(alloc, less, ConfFault::Missing(Key::User)) == Ok(true));
    let port = b"postgresql host=127.0.0.1 port=0 dbname=desk user=ada";
    assert!(rt; lacks(alloc, port, ConfFault::BadValue(Key::Port)) == Ok(true));
    let port = b"postgresql host=127.0.0.1 port=65536 dbname=desk user=ada";
    assert!(rt; lacks(alloc, port, ConfFault::BadValue(Key::Port)) == Ok(true));
    let user = b"postgresql host=127.0.0.1 port=5432 dbname=desk user=";
    assert!(rt; lacks(alloc, user, ConfFault::BadValue(Key::User)) == Ok(true));
    let standby = b"postgresql host=127.0.0.1 port=5432 dbname=desk user=ada standby=maybe";
    assert!(rt; lacks(alloc, standby, ConfFault::BadValue(Key::Standby)) == Ok(true));
    let far = b"postgresql host=10.0.0.2 port=5432 dbname=desk user=ada";
    assert!(rt; lacks(alloc, far, ConfFault::Remote) == Ok(true));
    let far = b"postgresql host=10.0.0.2 port=5432 dbname=desk user=ada insecure=no";
    assert!(rt; lacks(alloc, far, ConfFault::Remote) == Ok(true));
    Ok(())
}

#[test]
fn reads_a_password(rt: HostRuntime) -> Result<(), Fail> {
    assert!(rt; read_password(b"pine-4417\n") == b"pine-4417".as_slice());
    assert!(rt; read_password(b"pine 4417") == b"pine 4417".as_slice());
    assert!(rt; read_password(b"a\nb\n") == b"a".as_slice());
    assert!(rt; read_password(b"").is_empty());
    Ok(())
}
