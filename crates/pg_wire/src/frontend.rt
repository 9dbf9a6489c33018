ghost use Rattle.std.specs.Prelude.{◌≡◌, ◌+◌, ◌^◌, ◌<◌, ◌≤◌, ◌++◌, length, map, OnOk, IfOk};
ghost use Rattle.std.specs.List.{concat};
ghost use Rattle.std.specs.Int.{w32, to_be_bytes};
ghost use Rattle.pg_wire.specs.Frontend as spec;
ghost use Rattle.pg_wire.specs.Frontend.{bind_content, message, parse_content, sized, value_bytes};
ghost use Rattle.pg_wire.specs.declared.frontend.WriteFault.TheVariants.{OutOfMemory as WriteMemory};

use desk_io::{OutOfMemory, push_all};
use std::alloc::{AllocError, AllocFailed, Global};

/// The most bytes of a message's content, and of a value in it.
pub const CONTENT_LIMIT: usize = 1_000_000_000;

/// Why a message wasn't written. The vector may hold a prefix of it.
#[derive(Clone, Copy, Debug, PartialEq, Eq)]
pub enum WriteFault {
    /// It has more bytes than `CONTENT_LIMIT`.
    TooLong,
    /// Memory ran out.
    OutOfMemory,
}

impl From<AllocError> for WriteFault {
    ghost from_gives = { λ _ e. e ≡ WriteMemory };

    fn from(_: AllocError) -> Self {
        WriteFault::OutOfMemory
    }
}

impl<T: Drop> From<AllocFailed<T>> for WriteFault {
    ghost from_gives = { λ _ e. e ≡ WriteMemory };

    fn from(_: AllocFailed<T>) -> Self {
        WriteFault::OutOfMemory
    }
}

impl From<OutOfMemory> for WriteFault {
    ghost from_gives = { λ _ e. e ≡ WriteMemory };

    fn from(_: OutOfMemory) -> Self {
        WriteFault::OutOfMemory
    }
}

// Appends a content after the length of both.
fn push_sized(out: &mut Vec<u8>, content: &[u8]) -> Result<(), WriteFault>
    ensures { OnOk result (out.new.items ≡ out.old.items ++ sized content.now) }
{
    if content.len() > CONTENT_LIMIT {
        return Err(WriteFault::TooLong);
    }
    let size = (content.len() + 4) as u32;
    out.extend_from_slice(&size.to_be_bytes())?;
    out.extend_from_slice(content)?;
    Ok(())
}

/// Appends a message with this tag and this content.
pub fn push_message(out: &mut Vec<u8>, tag: u8, content: &[u8]) -> Result<(), WriteFault>
    ensures { OnOk result (out.new.items ≡ out.old.items ++ message tag content.now) }
{
    out.push(tag)?;
    push_sized(out, content)
}

/// Appends the length of a value, and the value.
pub fn push_value(out: &mut Vec<u8>, value: &[u8]) -> Result<(), WriteFault>
    ensures { OnOk result (out.new.items ≡ out.old.items ++ value_bytes value.now) }
{
    if value.len() > CONTENT_LIMIT {
        return Err(WriteFault::TooLong);
    }
    let size = value.len() as u32;
    out.extend_from_slice(&size.to_be_bytes())?;
    out.extend_from_slice(value)?;
    Ok(())
}

fn push_values(out: &mut Vec<u8>, values: &[&[u8]]) -> Result<(), WriteFault>
    ensures { OnOk result (out.new.items ≡ out.old.items ++ concat (map value_bytes (map (λ x. x.now) values.now))) }
{
    for value in values {
        push_value(out, value)?;
    }
    Ok(())
}

fn bound(alloc: Global, statement: &[u8], values: &[&[u8]]) -> Result<Vec<u8>, WriteFault>
    requires { length values.now < 2 ^ 16 }
    ensures { IfOk result (λ v. v.items ≡ bind_content statement.now (map (λ x. x.now) values.now)) }
{
    let mut content = Vec::new(alloc);
    let count = values.len() as u16;
    content.push(0)?;
    content.extend_from_slice(statement)?;
    content.extend_from_slice(&[0, 0, 1, 0, 1])?;
    content.extend_from_slice(&count.to_be_bytes())?;
    push_values(&mut content, values)?;
    content.extend_from_slice(&[0, 1, 0, 1])?;
    Ok(content)
}

/// Appends Bind: the values of a prepared statement's parameters, in binary.
#[tactic(auto, unfolding(crate::specs::Frontend::bind))]
pub fn push_bind(
    alloc: Global,
    out: &mut Vec<u8>,
    statement: &[u8],
    values: &[&[u8]],
) -> Result<(), WriteFault>
    requires { length values.now < 2 ^ 16 }
    ensures { OnOk result (out.new.items ≡ out.old.items ++ spec.bind statement.now (map (λ x. x.now) values.now)) }
{
    let content = bound(alloc, statement, values)?;
    push_message(out, b'B', &content)
}

/// Appends Execute, which runs what was bound.
pub fn push_execute(out: &mut Vec<u8>) -> Result<(), WriteFault>
    ensures { OnOk result (out.new.items ≡ out.old.items ++ spec.execute) }
{
    out.extend_from_slice(&[69, 0, 0, 0, 9, 0, 0, 0, 0, 0])?;
    Ok(())
}

/// Appends Sync, which ends the transaction and asks for an answer to all of it.
pub fn push_sync(out: &mut Vec<u8>) -> Result<(), WriteFault>
    ensures { OnOk result (out.new.items ≡ out.old.items ++ spec.sync) }
{
    out.extend_from_slice(&[83, 0, 0, 0, 4])?;
    Ok(())
}

fn push_types(out: &mut Vec<u8>, types: &[u32]) -> Result<(), WriteFault>
    ensures { OnOk result (out.new.items ≡ out.old.items ++ concat (map (to_be_bytes w32) types.now)) }
{
    for oid in types {
        out.extend_from_slice(&oid.to_be_bytes())?;
    }
    Ok(())
}

fn parsed(alloc: Global, name: &[u8], sql: &[u8], types: &[u32]) -> Result<Vec<u8>, WriteFault>
    requires { length types.now < 2 ^ 16 }
    ensures { IfOk result (λ v. v.items ≡ parse_content name.now sql.now types.now) }
{
    let mut content = Vec::new(alloc);
    let count = types.len() as u16;
    content.extend_from_slice(name)?;
    content.push(0)?;
    content.extend_from_slice(sql)?;
    content.push(0)?;
    content.extend_from_slice(&count.to_be_bytes())?;
    push_types(&mut content, types)?;
    Ok(content)
}

/// Appends Parse: a statement under a name, with the types of its parameters.
#[tactic(auto, unfolding(crate::specs::Frontend::parse))]
pub fn push_parse(
    alloc: Global,
    out: &mut Vec<u8>,
    name: &[u8],
    sql: &[u8],
    types: &[u32],
) -> Result<(), WriteFault>
    requires { length types.now < 2 ^ 16 }
    ensures { OnOk result (out.new.items ≡ out.old.items ++ spec.parse name.now sql.now types.now) }
{
    let content = parsed(alloc, name, sql, types)?;
    push_message(out, b'P', &content)
}

/// Appends Query: a statement without parameters.
#[tactic(auto, unfolding(crate::specs::Frontend::query))]
pub fn push_query(alloc: Global, out: &mut Vec<u8>, sql: &[u8]) -> Result<(), WriteFault>
    ensures { OnOk result (out.new.items ≡ out.old.items ++ spec.query sql.now) }
{
    let mut content = Vec::new(alloc);
    content.extend_from_slice(sql)?;
    content.push(0)?;
    push_message(out, b'Q', &content)
}

/// Appends a setting's name and value for the startup message. Neither may contain a zero byte.
pub fn push_setting(settings: &mut Vec<u8>, name: &[u8], value: &[u8]) -> Result<(), WriteFault>
    ensures { OnOk result (settings.new.items ≡ settings.old.items ++ spec.setting name.now value.now) }
{
    push_all(settings, &[name, b"\0", value, b"\0"])?;
    Ok(())
}

/// Appends the startup message: the version of the protocol, and settings.
#[tactic(auto, unfolding(crate::specs::Frontend::startup))]
pub fn push_startup(alloc: Global, out: &mut Vec<u8>, settings: &[u8]) -> Result<(), WriteFault>
    ensures { OnOk result (out.new.items ≡ out.old.items ++ spec.startup settings.now) }
{
    let mut content = Vec::new(alloc);
    content.extend_from_slice(&[0, 3, 0, 0])?;
    content.extend_from_slice(settings)?;
    content.push(0)?;
    push_sized(out, &content)
}

/// Appends the choice of SCRAM-SHA-256, with the client's first message.
#[tactic(auto, unfolding(crate::specs::Frontend::sasl_first))]
pub fn push_sasl_first(alloc: Global, out: &mut Vec<u8>, first: &[u8]) -> Result<(), WriteFault>
    ensures { OnOk result (out.new.items ≡ out.old.items ++ spec.sasl_first first.now) }
{
    let mut content = Vec::new(alloc);
    content.extend_from_slice(b"SCRAM-SHA-256")?;
    content.push(0)?;
    push_value(&mut content, first)?;
    push_message(out, b'p', &content)
}

/// Appends the client's last message of the exchange.
#[tactic(auto, unfolding(crate::specs::Frontend::sasl_last))]
pub fn push_sasl_last(out: &mut Vec<u8>, last: &[u8]) -> Result<(), WriteFault>
    ensures { OnOk result (out.new.items ≡ out.old.items ++ spec.sasl_last last.now) }
{
    push_message(out, b'p', last)
}
