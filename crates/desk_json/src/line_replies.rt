ghost use Rattle.std.specs.Prelude.{◌≡◌, codes, IfOk};
ghost use Rattle.serde_json.specs.Data.{put};
ghost use Rattle.serde_json.specs.View.{view, members_view};
ghost use Rattle.asks.specs.Canonical.{text_data, option_data};
ghost use Rattle.desk_json.specs.LineReplies as spec;
ghost use Rattle.desk_json.specs.LineReplies.{line_refusal_text, seated_text, IsJsonOf};

use crate::refusals::{numbered, with_findings};
use asks::{Members, text_value, with_text, with_value};
use desk_io::{OutOfMemory, Text};
use plan::Findings;
use serde_json::{Map, Value};
use std::alloc::Global;

/// Why a line of shifts or of planned redispatches is refused, besides the refusals of calls. Each comment begins with
/// the number of the refusal.
#[derive(Debug, Drop)]
pub enum LineRefusal {
    /// 31: another person sits at the desk.
    NotSitting { sitter: Text },
    /// 32: no dispatcher has the desk's name.
    NoSuchDesk,
    /// 33: the desk isn't offered to the person. It may be offered to another. `offered` is null if it is offered to
    /// nobody.
    NotOffered { offered: Option<Text> },
    /// 34: the desk can't be offered to this person, who sits there or is no dispatcher.
    BadRelief,
    /// 35: no final plan is filed for the release.
    NotPlanned,
    /// 36: the final plan fails these rules.
    FinalFails { findings: Findings },
}

fn line_refusal_number(refusal: &LineRefusal) -> u64
    ensures { result ≡ spec.line_refusal_number refusal.now }
{
    match refusal {
        LineRefusal::NotSitting { .. } => 31,
        LineRefusal::NoSuchDesk => 32,
        LineRefusal::NotOffered { .. } => 33,
        LineRefusal::BadRelief => 34,
        LineRefusal::NotPlanned => 35,
        LineRefusal::FinalFails { .. } => 36,
    }
}

fn line_refusal_name(refusal: &LineRefusal) -> &'static str
    ensures { result.now ≡ spec.line_refusal_name refusal.now }
{
    match refusal {
        LineRefusal::NotSitting { .. } => "NotSitting",
        LineRefusal::NoSuchDesk => "NoSuchDesk",
        LineRefusal::NotOffered { .. } => "NotOffered",
        LineRefusal::BadRelief => "BadRelief",
        LineRefusal::NotPlanned => "NotPlanned",
        LineRefusal::FinalFails { .. } => "FinalFails",
    }
}

// Adds to whom a desk is offered, or null.
fn with_offered(
    alloc: Global,
    members: Members,
    offered: &Option<Text>,
) -> Result<Members, OutOfMemory>
    ensures { IfOk result (λ all. members_view all.entries
        ≡ put (codes "offered") (option_data text_data offered.now) (members_view members.entries)) }
{
    match offered {
        Some(person) => with_text(alloc, members, "offered", person.bytes()),
        None => with_value(alloc, members, "offered", Value::Null),
    }
}

// Adds the fields of a refusal, besides its number and its name.
fn with_line_fields(
    alloc: Global,
    refusal: &LineRefusal,
    members: Members,
) -> Result<Members, OutOfMemory>
    ensures { IfOk result (λ all. members_view all.entries
        ≡ spec.with_line_fields refusal.now (members_view members.entries)) }
{
    match refusal {
        LineRefusal::NotSitting { sitter } => with_text(alloc, members, "sitter", sitter.bytes()),
        LineRefusal::NotOffered { offered } => with_offered(alloc, members, offered),
        LineRefusal::FinalFails { findings } => {
            with_findings(alloc, members, findings.as_slice())
        }
        LineRefusal::NoSuchDesk | LineRefusal::BadRelief | LineRefusal::NotPlanned => Ok(members),
    }
}

fn line_refusal_value(alloc: Global, refusal: &LineRefusal) -> Result<Value, OutOfMemory>
    ensures { IfOk result (λ v. view v ≡ spec.line_refusal_data refusal.now) }
{
    let number = line_refusal_number(refusal);
    let members = numbered(alloc, number, line_refusal_name(refusal))?;
    Ok(Value::Object(with_line_fields(alloc, refusal, members)?))
}

fn seated_value(alloc: Global, desk: &[u8], sitter: &[u8]) -> Result<Value, OutOfMemory>
    ensures { IfOk result (λ v. view v ≡ spec.seated_data desk.now sitter.now) }
{
    let seated = with_text(alloc, Map::new(alloc), "desk", desk)?;
    let seated = with_text(alloc, seated, "sitter", sitter)?;
    let members = with_value(alloc, Map::new(alloc), "done", Value::Object(seated))?;
    Ok(Value::Object(members))
}

/// Writes a refusal of a line as JSON without white space, with its keys in byte order.
pub fn line_refusal_text(alloc: Global, refusal: &LineRefusal) -> Result<Text, OutOfMemory>
    ensures text { IfOk result (λ t. t ≡ line_refusal_text refusal.now) }
    // The text is read as JSON with the number, the name and the fields of the refusal, and nothing else.
    ensures json { IfOk result (IsJsonOf (spec.line_refusal_data refusal.now)) }
{
    let value = line_refusal_value(alloc, refusal)?;
    Ok(Text::from_vec(value.to_vec(alloc)?))
}

/// Writes the reply to a relief line that the desk accepted: the desk and who sits there now. It is JSON without white
/// space, with its keys in byte order.
pub fn seated_text(alloc: Global, desk: &[u8], sitter: &[u8]) -> Result<Text, OutOfMemory>
    ensures text { IfOk result (λ t. t ≡ seated_text desk.now sitter.now) }
    // The text is read as JSON with the desk and the sitter, and nothing else.
    ensures json { IfOk result (IsJsonOf (spec.seated_data desk.now sitter.now)) }
{
    let value = seated_value(alloc, desk, sitter)?;
    Ok(Text::from_vec(value.to_vec(alloc)?))
}
