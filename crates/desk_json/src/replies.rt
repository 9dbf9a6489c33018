ghost use Rattle.std.specs.Prelude.{◌≡◌, IfOk};
ghost use Rattle.serde_json.specs.View.{view};
ghost use Rattle.asks.specs.Ranges.{ReplyHasMoment};
ghost use Rattle.desk_json.specs.Replies as spec;
ghost use Rattle.desk_json.specs.Replies.{bad_text, reply_text};

use crate::refusals::refusal_value;
use asks::{BadCall, CallWhy, Done, Reply, done_value, text_value, with_name, with_text};
use desk_io::{OutOfMemory, Text};
use serde_json::{Map, Value};
use std::alloc::Global;

fn done_reply(alloc: Global, done: &Done) -> Result<Value, OutOfMemory>
    ensures { IfOk result (λ v. view v ≡ spec.reply_data (Reply.Done done.now)) }
{
    let mut map = Map::new(alloc);
    map.insert(String::from_str(alloc, "done")?, done_value(alloc, done)?)?;
    Ok(Value::Object(map))
}

fn seen_reply(alloc: Global, text: &Text) -> Result<Value, OutOfMemory>
    ensures { IfOk result (λ v. view v ≡ spec.reply_data (Reply.Seen text.now)) }
{
    let mut map = Map::new(alloc);
    map.insert(
        String::from_str(alloc, "seen")?,
        text_value(alloc, text.bytes())?,
    )?;
    Ok(Value::Object(map))
}

fn reply_value(alloc: Global, reply: &Reply) -> Result<Value, OutOfMemory>
    requires { ReplyHasMoment reply.now }
    ensures { IfOk result (λ v. view v ≡ spec.reply_data reply.now) }
{
    match reply {
        Reply::Done(done) => done_reply(alloc, done),
        Reply::Seen(text) => seen_reply(alloc, text),
        Reply::Refused(refusal) => refusal_value(alloc, refusal),
    }
}

/// Writes a reply as JSON without white space, with its keys in byte order.
pub fn reply_text(alloc: Global, reply: &Reply) -> Result<Text, OutOfMemory>
    requires { ReplyHasMoment reply.now }
    ensures { IfOk result (λ t. t ≡ reply_text reply.now) }
{
    let value = reply_value(alloc, reply)?;
    Ok(Text::from_vec(value.to_vec(alloc)?))
}

fn call_why_name(why: CallWhy) -> &'static str
    ensures { result.now ≡ spec.call_why_name why }
{
    match why {
        CallWhy::NotJson => "NotJson",
        CallWhy::NotObject => "NotObject",
        CallWhy::Extra => "Extra",
        CallWhy::Missing => "Missing",
        CallWhy::BadValue => "BadValue",
        CallWhy::UnknownAsk => "UnknownAsk",
    }
}

fn bad_value(alloc: Global, bad: &BadCall) -> Result<Value, OutOfMemory>
    ensures { IfOk result (λ v. view v ≡ spec.bad_data bad.now) }
{
    let members = with_name(alloc, Map::new(alloc), "bad", call_why_name(bad.why))?;
    let members = with_text(alloc, members, "key", bad.key.bytes())?;
    Ok(Value::Object(members))
}

/// Writes the fault of a call, with its reason and its key, as JSON without white space. The keys are in byte order.
pub fn bad_text(alloc: Global, bad: &BadCall) -> Result<Text, OutOfMemory>
    ensures { IfOk result (λ t. t ≡ bad_text bad.now) }
{
    let value = bad_value(alloc, bad)?;
    Ok(Text::from_vec(value.to_vec(alloc)?))
}
