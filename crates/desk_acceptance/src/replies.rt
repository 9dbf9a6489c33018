use desk_io::OutOfMemory;
use desk_json::{CallFault, read_reply};
use std::alloc::Global;
use std::test::Fail;

fn is_reply(alloc: Global, text: &str) -> Result<bool, OutOfMemory> {
    match read_reply(alloc, text.as_bytes()) {
        Ok(_) => Ok(true),
        Err(CallFault::Bad(_)) => Ok(false),
        Err(CallFault::OutOfMemory) => Err(OutOfMemory),
    }
}

// The texts of replies.
const REPLIES: &str = r#"{"done":{"report":1}}
{"seen":"BOARD\n"}
{"held":18446744073709551615,"refused":7,"why":"ReportsFull"}
{"phase":"COMPLETED 2099-12-31T23:59Z","refused":18,"why":"WrongPhase"}
{"now":"2100-01-01T00:00Z","refused":29,"why":"BadFound"}"#;

// Texts that are none: with a blank, an escape that isn't needed, a number too great, another number of a refusal, a
// moment too late, and that of a line that is no call.
const OTHERS: &str = r#"{"done": {"report":1}}
{"seen":"BOARD\u000a"}
{"held":18446744073709551616,"refused":7,"why":"ReportsFull"}
{"held":1,"refused":23,"why":"ReportsFull"}
{"phase":"COMPLETED 2100-01-01T00:00Z","refused":18,"why":"WrongPhase"}
{"bad":"Missing","key":"actor"}"#;

#[test]
fn only_the_text_of_a_reply_is_read(rt: HostRuntime) -> Result<(), Fail> {
    for text in REPLIES.split("\n") {
        assert!(rt; is_reply(rt.alloc(), text)?, "{text}");
    }
    for text in OTHERS.split("\n") {
        assert!(rt; !is_reply(rt.alloc(), text)?, "{text}");
    }
    Ok(())
}
