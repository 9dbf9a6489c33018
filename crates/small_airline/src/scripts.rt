use desk_io::{OutOfMemory, push_all};
use std::alloc::Global;

/// Three forecasts, and a release that is drafted and then signed by dispatcher and captain. `push_script` reads
/// these lines.
pub const SIGNED: &str =
    r#"F1 1 17:25 "do":"admit","text":"TAF KBOS 121720Z 1218/1324 24010KT P6SM SCT040"
F1 2 17:25 "do":"admit","text":"TAF KJFK 121720Z 1218/1324 24010KT P6SM BKN030"
F1 3 17:25 "do":"admit","text":"TAF KPHL 121720Z 1218/1324 24010KT P6SM BKN030"
D1 1 17:30 "do":"draft","plan":{"captain":"C7","flight":"DK101","kind":"domestic","legs":[{"alternates":[{"fuel":3000,"minutes":35,"station":"KPHL"}],"burn":12000,"eta":"2025-03-12T19:00Z","etd":"2025-03-12T18:00Z","extra":0,"from":"KBOS","minimum":19500,"minutes":55,"onboard":20000,"takeoff_alternate":null,"to":"KJFK"}],"tail":"N801DK"}
D1 2 17:30 "do":"prepare","release":1
D1 3 17:31 "digest":"93552bd08bcf733af54f012ef3711733ecf23ec2726678302a0dba7d4b038410","do":"sign","release":1,"revision":1
C7 1 17:32 "digest":"93552bd08bcf733af54f012ef3711733ecf23ec2726678302a0dba7d4b038410","do":"concur","release":1,"revision":1
"#;

fn push_line<'a>(
    script: &mut Vec<u8>,
    actor: &'a str,
    number: &'a str,
    time: &'a str,
    ask: &'a str,
) -> Result<(), OutOfMemory> {
    let (actor, number) = (actor.as_bytes(), number.as_bytes());
    push_all(
        script,
        &[b"{\"actor\":\"", actor, b"\",\"ask\":{", ask.as_bytes()],
    )?;
    push_all(
        script,
        &[
            b"},\"at\":\"2025-03-12T",
            time.as_bytes(),
            b"Z\",\"key\":\"k",
        ],
    )?;
    push_all(script, &[actor, b"\",\"number\":", number, b"}\n"])
}

// The person, the number, the time and the ask of a line.
fn parts_of(line: &str) -> Option<(&str, &str, &str, &str)> {
    let (actor, rest) = line.split_once(" ")?;
    let (number, rest) = rest.split_once(" ")?;
    let (time, ask) = rest.split_once(" ")?;
    Some((actor, number, time, ask))
}

/// Adds the lines of a script. Each given line has a person, a number, a time on 2025-03-12 and the members of an
/// ask, with a blank between any two.
pub fn push_script(script: &mut Vec<u8>, lines: &str) -> Result<(), OutOfMemory> {
    for line in lines.split("\n") {
        if let Some((actor, number, time, ask)) = parts_of(line) {
            push_line(script, actor, number, time, ask)?;
        }
    }
    Ok(())
}

/// The script of such lines, which are given in two parts.
pub fn script_of(alloc: Global, lines: &str, more: &str) -> Result<Vec<u8>, OutOfMemory> {
    let mut script = Vec::new(alloc);
    push_script(&mut script, lines)?;
    push_script(&mut script, more)?;
    Ok(script)
}
