use desk_http::{Buffer, Wire, WireFault, next_request};
use desk_io::{OutOfMemory, push_all};
use desk_net::{Link, MemoryLink};
use std::alloc::Global;

fn fault_name(fault: WireFault) -> &'static [u8] {
    match fault {
        WireFault::End => b"End",
        WireFault::Cut => b"Cut",
        WireFault::BadHead => b"BadHead",
        WireFault::TooLarge => b"TooLarge",
        WireFault::NoLength => b"NoLength",
        WireFault::WrongMethod => b"WrongMethod",
        WireFault::ReadFault => b"ReadFault",
        WireFault::OutOfMemory => b"OutOfMemory",
    }
}

// A request as a line: its method, path, actor, key and body, and whether the connection ends after it.
fn push_request(out: &mut Vec<u8>, wire: &Wire) -> Result<(), OutOfMemory> {
    let method = if wire.get { "GET|" } else { "POST|" };
    let last = if wire.last { "|last\n" } else { "|on\n" };
    push_all(out, &[method.as_bytes(), wire.path.bytes(), b"|"])?;
    push_all(out, &[wire.actor.bytes(), b"|", wire.key.bytes(), b"|"])?;
    push_all(out, &[wire.body.bytes(), last.as_bytes()])
}

// The requests of a link, a line each, and then why there is no further one.
fn shown(alloc: Global, link: &mut MemoryLink) -> Result<Vec<u8>, OutOfMemory> {
    let mut buffer = Buffer::new(alloc);
    let mut shown = Vec::new(alloc);
    for _ in 0..20 {
        match next_request(alloc, link, &mut buffer) {
            Ok(wire) => push_request(&mut shown, &wire)?,
            Err(fault) => {
                shown.extend_from_slice(fault_name(fault))?;
                return Ok(shown);
            }
        }
    }
    Ok(shown)
}

// Whether a stream that comes in pieces of that size shows so.
pub(crate) fn shows(
    alloc: Global,
    input: &[u8],
    cut: usize,
    want: &[u8],
) -> Result<bool, OutOfMemory> {
    let input = Vec::from_slice(alloc, input)?;
    let mut link = MemoryLink::new(alloc, input, cut.max(1), Vec::new(alloc));
    Ok(shown(alloc, &mut link)?.as_slice() == want)
}

// Whether a stream in pieces of 16 bytes, of which one read fails, shows so.
pub(crate) fn shows_failing(
    alloc: Global,
    input: &[u8],
    call: u64,
    want: &[u8],
) -> Result<bool, OutOfMemory> {
    let input = Vec::from_slice(alloc, input)?;
    let fail = vec![in alloc; call]?;
    let mut link = MemoryLink::new(alloc, input, 16, fail);
    let same = shown(alloc, &mut link)?.as_slice() == want;
    Ok(same && link.faults() == 1 && link.written().is_empty())
}
