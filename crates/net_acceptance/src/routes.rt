use desk_http::{Patterns, RouteFault, Routed, Wire, route};
use desk_io::{OutOfMemory, Text, push_all};
use std::alloc::Global;
use std::test::Fail;

fn wire_of(alloc: Global, get: bool, path: &[u8]) -> Result<Wire, OutOfMemory> {
    Ok(Wire {
        get,
        path: Text::of(alloc, path)?,
        actor: Text::of(alloc, b"")?,
        key: Text::of(alloc, b"")?,
        body: Text::of(alloc, b"")?,
        last: false,
    })
}

fn push_routed(alloc: Global, out: &mut Vec<u8>, routed: &Routed) -> Result<(), OutOfMemory> {
    match routed {
        Routed::Post => push_all(out, &[b"call"]),
        Routed::Board => push_all(out, &[b"board"]),
        Routed::Alerts => push_all(out, &[b"alerts"]),
        Routed::Release(id) => {
            let id = id.to_string(alloc)?;
            push_all(out, &[b"release ", id.as_bytes()])
        }
        Routed::Weather(station) => push_all(out, &[b"weather ", &station.bytes()]),
        Routed::Deferred(tail) => push_all(out, &[b"deferred ", tail.bytes()]),
    }
}

// Whether a request by that method and path is routed so.
fn is_routed(alloc: Global, get: bool, path: &[u8], want: &[u8]) -> Result<bool, OutOfMemory> {
    let patterns = Patterns::new(alloc)?;
    let mut shown = Vec::new(alloc);
    match route(alloc, &patterns, &wire_of(alloc, get, path)?) {
        Ok(routed) => push_routed(alloc, &mut shown, &routed)?,
        Err(RouteFault::NoRoute) => push_all(&mut shown, &[b"NoRoute"])?,
        Err(RouteFault::WrongMethod) => push_all(&mut shown, &[b"WrongMethod"])?,
        Err(RouteFault::OutOfMemory) => return Err(OutOfMemory),
    }
    Ok(shown.as_slice() == want)
}

// Whether a path is routed so by the one method and by the other.
fn goes_to(alloc: Global, path: &[u8], get: &[u8], post: &[u8]) -> Result<bool, OutOfMemory> {
    Ok(is_routed(alloc, true, path, get)? && is_routed(alloc, false, path, post)?)
}

#[test]
fn paths_and_methods_have_their_routes(rt: HostRuntime) -> Result<(), Fail> {
    let wrong = b"WrongMethod".as_slice();
    for (path, get, post) in [
        (b"/call".as_slice(), wrong, b"call".as_slice()),
        (b"/board", b"board", wrong),
        (b"/alerts", b"alerts", wrong),
        (b"/release/7", b"release 7", wrong),
        (b"/release/007", b"release 7", wrong),
        (b"/release/9999999999", b"release 9999999999", wrong),
        (b"/weather/KJFK", b"weather KJFK", wrong),
        (b"/deferred/N801DK", b"deferred N801DK", wrong),
        (b"/deferred/%41", b"deferred %41", wrong),
        (b"/deferred/12345678", b"deferred 12345678", wrong),
        (b"/deferred/\xc3\xa9", b"deferred \xc3\xa9", wrong),
        (b"/deferred/\xff", b"NoRoute", b"NoRoute"),
        (b"/board\xff", b"NoRoute", b"NoRoute"),
        (b"", b"NoRoute", b"NoRoute"),
    ] {
        assert!(rt; goes_to(rt.alloc(), path, get, post)?, "{path:?}");
    }
    Ok(())
}

// Paths of no route, with blanks between them.
const UNROUTED: &str = "/ * /nowhere board /board/ //board /BOARD /boards /call/1 \
    /release /release/ /release/00000000001 /release/7/ /release/7a /release/-7 /release/+7 \
    /weather/ /weather/kjfk /weather/KJF /weather/KJFKX /weather/KJFK/ /deferred/ /deferred/123456789 /deferred/a/b";

#[test]
fn other_paths_have_no_route_by_any_method(rt: HostRuntime) -> Result<(), Fail> {
    for path in UNROUTED.split(" ") {
        let agrees = goes_to(rt.alloc(), path.as_bytes(), b"NoRoute", b"NoRoute")?;
        assert!(rt; agrees, "{path}");
    }
    Ok(())
}
