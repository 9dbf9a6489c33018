use desk_http::response;
use desk_io::{OutOfMemory, push_all};
use std::alloc::Global;
use std::test::Fail;

// Whether the response has that line, the two fields, an empty line and the body.
fn is_written(alloc: Global, status: u16, line: &[u8], body: &[u8]) -> Result<bool, OutOfMemory> {
    let count = body.len().to_string(alloc)?;
    let mut want = Vec::new(alloc);
    push_all(
        &mut want,
        &[b"HTTP/1.1 ", line, b"\r\nContent-Type: application/json"],
    )?;
    push_all(
        &mut want,
        &[b"\r\nContent-Length: ", count.as_bytes(), b"\r\n\r\n", body],
    )?;
    Ok(response(alloc, status.clamp(100, 599), body)?.bytes() == want.as_slice())
}

#[test]
fn each_status_has_its_response(rt: HostRuntime) -> Result<(), Fail> {
    let board = b"{\"seen\":\"BOARD 2025-03-12T17:00Z\\n\"}".as_slice();
    // phrases by RFC 7231, section 6, which has other ones for 413 than RFC 9110, and by RFC 4918, section 11
    for (status, line, body) in [
        (200, b"200 OK".as_slice(), board),
        (400, b"400 Bad Request", b"{\"error\":\"BadHead\"}"),
        (401, b"401 Unauthorized", b""),
        (403, b"403 Forbidden", b"{}"),
        (404, b"404 Not Found", b"{\"error\":\"NoRoute\"}"),
        (405, b"405 Method Not Allowed", b"{}"),
        (409, b"409 Conflict", b"{}"),
        (411, b"411 Length Required", b"{\"error\":\"NoLength\"}"),
        (413, b"413 Payload Too Large", b"{}"),
        (422, b"422 Unprocessable Entity", b"{}"),
        (500, b"500 Internal Server Error", b"{}"),
        (503, b"503 Service Unavailable", b"{}"),
        (507, b"507 Insufficient Storage", b"{}"),
    ] {
        assert!(rt; is_written(rt.alloc(), status, line, body)?, "{status}");
    }
    Ok(())
}
