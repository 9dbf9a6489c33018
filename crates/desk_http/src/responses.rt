ghost use Rattle.std.specs.Prelude.{◌≡◌, IfOk, length};
ghost use Rattle.http.specs.StatusCode.{IsStatusCode};
ghost use Rattle.desk_http.specs.Responses as spec;

use desk_io::{OutOfMemory, Text, push_all};
use http::StatusCode;
use std::alloc::Global;

const LINE_END: &[u8] = b"\r\n";

fn phrase_of(status: u16) -> &'static str
    requires { IsStatusCode status }
    ensures { result.now ≡ spec.phrase_of status }
{
    match StatusCode::from_u16(status) {
        Ok(code) => code.canonical_reason().unwrap_or(""),
        Err(_) => "",
    }
}

fn status_line(alloc: Global, status: u16) -> Result<Vec<u8>, OutOfMemory>
    requires { IsStatusCode status }
    ensures { IfOk result (λ line. line.items ≡ spec.status_line status) }
{
    let code = status.to_string(alloc)?;
    let phrase = phrase_of(status);
    let mut line = Vec::new(alloc);
    push_all(
        &mut line,
        &[
            b"HTTP/1.1 ",
            code.as_bytes(),
            b" ",
            phrase.as_bytes(),
            LINE_END,
        ],
    )?;
    Ok(line)
}

fn field_lines(alloc: Global, media: &[u8], count: usize) -> Result<Vec<u8>, OutOfMemory>
    ensures { IfOk result (λ lines. lines.items ≡ spec.field_lines media.now count) }
{
    let count = count.to_string(alloc)?;
    let mut lines = Vec::new(alloc);
    push_all(&mut lines, &[b"Content-Type: ", media, LINE_END])?;
    push_all(
        &mut lines,
        &[b"Content-Length: ", count.as_bytes(), LINE_END],
    )?;
    Ok(lines)
}

/// Returns the bytes of a response (RFC 9112, section 4): status line, Content-Type, Content-Length, an empty line,
/// and the body. The status must have three digits. Its reason phrase is that of the crate http, which predates
/// RFC 9110 for 413 and 422.
#[tactic(auto, unfolding(crate::specs::Responses::typed_response))]
pub fn typed_response(
    alloc: Global,
    status: u16,
    media: &[u8],
    body: &[u8],
) -> Result<Text, OutOfMemory>
    requires { IsStatusCode status }
    ensures { IfOk result (λ text. text ≡ spec.typed_response status media.now body.now) }
{
    let line = status_line(alloc, status)?;
    let fields = field_lines(alloc, media, body.len())?;
    let mut bytes = Vec::new(alloc);
    push_all(&mut bytes, &[&line, &fields, LINE_END, body])?;
    Ok(Text::from_vec(bytes))
}

/// Returns the bytes of a response with a JSON body.
pub fn response(alloc: Global, status: u16, body: &[u8]) -> Result<Text, OutOfMemory>
    requires { IsStatusCode status }
    ensures { IfOk result (λ text. text ≡ spec.response status body.now) }
{
    typed_response(alloc, status, b"application/json", body)
}
