ghost use Rattle.std.specs.Prelude.{◌≡◌, codes, IfOk};
ghost use Rattle.desk.specs.Run.{said_text as text_said};
ghost use Rattle.desk.specs.Shown.{CanBeSaid};
ghost use Rattle.desk_json.specs.Replies.{bad_text as text_of_bad};
ghost use Rattle.http.specs.StatusCode.{IsStatusCode};
ghost use Rattle.service.specs.Exchanges as spec;
ghost use Rattle.service.specs.Statuses as statuses;
ghost use Rattle.service.specs.declared.responses.Media.TheVariants.{Json};

use crate::statuses::status_of;
use asks::BadCall;
use desk::said_text;
use desk_http::typed_response;
use desk_io::{OutOfMemory, Text};
use desk_json::bad_text;
use desk_state::Said;
use std::alloc::Global;

/// The media type of a body.
#[derive(Clone, Copy, Debug, PartialEq, Eq)]
pub enum Media {
    /// JSON (RFC 8259).
    Json,
    /// The text format of Prometheus, version 0.0.4.
    Metrics,
}

impl Media {
    fn name(self) -> &'static [u8]
        ensures { result.now ≡ spec.media_type self }
    {
        match self {
            Media::Json => b"application/json",
            Media::Metrics => b"text/plain; version=0.0.4; charset=utf-8",
        }
    }
}

/// The response to a request: a status of three digits, and a body.
#[derive(Drop)]
pub struct Response {
    pub status: u16,
    pub media: Media,
    pub body: Text,
}

impl Response {
    /// The bytes of the response.
    pub fn bytes(&self, alloc: Global) -> Result<Text, OutOfMemory>
        requires { IsStatusCode self.now.status }
        ensures { IfOk result (λ text. text ≡ spec.bytes_of self.now) }
    {
        typed_response(alloc, self.status, self.media.name(), self.body.bytes())
    }

    /// The response with the reply to a call, or with the fault of a text that is no call.
    pub fn of_said(alloc: Global, said: &Said) -> Result<Response, OutOfMemory>
        requires { CanBeSaid said.now }
        ensures status { IfOk result (λ r. r.status ≡ statuses.status_of said.now) }
        ensures media { IfOk result (λ r. r.media ≡ Json) }
        ensures body { IfOk result (λ r. r.body ≡ text_said said.now) }
        ensures code { IfOk result (λ r. IsStatusCode r.status) }
    {
        let body = said_text(alloc, said)?;
        Ok(Response {
            status: status_of(said),
            media: Media::Json,
            body,
        })
    }

    /// The response to a body that is no call: status 400, with the first fault.
    pub fn of_bad(alloc: Global, fault: &BadCall) -> Result<Response, OutOfMemory>
        ensures status { IfOk result (λ r. r.status ≡ 400) }
        ensures media { IfOk result (λ r. r.media ≡ Json) }
        ensures body { IfOk result (λ r. r.body ≡ text_of_bad fault.now) }
    {
        let body = bad_text(alloc, fault)?;
        Ok(Response {
            status: 400,
            media: Media::Json,
            body,
        })
    }

    /// The response to a path that names nothing: status 404.
    pub fn no_route(alloc: Global) -> Result<Response, OutOfMemory>
        ensures { IfOk result (λ r. r ≡ spec.failing 404 (codes "NoRoute")) }
    {
        let body = Text::of(alloc, b"{\"error\":\"NoRoute\"}")?;
        Ok(Response {
            status: 404,
            media: Media::Json,
            body,
        })
    }

    /// The response to a path that takes the other method: status 405.
    pub fn wrong_method(alloc: Global) -> Result<Response, OutOfMemory>
        ensures { IfOk result (λ r. r ≡ spec.failing 405 (codes "WrongMethod")) }
    {
        let body = Text::of(alloc, b"{\"error\":\"WrongMethod\"}")?;
        Ok(Response {
            status: 405,
            media: Media::Json,
            body,
        })
    }
}
