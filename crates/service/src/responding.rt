ghost use Rattle.std.specs.Prelude.{◌≡◌, false, IfErr, IfOk};
ghost use Rattle.connections.specs.declared.answers.Unanswered.TheVariants.{OutOfMemory as NoMemory};
ghost use Rattle.desk.specs.Shown.{CanBeSaid};
ghost use Rattle.http.specs.StatusCode.{IsStatusCode};
ghost use Rattle.service.specs.Connections.{IsTextOf, makes_call, said_response, uncalled_response};

use crate::requested::Requested;
use crate::responses::Response;
use connections::Unanswered;
use desk_io::{OutOfMemory, Text};
use desk_state::Said;
use std::alloc::Global;

/// The response with the reply to a call, or with the fault of a text that is no call.
pub fn response_to(alloc: Global, said: &Said) -> Result<Response, Unanswered>
    requires { CanBeSaid said.now }
    ensures ok { IfOk result (λ r. r ≡ said_response said.now) }
    ensures err { IfErr result (λ e. e ≡ NoMemory) }
    ensures code { IfOk result (λ r. IsStatusCode r.status) }
{
    match Response::of_said(alloc, said) {
        Ok(response) => Ok(response),
        Err(OutOfMemory) => Err(Unanswered::OutOfMemory),
    }
}

/// The response to a request that makes no call.
pub fn response_without(alloc: Global, requested: &Requested) -> Result<Response, OutOfMemory>
    requires { makes_call requested.now ≡ false }
    ensures ok { IfOk result (λ r. r ≡ uncalled_response requested.now) }
    ensures code { IfOk result (λ r. IsStatusCode r.status) }
{
    match requested {
        Requested::Bad(fault) => Response::of_bad(alloc, fault),
        Requested::NoRoute => Response::no_route(alloc),
        Requested::WrongMethod => Response::wrong_method(alloc),
        Requested::Call(_) => unreachable!(),
    }
}

/// The bytes of a response, if there is one.
pub fn text_of(alloc: Global, responded: Result<Response, Unanswered>) -> Result<Text, Unanswered>
    requires { IfOk responded (λ r. IsStatusCode r.status) }
    ensures { IsTextOf responded result }
{
    match responded {
        Ok(response) => match response.bytes(alloc) {
            Ok(text) => Ok(text),
            Err(OutOfMemory) => Err(Unanswered::OutOfMemory),
        },
        Err(why) => Err(why),
    }
}
