ghost use Rattle.std.specs.Prelude.{◌≡◌, ◌<◌, ◌≤◌, ◌++◌, ◌∷◌, [], Some, IfOk, length, take};
ghost use Rattle.std.specs.Option.{option_map};
ghost use Rattle.std.specs.Str.{bytes_eq};
ghost use Rattle.pg_wire.specs.Answers as spec;
ghost use Rattle.pg_wire.specs.Answers.{HasAnswered, told_of};
ghost use Rattle.pg_wire.specs.Crossing.{came, took};

use crate::{Lost, read_message};
use desk_net::Link;

/// How many bytes of each message of an answer are looked at.
pub const FRONT: usize = 512;

// The most messages of an answer.
const MOST_MESSAGES: u64 = 100_000_000;

/// What an answer has said so far.
#[derive(Clone, Copy, Debug, PartialEq, Eq)]
pub struct Answer {
    /// The number of commands that were completed.
    pub completed: u64,
    /// The SQLSTATE of the latest error, if the server reported one.
    pub refused: Option<[u8; 5]>,
    /// Whether the latest row has one column, the text `t` of a true boolean.
    pub is_true: bool,
}

impl Answer {
    /// Nothing was said yet.
    pub fn new() -> Answer
        ensures { told_of result ≡ spec.silent }
    {
        Answer {
            completed: 0,
            refused: None,
            is_true: false,
        }
    }
}

/// Returns the SQLSTATE of an error, or five question marks if it has none.
pub fn sqlstate(content: &[u8]) -> [u8; 5] {
    for field in content.split(|b| *b == 0) {
        if let [b'C', a, b, c, d, e] = field {
            return [*a, *b, *c, *d, *e];
        }
    }
    *b"?????"
}

fn one_more(so_far: Answer) -> Option<Answer>
    ensures { option_map told_of result ≡ spec.one_more (told_of so_far) }
{
    if so_far.completed < MOST_MESSAGES {
        Some(Answer {
            completed: so_far.completed + 1,
            refused: so_far.refused,
            is_true: so_far.is_true,
        })
    } else {
        None
    }
}

fn is_true(content: &[u8]) -> bool
    ensures { result ≡ bytes_eq content.now spec.true_row }
{
    content == [0, 1, 0, 0, 0, 1, b't'].as_slice()
}

/// Returns what an answer says after one more message with this tag and this front of its content, or None if the
/// message ends the session.
#[tactic(auto, unfolding(crate::specs::Answers::noted))]
pub fn noted(so_far: Answer, tag: u8, content: &[u8]) -> Option<Answer>
    ensures { option_map told_of result ≡ spec.noted (told_of so_far) tag content.now }
{
    match tag {
        b'C' => one_more(so_far),
        b'D' => Some(Answer {
            completed: so_far.completed,
            refused: so_far.refused,
            is_true: is_true(content),
        }),
        b'E' => Some(Answer {
            completed: so_far.completed,
            refused: Some(sqlstate(content)),
            is_true: so_far.is_true,
        }),
        b'1' | b'2' | b'n' | b'T' | b'S' | b'A' => Some(so_far),
        _ => None,
    }
}

/// Reads an answer to its end, which is that the server is ready outside a transaction.
#[tactic(auto, using(crate::proofs::Settling::come_none, crate::proofs::Settling::come_more, crate::proofs::Settling::come_settled))]
pub fn settle<L: Link>(link: &mut L) -> Result<Answer, Lost>
    ensures read { IfOk result
        (λ a. HasAnswered (came (L.seen link.old).crossed) (came (L.seen link.new).crossed) (told_of a)) }
    ensures sent { took (L.seen link.new).crossed ≡ took (L.seen link.old).crossed }
{
    let mut content = [0u8; FRONT];
    let mut answer = Answer::new();
    for _ in 0..MOST_MESSAGES {
        let seen = read_message(link, &mut content)?;
        let front = &content[..seen.kept];
        if seen.tag == b'Z' {
            return if front == b"I".as_slice() {
                Ok(answer)
            } else {
                Err(Lost)
            };
        }
        let Some(more) = noted(answer, seen.tag, front) else {
            return Err(Lost);
        };
        answer = more;
    }
    Err(Lost)
}
