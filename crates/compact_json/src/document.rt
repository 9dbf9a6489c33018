ghost use Rattle.std.specs.Prelude.{◌≡◌, IfOk, option_map};
ghost use Rattle.serde_json.specs.Read.{read};
ghost use Rattle.compact_json.specs.Elements.{data_in, data_at};

use crate::element::Element;
use crate::writing::{WriteFault, write_text};
use desk_io::OutOfMemory;
use json::{Reader, Scratch, Token};
use std::alloc::Global;

/// A JSON value in compact memory, at most a few times the bytes of its text.
#[derive(Drop)]
pub struct Document {
    bytes: Vec<u8>,
}

fn room_of_text(text: &str) -> usize {
    if text.len() < 256 {
        text.len() + 2
    } else {
        text.len().saturating_add(5)
    }
}

// Returns the most bytes that the box of a token takes.
fn room_of_token(token: Token<'_>) -> usize {
    match token {
        Token::Key(text) | Token::String(text) | Token::Number(text) => room_of_text(text),
        Token::BeginArray | Token::BeginObject => 5,
        Token::Bool(_) | Token::Null => 1,
        Token::EndArray | Token::EndObject | Token::Bad => 0,
    }
}

// Returns the room to reserve for a document, from its tokens. JSON text never takes more than three times its bytes.
fn room_for(text: &str, scratch: &mut Scratch) -> Result<usize, OutOfMemory> {
    let mut reader = Reader::new(text, scratch)?;
    let mut room = 0usize;
    'tokens: while let Some(token) = reader.next() {
        room = room.saturating_add(room_of_token(token));
    }
    Ok(room.min(text.len().saturating_mul(3)))
}

impl Document {
    /// Reads a document. Returns None if the text isn't JSON.
    pub fn of(alloc: Global, text: &str) -> Result<Option<Document>, OutOfMemory>
        ensures { IfOk result (λ d. option_map data_in d ≡ read text.now) }
    {
        let mut scratch = Scratch::new(alloc);
        let room = room_for(text, &mut scratch)?;
        let mut bytes = Vec::with_capacity(alloc, room)?;
        match write_text(text, &mut scratch, &mut bytes) {
            Ok(()) => Ok(Some(Document { bytes })),
            Err(WriteFault::NotJson) => Ok(None),
            Err(WriteFault::OutOfMemory) => Err(OutOfMemory),
        }
    }

    /// Returns the whole value.
    pub fn root(&self) -> Element<'_>
        ensures { data_at result ≡ data_in self.now }
    {
        Element { bytes: &self.bytes }
    }
}
