use crate::fault::CaseFault;
use crate::play::Play;
use desk_io::OutOfMemory;
use serde_json::Value;
use std::alloc::Global;

fn push_words(alloc: Global, words: &mut Vec<String>, text: &str) -> Result<(), OutOfMemory> {
    for word in text.split(" ") {
        if !word.is_empty() {
            words.push(String::from_str(alloc, word)?)?;
        }
    }
    Ok(())
}

fn listed_words(alloc: Global, listed: &[Value]) -> Result<Vec<String>, CaseFault<'static>> {
    let mut words = Vec::new(alloc);
    for word in listed {
        match word.as_str() {
            Some(word) => words.push(String::from_str(alloc, word)?)?,
            None => return Err(CaseFault::Unread("words")),
        }
    }
    Ok(words)
}

/// The arguments of the command.
pub fn words_of<'a>(play: &Play<'a>) -> Result<Vec<String>, CaseFault<'a>> {
    match play.part("words") {
        Some(Value::String(text)) => {
            let mut words = Vec::new(play.alloc);
            push_words(play.alloc, &mut words, text.as_str())?;
            Ok(words)
        }
        Some(Value::Array(listed)) => listed_words(play.alloc, listed.as_slice()),
        _ => Err(CaseFault::Unread("words")),
    }
}
