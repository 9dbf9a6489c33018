use crate::fault::CaseFault;
use serde_json::Value;
use std::alloc::Global;

/// One play of a case or of one of its steps: its place in the file, and the number of `each`.
#[derive(Clone, Copy)]
pub struct Play<'a> {
    pub alloc: Global,
    /// The named texts of the file.
    pub texts: Option<&'a Value>,
    /// The keys and values that the cases of the file share.
    pub common: Option<&'a Value>,
    pub case: &'a Value,
    /// The step that is played, or the case if it has no steps.
    pub step: &'a Value,
    /// The number of the step, from 1.
    pub place: Option<usize>,
    /// The number for which `each` stands.
    pub each: Option<u64>,
}

impl<'a> Play<'a> {
    /// A case that is played once, without steps.
    pub fn of(alloc: Global, file: &'a Value, case: &'a Value) -> Self {
        Play {
            alloc,
            texts: file.get("texts"),
            common: file.get("common"),
            case,
            step: case,
            place: None,
            each: None,
        }
    }

    /// This play for a step. `place` counts the steps from 0.
    pub fn at_step(&self, step: &'a Value, place: usize) -> Self {
        Play {
            alloc: self.alloc,
            texts: self.texts,
            common: self.common,
            case: self.case,
            step,
            place: Some(place.saturating_add(1)),
            each: self.each,
        }
    }

    /// This play for a number of `each`.
    pub fn for_each(&self, number: u64) -> Self {
        Play {
            alloc: self.alloc,
            texts: self.texts,
            common: self.common,
            case: self.case,
            step: self.step,
            place: self.place,
            each: Some(number),
        }
    }

    /// The name of the case, or a placeholder if it has none.
    pub fn name(&self) -> &'a str {
        match self.case.get("name") {
            Some(name) => name.as_str().unwrap_or("a case with no name"),
            None => "a case with no name",
        }
    }

    /// The value at a key of the case, or of `common` if the case lacks the key.
    pub fn of_case(&self, key: &str) -> Option<&'a Value> {
        match self.case.get(key) {
            Some(found) => Some(found),
            None => self.common?.get(key),
        }
    }

    /// The value at a key of the step, or of the case or `common` if the step lacks the key.
    pub fn part(&self, key: &str) -> Option<&'a Value> {
        match self.step.get(key) {
            Some(found) => Some(found),
            None => self.of_case(key),
        }
    }

    /// The text of this name in the file.
    pub fn named(&self, name: &'a str) -> Result<&'a Value, CaseFault<'a>> {
        match self.texts {
            Some(texts) => texts.get(name).ok_or(CaseFault::NoText(name)),
            None => Err(CaseFault::NoText(name)),
        }
    }

    /// The number in a value. The string `each` stands for the number of this play.
    pub fn number(&self, value: &Value) -> Option<u64> {
        match value.as_str() {
            Some("each") => self.each,
            _ => value.as_u64(),
        }
    }
}
