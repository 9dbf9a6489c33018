use crate::fault::CaseFault;
use crate::play::Play;
use desk_io::OutOfMemory;
use std::alloc::Global;

/// The differences in the cases of a file, a line each, and their number.
#[derive(Drop)]
pub struct Report<'a> {
    file: &'a str,
    lines: String,
    count: u64,
}

// The place of a play: its file, its case, its number of `each`, and its step.
fn place_of(file: &str, play: &Play<'_>) -> Result<String, OutOfMemory> {
    let name = play.name();
    let mut place = format!(in play.alloc; "{file}: {name}")?;
    if let Some(each) = play.each {
        place.push_str(format!(in play.alloc; ", each {each}")?.as_str())?;
    }
    if let Some(step) = play.place {
        place.push_str(format!(in play.alloc; ", step {step}")?.as_str())?;
    }
    Ok(place)
}

impl<'a> Report<'a> {
    /// Starts without differences.
    pub fn new(alloc: Global, file: &'a str) -> Self {
        Report {
            file,
            lines: String::new(alloc),
            count: 0,
        }
    }

    /// A line for each difference.
    pub fn lines(&self) -> &str {
        self.lines.as_str()
    }

    /// The number of differences.
    pub fn count(&self) -> u64 {
        self.count
    }

    fn push(&mut self, alloc: Global, place: &str, what: &str) -> Result<(), OutOfMemory> {
        let line = format!(in alloc; "{place}: {what}\n")?;
        self.lines.push_str(line.as_str())?;
        self.count = self.count.saturating_add(1);
        Ok(())
    }

    /// Reports a fault of the whole file.
    pub fn of_file(&mut self, alloc: Global, what: &str) -> Result<(), OutOfMemory> {
        self.push(alloc, self.file, what)
    }

    /// Reports a difference in a play.
    pub fn says(&mut self, play: &Play<'_>, what: &str) -> Result<(), OutOfMemory> {
        let place = place_of(self.file, play)?;
        self.push(play.alloc, place.as_str(), what)
    }

    /// Reports a result that isn't the expected one.
    pub fn differs(
        &mut self,
        play: &Play<'_>,
        what: &str,
        wanted: &str,
        came: &str,
    ) -> Result<(), OutOfMemory> {
        let line = format!(in play.alloc; "{what}: wanted {wanted}, came {came}")?;
        self.says(play, line.as_str())
    }

    /// Reports why a play can't be made.
    pub fn unplayed(&mut self, play: &Play<'_>, fault: CaseFault<'_>) -> Result<(), OutOfMemory> {
        let why = fault.shown(play.alloc)?;
        self.says(play, why.as_str())
    }
}
