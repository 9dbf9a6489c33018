use codes::Cond;
use desk_io::{Copied, Listed, OutOfMemory, Station};
use desk_time::Minute;
use std::alloc::Global;

/// Whether a TAF contains a forecast.
#[derive(Clone, Copy, Debug, PartialEq, Eq)]
pub enum TafState {
    /// It contains a forecast.
    Normal,
    /// It reports that there is no forecast (`NIL`).
    Nil,
    /// It cancels the forecast (`CNL`).
    Cancelled,
}

/// How a part changes the parts before it.
#[derive(Clone, Copy, Debug, PartialEq, Eq)]
pub enum PartKind {
    /// The conditions from the start of the validity on.
    Base,
    /// It replaces all earlier parts from its first moment on (`FM`).
    From,
    /// The conditions change to those of the part during its period (`BECMG`).
    Becoming,
    /// The conditions hold temporarily in its period (`TEMPO`).
    Tempo,
    /// The conditions may hold in its period (`PROB30` or `PROB40`).
    Prob,
}

/// One part of a forecast.
#[derive(Clone, Copy, Debug, PartialEq, Eq)]
pub struct Part {
    /// How it changes the parts before it.
    pub kind: PartKind,
    /// The first moment of its period.
    pub from: Minute,
    /// The last moment of its period.
    pub to: Minute,
    /// The condition that its groups report.
    pub cond: Cond,
}

/// The parts of a forecast in order, the base first.
pub type Parts = Listed<Part>;

/// The reading of a TAF.
#[derive(Debug, Drop)]
pub struct Taf {
    /// The airport of the forecast.
    pub station: Station,
    /// The moment of issue.
    pub issued: Minute,
    /// The first moment of validity. In a `Nil` TAF, the moment of issue.
    pub from: Minute,
    /// The last moment of validity. In a `Nil` TAF, the moment of issue.
    pub to: Minute,
    /// Whether it amends an earlier forecast (`AMD`).
    pub amended: bool,
    /// Whether it corrects an earlier forecast (`COR`).
    pub corrected: bool,
    /// Whether it contains a forecast.
    pub state: TafState,
    /// The parts of the forecast. Empty unless the state is `Normal`.
    pub parts: Parts,
}

impl Copied for Part {
    fn copy(&self, _alloc: Global) -> Result<Part, OutOfMemory> {
        Ok(*self)
    }
}

impl Copied for Taf {
    fn copy(&self, alloc: Global) -> Result<Taf, OutOfMemory> {
        Ok(Taf {
            station: self.station,
            issued: self.issued,
            from: self.from,
            to: self.to,
            amended: self.amended,
            corrected: self.corrected,
            state: self.state,
            parts: self.parts.copy(alloc)?,
        })
    }
}
