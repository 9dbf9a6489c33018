/// The kind of a report.
#[derive(Clone, Copy, Debug, PartialEq, Eq)]
pub enum Kind {
    /// A METAR or SPECI.
    Observation,
    /// A TAF.
    Forecast,
}
