/// Which external object failed.
#[derive(Clone, Copy, Debug, PartialEq, Eq)]
pub enum MissOf {
    /// The keeper: it failed to store the changes of a call or of its tick, which weren't made.
    Keeper,
    /// The clock: no call was made.
    Clock,
}

/// A request of a lane that wasn't carried out because an external object failed.
#[derive(Clone, Copy, Debug, PartialEq, Eq)]
pub struct Miss {
    pub lane: u32,
    pub source: MissOf,
    /// The object's count of faults then.
    pub faults: u64,
}
