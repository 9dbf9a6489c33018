use commands::{Gate, Program};
use timeouts::Taken;

/// Counts the workers that have a connection, around another gate, and knows the program's version.
#[derive(Drop)]
pub struct BusyGate<'a, G: Gate + Drop> {
    taken: &'a Taken,
    gate: G,
    name: &'a [u8],
}

impl<'a, G: Gate + Drop> BusyGate<'a, G> {
    pub fn new(taken: &'a Taken, gate: G, name: &'a [u8]) -> Self {
        BusyGate { taken, gate, name }
    }
}

impl<'a, G: Gate + Drop> Gate for BusyGate<'a, G> {
    fn expects(&self, items: u64) {
        self.gate.expects(items);
    }

    fn before(&self, lane: u32, line: u32) {
        self.taken.begin();
        self.gate.before(lane, line);
    }

    fn after(&self, lane: u32, line: u32) {
        self.gate.after(lane, line);
        self.taken.end();
    }
}

impl<'a, G: Gate + Drop> Program for BusyGate<'a, G> {
    fn name(&self) -> &[u8] {
        self.name
    }

    fn busy(&self) -> u64 {
        self.taken.count()
    }
}
