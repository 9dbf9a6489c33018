ghost use Rattle.std.specs.Prelude.{◌≡◌, IfOk};

use crate::Call;
use desk_io::OutOfMemory;
use std::alloc::Global;
use std::marker::Model;

/// A call in a box, which keeps a list of many lines small if most of them aren't calls.
#[derive(Debug, Drop)]
pub struct HeldCall {
    call: Box<Call>,
}

impl Model for HeldCall {
    ghost use Rattle.asks.specs.declared.call.Call.{Call as ACall};

    ghost Value = { ACall };

    ghost view = { λ h. h.call.value };
}

impl HeldCall {
    /// Moves a call into a box.
    pub fn of(alloc: Global, call: Call) -> Result<HeldCall, OutOfMemory>
        ensures { IfOk result (λ h. h ≡ call) }
    {
        Ok(HeldCall {
            call: Box::new(alloc, call)?,
        })
    }

    /// Returns the call.
    pub fn get(&self) -> &Call
        ensures { result.now ≡ self.now }
    {
        &self.call
    }
}
