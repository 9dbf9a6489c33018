ghost use Rattle.std.specs.Prelude.{◌≡◌, ◌≤◌};
ghost use Rattle.desk_io.specs.Planned.{is_planned, after};
ghost use Rattle.desk_net.specs.Calls.{faults_after};

/// The calls of an object in memory: which of them fail, how many were made, and how many faults were counted.
#[derive(Drop)]
pub struct Calls {
    fail: Vec<u64>,
    made: u64,
    faults: u64,
}

impl Calls {
    /// Starts with no call made. Allocates nothing.
    pub fn new(fail: Vec<u64>) -> Self
        ensures fail { result.fail.items ≡ fail.items }
        ensures made { result.made ≡ 0 }
        ensures faults { result.faults ≡ 0 }
    {
        Calls {
            fail,
            made: 0,
            faults: 0,
        }
    }

    /// Counts one more call, and returns whether it is planned to fail. If so, it also counts a fault.
    pub fn next_fails(&mut self) -> bool
        ensures planned { result ≡ is_planned self.old.fail.items self.old.made }
        ensures made { self.new.made ≡ after self.old.made }
        ensures faults { self.new.faults ≡ faults_after result self.old.faults }
        ensures later { self.old.faults ≤ self.new.faults }
        ensures fail { self.new.fail.items ≡ self.old.fail.items }
    {
        let call = self.made;
        self.made = call.saturating_add(1);
        let fails = self.fail.contains(&call);
        if fails {
            self.count_fault();
        }
        fails
    }

    /// Counts a fault.
    pub fn count_fault(&mut self)
        ensures faults { self.new.faults ≡ after self.old.faults }
        ensures later { self.old.faults ≤ self.new.faults }
        ensures made { self.new.made ≡ self.old.made }
        ensures fail { self.new.fail.items ≡ self.old.fail.items }
    {
        self.faults = self.faults.saturating_add(1);
    }

    /// Returns how many faults were counted.
    pub fn faults(&self) -> u64
        ensures { result ≡ self.now.faults }
    {
        self.faults
    }
}
