//! The calls of a source or a sink in memory that fail.
ghost use Rattle.std.specs.Prelude.{◌≡◌, ◌↔◌, IsTrue, Contains};
ghost use Rattle.forms.specs.Memory.{counted_up};

/// Which calls fail, by their numbers from 0, and how many were made and failed so far.
#[derive(Drop)]
pub struct Faults {
    pub fails: Vec<u64>,
    pub calls: u64,
    pub count: u64,
}

impl Faults {
    /// Counts a call, and says whether it fails.
    pub fn next_call_fails(&mut self) -> bool
        ensures fails { IsTrue result ↔ Contains self.old.fails.items self.old.calls }
        ensures counted { self.new ≡ record self.old { calls = counted_up self.old.calls 1 } }
    {
        let call = self.calls;
        self.calls = call.saturating_add(1);
        self.fails.contains(&call)
    }

    /// Counts a call that failed.
    pub fn count_fault(&mut self)
        ensures { self.new ≡ record self.old { count = counted_up self.old.count 1 } }
    {
        self.count = self.count.saturating_add(1);
    }
}
