//! The calls made on an object in memory.

ghost use Rattle.std.specs.Prelude.{
  ◌≡◌,
  ◌≤◌,
  ◌↔◌,
  Contains,
  OnOk,
  OnErr,
  IsErr,
};
ghost use Rattle.byte_io.specs.Counts.{raised};

use munge_types::Failed;

/// Counts the calls made on an object, fails those that are to fail, and counts the faults.
#[derive(Drop)]
pub(super) struct Calls {
    pub(super) fails: Vec<u32>,
    pub(super) made: u64,
    pub(super) faults: u64,
}

impl Calls {
    /// No call was made; those whose numbers are in `fails` are to fail, counted from 1.
    pub(super) fn new(fails: Vec<u32>) -> Calls
        ensures fails { result.fails ≡ fails }
        ensures made { result.made ≡ 0 }
        ensures faults { result.faults ≡ 0 }
    {
        Calls {
            fails,
            made: 0,
            faults: 0,
        }
    }

    /// Begins the next call, which fails where its number says so.
    pub(super) fn begin(&mut self) -> Result<(), Failed>
        ensures numbered { self.new.made ≡ raised self.old.made }
        ensures planned { IsErr result ↔ Contains self.old.fails.items self.new.made }
        ensures failed { OnErr result (self.new.faults ≡ raised self.old.faults) }
        ensures sound { OnOk result (self.new.faults ≡ self.old.faults) }
        ensures faults_stay { self.old.faults ≤ self.new.faults }
        ensures kept { self.new.fails ≡ self.old.fails }
    {
        self.made = self.made.saturating_add(1);
        let made = self.made;
        if self.fails.iter().any(|number| u64::from(*number) == made) {
            return Err(self.fault());
        }
        Ok(())
    }

    /// The call fails for a reason of the object's own.
    pub(super) fn fault(&mut self) -> Failed
        ensures failed { self.new ≡ record self.old { faults = raised self.old.faults } }
        ensures faults_stay { self.old.faults ≤ self.new.faults }
    {
        self.faults = self.faults.saturating_add(1);
        Failed
    }
}
