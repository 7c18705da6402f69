//! What is seen of a case.
ghost use Rattle.std.specs.Prelude.{◌≡◌};
ghost use Rattle.flow_trail.specs.Held as held;

use crate::case::Case;
use flow_case::CaseRun;
use flow_disk::Disk;
use flow_trail::Trail;

impl<D: Disk, T: Disk> Case<D, T> {
    ghost use Rattle.flow_case_cli.specs.Held.{case_of, keep_disk, trail_disk, start_of, said_in, is_broken};

    /// The run of the case, under its policy.
    pub fn run(&self) -> &CaseRun
        ensures { result.now ≡ case_of self.now }
    {
        &self.run
    }

    /// Its trail.
    pub fn trail(&self) -> &Trail<T>
        ensures said { held.said_in result.now ≡ said_in self.now }
        ensures start { held.start_of result.now ≡ start_of self.now }
        ensures disk { held.disk_of result.now ≡ trail_disk self.now }
    {
        &self.trail
    }

    /// Whether a step could not be kept. From then on nothing is done any more.
    pub fn is_broken(&self) -> bool
        ensures { result ≡ is_broken self.now }
    {
        self.broken
    }

    /// Finds at once what can be taken or done, so that questions about this state cost little. Nothing else changes.
    pub fn look_ahead(&mut self)
        ensures run { case_of self.new ≡ case_of self.old }
        ensures broken { is_broken self.new ≡ is_broken self.old }
        ensures keep { keep_disk self.new ≡ keep_disk self.old }
        ensures trail { trail_disk self.new ≡ trail_disk self.old }
        ensures start { start_of self.new ≡ start_of self.old }
        ensures said { said_in self.new ≡ said_in self.old }
    {
        self.run.look_ahead();
    }
}
