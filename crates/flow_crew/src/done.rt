ghost use Rattle.flow_crew.specs.Done.{DoneRunsArePlain, DoneRunsCommit, DoneRunsAreCounted, SuccessIsAsDeclared};

/// A run whose tasks all succeed, of a workflow without tests and absences, never fails, goes back or is late. With room for
/// two entries a leaf and one more it ends committed. Where each leaf is an event, it has just two entries for each that is
/// done and one more.
pub fn law_done_runs_commit()
    ensures plain { DoneRunsArePlain }
    ensures commit { DoneRunsCommit }
    ensures counted { DoneRunsAreCounted }
    ensures declared { SuccessIsAsDeclared }
{}
