// The law of a script that is replayed, over the definitions alone.
ghost use Rattle.run_law.specs.Laws.{ReplayIsRun};

/// A run in which the script's lines are done in file order is a run of the script: each gateway's events in its order, stage by stage, and
/// reads of boards that show what they may.
pub fn replay_is_run()
    ensures { ReplayIsRun }
{}
