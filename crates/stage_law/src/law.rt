// The laws of runs by stages.
ghost use Rattle.stage_law.specs.Laws.{PlayedIsRun, PlayedShows};

/// An issue in which every gateway did its lines, stage by stage, has each gateway's events once and in its order, those of a stage before
/// those of later ones; of a halted issue those before the halt.
pub fn played_is_run()
    ensures { PlayedIsRun }
{}

/// What the gateways of such issues read of their boards is what the lines ask for: each board is that of a front part of its journal,
/// with all entries of earlier stages, none of a later one, and of its own gateway's entries those of the lines before it.
pub fn played_shows()
    ensures { PlayedShows }
{}
