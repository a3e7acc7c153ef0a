// A law of histories, over the definitions alone.
ghost use Rattle.issue_journal.specs.Laws.{LossesStayFew};

/// In every history the number of the system's entries and of the nodes that are up at its end is at most three and one for each
/// rejoin. So an issue whose capacity is twice its events and four never answers `JournalFull`.
pub fn losses_stay_few()
    ensures { LossesStayFew }
{}
