// Laws of the clock and of histories, over the definitions alone.
ghost use Rattle.issue_machine.specs.Laws.{DueStepsEnd, HistoryGoesOn, HistoryIsJournal, NodesGoByTheirRules};

/// The bound on the due steps of a clock event is never met: with any more of them nothing more is done, and no shown quote is
/// due up to the event's moment afterwards.
pub fn due_steps_end()
    ensures { DueStepsEnd }
{}

/// The nodes of a journal's state go by the rules of nodes alone, whatever else its entries do.
pub fn nodes_go_by_their_rules()
    ensures { NodesGoByTheirRules }
{}

/// A history is a journal that a machine may do from its first entry on.
pub fn history_is_journal()
    ensures { HistoryIsJournal }
{}

/// A machine that did a history is in its state, and may do every entry that follows it, while it has room.
pub fn history_goes_on()
    ensures { HistoryGoesOn }
{}
