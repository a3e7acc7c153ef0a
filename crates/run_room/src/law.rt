// The law of an issue's room, over the definitions alone.
ghost use Rattle.run_room.specs.Laws.{NoJournalIsFull};

use issue_journal::losses_stay_few;

/// Where each gateway has entered no more events in an issue than its lines ask for, and one of them fewer, every front part of the journal
/// leaves room for one event more and for the losses that it may leave, in an issue that was opened for the events of the script's lines.
/// The order in which the gateways came plays no part.
pub fn no_journal_is_full()
    ensures { NoJournalIsFull }
{
    losses_stay_few();
}
