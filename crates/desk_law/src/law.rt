// The law of an issue whose gateways have done their lines.
ghost use Rattle.desk_law.specs.Laws.{EndIsPlayed};

use run_room::no_journal_is_full;

/// What the gateways did at the desks of an issue is, by the journal and the halt with which the issue was closed, what their lines ask
/// for: each gateway's entries are what it entered, each stop found no node, each board was read from a front part of the journal by whole
/// turns.
pub fn end_is_played()
    ensures { EndIsPlayed }
{
    no_journal_is_full();
}
