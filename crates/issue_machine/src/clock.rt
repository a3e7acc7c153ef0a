// The clock: boundaries of sessions and due moments of quotes, one after another.
ghost use Rattle.std.specs.Prelude.{◌≡◌, ◌<◌, ◌≤◌, MatchOption};
ghost use Rattle.issue_floor.specs.Floor.{IsUndue};
ghost use Rattle.issue_machine.specs.Advancing.{IsDueNext, IsFirstBoundary, IsNoBoundary, IsOnWay, WasAdvanced};
ghost use Rattle.issue_machine.specs.Clock.{due_moment, steps_to, take_clock};
ghost use Rattle.issue_machine.specs.Replying.{WasMoved, WasReplied};
ghost use Rattle.issue_machine.specs.Standing.{AwaitsFinish};

use issue_floor::Floor;
use mkt_base::{Moment, Reason, Reply, Watch};
use session_phase::{Boundary, next_due};

// A step that is due, and when: a boundary, or the due moment of the shown quote.
#[derive(Clone, Copy)]
pub(crate) struct DueStep {
    pub(crate) at: Moment,
    pub(crate) boundary: Option<Boundary>,
}

// When the shown quote is due.
fn quote_due(floor: &Floor) -> Option<Moment>
    ensures { result ≡ due_moment floor.now.state.quote }
{
    match floor.quote() {
        Some(quote) => quote.due,
        None => None,
    }
}

// The first boundary later than one moment and not later than another.
fn boundary_due(floor: &Floor, passed: Moment, to: Moment) -> Option<(Moment, Boundary)>
    requires { passed ≤ to }
    ensures { MatchOption result (IsNoBoundary floor.now.terms passed to) (IsFirstBoundary floor.now.terms passed to) }
{
    floor.stands();
    let Some(next) = next_due(floor.sessions(), passed) else {
        return None;
    };
    if next.0 <= to { Some(next) } else { None }
}

// The step that is due next up to a moment, where the boundaries up to `passed` are done. A quote comes before a boundary at the
// same moment.
fn next_step(floor: &Floor, passed: Moment, to: Moment) -> Option<DueStep>
    requires { IsOnWay floor.now.terms passed to floor.now.state }
    ensures { IsDueNext floor.now.terms passed to floor.now.state result }
{
    match (quote_due(floor), boundary_due(floor, passed, to)) {
        (None, None) => None,
        (None, Some((at, boundary))) => Some(DueStep {
            at,
            boundary: Some(boundary),
        }),
        (Some(due), None) => {
            if due <= to {
                Some(DueStep {
                    at: due,
                    boundary: None,
                })
            } else {
                None
            }
        }
        (Some(due), Some((at, boundary))) => {
            if due <= at {
                Some(DueStep {
                    at: due,
                    boundary: None,
                })
            } else {
                Some(DueStep {
                    at,
                    boundary: Some(boundary),
                })
            }
        }
    }
}

// Does the step that is due next up to a moment, and answers up to when the boundaries are done then; none where nothing is due.
fn advance<W: Watch>(floor: &mut Floor, passed: Moment, to: Moment, watch: &mut W) -> Option<Moment>
    requires { IsOnWay floor.old.terms passed to floor.old.state }
    ensures { WasAdvanced W.took passed to floor.old floor.new watch.old watch.new result }
{
    floor.stands();
    let step = next_step(floor, passed, to)?;
    match step.boundary {
        Some(boundary) => {
            floor.at_boundary(step.at, boundary, watch);
            Some(step.at)
        }
        None => {
            floor.serve(step.at, watch);
            Some(passed)
        }
    }
}

// Does all steps that are due up to a moment, and answers how many they were.
fn catch_up<W: Watch>(floor: &mut Floor, to: Moment, watch: &mut W) -> u32
    requires later { floor.old.state.now ≤ to }
    requires day { to < 86400000 }
    requires finish { AwaitsFinish floor.old.terms.sessions floor.old.state.now floor.old.state.phase }
    ensures steps { result ≡ (steps_to floor.old.terms to floor.old.state).steps }
    ensures moved { WasMoved W.took (steps_to floor.old.terms to floor.old.state).move floor.old floor.new watch.old watch.new }
    ensures later { floor.new.state.now ≤ to }
    ensures undue { IsUndue to floor.new.state.quote }
    ensures finish { AwaitsFinish floor.old.terms.sessions to floor.new.state.phase }
{
    floor.stands();
    let mut passed = floor.now();
    let mut steps = 0;
    while let Some(now_passed) = advance(floor, passed, to, watch) {
        passed = now_passed;
        steps += 1;
    }
    steps
}

/// Does a clock event.
pub fn take_clock<W: Watch>(floor: &mut Floor, at: Moment, watch: &mut W) -> Reply
    requires day { at < 86400000 }
    requires finish { AwaitsFinish floor.old.terms.sessions floor.old.state.now floor.old.state.phase }
    ensures replied { WasReplied W.took (take_clock floor.old.terms at floor.old.state) floor.old floor.new watch.old watch.new result }
    ensures finish { AwaitsFinish floor.old.terms.sessions floor.new.state.now floor.new.state.phase }
{
    let now = floor.now();
    if at < now {
        return Reply::Refused(Reason::TimeBack(now));
    }
    let steps = catch_up(floor, at, watch);
    floor.set_clock(at);
    Reply::Moment { steps }
}
