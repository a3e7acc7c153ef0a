// Sessions, their phases and their boundaries.
ghost use Rattle.std.specs.Prelude.{◌≡◌, find, nat_lt};
ghost use Rattle.session_phase.specs.Sessions.{AreSessions, is_open, next_boundary, phase_of};
ghost use Rattle.session_phase.specs.Sessions.{phase_in, session_boundaries};

use mkt_base::{Moment, Phase};

/// A session of the day: orders are collected from `accept` to just before `begin`, and traded from then to just before
/// `finish`.
#[derive(Clone, Copy, Debug, PartialEq, Eq)]
pub struct Session {
    pub accept: Moment,
    pub begin: Moment,
    pub finish: Moment,
}

/// What comes at a moment where the phase changes.
#[derive(Clone, Copy, Debug, PartialEq, Eq)]
pub enum Boundary {
    /// Collecting begins.
    Accept,
    /// Trading begins.
    Begin,
    /// The session ends.
    Finish,
}

impl Session {
    // Whether the moment lies within the session.
    fn is_open(&self, at: Moment) -> bool
        ensures { result ≡ is_open at self.now }
    {
        self.accept <= at && at < self.finish
    }

    // The phase at a moment of the session.
    fn phase(&self, at: Moment) -> Phase
        ensures { result ≡ phase_in at self.now }
    {
        if at < self.begin {
            Phase::Collecting
        } else {
            Phase::Trading
        }
    }

    // The first boundary of the session later than `after`.
    fn next_due(&self, after: Moment) -> Option<(Moment, Boundary)>
        ensures { result ≡ find (λ due. nat_lt after due.0) (session_boundaries self.now) }
    {
        if after < self.accept {
            return Some((self.accept, Boundary::Accept));
        }
        if after < self.begin {
            return Some((self.begin, Boundary::Begin));
        }
        if after < self.finish {
            return Some((self.finish, Boundary::Finish));
        }
        None
    }
}

/// The phase at a moment: that of the session within which it lies, and idle outside of all.
pub fn phase_at(sessions: &[Session], at: Moment) -> Phase
    requires { AreSessions sessions.now }
    ensures { result ≡ phase_of sessions.now at }
{
    for session in sessions {
        if session.is_open(at) {
            return session.phase(at);
        }
    }
    Phase::Idle
}

/// The first boundary of the day later than `after`, with its moment; none where the last session has ended by then.
pub fn next_due(sessions: &[Session], after: Moment) -> Option<(Moment, Boundary)>
    requires { AreSessions sessions.now }
    ensures { result ≡ next_boundary sessions.now after }
{
    for session in sessions {
        if let Some(due) = session.next_due(after) {
            return Some(due);
        }
    }
    None
}
