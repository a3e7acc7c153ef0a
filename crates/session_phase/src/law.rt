// Laws of sessions, over the definitions alone.
ghost use Rattle.session_phase.specs.Laws.{BoundariesRise};

/// The boundaries of a day are in the order of their moments, no two at the same.
pub fn boundaries_rise()
    ensures { BoundariesRise }
{}
