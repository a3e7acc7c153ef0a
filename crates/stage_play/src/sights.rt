// What all gateways have seen of each issue, and how every desk comes to see it.
ghost use Rattle.std.specs.Prelude.{◌≡◌, ℕ, ◌<◌, length, map, slice_index_or, All};
ghost use Rattle.stage_play.specs.Seen.{CaughtUp, joined, seen_by, sight_at};
ghost use Rattle.stage_play.specs.Playing.{HasLevelled, desk_at};
ghost use Rattle.stage_play.specs.declared.part.Part.{Part};
ghost use Rattle.stage_play.specs.declared.seen.Sight.{Sight};

use crate::notes::{NOTHING, both, sight_at};
use crate::seen::catch_up;
use crate::{Part, SeenDesk, Sight};
use std::sync::Wait;
use std::thread;
use std::thread::Threads;

// What the desks of an issue have seen together.
fn sight_of<D: SeenDesk>(parts: &[Part<D>], issue: usize) -> Sight
    requires { All (λ (p : Part D). issue < length p.desks.items) parts.now }
    ensures { (d : D) → result ≡ seen_by (map (λ (p : Part D). D.state (desk_at p issue d)) parts.now) }
{
    let mut sight = NOTHING;
    for part in parts {
        sight = with_desk(sight, &part.desks[issue]);
    }
    sight
}

// The same, and what one desk more has seen.
fn with_desk<D: SeenDesk>(sight: Sight, desk: &D) -> Sight
    ensures { result ≡ joined sight (sight_at (D.state desk.now)) }
{
    both(sight, sight_at(desk))
}

// The same of each issue.
pub(crate) fn look<D: SeenDesk>(parts: &[Part<D>], sights: &mut [Sight])
    requires { All (λ (p : Part D). length sights.old ≡ length p.desks.items) parts.now }
    ensures { (issue : ℕ) (s : Sight) (d : D) → issue < length sights.old → slice_index_or sights.new issue s ≡ seen_by (map (λ (p : Part D). D.state (desk_at p issue d)) parts.now) }
{
    for (issue, sight) in sights.iter_mut().enumerate() {
        *sight = sight_of(parts, issue);
    }
}

// Each desk catches up with what all desks of its issue have seen.
fn catch_up_each<W: Wait, D: SeenDesk>(rt: &W, desks: &mut [D], sights: &[Sight])
    requires { length sights.now ≡ length desks.old }
    ensures { (issue : ℕ) (d : D) (s : Sight) → issue < length desks.old
        → CaughtUp D.state D.fixed D.caller D.tells (slice_index_or sights.now issue s) (slice_index_or desks.old issue d) (slice_index_or desks.new issue d) }
{
    for (issue, desk) in desks.iter_mut().enumerate() {
        catch_up(rt, desk, &sights[issue]);
    }
}

// The desks of a gateway catch up.
pub(crate) fn level_part<W: Wait, D: SeenDesk>(rt: &W, part: &mut Part<D>, sights: &[Sight])
    requires { length sights.now ≡ length part.old.desks.items }
    ensures { HasLevelled D.state D.fixed D.caller D.takes D.tells sights.now part.old part.new }
{
    catch_up_each(rt, part.desks.as_mut_slice(), sights);
}

// Every desk catches up. This starts no thread.
pub(crate) fn level<R: Threads + Wait + Sync, D: SeenDesk + Send>(
    rt: &R,
    parts: &mut [Part<D>],
    sights: &[Sight],
)
    requires { All (λ (p : Part D). length sights.now ≡ length p.desks.items) parts.old }
    ensures { (k : ℕ) (p : Part D) → k < length parts.old → HasLevelled D.state D.fixed D.caller D.takes D.tells sights.now (slice_index_or parts.old k p) (slice_index_or parts.new k p) }
{
    thread::for_each_mut(rt, parts, 1, &|_, part| level_part(rt, part, sights));
}
