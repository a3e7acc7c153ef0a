// The copying of records from the synchronised nodes to one that joins.
ghost use Rattle.std.specs.Prelude.{◌≡◌, ◌≢◌, ◌+◌, ◌<◌, ◌≤◌, ℕ, List, true, false, None, length, slice_index_or, IfSome, ◌⊎◌};
ghost use Rattle.mkt_base.specs.declared.journal.NodeState.TheVariants.{Joining, Synchronised};
ghost use Rattle.mirror.specs.Calls.{IsJoining, Keeps, caught, lacks, reached};
ghost use Rattle.mirror.specs.Members.{AreHeld, Came, Failed, WasRead};
ghost use Rattle.mirror.specs.Mirrored.{HoldsAs};

use crate::member::Member;
use memory_node::MemoryNode;
use mkt_base::NodeState;

// The record at a place, from the first of two nodes that is synchronised and does not fail.
#[inline(always)]
fn read_any<N: MemoryNode>(a: &mut Member<N>, b: &mut Member<N>, at: u64) -> Option<[u8; 48]>
    requires a_within { a.old.state ≡ Synchronised → at < length a.old.contents }
    requires b_within { b.old.state ≡ Synchronised → at < length b.old.contents }
    ensures read { IfSome result (λ rec. (journal : List (List ℕ)) → HoldsAs journal a.old.state a.old.contents →
        HoldsAs journal b.old.state b.old.contents → rec ≡ slice_index_or journal at rec) }
    ensures a_none { result ≡ None → a.new.state ≢ Synchronised }
    ensures b_none { result ≡ None → b.new.state ≢ Synchronised }
    ensures a_read { WasRead a.old a.new }
    ensures b_read { WasRead b.old b.new }
{
    if let Some(rec) = a.read(at) {
        return Some(rec);
    }
    b.read(at)
}

// Copies the records of the places `from..end` to a node that joins a journal of so many entries, until it fails. Whether
// there was a source for each.
fn copy_all<N: MemoryNode>(
    to: &mut Member<N>,
    a: &mut Member<N>,
    b: &mut Member<N>,
    from: u64,
    end: u64,
    entries: u64,
) -> bool
    requires joining { to.old.state ≡ Joining from }
    requires ends { (from ≤ end) × (end ≤ entries) }
    requires room { end ≤ from + to.old.spare }
    requires mirrored { (journal : List (List ℕ)) × AreHeld journal entries to.old a.old b.old }
    ensures mirrored { (journal : List (List ℕ)) → AreHeld journal entries to.old a.old b.old →
        AreHeld journal entries to.new a.new b.new }
    ensures came { result ≡ true → (to.new.state ≡ reached entries end) ⊎ Failed to.old to.new }
    ensures joins { result ≡ false → IsJoining to.new.state }
    ensures still { end ≡ from → to.new ≡ to.old }
    ensures keeps { Keeps entries to.old to.new }
    ensures a_none { result ≡ false → a.new.state ≢ Synchronised }
    ensures b_none { result ≡ false → b.new.state ≢ Synchronised }
    ensures a_read { WasRead a.old a.new }
    ensures b_read { WasRead b.old b.new }
{
    for at in from..end {
        let Some(rec) = read_any(a, b, at) else {
            return false;
        };
        if !to.copy(&rec, at, entries) {
            return true;
        }
    }
    true
}

// Copies the next `limit` records to a node that joins a journal of so many entries, or all that it lacks, until it fails.
// Whether there was a source for each.
pub(crate) fn fill<N: MemoryNode>(
    to: &mut Member<N>,
    a: &mut Member<N>,
    b: &mut Member<N>,
    limit: u64,
    entries: u64,
) -> bool
    requires joining { IsJoining to.old.state }
    requires room { lacks entries to.old.state ≤ to.old.spare }
    requires mirrored { (journal : List (List ℕ)) × AreHeld journal entries to.old a.old b.old }
    ensures mirrored { (journal : List (List ℕ)) → AreHeld journal entries to.old a.old b.old →
        AreHeld journal entries to.new a.new b.new }
    ensures joins { result ≡ false → IsJoining to.new.state }
    ensures came { result ≡ true → Came (caught limit entries to.old.state) to.old to.new }
    ensures keeps { Keeps entries to.old to.new }
    ensures a_none { result ≡ false → a.new.state ≢ Synchronised }
    ensures b_none { result ≡ false → b.new.state ≢ Synchronised }
    ensures a_read { WasRead a.old a.new }
    ensures b_read { WasRead b.old b.new }
{
    let NodeState::Joining(from) = to.state else {
        unreachable!();
    };
    let end = if limit < entries - from {
        from + limit
    } else {
        entries
    };
    copy_all(to, a, b, from, end, entries)
}
