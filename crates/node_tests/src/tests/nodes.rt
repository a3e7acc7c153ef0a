// What no contract says of nodes and racks: that calls succeed, and which of them fail.
ghost use Rattle.std.specs.Prelude.{◌≡◌, ◌+◌, ◌≤◌, [], length};
ghost use Rattle.memory_node.specs.declared.node.Label.{Label};

use memory_node::{Down, MemNode, MemRack, MemoryNode, NodeFails, Rack, RackFault};
use mkt_base::NodeNo;
use std::alloc::Global;
use std::test::Fail;

// Puts a record of this byte, reads a byte of the record at this place, or wipes the node. Nothing is done, with the
// answer 99, where there is no room or no such record.
fn done<N: MemoryNode>(node: &mut N, act: char, n: u8) -> Result<u8, Down>
    requires { length (N.contents node.old) + N.spare node.old ≡ 4 }
    ensures { length (N.contents node.new) + N.spare node.new ≡ 4 }
{
    let held = node.len();
    if act == 'p' && held < 4 {
        node.put(&[n; 48])?;
        return Ok(n);
    }
    if act == 'r' && u64::from(n) < held {
        let rec = node.read(u64::from(n))?;
        return Ok(rec[47]);
    }
    if act == 'w' {
        node.wipe();
        return Ok(0);
    }
    Ok(99)
}

#[test]
fn a_node_fails_at_its_calls(rt: HostRuntime) -> Result<(), Fail> {
    let alloc = rt.alloc();
    let k = NodeNo::new(1).ok_or("a node")?;
    let mut node = MemNode::make(alloc, 7, k, 4, vec![in alloc; 6, 2]?)?;
    for (act, n, want, len, most, faults) in [
        ('p', 1, Ok(1), 1, 1, 0),
        ('p', 2, Ok(2), 2, 2, 0),
        ('r', 0, Err(Down), 0, 2, 1),
        ('r', 0, Ok(99), 0, 2, 1),
        ('p', 3, Ok(3), 1, 2, 1),
        ('p', 4, Ok(4), 2, 2, 1),
        ('r', 1, Ok(4), 2, 2, 1),
        ('p', 5, Err(Down), 0, 2, 2),
        ('p', 6, Ok(6), 1, 2, 2),
        ('w', 0, Ok(0), 0, 2, 2),
        ('p', 7, Ok(7), 1, 2, 2),
        ('p', 8, Ok(8), 2, 2, 2),
        ('p', 9, Ok(9), 3, 3, 2),
        ('p', 10, Ok(10), 4, 4, 2),
        ('p', 11, Ok(99), 4, 4, 2),
        ('r', 0, Ok(7), 4, 4, 2),
        ('r', 3, Ok(10), 4, 4, 2),
    ] {
        assert_eq!(rt; done(&mut node, act, n), want, "at {act} {n}");
        assert_eq!(rt; node.len(), len, "at {act} {n}");
        assert_eq!(rt; node.most(), most, "at {act} {n}");
        assert_eq!(rt; node.faults(), faults, "at {act} {n}");
    }
    assert_eq!(rt; node.records().last(), Some(&[10; 48]));
    Ok(())
}

// Takes a node, puts records of the bytes 0, 1 and so on until one is not put or so many stand there, and gives it back.
fn filled<R: Rack>(
    rack: &mut R,
    alloc: Global,
    issue: u16,
    k: NodeNo,
    records: u8,
) -> Result<bool, RackFault>
    requires { (l : Label) → R.is_out rack.old l → ⊥ }
    ensures { (l : Label) → R.is_out rack.new l → ⊥ }
{
    let mut node = rack.take(alloc, issue, k, 3)?;
    let whole = fill(&mut node, records);
    rack.give(issue, k, node);
    Ok(whole)
}

fn fill<N: MemoryNode>(node: &mut N, records: u8) -> bool
    requires empty { N.contents node.old ≡ [] }
    requires room { 3 ≤ N.spare node.old }
    ensures { N.label node.new ≡ N.label node.old }
{
    for n in 0..records.min(3) {
        if node.put(&[n; 48]).is_err() {
            return false;
        }
    }
    true
}

#[test]
fn a_rack_keeps_what_it_is_given(rt: HostRuntime) -> Result<(), Fail> {
    let alloc = rt.alloc();
    let k = NodeNo::new(2).ok_or("a node")?;
    let calls = vec![in alloc; 1]?;
    let fails = vec![in alloc; NodeFails { issue: 1, k, calls }]?;
    let mut rack = MemRack::make(alloc, fails)?;
    for (issue, n, records, whole, last, most, faults) in [
        (1, 0, 3, true, Some(2), 3, 0),
        (1, 2, 2, false, None, 1, 1),
        (0, 2, 2, true, Some(1), 2, 0),
        (1, 2, 1, true, Some(0), 1, 0),
        (64, 1, 0, true, None, 0, 0),
    ] {
        let k = NodeNo::new(n).ok_or("a node")?;
        assert_eq!(rt;
            filled(&mut rack, alloc, issue, k, records)?,
            whole,
            "at {issue} {n}"
        );
        let node = rack.kept(issue, k).ok_or("a node that is back")?;
        assert_eq!(rt;
            node.records().last(),
            last.map(|n| [n; 48]).as_ref(),
            "at {issue} {n}"
        );
        assert_eq!(rt; node.most(), most, "at {issue} {n}");
        assert_eq!(rt; node.faults(), faults, "at {issue} {n}");
        assert!(rt; rack.kept(issue + 2, k).is_none(), "at {issue} {n}");
    }
    Ok(())
}
