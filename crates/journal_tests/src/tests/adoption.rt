// Issues that are left and made again of their nodes, as a table.
use super::cases::wrong;
use std::test::Fail;

// A case: how many entries at most, the calls of each node that fail, the acts before the issue is left, and after it is made of its
// nodes; and what these answer, the journal, the states of the nodes, and the nodes; or none, and what the nodes hold.
const CASES: &str = "\
# no call fails
8 | - | - | - | c.c./m. | 2.0.200 | 1.0c 1.1c 1.2o | SSS 3.3.0 3.3.0 3.3.0
9 | - | - | - | c.a.d./m. | 3.200.0 | 1.0c 1.1o 1.2o 1.3o | SSS 4.4.0 4.4.0 4.4.0
8 | - | - | - | ./c. | clock | 1.0c | SSS 1.1.0 1.1.0 1.1.0
# one node was lost
9 | - | - | - | c.x0c./c. | clock | 1.0c 1.1x0 1.2c 1.3c | LSS 0.1.0 4.4.0 4.4.0
# the first read of each node fails
8 | 2 | 2 | 2 | c.c./m. | none 0.2.1 0.2.1 0.2.1
# the third read of the first node fails, and the next goes on
9 | 5 | - | - | c.a.d./m. | 4.200.0 | 1.0c 1.1o 1.2o 0.0x0 1.3o | LSS 0.3.1 5.5.0 5.5.0
# another node fails while that loss is written, and the last one too
9 | 3 | 6 | - | c.a.d./m. | 5.200.0 | 1.0c 1.1o 1.2o 0.0x0 0.1x1 1.3o | LLS 0.3.1 0.3.1 6.6.0
9 | 3 | 6 | 4 | c.a.d./m. | none 0.3.1 0.3.1 0.4.1
# a node joins a long journal in pieces, and the issue is left meanwhile
200 | - | - | - | \
c.c.c.c.c.c.c.c.c.c.c.c.c.c.c.c.c.c.c.c.c.c.c.c.c.c.c.c.c.c.c.c.c.c.c.c.c.c.c.c.c.c.c.c.c.c.c.c.c.\
c.c.c.c.c.c.c.c.c.c.c.c.c.c.c.c.c.c.c.c.c.c.c.c.c.c.c.c.c.c.c.c.c.c.c.c.c.c.c.c.c.c.c.c.c.c.c.c.c.c.\
x0r0/. | | 101 entries | JSS 64.99.0 101.101.0 101.101.0
200 | - | - | - | \
c.c.c.c.c.c.c.c.c.c.c.c.c.c.c.c.c.c.c.c.c.c.c.c.c.c.c.c.c.c.c.c.c.c.c.c.c.c.c.c.c.c.c.c.c.c.c.c.c.\
c.c.c.c.c.c.c.c.c.c.c.c.c.c.c.c.c.c.c.c.c.c.c.c.c.c.c.c.c.c.c.c.c.c.c.c.c.c.c.c.c.c.c.c.c.c.c.c.c.c.\
x0r0/c. | clock | 102 entries | SSS 102.102.0 102.102.0 102.102.0
# one node was lost, and another joins
200 | - | - | - | \
c.c.c.c.c.c.c.c.c.c.c.c.c.c.c.c.c.c.c.c.c.c.c.c.c.c.c.c.c.c.c.c.c.c.c.c.c.c.c.c.c.c.c.c.c.c.c.c.c.\
c.c.c.c.c.c.c.c.c.c.c.c.c.c.c.c.c.c.c.c.c.c.c.c.c.c.c.c.c.c.c.c.c.c.c.c.c.c.c.c.c.c.c.c.c.c.c.c.c.c.\
x1x0r0/. | | 102 entries | JLS 64.100.0 0.99.0 102.102.0
200 | - | - | - | \
c.c.c.c.c.c.c.c.c.c.c.c.c.c.c.c.c.c.c.c.c.c.c.c.c.c.c.c.c.c.c.c.c.c.c.c.c.c.c.c.c.c.c.c.c.c.c.c.c.\
c.c.c.c.c.c.c.c.c.c.c.c.c.c.c.c.c.c.c.c.c.c.c.c.c.c.c.c.c.c.c.c.c.c.c.c.c.c.c.c.c.c.c.c.c.c.c.c.c.c.\
x1x0r0/c. | clock | 103 entries | SLS 103.103.0 0.99.0 103.103.0
";

#[test]
fn adoption(rt: HostRuntime) -> Result<(), Fail> {
    let wrong = wrong(rt.alloc(), CASES)?;
    assert_eq!(rt; wrong.as_str(), "");
    Ok(())
}
