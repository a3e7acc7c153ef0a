// The turns of an issue, as a table.
use super::cases::wrong;
use std::test::Fail;

// A case: how many entries at most, the calls of each node that fail, the acts; and what they answer, the journal, the states of the
// nodes: S, J or L; for each node the records that it holds, the most that it held, its faults.
const CASES: &str = "\
# no call fails
8 | - | - | - | c.a.d.m. | clock 1.0.100 2.0.100 3.200.0 | 1.0c 1.1o 1.2o 1.3o | SSS 4.4.0 4.4.0 4.4.0
# the journal is full
5 | - | - | - | c.c.c.c. | clock clock full2.3.5 full2.3.5 | 1.0c 1.1c | SSS 2.2.0 2.2.0 2.2.0
5 | - | - | - | c.x0r0c. | clock out0 full2.3.5 clock | 1.0c 1.1x0 1.2c | LSS 0.1.0 3.3.0 3.3.0
6 | - | - | - | c.x0r0c. | clock out0 in0 full3.3.6 | 1.0c 1.1x0 1.2r0 | SSS 3.3.0 3.3.0 3.3.0
# the second put of a node fails, and of all
8 | - | 1 | - | c.a. | clock 1.0.100 | 1.0c 1.1o 0.0x1 | SLS 3.3.0 0.1.1 3.3.0
8 | 1 | 1 | 1 | c.a.d.c. | clock none none none | 1.0c halted | LLL 0.1.1 0.1.1 0.1.1
# losses in their order, and losses while a loss is recorded
8 | 2 | - | - | c.a.d.m. | clock 1.0.100 2.0.100 4.200.0 | 1.0c 1.1o 1.2o 0.0x0 1.3o | LSS 0.2.1 5.5.0 5.5.0
8 | 2 | 3 | - | c.a.d.m. | clock 1.0.100 2.0.100 5.200.0 | 1.0c 1.1o 1.2o 0.0x0 0.1x1 1.3o | LLS 0.2.1 0.3.1 6.6.0
8 | 3 | 2 | - | c.a.d.m. | clock 1.0.100 2.0.100 5.200.0 | 1.0c 1.1o 1.2o 0.0x1 0.1x0 1.3o | LLS 0.3.1 0.2.1 6.6.0
8 | 2 | 2 | - | c.a.d.m. | clock 1.0.100 2.0.100 5.200.0 | 1.0c 1.1o 1.2o 0.0x0 0.1x1 1.3o | LLS 0.2.1 0.2.1 6.6.0
8 | 2 | 3 | 4 | c.a.d.m. | clock 1.0.100 none none | 1.0c 1.1o halted | LLL 0.2.1 0.3.1 0.4.1
8 | 0 | 0 | 0 | c.a.d.m. | none none none none | halted | LLL 0.0.1 0.0.1 0.0.1
# each node at each call, alone
8 | 0 | - | - | c.a.d.m. | clock 2.0.100 3.0.100 4.200.0 | 1.0c 0.0x0 1.1o 1.2o 1.3o | LSS 0.0.1 5.5.0 5.5.0
8 | 1 | - | - | c.a.d.m. | clock 1.0.100 3.0.100 4.200.0 | 1.0c 1.1o 0.0x0 1.2o 1.3o | LSS 0.1.1 5.5.0 5.5.0
8 | 3 | - | - | c.a.d.m. | clock 1.0.100 2.0.100 3.200.0 | 1.0c 1.1o 1.2o 1.3o 0.0x0 | LSS 0.3.1 5.5.0 5.5.0
8 | - | 0 | - | c.a.d.m. | clock 2.0.100 3.0.100 4.200.0 | 1.0c 0.0x1 1.1o 1.2o 1.3o | SLS 5.5.0 0.0.1 5.5.0
8 | - | 2 | - | c.a.d.m. | clock 1.0.100 2.0.100 4.200.0 | 1.0c 1.1o 1.2o 0.0x1 1.3o | SLS 5.5.0 0.2.1 5.5.0
8 | - | 3 | - | c.a.d.m. | clock 1.0.100 2.0.100 3.200.0 | 1.0c 1.1o 1.2o 1.3o 0.0x1 | SLS 5.5.0 0.3.1 5.5.0
8 | - | - | 0 | c.a.d.m. | clock 2.0.100 3.0.100 4.200.0 | 1.0c 0.0x2 1.1o 1.2o 1.3o | SSL 5.5.0 5.5.0 0.0.1
8 | - | - | 1 | c.a.d.m. | clock 1.0.100 3.0.100 4.200.0 | 1.0c 1.1o 0.0x2 1.2o 1.3o | SSL 5.5.0 5.5.0 0.1.1
8 | - | - | 2 | c.a.d.m. | clock 1.0.100 2.0.100 4.200.0 | 1.0c 1.1o 1.2o 0.0x2 1.3o | SSL 5.5.0 5.5.0 0.2.1
8 | - | - | 3 | c.a.d.m. | clock 1.0.100 2.0.100 3.200.0 | 1.0c 1.1o 1.2o 1.3o 0.0x2 | SSL 5.5.0 5.5.0 0.3.1
# crashes and rejoins; the last node is crashed
9 | - | - | - | x0x0r0r0 | out0 refused in0 refused | 1.0x0 1.1x0 1.2r0 1.3r0 | SSS 4.4.0 4.4.0 4.4.0
9 | - | - | - | x0x2x1c. | out0 out2 none none | 1.0x0 1.1x2 halted | LLL 0.0.0 0.2.0 0.1.0
# a node fails while it joins, or the source does
9 | 1 | - | - | c.x0r0c. | clock out0 in0 clock | 1.0c 1.1x0 1.2r0 0.0x0 1.3c | LSS 0.1.1 5.5.0 5.5.0
9 | - | 3 | - | c.x0r0c. | clock out0 in0 clock | 1.0c 1.1x0 1.2r0 0.0x1 1.3c | SLS 5.5.0 0.3.1 5.5.0
9 | - | 3 | 3 | c.x0r0c. | clock out0 none none | 1.0c 1.1x0 halted | LLL 0.1.0 0.3.1 0.3.1
";

#[test]
fn turns(rt: HostRuntime) -> Result<(), Fail> {
    let wrong = wrong(rt.alloc(), CASES)?;
    assert_eq!(rt; wrong.as_str(), "");
    Ok(())
}
