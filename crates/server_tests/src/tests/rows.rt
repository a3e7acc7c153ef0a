// The calls of a server, one after another, as tables.
//
// A case: how many entries at most, the call of each node that fails, the acts, and what they answer; then what the pass says: how many
// entries it has seen, how many it has made, how many passes it has met, and the halt that it has seen; and then the journal, and what
// halted the issue. An act is an event that is entered after an exclamation mark, one that is tried after a question mark, or two
// points for the board. Of two callers the first acts, then the second, and then the first again.
use super::cases::wrong;
use std::test::Fail;

const ANSWERS: &str = "\
# an opening
10 | - | - | - | !e!b!s!c.. | clock1.0.0 accepted1.0.100 accepted2.0.100 clock1.0.0 board4.20000.19990.20010.trading.- | 4.4.0 - | 1.0c288 1.1o0 1.2o1 1.3c324 -
# tries enter their events where nobody else has the turn
10 | - | - | - | ?c | clock2.0.0 | 1.1.0 - | 1.0c324 -
10 | - | - | - | ?c?b!s | clock2.0.0 accepted1.0.100 accepted2.0.100 | 3.3.0 - | 1.0c324 1.1o0 1.2o1 -
# a node that fails is lost behind the event
10 | - | 0 | - | ?c!b.. | clock2.0.0 accepted2.0.100 board3.20000.19990.0.trading.- | 3.2.0 - | 1.0c324 0.0x1 1.1o0 -
";

#[test]
fn answers_to_one_caller(rt: HostRuntime) -> Result<(), Fail> {
    let wrong = wrong(&rt, rt.alloc(), ANSWERS)?;
    assert_eq!(rt; wrong.as_str(), "");
    Ok(())
}

const STOPS: &str = "\
# no room, at once and behind an entry
3 | - | - | - | ?c | full0.3.3 | 0.0.0 - | -
3 | - | - | - | !c.. | full0.3.3 board0.20000.0.0.idle.- | 0.0.0 - | -
4 | - | - | - | !c!l?l | clock2.0.0 full1.3.4 full1.3.4 | 1.1.0 - | 1.0c324 -
# a lost node leaves more room
4 | - | - | - | !0!c?l | out0.0.0 clock2.0.0 full2.2.4 | 2.2.0 - | 1.0x0 1.1c324 -
# all nodes fail at once
10 | 0 | 0 | 0 | !c?l!l.. | none0.0.0 none0.0.0 none0.0.0 board0.20000.0.0.idle.- | 0.0.0 1.0c324 | 1.0c324
10 | 0 | 0 | 0 | ?c!l | none0.0.0 none0.0.0 | 0.0.0 1.0c324 | 1.0c324
# the last node is crashed
10 | - | - | - | !c!0!2!1?c!c | clock2.0.0 out0.0.0 out2.0.0 none0.0.0 none0.0.0 none0.0.0 | 3.3.0 1.3x1 | 1.0c324 1.1x0 1.2x2 1.3x1
# one node after another fails while the losses are written
10 | 2 | 3 | 4 | !c!b!s?b | clock2.0.0 accepted1.0.100 none0.0.0 none0.0.0 | 2.2.0 1.2o1 | 1.0c324 1.1o0 1.2o1
";

#[test]
fn stops(rt: HostRuntime) -> Result<(), Fail> {
    let wrong = wrong(&rt, rt.alloc(), STOPS)?;
    assert_eq!(rt; wrong.as_str(), "");
    Ok(())
}

const TWO: &str = "\
# the second is shown what it has seen already, and the first what the second entered
10 | - | - | - | !c/!s../.. | clock2.0.0 accepted1.0.100 board2.20000.0.20010.trading.- board2.20000.0.20010.trading.- | 2.1.0 - || 2.1.1 - | 1.0c324 2.0o1 -
# the second has seen more than the first
10 | - | - | - | !c/..!s?b/ | clock2.0.0 board1.20000.0.0.trading.- accepted1.0.100 accepted2.0.100 | 3.2.0 - || 3.1.1 - | 1.0c324 2.0o1 2.1o0 -
# the first has seen more than the second
10 | - | - | - | !c/?b/!s.. | clock2.0.0 accepted1.0.100 accepted2.0.100 board3.20000.19990.20010.trading.- | 2.1.0 - || 3.2.1 - | 1.0c324 2.0o0 1.1o1 -
# a halt by the first, which the second had not seen, and by the second
10 | 0 | 0 | 0 | !c/!b?b/!l | none0.0.0 none0.0.0 none0.0.0 none0.0.0 | 0.0.0 1.0c324 || 0.0.1 1.0c324 | 1.0c324
10 | 1 | 1 | 1 | !c/?b../?s!s | clock2.0.0 none0.0.0 board1.20000.0.0.trading.- none0.0.0 none0.0.0 | 1.0.0 2.0o0 || 1.1.1 2.0o0 | 1.0c324 2.0o0
# the first learns of a halt from the pass that it meets
10 | 1 | 1 | 1 | !c/!b/ | clock2.0.0 none0.0.0 | 1.0.0 2.0o0 || 1.1.1 2.0o0 | 1.0c324 2.0o0
";

#[test]
fn answers_to_two_callers(rt: HostRuntime) -> Result<(), Fail> {
    let wrong = wrong(&rt, rt.alloc(), TWO)?;
    assert_eq!(rt; wrong.as_str(), "");
    Ok(())
}
