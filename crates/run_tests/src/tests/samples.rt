// Rules, and scripts of one issue and of two.
use std::alloc::{AllocError, Global};

/// Rules with two issues and four gateways.
pub(super) const RULES: &str =
    "special_ms = 180000\nsequential_ms = 60000\nticks = [[30000, 10], [1000000000, 50]]\nlimits = [[15000, 3000], [20000, 4000], [30000, 5000], [1000000001, 7000]]\nranges = [[15000, 300], [20000, 400], [30000, 500], [1000000001, 700]]\nsessions = [[\"08:00:00\", \"09:00:00\", \"11:30:00\"], [\"12:05:00\", \"12:30:00\", \"15:00:00\"]]\nrounds = [\"1u\", \"1/3\", \"1/2\", \"all\"]\nparticipants = [\"p1\", \"p2\", \"p3\", \"p4\", \"p5\", \"p6\", \"p7\", \"p8\"]\ngateways = [\"g1\", \"g2\", \"g3\", \"g4\"]\n\n[[issue]]\ncode = \"AAAA\"\nbase = 20000\nunit = 100\n\n[[issue]]\ncode = \"BBBB\"\nbase = 12000\nunit = 100\n";

const SECOND: &str = "\n[[issue]]\ncode = \"BBBB\"\nbase = 12000\nunit = 100\n";

const LAST_GATEWAY: &str = "\"g4\"]";

const LAST_OF_SIXTEEN: &str =
    "\"g4\", \"g5\", \"g6\", \"g7\", \"g8\", \"g9\", \"g10\", \"g11\", \"g12\", \"g13\", \"g14\", \"g15\", \"g16\"]";

/// The same rules with the first issue alone.
pub(super) fn one_issue(alloc: Global) -> Result<String, AllocError> {
    RULES.replace(alloc, SECOND, "")
}

/// The same rules with sixteen gateways.
pub(super) fn sixteen_gateways(alloc: Global) -> Result<String, AllocError> {
    RULES.replace(alloc, LAST_GATEWAY, LAST_OF_SIXTEEN)
}

/// A day of four gateways: an opening, losses of a node and its rejoins, and a close.
pub(super) const DAY: &str = "g1 * clock 08:00:00
barrier
g1 AAAA order p1 buy 20010 500
g1 AAAA show
g2 AAAA order p2 sell 19990 300
g2 AAAA show
g3 BBBB order p3 buy market 200
g3 BBBB show
g4 BBBB order p4 sell 12000 400
g4 BBBB show
barrier
g1 * clock 09:00:00
barrier
g1 AAAA order p1 sell 20020 100
g2 BBBB order p2 buy 12000 200
g3 AAAA order p3 buy 20010 100
g4 * crash 1
barrier
g4 * rejoin 1
barrier
g1 * clock 15:00:00
";
