// The words of names, sides, phases and states.
ghost use Rattle.std.specs.Prelude.{◌≡◌};
ghost use Rattle.mkt_base.specs.Certificate.{side_word};
ghost use Rattle.mkt_base.specs.ReportWords.{name_of, node_state_word, phase_word, quote_kind_word};
ghost use Rattle.rules_file.specs.Rules.{IsRules, participants_in};
ghost use Rattle.run_report.specs.Report.{caller_word};

use mkt_base::{Caller, NodeState, Participant, Phase, QuoteKind, Side};
use rules_file::Rules;

// The name of a participant, and nothing where there is no such participant.
pub(crate) fn participant_name(rules: &Rules, participant: Participant) -> &str
    requires { IsRules rules.now }
    ensures { result.now ≡ name_of (participants_in rules.now) participant.0 }
{
    if participant.0 >= rules.participants() {
        return "";
    }
    rules.participant_name(participant.0)
}

// The name of a gateway, a dash for the system, and nothing where there is no such gateway.
pub(crate) fn caller_name(rules: &Rules, caller: Caller) -> &str
    requires { IsRules rules.now }
    ensures { result.now ≡ caller_word rules.now caller.0 }
{
    if caller.0 == 0 {
        return "-";
    }
    let gateway = caller.0 - 1;
    if gateway >= rules.gateways() {
        return "";
    }
    rules.gateway_name(gateway)
}

pub(crate) fn side_name(side: Side) -> &'static str
    ensures { result.now ≡ side_word side }
{
    match side {
        Side::Buy => "buy",
        Side::Sell => "sell",
    }
}

pub(crate) fn phase_name(phase: Phase) -> &'static str
    ensures { result.now ≡ phase_word phase }
{
    match phase {
        Phase::Idle => "idle",
        Phase::Collecting => "collecting",
        Phase::Trading => "trading",
    }
}

pub(crate) fn quote_kind_name(kind: QuoteKind) -> &'static str
    ensures { result.now ≡ quote_kind_word kind }
{
    match kind {
        QuoteKind::Special => "special",
        QuoteKind::Sequential => "sequential",
    }
}

pub(crate) fn node_state_name(state: NodeState) -> &'static str
    ensures { result.now ≡ node_state_word state }
{
    match state {
        NodeState::Lost => "lost",
        NodeState::Joining(_) => "joining",
        NodeState::Synchronised => "synchronised",
    }
}
