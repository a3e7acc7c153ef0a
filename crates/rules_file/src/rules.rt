// The rules of a market day.
ghost use Rattle.std.specs.Prelude.{◌≡◌, ◌<◌, ◌≤◌, [], Some, length, position, slice_get, slice_index_or, IfOk, IfSome};
ghost use Rattle.std.specs.Str.{bytes_eq};
ghost use Rattle.toml.specs.View.{table_view};
ghost use Rattle.rules_file.specs.Faults.{Gives};
ghost use Rattle.rules_file.specs.Issues.{IsIssue};
ghost use Rattle.rules_file.specs.Rules.{IsRules, codes_in, gateways_in, issues_in, millis_at, participants_in, rules_in, rules_of};

use crate::RulesFault;
use crate::fault::too_many;
use crate::issue::{IssueRules, Issues};
use crate::issues::issues_at;
use crate::keys::integer_of;
use crate::lists::{bands_at, rounds_at, sessions_at, ticks_at};
use crate::names::{Names, names_at};
use crate::value::{document_of, value_at};
use allotment::Round;
use mkt_base::Rows;
use session_phase::Session;
use std::alloc::Global;
use tick_grid::{BandRow, TickRow};
use toml::Table;

/// How many bytes a rules file may have.
const MAX_BYTES: usize = 1_048_576;

/// The last millisecond of a day.
const MAX_MILLIS: u32 = 86_399_999;

/// How many participants and gateways there may be.
const MAX_PARTICIPANTS: usize = 64;

const MAX_GATEWAYS: usize = 16;

/// What a rules file says. Issues, participants and gateways are numbered from 0 in file order.
#[derive(Drop)]
pub struct Rules {
    /// How long a special quote stands before it is renewed, in milliseconds: 1 to 86,399,999.
    pub special_ms: u32,
    /// How long a sequential quote stands, in milliseconds: 1 to 86,399,999.
    pub sequential_ms: u32,
    /// The ticks by price, 1 to 32 rows.
    pub ticks: Rows<TickRow>,
    /// The widths of the daily limits by base price, 1 to 64 rows.
    pub limits: Rows<BandRow>,
    /// The ranges of a renewal by price, 1 to 64 rows.
    pub ranges: Rows<BandRow>,
    /// The sessions of the day, 1 to 4.
    pub sessions: Rows<Session>,
    /// The rounds of an allotment, 1 to 16.
    pub rounds: Rows<Round>,
    participants: Names,
    gateways: Names,
    issues: Issues,
}

impl Rules {
    /// How many issues there are, 1 to 64.
    pub fn issues(&self) -> u16
        requires { IsRules self.now }
        ensures value { result ≡ length (issues_in self.now) }
        ensures within { (1 ≤ result) × (result ≤ 64) }
    {
        self.issues.codes.count()
    }

    /// How many participants there are, 1 to 64.
    pub fn participants(&self) -> u16
        requires { IsRules self.now }
        ensures value { result ≡ length (participants_in self.now) }
        ensures within { (1 ≤ result) × (result ≤ 64) }
    {
        self.participants.count()
    }

    /// How many gateways there are, 1 to 16.
    pub fn gateways(&self) -> u16
        requires { IsRules self.now }
        ensures value { result ≡ length (gateways_in self.now) }
        ensures within { (1 ≤ result) × (result ≤ 16) }
    {
        self.gateways.count()
    }

    /// What the rules say of an issue.
    pub fn issue(&self, i: u16) -> IssueRules
        requires rules { IsRules self.now }
        requires number { i < length (issues_in self.now) }
        ensures value { slice_get (issues_in self.now) i ≡ Some result }
        ensures sound { IsIssue self.now.ticks self.now.limits result }
    {
        self.issues.rules.as_slice()[usize::from(i)]
    }

    /// The number of the issue with this code; none where there is no such issue.
    pub fn issue_named(&self, name: &str) -> Option<u16>
        requires { IsRules self.now }
        ensures value { result ≡ position (bytes_eq name.now) (codes_in self.now) }
        ensures within { IfSome result (λ i. i < length (issues_in self.now)) }
    {
        self.issue_of_word(name.as_bytes())
    }

    /// The same for a word of a script.
    #[inline(always)]
    pub fn issue_of_word(&self, word: &[u8]) -> Option<u16>
        requires { IsRules self.now }
        ensures value { result ≡ position (bytes_eq word.now) (codes_in self.now) }
        ensures within { IfSome result (λ i. i < length (issues_in self.now)) }
    {
        self.issues.codes.number_of(word)
    }

    /// The number of the participant of this name; none where there is no such participant.
    pub fn participant_named(&self, name: &str) -> Option<u16>
        ensures value { result ≡ position (bytes_eq name.now) (participants_in self.now) }
        ensures within { IfSome result (λ i. i < length (participants_in self.now)) }
    {
        self.participant_of_word(name.as_bytes())
    }

    /// The same for a word of a script.
    #[inline(always)]
    pub fn participant_of_word(&self, word: &[u8]) -> Option<u16>
        ensures value { result ≡ position (bytes_eq word.now) (participants_in self.now) }
        ensures within { IfSome result (λ i. i < length (participants_in self.now)) }
    {
        self.participants.number_of(word)
    }

    /// The number of the gateway of this name; none where there is no such gateway.
    pub fn gateway_named(&self, name: &str) -> Option<u16>
        ensures value { result ≡ position (bytes_eq name.now) (gateways_in self.now) }
        ensures within { IfSome result (λ i. i < length (gateways_in self.now)) }
    {
        self.gateway_of_word(name.as_bytes())
    }

    /// The same for a word of a script.
    #[inline(always)]
    pub fn gateway_of_word(&self, word: &[u8]) -> Option<u16>
        ensures value { result ≡ position (bytes_eq word.now) (gateways_in self.now) }
        ensures within { IfSome result (λ i. i < length (gateways_in self.now)) }
    {
        self.gateways.number_of(word)
    }

    /// The code of an issue.
    pub fn issue_name(&self, i: u16) -> &str
        requires rules { IsRules self.now }
        requires number { i < length (issues_in self.now) }
        ensures { result.now ≡ slice_index_or (codes_in self.now) i [] }
    {
        self.issues.codes.name(i)
    }

    /// The name of a participant.
    pub fn participant_name(&self, i: u16) -> &str
        requires { i < length (participants_in self.now) }
        ensures { result.now ≡ slice_index_or (participants_in self.now) i [] }
    {
        self.participants.name(i)
    }

    /// The name of a gateway.
    pub fn gateway_name(&self, i: u16) -> &str
        requires { i < length (gateways_in self.now) }
        ensures { result.now ≡ slice_index_or (gateways_in self.now) i [] }
    {
        self.gateways.name(i)
    }
}

// The milliseconds at a key.
#[tactic(auto, unfolding(crate::specs::Rules::millis_at))]
fn millis_at(alloc: Global, table: &Table, key: &str) -> Result<u32, RulesFault>
    ensures exact { Gives result (millis_at key.now (table_view table.now)) }
    ensures range { IfOk result (λ n. (1 ≤ n) × (n ≤ 86399999)) }
{
    integer_of(alloc, key, value_at(table, key), 1, MAX_MILLIS)
}

// What a table says.
#[tactic(auto, unfolding(crate::specs::Rules::rules_in))]
fn rules_in(alloc: Global, table: &Table) -> Result<Rules, RulesFault>
    ensures exact { Gives result (rules_in (table_view table.now)) }
    ensures sound { IfOk result IsRules }
{
    let special_ms = millis_at(alloc, table, "special_ms")?;
    let sequential_ms = millis_at(alloc, table, "sequential_ms")?;
    let ticks = ticks_at(alloc, table)?;
    let limits = bands_at(alloc, table, "limits")?;
    let ranges = bands_at(alloc, table, "ranges")?;
    let sessions = sessions_at(alloc, table)?;
    let rounds = rounds_at(alloc, table)?;
    let participants = names_at(alloc, table, "participants", MAX_PARTICIPANTS)?;
    let gateways = names_at(alloc, table, "gateways", MAX_GATEWAYS)?;
    let issues = issues_at(alloc, ticks.as_slice(), limits.as_slice(), table)?;
    Ok(Rules {
        special_ms,
        sequential_ms,
        ticks,
        limits,
        ranges,
        sessions,
        rounds,
        participants,
        gateways,
        issues,
    })
}

/// Reads a rules file, a TOML document of at most 1,048,576 bytes: what it says, or the first fault in the one order of
/// its checks. `Memory` comes only where there is no memory.
pub fn read_rules(alloc: Global, bytes: &[u8]) -> Result<Rules, RulesFault>
    ensures exact { Gives result (rules_of bytes.now) }
    ensures sound { IfOk result IsRules }
{
    if bytes.len() > MAX_BYTES {
        return Err(too_many(alloc, "bytes", 1_048_577));
    }
    let table = document_of(alloc, bytes)?;
    rules_in(alloc, &table)
}
