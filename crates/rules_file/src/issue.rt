// What a rules file says of its issues.
ghost use Rattle.std.specs.Prelude.{◌≡◌, ◌<◌, false, length, IfErr, IfOk};
ghost use Rattle.std.specs.List.{list_any};
ghost use Rattle.std.specs.Str.{bytes_eq};
ghost use Rattle.rules_file.specs.Issues.{no_issues, with_issue};

use crate::RulesFault;
use crate::names::Names;
use mkt_base::{Name, Price, Rows};
use std::alloc::Global;

/// What the rules say of an issue. Prices are in tenths of a yen.
#[derive(Clone, Copy, Debug, PartialEq, Eq)]
pub struct IssueRules {
    /// The base price of the day, on tick: 1 to 1,000,000,000.
    pub base: Price,
    /// The trading unit, in shares: 1 to 100,000,000.
    pub unit: u32,
    /// The least price of the grid.
    pub low: Price,
    /// The greatest price of the grid.
    pub high: Price,
    /// How many prices the grid has, 1 to 20,000.
    pub prices: u32,
}

// The issues by number, with their codes.
#[derive(Drop)]
pub(crate) struct Issues {
    pub(crate) codes: Names,
    pub(crate) rules: Rows<IssueRules>,
}

impl Issues {
    // No issues.
    pub(crate) fn new(alloc: Global) -> Issues
        ensures { result ≡ no_issues }
    {
        Issues {
            codes: Names::new(alloc),
            rules: Rows::new(Vec::new(alloc)),
        }
    }

    // The issues with one more at the end.
    pub(crate) fn with(self, alloc: Global, issue: (Name, IssueRules)) -> Result<Issues, RulesFault>
        requires few { length self.codes < 64 }
        requires fresh { list_any (bytes_eq issue.0) self.codes ≡ false }
        ensures ok { IfOk result (λ issues. issues ≡ with_issue self issue) }
        ensures memory { IfErr result (λ fault. fault ≡ RulesFault.Memory) }
    {
        let (code, rules) = issue;
        let codes = self
            .codes
            .with(alloc, code.as_str())
            .map_err(|_| RulesFault::Memory)?;
        let mut rows = self.rules.into_vec();
        rows.push(rules).map_err(|_| RulesFault::Memory)?;
        Ok(Issues {
            codes,
            rules: Rows::new(rows),
        })
    }
}
