// The lines of a gateway, written down one after the other.
ghost use Rattle.std.specs.Prelude.{◌<◌, ◌≤◌, All};
ghost use Rattle.mkt_base.specs.declared.script.ScriptLine.{ScriptLine};
ghost use Rattle.gateway.specs.Ran.{AreInStages};

use mkt_base::{Act, Event, Participant, ScriptLine};
use std::alloc::{AllocError, Global};

// Lines over two issues, and the stage that they have come to.
#[derive(Drop)]
pub struct Lines {
    lines: Vec<ScriptLine>,
    stage: u32,
    ghost in_stages: { AreInStages lines.items },
    ghost come: { All (λ (l : ScriptLine). l.stage ≤ stage) lines.items },
    ghost known: { All (λ (l : ScriptLine). l.issue < 2) lines.items },
}

impl Lines {
    pub fn begin(alloc: Global) -> Lines {
        Lines {
            lines: Vec::new(alloc),
            stage: 0,
        }
    }

    // The next stage begins.
    pub fn barrier(&mut self) {
        self.stage = self.stage.saturating_add(1);
    }

    // A line more of this stage, of issue 0 or 1. An event names the line by its target.
    pub fn add(&mut self, line: u32, issue: u16, reads: bool) -> Result<(), AllocError>
        requires { issue < 2 }
    {
        let act = if reads {
            Act::Show
        } else {
            Act::Do(Event::Cancel {
                participant: Participant(1),
                target: line,
            })
        };
        self.lines.push(ScriptLine {
            line,
            stage: self.stage,
            issue,
            act,
        })?;
        Ok(())
    }

    // All of them.
    pub fn end(self) -> Vec<ScriptLine>
        ensures in_stages { AreInStages result.items }
        ensures known { All (λ (l : ScriptLine). l.issue < 2) result.items }
    {
        self.lines
    }
}
