// The steps of the schedule, with the count of crashes among them.
ghost use Rattle.std.specs.Prelude.{◌≡◌, []};
ghost use Rattle.cq_grammar.specs.Calls.{Gives};
ghost use Rattle.cq_grammar.specs.Steps.{is_crash, with_run, with_runs, steps_of, crashes};

use crate::error::LineError;
use crate::steps::Run;
use crate::{StepWord, Steps, Why};
use std::alloc::{AllocError, Global};
use std::marker::Model;

/// How many steps a schedule may have.
const MOST_STEPS: usize = 1_000_000;

/// How many of them may be crashes.
const MOST_CRASHES: usize = 1000;

/// The steps of the schedule so far. A contract sees it as their list.
#[derive(Debug, Drop)]
pub struct Schedule {
    steps: Steps,
    crashes: usize,
}

impl Model for Schedule {
    ghost use Rattle.std.specs.Prelude.{List};
    ghost use Rattle.cq_grammar.specs.declared.script.StepWord.{StepWord};
    ghost use Rattle.cq_grammar.specs.Steps.{IsCounted};

    ghost Value = { List StepWord };

    ghost view = { λ s. s.steps };

    ghost invariant = { λ s. IsCounted s.steps s.crashes };
}

/// Whether a step ends the session with a crash.
fn is_crash(step: StepWord) -> bool
    ensures { result ≡ is_crash step }
{
    match step {
        StepWord::Crash { .. } | StepWord::Stop { .. } => true,
        StepWord::Client(_) | StepWord::Turn(_) | StepWord::Write | StepWord::Shift => false,
    }
}

/// How many crashes the steps of a word are.
fn crashes_of(run: Run) -> usize
    ensures { result ≡ crashes (steps_of run) }
{
    if is_crash(run.step) {
        run.times as usize
    } else {
        0
    }
}

impl Schedule {
    /// No step.
    pub fn new(alloc: Global) -> Schedule
        ensures { result ≡ [] }
    {
        Schedule {
            steps: Steps::new(alloc),
            crashes: 0,
        }
    }

    /// The steps. It takes no memory.
    pub fn into_steps(self) -> Steps
        ensures { result ≡ self }
    {
        self.steps
    }

    /// Adds the steps of a word, where a schedule may have them.
    fn add(&mut self, run: Run) -> Result<(), LineError>
        ensures { Gives result self.new (with_run self.old run) }
    {
        let crashes = crashes_of(run);
        let times = run.times as usize;
        if times > MOST_STEPS - self.steps.words().len() || crashes > MOST_CRASHES - self.crashes {
            return Err(LineError::Bad(Why::Many));
        }
        self.steps.repeat(run.step, run.times)?;
        self.crashes += crashes;
        Ok(())
    }

    /// Adds the steps of words, where a schedule may have all of them.
    pub fn extend(&mut self, runs: &[Run]) -> Result<(), LineError>
        ensures { Gives result self.new (with_runs self.old runs.now) }
    {
        for run in runs {
            self.add(*run)?;
        }
        Ok(())
    }
}
