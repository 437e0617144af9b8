// The machine.
ghost use Rattle.std.specs.Prelude.{◌≡◌, ◌<◌, ◌^◌, IfOk, Some};
ghost use Rattle.khepri_types.specs.Exec.{shown_entry, exec, exec_command, opening_state};

use crate::kept::Kept;
use khepri_types::{Command, Entry, Reply};
use std::alloc::{AllocError, Global};
use std::marker::{Brand, Model};
use std::sync::ledger::{Blank, Ledger};
use step_count::Steps;

/// A tree and how many entries made it. It starts from the root alone, and two machines that were given the same entries stand for
/// the same state. After a call that answered `AllocError` the machine may only be dropped: it answers nothing else from then on.
#[derive(Drop)]
pub struct KhepriMachine {
    kept: Option<Kept>,
}

impl Model for KhepriMachine {
    ghost use Rattle.std.specs.Coded.{codes};
    ghost use Rattle.std.specs.FinMap.{code};
    ghost use Rattle.khepri_types.specs.contracts.condition.Condition as condition;
    ghost use Rattle.khepri_types.specs.contracts.script.Statement as statement;
    ghost use Rattle.khepri_types.specs.Exec.{State};
    ghost use Rattle.khepri_machine.specs.Keeping.{kept_state};

    ghost Value = { State };

    ghost coded = { Prim.hlevel (code, codes, condition.the_row.coded, statement.the_row.coded) };

    ghost view = { λ m. kept_state m.kept };
}

impl KhepriMachine {
    /// A machine that has applied nothing: its tree is the root alone.
    pub fn fresh(alloc: Global) -> Result<KhepriMachine, AllocError>
        ensures { IfOk result (λ m. m ≡ opening_state) }
    {
        Ok(KhepriMachine {
            kept: Some(Kept::fresh(alloc)?),
        })
    }

    /// How many entries were applied.
    pub fn position(&self) -> u64
        ensures { result ≡ self.now.position }
    {
        match &self.kept {
            Some(kept) => kept.position(),
            None => 0,
        }
    }

    /// Applies an entry and answers it.
    pub fn exec<L: Ledger>(
        &mut self,
        entry: &Entry,
        steps: &mut Steps<L>,
    ) -> Result<Reply, AllocError>
        requires room { self.old.position < 2 ^ 40 }
        ensures { IfOk result (λ reply. exec self.old (shown_entry entry.now) ≡ (Some reply, self.new)) }
    {
        match entry {
            Entry::Command {
                conn: _,
                line: _,
                cmd,
            } => self.exec_command(cmd, steps),
        }
    }

    /// Applies the entry of a command and answers it.
    pub fn exec_command<L: Ledger>(
        &mut self,
        cmd: &Command,
        steps: &mut Steps<L>,
    ) -> Result<Reply, AllocError>
        requires room { self.old.position < 2 ^ 40 }
        ensures { IfOk result (λ reply. exec_command self.old cmd.now ≡ (reply, self.new)) }
    {
        let Some(kept) = self.kept.take() else {
            return Err(AllocError);
        };
        let outcome = kept.outcome(cmd, steps)?;
        let (reply, kept) = kept.apply(outcome, steps)?;
        self.kept = Some(kept);
        Ok(reply)
    }

    /// Applies the entry of a command and answers it; the steps are not counted.
    pub fn exec_uncounted(&mut self, cmd: &Command) -> Result<Reply, AllocError>
        requires room { self.old.position < 2 ^ 40 }
        ensures { IfOk result (λ reply. exec_command self.old cmd.now ≡ (reply, self.new)) }
    {
        exec_from::<Brand>(self, cmd, Blank::new(1))
    }
}

// Applies the entry of a command and counts its steps from none.
fn exec_from<L: Ledger>(
    machine: &mut KhepriMachine,
    cmd: &Command,
    blank: Blank,
) -> Result<Reply, AllocError>
    requires blank { (blank.name ≡ L.name) × (blank.parts ≡ L.parts) × (0 < L.parts) }
    requires room { machine.old.position < 2 ^ 40 }
    ensures { IfOk result (λ reply. exec_command machine.old cmd.now ≡ (reply, machine.new)) }
{
    let mut steps = Steps::<L>::open(blank);
    machine.exec_command(cmd, &mut steps)
}
