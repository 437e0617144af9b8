// The state, with the index of its watches.
ghost use Rattle.std.specs.Prelude.{◌≡◌, ◌<◌, ◌^◌, IfOk};
ghost use Rattle.khepri_types.specs.Exec.{exec_command, opening_state};
ghost use Rattle.khepri_machine.specs.Outcomes.{reply_and_next, IsOver};

use crate::follow::follow;
use crate::links::paths_to_link;
use crate::outcome::Outcome;
use khepri_types::{Command, Reply};
use reverse_watch::Watchers;
use std::alloc::{AllocError, Global};
use std::marker::Model;
use std::sync::ledger::Ledger;
use step_count::Steps;
use tree_commands::{is_change, tree_command};
use tree_nodes::Tree;

/// A state: the tree, in which no node fails, and how many entries made it. The index holds exactly the watches of the tree.
#[derive(Drop)]
pub(crate) struct Kept {
    alloc: Global,
    tree: Tree,
    watchers: Watchers,
    position: u64,
}

impl Model for Kept {
    ghost use Rattle.std.specs.Prelude.{IsTrue};
    ghost use Rattle.std.specs.Coded.{codes};
    ghost use Rattle.std.specs.FinMap.{code};
    ghost use Rattle.khepri_types.specs.contracts.condition.Condition as condition;
    ghost use Rattle.khepri_types.specs.contracts.script.Statement as statement;
    ghost use Rattle.khepri_types.specs.Exec.{State};
    ghost use Rattle.khepri_types.specs.Settling.{stable};
    ghost use Rattle.worklist_laws.specs.Links.{HoldsWatches};

    ghost Value = { State };

    ghost coded = { Prim.hlevel (code, codes, condition.the_row.coded, statement.the_row.coded) };

    ghost view = { λ m. record { tree = m.tree; position = m.position } };

    ghost invariant = { λ m. IsTrue (stable m.tree) × HoldsWatches m.tree m.watchers };
}

impl Kept {
    pub(crate) fn fresh(alloc: Global) -> Result<Kept, AllocError>
        ensures { IfOk result (λ m. m ≡ opening_state) }
    {
        Ok(Kept {
            alloc,
            tree: Tree::fresh(alloc)?,
            watchers: Watchers::fresh(alloc),
            position: 0,
        })
    }

    pub(crate) fn position(&self) -> u64
        ensures { result ≡ self.now.position }
    {
        self.position
    }

    /// What an entry comes to becomes the next state, and the index follows where nodes watch, or watched, something.
    pub(crate) fn apply<L: Ledger>(
        self,
        outcome: Outcome,
        steps: &mut Steps<L>,
    ) -> Result<(Reply, Kept), AllocError>
        requires room { self.position < 2 ^ 40 }
        requires over { IsOver self.tree outcome }
        ensures { IfOk result (λ r. reply_and_next self outcome ≡ (r.0, r.1)) }
    {
        let mut kept = self;
        match outcome {
            Outcome::Same(reply) => {
                kept.position += 1;
                Ok((reply, kept))
            }
            Outcome::Changed(reply, changes, paths) => {
                kept.tree.absorb(changes, steps)?;
                follow(&kept.tree, paths.as_slice(), &mut kept.watchers, steps)?;
                kept.position += 1;
                Ok((reply, kept))
            }
        }
    }

    // What a command comes to.
    pub(crate) fn outcome<L: Ledger>(
        &self,
        cmd: &Command,
        steps: &mut Steps<L>,
    ) -> Result<Outcome, AllocError>
        ensures value { IfOk result (λ o. exec_command self.now cmd.now ≡ reply_and_next self.now o) }
        ensures over { IfOk result (λ o. IsOver self.now.tree o) }
    {
        let mut draft = self.tree.draft();
        let reply = tree_command(cmd, &mut draft, &self.watchers, steps)?;
        if !is_change(&reply) {
            return Ok(Outcome::Same(reply));
        }
        let paths = paths_to_link(&draft, &self.watchers, steps)?;
        Ok(Outcome::Changed(reply, draft.into_changes(), paths))
    }
}
