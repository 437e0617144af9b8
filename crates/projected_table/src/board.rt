// A board over one value of tables.
ghost use Rattle.std.specs.Prelude.{◌≡◌, [], OnOk, OnErr};
ghost use Rattle.std.specs.FinMap.{empty};

use crate::tables::Tables;
use khepri_types::RowStep;
use machine_api::{Board, Pick};
use std::alloc::{AllocError, Global};
use std::collections::VecDeque;

/// Tables, and the steps that are not yet published.
#[derive(Drop)]
pub struct PlainBoard {
    tables: Tables,
    pending: VecDeque<RowStep>,
}

impl PlainBoard {
    /// No table and no step. It takes no memory.
    pub fn fresh(alloc: Global) -> PlainBoard
        ensures tables { result.tables ≡ record { position = 0; tables = empty } }
        ensures pending { result.pending.items ≡ [] }
    {
        PlainBoard {
            tables: Tables::fresh(alloc),
            pending: VecDeque::new(alloc),
        }
    }

    /// The published tables.
    pub fn tables(&self) -> &Tables
        ensures { result.now ≡ self.now.tables }
    {
        &self.tables
    }
}

impl Board for PlainBoard {
    ghost use Rattle.std.specs.Prelude.{ℕ, ◌≡◌};
    ghost use Rattle.khepri_types.specs.Tables.{run};

    type Step = RowStep;

    ghost pending = { λ b. b.pending.items };

    ghost published = { λ a b steps. b.tables ≡ run steps a.tables };

    ghost may_put = { λ _ _ _. Unit {0} };

    fn put_step<P: Pick>(&mut self, step: RowStep) -> Result<(), AllocError> {
        self.pending.push_back(step)?;
        Ok(())
    }

    fn publish(&mut self) -> Result<(), AllocError> {
        'steps: while let Some(step) = self.pending.front() {
            self.tables.absorb(step)?;
            self.pending.pop_front();
        }
        Ok(())
    }
}
