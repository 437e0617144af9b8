// A draft as scripts see it.
ghost use Rattle.std.specs.Prelude.{[], ◌∷◌};

use crate::draft::ScriptDraft;
use khepri_terms::Path;
use khepri_types::{NodeView, Pattern, Payload, ScriptTree, Watches};
use std::alloc::AllocError;
use std::sync::ledger::Ledger;
use step_count::Steps;

/// A draft on which one script runs. Every read counts a step. It keeps what it is lent, so whoever lends it finds there what the
/// script left.
#[derive(Drop)]
pub struct DraftScene<'d, 's, 'w, D: ScriptDraft, L: Ledger> {
    /// The tree that the script reads and changes.
    pub draft: &'d mut D,
    /// The count of the reads.
    pub steps: &'s mut Steps<L>,
    /// The paths that were written, in order of writing; a path stands there as often as it was written.
    pub written: &'w mut Vec<Path>,
}

impl<'d, 's, 'w, D: ScriptDraft, L: Ledger> ScriptTree for DraftScene<'d, 's, 'w, D, L> {
    ghost over = { λ d. record { names = d.draft.ghost_name ∷ d.steps.ghost_name ∷ d.written.ghost_name ∷ []; base = D.base d.draft.now } };

    ghost scene = { λ d. record { tree = D.tree d.draft.now; written = d.written.now.items } };

    fn node(&mut self, path: &Path) -> Option<NodeView> {
        self.steps.tick();
        self.draft.node_at(path)
    }

    fn matching(&mut self, pattern: &Pattern) -> Result<Vec<Path>, AllocError> {
        self.draft.matched(pattern, self.steps)
    }

    fn set(&mut self, path: &Path, payload: &Payload) -> Result<u64, AllocError> {
        self.written.push(path.copy()?)?;
        self.draft.put(path, payload, self.steps)
    }

    fn drop_at(&mut self, path: &Path) -> Result<(), AllocError> {
        self.draft.drop_below(path, self.steps)
    }

    fn set_watches(&mut self, path: &Path, watches: &Watches) -> Result<(), AllocError> {
        if watches.len() > 0 {
            self.written.push(path.copy()?)?;
        }
        self.draft.hold(path, watches, self.steps)
    }
}
