// What a scene asks of the draft that it is lent.
ghost use Rattle.std.specs.Prelude.{◌≡◌, ◌≢◌, ◌≤◌, ◌∷◌, [], IsTrue, IfOk, OnOk, IfSome, OnSome, Some, length};
ghost use Rattle.std.specs.FinMap.{get};
ghost use Rattle.khepri_types.specs.declared.limits.TheConstants.{MAX_PATH_NAMES};
ghost use Rattle.khepri_types.specs.Conditions.{seen_at};
ghost use Rattle.khepri_types.specs.Drop.{drop};
ghost use Rattle.khepri_types.specs.Exec.{pv_of};
ghost use Rattle.khepri_types.specs.Patterns.{matching};
ghost use Rattle.khepri_types.specs.Tree.{Tree, set, stands};
ghost use Rattle.khepri_types.specs.Views.{seen_of, node_of};
ghost use Rattle.khepri_types.specs.Watching.{given_watches};

use crate::look::seen;
use crate::matching::matching_paths;
use khepri_terms::Path;
use khepri_types::{NodeView, Pattern, Payload, Watches};
use std::alloc::AllocError;
use std::sync::ledger::Ledger;
use step_count::Steps;
use tree_nodes::Draft;

/// A draft of a tree, as far as scripts use one. After a change that answered `AllocError` it may only be dropped. For the proof
/// alone: a scene over any such draft is proved without a look at how nodes are kept.
pub trait ScriptDraft: Drop {
    /// The tree that the draft shows.
    ghost tree: { Self → Tree };

    /// The tree that it stands on.
    ghost base: { Self → Tree };

    /// The node at a path, for a caller that counts the step.
    fn node_at(&self, path: &Path) -> Option<NodeView>
        ensures node { seen_of result ≡ seen_at (tree self.now) path.now }
        ensures found { IfSome result (λ v. get (tree self.now) path.now ≡ Some (node_of v)) }
        ensures short { OnSome result (length path.now ≤ MAX_PATH_NAMES) };

    /// The paths that the pattern matches, in order.
    fn matched<L: Ledger>(
        &self,
        pattern: &Pattern,
        steps: &mut Steps<L>,
    ) -> Result<Vec<Path>, AllocError>
        ensures { IfOk result (λ v. v.items ≡ matching pattern.now (tree self.now)) };

    /// Sets a payload; answers the payload version after that.
    fn put<L: Ledger>(
        &mut self,
        path: &Path,
        payload: &Payload,
        steps: &mut Steps<L>,
    ) -> Result<u64, AllocError>
        requires short { length path.now ≤ MAX_PATH_NAMES }
        ensures base { base self.new ≡ base self.old }
        ensures tree { OnOk result (tree self.new ≡ set (tree self.old) path.now payload.now) }
        ensures version { IfOk result (λ v. v ≡ pv_of (get (tree self.new) path.now)) };

    /// Drops the node at a path and all below it, as a round of its own.
    fn drop_below<L: Ledger>(&mut self, path: &Path, steps: &mut Steps<L>) -> Result<(), AllocError>
        requires below { path.now ≢ [] }
        ensures base { base self.new ≡ base self.old }
        ensures tree { OnOk result (tree self.new ≡ drop (tree self.old) (path.now ∷ [])) };

    /// Gives a node these watches in place of its own.
    fn hold<L: Ledger>(
        &mut self,
        path: &Path,
        watches: &Watches,
        steps: &mut Steps<L>,
    ) -> Result<(), AllocError>
        requires stands { IsTrue (stands (tree self.old) path.now) }
        ensures base { base self.new ≡ base self.old }
        ensures tree { OnOk result (tree self.new ≡ given_watches (tree self.old) path.now watches.now (get (tree self.old) path.now)) };
}

impl<'b> ScriptDraft for Draft<'b> {
    ghost tree = { λ d. d.tree };

    ghost base = { λ d. d.base };

    fn node_at(&self, path: &Path) -> Option<NodeView> {
        seen(self, path)
    }

    fn matched<L: Ledger>(
        &self,
        pattern: &Pattern,
        steps: &mut Steps<L>,
    ) -> Result<Vec<Path>, AllocError> {
        matching_paths(self, pattern, steps)
    }

    fn put<L: Ledger>(
        &mut self,
        path: &Path,
        payload: &Payload,
        steps: &mut Steps<L>,
    ) -> Result<u64, AllocError> {
        self.set(path, payload, steps)
    }

    fn drop_below<L: Ledger>(
        &mut self,
        path: &Path,
        steps: &mut Steps<L>,
    ) -> Result<(), AllocError> {
        let alloc = self.alloc();
        let paths = vec![in alloc; path.copy()?]?;
        self.drop_all(paths.as_slice(), steps)?;
        Ok(())
    }

    fn hold<L: Ledger>(
        &mut self,
        path: &Path,
        watches: &Watches,
        steps: &mut Steps<L>,
    ) -> Result<(), AllocError> {
        self.set_watches(path, watches, steps)
    }
}
