// The tree that a script runs on.
ghost use Rattle.std.specs.Prelude.{◌≡◌, ◌≤◌, ◌≢◌, [], ◌∷◌, length, IfOk, OnOk, OnSome, IfSome, Some, IsTrue};
ghost use Rattle.std.specs.FinMap.{get};
ghost use Rattle.std.specs.Borrow.{sem};
ghost use Rattle.khepri_terms.specs.Terms.{NameText};
ghost use Rattle.khepri_types.specs.declared.limits.TheConstants.{MAX_PATH_NAMES};
ghost use Rattle.khepri_types.specs.Conditions.{seen_at};
ghost use Rattle.khepri_types.specs.Exec.{pv_of};
ghost use Rattle.khepri_types.specs.Patterns.{matching};
ghost use Rattle.khepri_types.specs.Tree.{stands};
ghost use Rattle.khepri_types.specs.Views.{seen_of, node_of};
ghost use Rattle.khepri_types.specs.Scenes.{Scene, Under, Rests, with_payload, without, with_watches};

use crate::node::Payload;
use crate::pattern::Pattern;
use crate::view::NodeView;
use crate::watch::Watches;
use khepri_terms::Path;
use std::alloc::AllocError;

/// A tree that scripts read and change. After a change that answered `AllocError` it may only be dropped. Reads take it as `&mut`,
/// since one that counts its steps changes its count.
pub trait ScriptTree: Drop {
    /// The tree, and the paths that were written.
    ghost scene: { Self → Scene };

    /// The names of the `&mut`s that it is kept behind, none where it owns what it keeps, and the tree that a draft stands on. No
    /// call changes them, so that who lent them finds the draft there again, over the same tree.
    ghost over: { Self → Under };

    /// The node at a path.
    fn node(&mut self, path: &Path) -> Option<NodeView>
        ensures node { seen_of result ≡ seen_at (scene self.old).tree path.now }
        ensures found { IfSome result (λ v. get (scene self.old).tree path.now ≡ Some (node_of v)) }
        ensures short { OnSome result (length path.now ≤ MAX_PATH_NAMES) }
        ensures* same { sem 𝓛 (Rests Self.row self.entry (λ new. (scene new ≡ scene self.old) × (over new ≡ over self.old))) };

    /// The paths that the pattern matches, in order.
    fn matching(&mut self, pattern: &Pattern) -> Result<Vec<Path>, AllocError>
        ensures paths { IfOk result (λ v. v.items ≡ matching pattern.now (scene self.old).tree) }
        ensures same { scene self.new ≡ scene self.old }
        ensures over { over self.new ≡ over self.old };

    /// Sets a payload, which writes the path; answers the payload version after that.
    fn set(&mut self, path: &Path, payload: &Payload) -> Result<u64, AllocError>
        requires short { length path.now ≤ MAX_PATH_NAMES }
        ensures scene { OnOk result (scene self.new ≡ with_payload (scene self.old) path.now payload.now) }
        ensures over { over self.new ≡ over self.old }
        ensures version { IfOk result (λ v. v ≡ pv_of (get (scene self.new).tree path.now)) };

    /// Drops the node at a path and all below it, as a round of its own.
    fn drop_at(&mut self, path: &Path) -> Result<(), AllocError>
        requires below { path.now ≢ [] }
        ensures over { over self.new ≡ over self.old }
        ensures scene { OnOk result (scene self.new ≡ without (scene self.old) path.now) };

    /// Gives a node these watches in place of its own, which writes the path where there are any.
    fn set_watches(&mut self, path: &Path, watches: &Watches) -> Result<(), AllocError>
        requires stands { IsTrue (stands (scene self.old).tree path.now) }
        ensures over { over self.new ≡ over self.old }
        ensures scene { OnOk result (scene self.new ≡ with_watches (scene self.old) path.now watches.now) };
}
