// Laws of watches and of settling: each is a function that does nothing, whose contract is the law.
ghost use Rattle.std.specs.Prelude.{◌≡◌, ◌↔◌, ℕ, ◌+◌, ◌≤◌, Bool, if◌then◌else◌, IsTrue, List, [], ◌∷◌, take, Some};
ghost use Rattle.std.specs.FinMap.{get, len};
ghost use Rattle.khepri_terms.specs.Terms.{NameText};
ghost use Rattle.khepri_types.specs.declared.node.Node.{Node};
ghost use Rattle.khepri_types.specs.declared.node.Payload.{Payload};
ghost use Rattle.khepri_types.specs.declared.watch.Watching.{Watching};
ghost use Rattle.khepri_types.specs.declared.out.EntryText.{EntryText};
ghost use Rattle.khepri_types.specs.declared.out.OutLine.{OutLine};
ghost use Rattle.khepri_types.specs.Drop.{drop};
ghost use Rattle.khepri_types.specs.Exec.{State, opening_state, state_of};
ghost use Rattle.khepri_types.specs.History.{empty_opening, run_from, StaysStable};
ghost use Rattle.khepri_types.specs.Sizes.{fits};
ghost use Rattle.khepri_types.specs.Tree.{Tree, IsTree, stands, end_node, set, opening_tree};
ghost use Rattle.khepri_types.specs.Watching.{watches_after, set_watched};
ghost use Rattle.khepri_types.specs.Settling.{failing, stable, rounds, settle, gone};
ghost use Rattle.khepri_types.specs.Lasting.{all_lasting, IsSupported};

/// To set a payload and watches at a path is to set the payload, and then to change the watches of the node there alone.
pub fn watches_are_local()
    ensures at_path { (T : Tree) (p : List NameText) (x : Payload) (w : Watching) → get (set_watched T p x w) p ≡ Some (record (end_node (get T p) x) { watches = watches_after w (end_node (get T p) x).watches }) }
    ensures elsewhere { (T : Tree) (p : List NameText) (x : Payload) (w : Watching) (q : List NameText) → (q ≡ p → ⊥) → get (set_watched T p x w) q ≡ get (set T p x) q }
{}

/// Settling ends, in a tree where no node fails: it is the tree itself where none fails, and else what is left when the tree
/// without its failing nodes has settled. It takes nodes away, and of each node that is left it changes the child-list version alone.
pub fn settling_ends()
    ensures ends { (T : Tree) → IsTrue (stable (settle T)) }
    ensures tree { (T : Tree) → IsTree T → IsTree (settle T) }
    ensures within { (T : Tree) (q : List NameText) → IsTrue (stands (settle T) q) → IsTrue (stands T q) }
    ensures left { (T : Tree) (q : List NameText) (n : Node) → get (settle T) q ≡ Some n → (m : Node) × (get T q ≡ Some m) × (n.payload ≡ m.payload) × (n.pv ≡ m.pv) × (n.watches ≡ m.watches) }
    ensures unchanged { (T : Tree) → (settle T ≡ T) ↔ IsTrue (stable T) }
    ensures round { (T : Tree) → settle T ≡ (if stable T then T else settle (drop T (failing T))) }
    ensures any_number { (T : Tree) (n : ℕ) → len T ≤ n → rounds n T ≡ settle T }
    ensures counted { (T : Tree) → len (settle T) + gone T ≡ len T }
    ensures fitting { (T : Tree) → IsTrue (fits T) → IsTrue (fits (settle T)) }
{}

/// The first tree is stable, and each entry makes a stable tree of a stable one: so the tree of every state of a history is stable.
pub fn states_stay_stable()
    ensures opening { IsTrue (stable opening_tree) }
    ensures entry { (S : State) (e : EntryText) → IsTrue (stable S.tree) → IsTrue (stable (state_of S e).tree) }
    ensures history { (es : List EntryText) → IsTrue (stable (run_from opening_state es).tree) }
    ensures output { (lines : List OutLine) → StaysStable empty_opening lines }
{}

/// Where all conditions of watches are lasting, what settling leaves is the greatest set of paths that holds the root, holds with
/// each path its fronts, and leaves no failing node when the tree is cut to it: it is one, and each such set is within it.
/// Without lasting conditions the second does not hold of all trees.
pub fn lasting_settles_to_the_greatest()
    ensures is_one { (T : Tree) → IsTree T → IsTrue (all_lasting T) → IsSupported T (stands (settle T)) }
    ensures greatest { (T : Tree) (keep : List NameText → Bool) → IsTree T → IsTrue (all_lasting T) → IsSupported T keep → (q : List NameText) → IsTrue (keep q) → IsTrue (stands (settle T) q) }
    ensures not_of_all { ((T : Tree) (keep : List NameText → Bool) → IsTree T → IsSupported T keep → (q : List NameText) → IsTrue (keep q) → IsTrue (stands (settle T) q)) → ⊥ }
{}
