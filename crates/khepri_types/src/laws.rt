// Laws of the definitions: each is a function that does nothing, whose contract is the law.
ghost use Rattle.std.specs.Prelude.{◌≡◌, ◌↔◌, ℕ, ◌+◌, ◌*◌, ◌<◌, ◌≤◌, true, false, if◌then◌else◌, IsTrue, List, [], ◌∷◌, length, take, Some, None};
ghost use Rattle.std.specs.Option.{option_map};
ghost use Rattle.std.specs.FinMap.{get, insert, entries, find, is_sorted};
ghost use Rattle.khepri_terms.specs.Terms.{NameText};
ghost use Rattle.khepri_terms.specs.Order.{path_cmp};
ghost use Rattle.khepri_types.specs.declared.limits.TheConstants.{MAX_INPUT_BYTES, MAX_PATH_NAMES, MAX_VERSION_RISE};
ghost use Rattle.khepri_types.specs.declared.command.Command.{Command};
ghost use Rattle.khepri_types.specs.declared.command.Line.{Line};
ghost use Rattle.khepri_types.specs.declared.node.Node.{Node};
ghost use Rattle.khepri_types.specs.declared.node.Payload.{Payload};
ghost use Rattle.khepri_types.specs.declared.node.Payload.TheVariants.{Empty};
ghost use Rattle.khepri_types.specs.declared.pattern.PatternPart.{PatternPart};
ghost use Rattle.khepri_types.specs.declared.out.EntryText.{EntryText};
ghost use Rattle.khepri_types.specs.declared.out.Reason.{Reason};
ghost use Rattle.khepri_types.specs.declared.out.OutLine.TheVariants as out;
ghost use Rattle.khepri_types.specs.Paths.{is_under};
ghost use Rattle.khepri_types.specs.Missing.{IsLongestFront};
ghost use Rattle.khepri_types.specs.Drop.{loses_child, drop};
ghost use Rattle.khepri_types.specs.Patterns.{matches, matching_nodes};
ghost use Rattle.khepri_types.specs.Sizes.{fits};
ghost use Rattle.khepri_types.specs.Exec.{State, opening_state, passed_over, exec_command, SaysNoChange};
ghost use Rattle.khepri_types.specs.Calm.{answer, calm};
ghost use Rattle.khepri_types.specs.History.{empty_opening, run_from};
ghost use Rattle.khepri_types.specs.Legal.{Legal};
ghost use Rattle.khepri_types.specs.Reading.{line_at};
ghost use Rattle.khepri_types.specs.Spelled.{IsLine};
ghost use Rattle.khepri_types.specs.Texts.{line_text};
ghost use Rattle.khepri_types.specs.Tree.{Tree, IsTree, stands, same_payload, fresh, written, raised_children, end_node, way_node, set, opening_tree};

/// A payload is the same as another exactly where they are equal, so a version goes up exactly where the payload changes.
pub fn same_payloads_are_equal()
    ensures { (a b : Payload) → IsTrue (same_payload a b) ↔ (a ≡ b) }
{}

/// Setting a payload at a path changes the node there and the nodes on the way to it, and no other.
pub fn set_is_local()
    ensures at_path { (T : Tree) (p : List NameText) (x : Payload) → get (set T p x) p ≡ Some (end_node (get T p) x) }
    ensures on_the_way { (T : Tree) (p : List NameText) (x : Payload) (i : ℕ) → i < length p → get (set T p x) (take i p) ≡ Some (way_node (get T (take i p)) (stands T (take (i + 1) p))) }
    ensures elsewhere { (T : Tree) (p : List NameText) (x : Payload) (q : List NameText) → ((i : ℕ) → i ≤ length p → q ≡ take i p → ⊥) → get (set T p x) q ≡ get T q }
{}

/// Setting a payload at a standing path of a tree changes that node and no other. At a missing path the longest front that stands
/// has a new child, the nodes above it stay, and the missing fronts are made empty.
pub fn set_by_cases()
    ensures standing { (T : Tree) (p : List NameText) (x : Payload) (n : Node) → IsTree T → get T p ≡ Some n → set T p x ≡ insert T p (written n x) }
    ensures front { (T : Tree) (p : List NameText) → IsTree T → stands T p ≡ false → (i : ℕ) × IsLongestFront T p i }
    ensures kept { (T : Tree) (p : List NameText) (x : Payload) (i j : ℕ) → IsLongestFront T p i → j < i → get (set T p x) (take j p) ≡ get T (take j p) }
    ensures new_child { (T : Tree) (p : List NameText) (x : Payload) (i : ℕ) → IsLongestFront T p i → get (set T p x) (take i p) ≡ option_map raised_children (get T (take i p)) }
    ensures made { (T : Tree) (p : List NameText) (x : Payload) (i j : ℕ) → IsLongestFront T p i → i < j → j < length p → get (set T p x) (take j p) ≡ Some (fresh Empty) }
    ensures at_path { (T : Tree) (p : List NameText) (x : Payload) (i : ℕ) → IsLongestFront T p i → get (set T p x) p ≡ Some (fresh x) }
{}

/// A drop leaves nothing at the dropped paths and below them, and each other node as it was, with its child-list version raised
/// where it lost a child.
pub fn drop_is_local()
    ensures below { (T : Tree) (paths : List (List NameText)) (q : List NameText) → is_under paths q ≡ true → get (drop T paths) q ≡ None }
    ensures elsewhere { (T : Tree) (paths : List (List NameText)) (q : List NameText) → is_under paths q ≡ false → get (drop T paths) q ≡ option_map (λ n. if loses_child (entries T) paths q then raised_children n else n) (get T q) }
{}

/// The nodes that a pattern matches are those of the tree at the paths that it matches, each once, in order of path. The pattern of
/// the root matches no other path, and no other pattern matches the root.
pub fn matching_is_exact()
    ensures nodes { (T : Tree) (parts : List PatternPart) (q : List NameText) → find path_cmp q (matching_nodes parts T) ≡ (if matches parts T q then get T q else None) }
    ensures ordered { (T : Tree) (parts : List PatternPart) → IsTrue (is_sorted path_cmp (matching_nodes parts T)) }
    ensures standing { (T : Tree) (parts : List PatternPart) (q : List NameText) → IsTrue (matches parts T q) → IsTrue (stands T q) }
    ensures root_alone { (T : Tree) (q : List NameText) → IsTrue (matches [] T q) → q ≡ [] }
    ensures never_root { (T : Tree) (P : PatternPart) (parts : List PatternPart) → matches (P ∷ parts) T [] ≡ false }
{}

/// The root stands alone at first, and a set payload and a drop that spares the root keep a tree a tree: with each node stand the
/// nodes above it.
pub fn trees_stay()
    ensures opening { IsTree opening_tree }
    ensures put { (T : Tree) (p : List NameText) (x : Payload) → IsTree T → IsTree (set T p x) }
    ensures drop { (T : Tree) (paths : List (List NameText)) → is_under paths [] ≡ false → IsTree T → IsTree (drop T paths) }
    ensures history { (es : List EntryText) → IsTree (run_from opening_state es).tree }
{}

/// The first tree and all that follow keep their limits, and so does what a drop leaves of a tree that keeps them.
pub fn limits_stay()
    ensures opening { IsTrue (fits opening_tree) }
    ensures drop { (T : Tree) (paths : List (List NameText)) → IsTrue (fits T) → IsTrue (fits (drop T paths)) }
    ensures history { (es : List EntryText) → IsTrue (fits (run_from opening_state es).tree) }
{}

/// No node ever stands at a path of more names than the path of a node may have.
pub fn paths_stay_short()
    ensures { (es : List EntryText) (p : List NameText) → IsTrue (stands (run_from opening_state es).tree p) → length p ≤ MAX_PATH_NAMES }
{}

/// Each command takes the next position, a refused one too, and so does each entry of a history.
pub fn positions_rise()
    ensures command { (S : State) (c : Command) → (exec_command S c).1.position ≡ S.position + 1 }
    ensures history { (es : List EntryText) → (run_from opening_state es).position ≡ length es }
{}

/// After n entries both versions of a node are from 1 to 1 + 1,048,576 n: a script changes the tree at most once with each of its units,
/// and makes at most 32 nodes with each; then there are fewer rounds of settling than nodes, and each raises a version by at most one.
pub fn versions_are_small()
    ensures payload { (es : List EntryText) (p : List NameText) (n : Node) → get (run_from opening_state es).tree p ≡ Some n → (1 ≤ n.pv) × (n.pv ≤ 1 + MAX_VERSION_RISE * length es) }
    ensures children { (es : List EntryText) (p : List NameText) (n : Node) → get (run_from opening_state es).tree p ≡ Some n → (1 ≤ n.cv) × (n.cv ≤ 1 + MAX_VERSION_RISE * length es) }
{}

/// A refused line leaves the state as it was, and a command whose reply says nothing of a change, and is not that of a script that ran
/// to its end, leaves all but the position.
pub fn refused_changes_nothing()
    ensures line { (l : ℕ) (S : State) (bytes : List ℕ) (k : ℕ) (r : Reason) → (answer l S bytes).0 ≡ out.Refused k r ∷ [] → (answer l S bytes).1 ≡ S }
    ensures command { (S : State) (c : Command) → SaysNoChange (exec_command S c).0 → (exec_command S c).1 ≡ passed_over S }
{}

/// An input line is read exactly where it is a line's spelling: what is spelled is read again, and nothing else is read.
pub fn lines_have_one_spelling()
    ensures { (text : List ℕ) (l : Line) → (line_at text ≡ Some l) ↔ ((text ≡ line_text l) × IsLine l) }
{}

/// What a session of one node writes is legal for its input, as long as there are no more lines than an input has bytes.
pub fn calm_is_legal()
    ensures { (input : List (List ℕ)) → length input ≤ MAX_INPUT_BYTES + 1 → Legal empty_opening input (calm input) }
{}
