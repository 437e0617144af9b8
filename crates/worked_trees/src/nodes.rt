// Trees and drafts.
ghost use Rattle.std.specs.Prelude.{◌≡◌, ◌<◌};

use khepri_terms::{Name, Path, TextFault};
use khepri_types::limits::MAX_PATH_NAMES;
use khepri_types::{NodePart, Payload, Watches};
use std::alloc::{AllocError, Global};
use std::marker::Brand;
use std::sync::ledger::{Blank, Ledger};
use std::test::Fail;
use step_count::Steps;
use tree_nodes::{Draft, Tree};

// The tree of its root alone.
pub(crate) fn tree_of_a_root(alloc: Global) -> Result<Tree, AllocError> {
    let root = NodePart {
        path: Path::root(alloc),
        payload: Payload::Empty,
        pv: 1,
        cv: 1,
        watches: Watches::none(alloc),
    };
    Tree::of(alloc, &[root])
}

// The touched paths, a space before each.
fn touched<L: Ledger>(draft: &Draft, steps: &mut Steps<L>) -> Result<Vec<u8>, AllocError> {
    let mut out = Vec::new(draft.alloc());
    let mut after = None;
    for _ in 0..9 {
        let Some(path) = draft.touched_after(after, steps) else {
            break;
        };
        out.push(b' ')?;
        path.print(&mut out)?;
        after = Some(path);
    }
    Ok(out)
}

// Sets an empty payload at a path, where it is short enough.
fn set<L: Ledger>(draft: &mut Draft, path: &Path, steps: &mut Steps<L>) -> Result<(), AllocError>
    ensures base { draft.new.base ≡ draft.old.base }
{
    if path.len() <= MAX_PATH_NAMES {
        draft.set(path, &Payload::Empty, steps)?;
    }
    Ok(())
}

fn begins_with(path: &Path, name: &Name) -> bool {
    path.len() != 0 && path.name(0).is_same(name)
}

// Whether the root's one child in the draft is on the way to the path.
fn is_child_in_draft<L: Ledger>(
    draft: &Draft,
    root: &Path,
    path: &Path,
    steps: &mut Steps<L>,
) -> bool {
    match draft.child_after(root, None, steps) {
        Some(name) => {
            begins_with(path, name) && draft.child_after(root, Some(name), steps).is_none()
        }
        None => false,
    }
}

fn is_child_in_tree<L: Ledger>(
    tree: &Tree,
    root: &Path,
    path: &Path,
    steps: &mut Steps<L>,
) -> bool {
    match tree.child_after(root, None, steps) {
        Some(name) => {
            begins_with(path, name) && tree.child_after(root, Some(name), steps).is_none()
        }
        None => false,
    }
}

// What is told once an empty payload is set at a path: the touched paths, the bytes of the tree, and whether the root has one
// child in the draft and in the tree.
#[derive(Drop)]
struct Told {
    touched: Vec<u8>,
    bytes: u64,
    is_child: bool,
}

fn touch_draft<L: Ledger>(
    path: &Path,
    root: &Path,
    draft: &mut Draft,
    steps: &mut Steps<L>,
) -> Result<(Vec<u8>, bool), AllocError>
    ensures base { draft.new.base ≡ draft.old.base }
{
    set(draft, path, steps)?;
    let is_child = is_child_in_draft(draft, root, path, steps);
    Ok((touched(draft, steps)?, is_child))
}

fn touch_in<L: Ledger>(
    path: &Path,
    root: &Path,
    tree: &mut Tree,
    steps: &mut Steps<L>,
) -> Result<Told, AllocError> {
    let mut draft = tree.draft();
    let (touched, is_child) = touch_draft(path, root, &mut draft, steps)?;
    let changes = draft.into_changes();
    tree.absorb(changes, steps)?;
    Ok(Told {
        touched,
        bytes: tree.bytes(),
        is_child: is_child && is_child_in_tree(tree, root, path, steps),
    })
}

fn touch<L: Ledger>(path: &Path, root: &Path, tree: Tree, blank: Blank) -> Result<Told, AllocError>
    requires blank { (blank.name ≡ L.name) × (blank.parts ≡ L.parts) × (0 < L.parts) }
{
    let mut tree = tree;
    let mut steps = Steps::<L>::open(blank);
    touch_in(path, root, &mut tree, &mut steps)
}

fn touch_once(path: &Path, root: &Path, tree: Tree) -> Result<Told, AllocError> {
    touch::<Brand>(path, root, tree, Blank::new(1))
}

// What setting a payload at the path of a text touches.
fn touched_by(alloc: Global, text: &[u8]) -> Result<Told, TextFault> {
    let (path, _) = Path::read(alloc, text)?;
    Ok(touch_once(&path, &Path::root(alloc), tree_of_a_root(alloc)?)?)
}

// Whether setting a payload there touches these paths, and leaves a tree of so many bytes whose root has one child.
fn touches(alloc: Global, text: &[u8], paths: &[u8], bytes: u64) -> Result<bool, TextFault> {
    let told = touched_by(alloc, text)?;
    Ok(told.touched.as_slice() == paths && told.bytes == bytes && told.is_child)
}

#[test]
fn a_draft_touches_what_it_changes(rt: HostRuntime) -> Result<(), Fail> {
    assert!(rt; touches(rt.alloc(), b"/a/b", b" / /a /a/b", 5)?);
    Ok(())
}
