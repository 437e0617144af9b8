// Random changes of trees, compared with a flat map from paths to nodes that does each of them by going over all its entries.
ghost use Rattle.std.specs.Prelude.{◌≡◌, ◌<◌, length};

use crate::nodes::tree_of_a_root;
use khepri_terms::{Path, Rec, TextFault};
use khepri_types::limits::MAX_PATH_NAMES;
use khepri_types::{Condition, NodeView, Payload, Watch, Watches};
use std::alloc::{AllocError, Global};
use std::collections::{BTreeMap, BTreeSet};
use std::marker::Brand;
use std::sync::ledger::{Blank, Ledger};
use std::test::Fail;
use step_count::Steps;
use tree_nodes::{Draft, Tree};

// How many paths the changes are made of, and how many trees and how many drafts of each are tried.
const PATHS: u64 = 12;

const TREES: u64 = 40;

const DRAFTS: u64 = 12;

// The text of a path of the tests.
fn text_at(number: u64) -> &'static [u8] {
    match number {
        0 => b"/a",
        1 => b"/b",
        2 => b"/a/a",
        3 => b"/a/b",
        4 => b"/b/a",
        5 => b"/a/a/a",
        6 => b"/a/a/b",
        7 => b"/a/b/a",
        8 => b"/b/a/b",
        9 => b"/b/b",
        10 => b"/c/a/b",
        _ => b"/c",
    }
}

pub(crate) fn path_at(alloc: Global, number: u64) -> Result<Path, TextFault> {
    let (path, _) = Path::read(alloc, text_at(number))?;
    Ok(path)
}

// The next number of a generator, below a bound.
pub(crate) fn draw(seed: &mut u64, bound: u64) -> u64 {
    *seed = seed
        .wrapping_mul(6364136223846793005)
        .wrapping_add(1442695040888963407);
    if bound == 0 {
        return 0;
    }
    (*seed >> 33) % bound
}

// What the flat map has of a node.
#[derive(Clone, Copy, PartialEq, Eq)]
struct Flat {
    full: bool,
    pv: u64,
    cv: u64,
    watches: usize,
}

fn fresh(full: bool) -> Flat {
    Flat {
        full,
        pv: 1,
        cv: 1,
        watches: 0,
    }
}

// The path begins with the other one.
fn begins(path: &Path, front: &Path) -> bool {
    front.len() <= path.len() && path.compare_front(front.len(), front).is_eq()
}

fn is_child(path: &Path, parent: &Path) -> bool {
    path.len() > parent.len() && path.len() - parent.len() == 1 && begins(path, parent)
}

fn raise(map: &mut BTreeMap<Path, Flat>, path: &Path) {
    if let Some(node) = map.get_mut(path) {
        node.cv = node.cv.saturating_add(1);
    }
}

// Makes the missing fronts of a path, and the path itself; the parent of the first that is made has a new child.
fn flat_make(map: &mut BTreeMap<Path, Flat>, path: &Path, full: bool) -> Result<(), AllocError> {
    let mut told = false;
    for len in 0..path.len() {
        let front = path.front(len)?;
        let below = path.front(len + 1)?;
        if map.contains_key(&below) {
            continue;
        }
        if !told {
            raise(map, &front);
            told = true;
        }
        map.insert(below, fresh(full && len + 1 == path.len()))?;
    }
    Ok(())
}

fn flat_set(map: &mut BTreeMap<Path, Flat>, path: &Path, full: bool) -> Result<(), AllocError> {
    if let Some(node) = map.get_mut(path) {
        if node.full != full {
            node.full = full;
            node.pv = node.pv.saturating_add(1);
        }
        return Ok(());
    }
    flat_make(map, path, full)
}

fn flat_drop(
    alloc: Global,
    map: &mut BTreeMap<Path, Flat>,
    first: &Path,
    second: &Path,
) -> Result<(), AllocError> {
    let mut gone = Vec::new(alloc);
    let mut parents: BTreeSet<Path> = BTreeSet::new(alloc);
    for (path, _) in map.iter() {
        if path.len() > 0 && (begins(path, first) || begins(path, second)) {
            gone.push(path.copy()?)?;
            parents.insert(path.front(path.len() - 1)?)?;
        }
    }
    for path in gone.as_slice() {
        map.remove(path);
    }
    for path in parents.iter() {
        raise(map, path);
    }
    Ok(())
}

// ---- the tree against the map

fn is_full(payload: &Payload) -> bool {
    match payload {
        Payload::Empty => false,
        Payload::Fields(_) => true,
        Payload::Proc(_) => true,
    }
}

fn agrees(view: &NodeView, flat: &Flat, kids: u64) -> bool {
    let shown = Flat {
        full: is_full(view.payload),
        pv: view.pv,
        cv: view.cv,
        watches: view.watches.len(),
    };
    shown == *flat && view.kids == kids
}

// The children of the path in the draft are those of the map, in order; answers how many there are, none where they are not.
fn kids_in<L: Ledger>(
    draft: &Draft,
    map: &BTreeMap<Path, Flat>,
    parent: &Path,
    steps: &mut Steps<L>,
) -> Option<u64> {
    let mut after = None;
    let mut kids: u64 = 0;
    for (path, _) in map.iter() {
        if is_child(path, parent) {
            let Some(name) = draft.child_after(parent, after, steps) else {
                return None;
            };
            if !begins(path, parent)
                || !path.names().last().is_some_and(|last| last.is_same(name))
            {
                return None;
            }
            after = Some(name);
            kids = kids.saturating_add(1);
        }
    }
    if draft.child_after(parent, after, steps).is_some() {
        return None;
    }
    Some(kids)
}

// The draft has the nodes of the map, and no other at the paths of the tests.
fn is_same<L: Ledger>(
    alloc: Global,
    draft: &Draft,
    map: &BTreeMap<Path, Flat>,
    steps: &mut Steps<L>,
) -> Result<bool, TextFault> {
    for (path, flat) in map.iter() {
        let Some(kids) = kids_in(draft, map, path, steps) else {
            return Ok(false);
        };
        let Some(view) = draft.node(path, steps) else {
            return Ok(false);
        };
        if !agrees(&view, flat, kids) {
            return Ok(false);
        }
    }
    for number in 0..PATHS {
        let path = path_at(alloc, number)?;
        if draft.node(&path, steps).is_some() != map.contains_key(&path) {
            return Ok(false);
        }
    }
    Ok(draft.nodes() == map.len() as u64)
}

// Each path at which the two maps differ is touched.
fn covers(
    touched: &BTreeSet<Path>,
    old: &BTreeMap<Path, Flat>,
    new: &BTreeMap<Path, Flat>,
) -> bool {
    for (path, node) in old.iter() {
        if new.get(path).copied() != Some(*node) && !touched.contains(path) {
            return false;
        }
    }
    for (path, _) in new.iter() {
        if !old.contains_key(path) && !touched.contains(path) {
            return false;
        }
    }
    true
}

fn touched<L: Ledger>(
    alloc: Global,
    draft: &Draft,
    steps: &mut Steps<L>,
) -> Result<BTreeSet<Path>, AllocError> {
    let mut all: BTreeSet<Path> = BTreeSet::new(alloc);
    let mut after = None;
    for _ in 0..100 {
        let Some(path) = draft.touched_after(after, steps) else {
            break;
        };
        all.insert(path.copy()?)?;
        after = Some(path);
    }
    Ok(all)
}

fn copied(alloc: Global, map: &BTreeMap<Path, Flat>) -> Result<BTreeMap<Path, Flat>, AllocError> {
    let mut all = BTreeMap::new(alloc);
    for (path, node) in map.iter() {
        all.insert(path.copy()?, *node)?;
    }
    Ok(all)
}

// ---- the changes

fn payload(alloc: Global, full: bool) -> Result<Payload, TextFault> {
    if !full {
        return Ok(Payload::Empty);
    }
    let (rec, _) = Rec::read(alloc, b"{n=1}")?;
    Ok(Payload::Fields(rec))
}

fn set<L: Ledger>(
    draft: &mut Draft,
    path: &Path,
    payload: &Payload,
    steps: &mut Steps<L>,
) -> Result<(), AllocError>
    ensures base { draft.new.base ≡ draft.old.base }
{
    if path.len() <= MAX_PATH_NAMES {
        draft.set(path, payload, steps)?;
    }
    Ok(())
}

fn drop_two<L: Ledger>(
    draft: &mut Draft,
    first: Path,
    second: Path,
    alloc: Global,
    steps: &mut Steps<L>,
) -> Result<u64, AllocError>
    requires first { 0 < length first }
    requires second { 0 < length second }
    ensures base { draft.new.base ≡ draft.old.base }
{
    let paths = vec![in alloc; first, second]?;
    draft.drop_all(paths.as_slice(), steps)
}

fn watch<L: Ledger>(
    alloc: Global,
    draft: &mut Draft,
    path: &Path,
    steps: &mut Steps<L>,
) -> Result<bool, AllocError>
    ensures base { draft.new.base ≡ draft.old.base }
{
    let Some(_) = draft.node(path, steps) else {
        return Ok(false);
    };
    let watch = Watch {
        target: Path::root(alloc),
        cond: Condition::Exists,
    };
    let Some(watches) = Watches::from_vec(vec![in alloc; watch]?) else {
        return Ok(false);
    };
    draft.set_watches(path, &watches, steps)?;
    Ok(true)
}

// One change of the draft and of the map. Whether a drop answers as many nodes as go from the map.
fn change<L: Ledger>(
    alloc: Global,
    draft: &mut Draft,
    map: &mut BTreeMap<Path, Flat>,
    seed: &mut u64,
    steps: &mut Steps<L>,
) -> Result<bool, TextFault>
    ensures base { draft.new.base ≡ draft.old.base }
{
    let path = path_at(alloc, draw(seed, PATHS))?;
    let kind = draw(seed, 4);
    if kind == 0 {
        let second = path_at(alloc, draw(seed, PATHS))?;
        if path.len() == 0 || second.len() == 0 {
            return Ok(false);
        }
        let before = map.len() as u64;
        flat_drop(alloc, map, &path, &second)?;
        let gone = drop_two(draft, path, second, alloc, steps)?;
        return Ok(before.saturating_sub(map.len() as u64) == gone);
    }
    if kind == 1 {
        if watch(alloc, draft, &path, steps)? {
            if let Some(node) = map.get_mut(&path) {
                node.watches = 1;
            }
        }
        return Ok(true);
    }
    flat_set(map, &path, kind == 2)?;
    set(draft, &path, &payload(alloc, kind == 2)?, steps)?;
    Ok(true)
}

// Four changes.
fn change_often<L: Ledger>(
    alloc: Global,
    draft: &mut Draft,
    map: &mut BTreeMap<Path, Flat>,
    seed: &mut u64,
    steps: &mut Steps<L>,
) -> Result<bool, TextFault>
    ensures base { draft.new.base ≡ draft.old.base }
{
    let first = change(alloc, draft, map, seed, steps)?;
    let second = change(alloc, draft, map, seed, steps)?;
    let third = change(alloc, draft, map, seed, steps)?;
    let fourth = change(alloc, draft, map, seed, steps)?;
    Ok(first && second && third && fourth)
}

// A draft with its changes, which the tree absorbs: whether all is as in the map, before that and after.
fn turn<L: Ledger>(
    alloc: Global,
    tree: &mut Tree,
    map: &mut BTreeMap<Path, Flat>,
    seed: &mut u64,
    steps: &mut Steps<L>,
) -> Result<bool, TextFault> {
    let old = copied(alloc, map)?;
    let mut draft = tree.draft();
    let counted = change_often(alloc, &mut draft, map, seed, steps)?;
    let same = is_same(alloc, &draft, map, steps)?;
    let covered = covers(&touched(alloc, &draft, steps)?, &old, map);
    let changes = draft.into_changes();
    tree.absorb(changes, steps)?;
    Ok(counted && same && covered && is_same(alloc, &tree.draft(), map, steps)?)
}

fn turns<L: Ledger>(alloc: Global, tree: Tree, seed: u64, blank: Blank) -> Result<bool, TextFault>
    requires blank { (blank.name ≡ L.name) × (blank.parts ≡ L.parts) × (0 < L.parts) }
{
    let mut tree = tree;
    let mut seed = seed;
    let mut steps = Steps::<L>::open(blank);
    let mut map = BTreeMap::new(alloc);
    map.insert(Path::root(alloc), fresh(false))?;
    for _ in 0..DRAFTS {
        if !turn(alloc, &mut tree, &mut map, &mut seed, &mut steps)? {
            return Ok(false);
        }
    }
    Ok(true)
}

fn turns_once(alloc: Global, seed: u64) -> Result<bool, TextFault> {
    turns::<Brand>(alloc, tree_of_a_root(alloc)?, seed, Blank::new(1))
}

#[test]
fn random_changes_are_those_of_a_flat_map(rt: HostRuntime) -> Result<(), Fail> {
    for seed in 0..TREES {
        assert!(rt; turns_once(rt.alloc(), seed)?);
    }
    Ok(())
}
