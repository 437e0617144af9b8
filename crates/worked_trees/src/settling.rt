// A machine, which settles by its index of watchers, beside a tree that settles by rounds over all nodes: random commands and what both
// answer, and in the end all nodes of both.
ghost use Rattle.std.specs.Prelude.{◌≡◌, ◌<◌, length};

use crate::changes::{draw, path_at};
use crate::nodes::tree_of_a_root;
use keep_while::first_unmet;
use khepri_machine::KhepriMachine;
use khepri_terms::{Path, TextFault};
use khepri_types::limits::MAX_PATH_NAMES;
use khepri_types::{Command, Compare, Condition, Payload, Reply, Watch, Watches, Watching};
use std::alloc::{AllocError, Global};
use std::marker::Brand;
use std::sync::ledger::{Blank, Ledger};
use std::test::Fail;
use step_count::Steps;
use tree_nodes::Tree;

// How many of the paths of the tests are used, how many trees are tried, and how many commands make each.
const PATHS: u64 = 9;

const TREES: u64 = 60;

const COMMANDS: u64 = 40;

// A machine takes this many entries.
const ENTRIES: u64 = 1 << 40;

// ---- the plain tree

// A put, its watches and plain rounds: the version and how many nodes went, or none where a watch of the node isn't met.
fn plain_put<L: Ledger>(
    tree: &mut Tree,
    path: &Path,
    watches: &Watches,
    steps: &mut Steps<L>,
) -> Result<Option<(u64, u64)>, AllocError> {
    if path.len() > MAX_PATH_NAMES {
        return Ok(None);
    }
    let mut draft = tree.draft();
    let version = draft.set(path, &Payload::Empty, steps)?;
    if draft.node(path, steps).is_none() {
        return Ok(None);
    }
    draft.set_watches(path, watches, steps)?;
    if first_unmet(&draft, path, steps).is_some() {
        return Ok(None);
    }
    let gone = plain_rounds::settle(&mut draft, steps)?;
    let changes = draft.into_changes();
    tree.absorb(changes, steps)?;
    Ok(Some((version, gone)))
}

// A del and plain rounds: how many nodes it dropped, and how many went.
fn plain_del<L: Ledger>(
    alloc: Global,
    tree: &mut Tree,
    path: Path,
    steps: &mut Steps<L>,
) -> Result<Option<(u64, u64)>, AllocError>
    requires below { 0 < length path }
{
    let paths = vec![in alloc; path]?;
    let mut draft = tree.draft();
    let count = draft.drop_all(paths.as_slice(), steps)?;
    let gone = plain_rounds::settle(&mut draft, steps)?;
    let changes = draft.into_changes();
    tree.absorb(changes, steps)?;
    Ok(Some((count, gone)))
}

// ---- both

fn asked(machine: &mut KhepriMachine, cmd: &Command) -> Result<Option<Reply>, AllocError> {
    if machine.position() >= ENTRIES {
        return Ok(None);
    }
    Ok(Some(machine.exec_uncounted(cmd)?))
}

// Whether the machine answers what the plain tree does.
fn agrees(reply: &Option<Reply>, plain: Option<(u64, u64)>) -> bool {
    match (reply, plain) {
        (Some(Reply::Changed { count, gone }), Some(pair)) => (*count, *gone) == pair,
        (Some(Reply::NoWhile { target: _ }), None) => true,
        _ => false,
    }
}

fn cond(number: u64) -> Condition {
    match number {
        0 => Condition::Absent,
        1 => Condition::Kids(Compare::Ge, 1),
        2 => Condition::Cv(Compare::Le, 2),
        _ => Condition::Exists,
    }
}

// At most two watches.
fn some_watches(alloc: Global, seed: &mut u64) -> Result<Vec<Watch>, TextFault> {
    let mut all = Vec::new(alloc);
    for _ in 0..draw(seed, 3) {
        let target = path_at(alloc, draw(seed, PATHS))?;
        let cond = cond(draw(seed, 6));
        all.push(Watch { target, cond })?;
    }
    Ok(all)
}

fn put_both<L: Ledger>(
    alloc: Global,
    machine: &mut KhepriMachine,
    tree: &mut Tree,
    seed: &mut u64,
    steps: &mut Steps<L>,
) -> Result<bool, TextFault> {
    let path = path_at(alloc, draw(seed, PATHS))?;
    let Some(watches) = Watches::from_vec(some_watches(alloc, seed)?) else {
        return Ok(false);
    };
    let plain = plain_put(tree, &path, &watches, steps)?;
    let put = Command::Put {
        path,
        payload: Payload::Empty,
        watch: Watching::While(watches),
    };
    Ok(agrees(&asked(machine, &put)?, plain))
}

fn del_both<L: Ledger>(
    alloc: Global,
    machine: &mut KhepriMachine,
    tree: &mut Tree,
    seed: &mut u64,
    steps: &mut Steps<L>,
) -> Result<bool, TextFault> {
    let path = path_at(alloc, draw(seed, PATHS))?;
    if path.len() == 0 {
        return Ok(false);
    }
    let plain = plain_del(alloc, tree, path.copy()?, steps)?;
    Ok(agrees(&asked(machine, &Command::Del { path })?, plain))
}

// Whether the machine shows what the plain tree does: the versions and how many children, or that no node stands.
fn shows(reply: &Option<Reply>, plain: Option<(u64, u64, u64)>) -> bool {
    match (reply, plain) {
        (
            Some(
                Reply::Node {
                    pv,
                    cv,
                    kids,
                    payload: _,
                },
            ),
            Some(node),
        ) => (*pv, *cv, *kids) == node,
        (Some(Reply::NoAbsent), None) => true,
        _ => false,
    }
}

// The versions of the node at the path, and how many children it has.
fn plain_get<L: Ledger>(tree: &Tree, path: &Path, steps: &mut Steps<L>) -> Option<(u64, u64, u64)> {
    let node = tree.node(path, steps)?;
    Some((node.pv, node.cv, node.kids))
}

// Whether the same stands at the path.
fn same_at<L: Ledger>(
    machine: &mut KhepriMachine,
    tree: &Tree,
    path: Path,
    steps: &mut Steps<L>,
) -> Result<bool, TextFault> {
    let plain = plain_get(tree, &path, steps);
    Ok(shows(&asked(machine, &Command::Get { path })?, plain))
}

fn runs<L: Ledger>(alloc: Global, tree: Tree, seed: u64, blank: Blank) -> Result<bool, TextFault>
    requires blank { (blank.name ≡ L.name) × (blank.parts ≡ L.parts) × (0 < L.parts) }
{
    let mut tree = tree;
    let mut seed = seed;
    let mut steps = Steps::<L>::open(blank);
    let mut machine = KhepriMachine::fresh(alloc)?;
    for _ in 0..COMMANDS {
        let same = if draw(&mut seed, 4) == 0 {
            del_both(alloc, &mut machine, &mut tree, &mut seed, &mut steps)?
        } else {
            put_both(alloc, &mut machine, &mut tree, &mut seed, &mut steps)?
        };
        if !same {
            return Ok(false);
        }
    }
    for number in 0..PATHS {
        if !same_at(&mut machine, &tree, path_at(alloc, number)?, &mut steps)? {
            return Ok(false);
        }
    }
    Ok(true)
}

fn runs_once(alloc: Global, seed: u64) -> Result<bool, TextFault> {
    runs::<Brand>(alloc, tree_of_a_root(alloc)?, seed, Blank::new(1))
}

#[test]
fn settling_by_the_index_is_settling_by_rounds(rt: HostRuntime) -> Result<(), Fail> {
    for seed in 0..TREES {
        assert!(rt; runs_once(rt.alloc(), seed)?);
    }
    Ok(())
}
