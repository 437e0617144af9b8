// Running statements.
ghost use Rattle.std.specs.Prelude.{◌≡◌, [], ◌∷◌, ◌++◌, IfOk, OnOk, map};
ghost use Rattle.khepri_types.specs.Scenes.{Scene};
ghost use Rattle.khepri_types.specs.Statements.{spend, turn, turns, put, clear, del, hold, free, emit, does, block, script, no_of, outcome_of, end_of, stopped};
ghost use Rattle.khepri_types.specs.Values.{emitted};
ghost use Rattle.tx_script.specs.declared.run.Machine.{Machine};
ghost use Rattle.tx_script.specs.Answers.{run_of, Ends, Adds};

use crate::halt::{Halt, refused};
use crate::operands::{into_bytes, into_path, into_rec, into_truth, into_value};
use crate::reads::stands;
use crate::registers::{assign, opening};
use crate::typing::Checked;
use crate::value::{pair, value};
use khepri_terms::{Path, Rec};
use khepri_types::limits::{MAX_EMITTED, MAX_PATH_NAMES, MAX_UNITS, MAX_WATCHES};
use khepri_types::{
    Operand, Outcome, Payload, Refusal, Register, Registers, Reply, ScriptTree, Statement, Stop,
    Value, Watch, Watches,
};
use sqlite_items::Items;
use std::alloc::{AllocError, Global};

/// What a run holds beside the tree.
#[derive(Drop)]
pub struct Machine {
    pub registers: Registers,
    /// What was emitted.
    pub values: Items<Value>,
    /// How many units were spent.
    pub units: u64,
}

// One unit more, unless it would be one too many.
fn spend(machine: &mut Machine) -> Result<(), Halt>
    ensures { (s : Scene) → Ends result (run_of machine.new s) (spend (run_of machine.old s)) }
{
    if machine.units < MAX_UNITS {
        machine.units += 1;
        return Ok(());
    }
    Err(Halt::Stop(Stop::Spent))
}

fn put<T: ScriptTree>(at: Path, new: Rec, tree: &mut T) -> Result<(), Halt>
    ensures ends { (m : Machine) → Ends result (run_of m (T.scene tree.new)) (put at new (run_of m (T.scene tree.old))) }
    ensures over { T.over tree.new ≡ T.over tree.old }
{
    if at.len() > MAX_PATH_NAMES {
        return Err(refused(Refusal::Deep));
    }
    tree.set(&at, &Payload::Fields(new))?;
    Ok(())
}

fn clear<T: ScriptTree>(at: Path, tree: &mut T) -> Result<(), Halt>
    ensures ends { (m : Machine) → Ends result (run_of m (T.scene tree.new)) (clear at (run_of m (T.scene tree.old))) }
    ensures over { T.over tree.new ≡ T.over tree.old }
{
    if !stands(&at, tree) {
        return Err(refused(Refusal::Absent));
    }
    tree.set(&at, &Payload::Empty)?;
    Ok(())
}

fn del<T: ScriptTree>(at: Path, tree: &mut T) -> Result<(), Halt>
    ensures ends { (m : Machine) → Ends result (run_of m (T.scene tree.new)) (del at (run_of m (T.scene tree.old))) }
    ensures over { T.over tree.new ≡ T.over tree.old }
{
    if at.len() == 0 {
        return Err(refused(Refusal::Root));
    }
    tree.drop_at(&at)?;
    Ok(())
}

// The watches of a node and one more, unless it has as many as it may have.
fn add_watch(alloc: Global, old: &[Watch], watch: Watch) -> Result<Watches, Halt>
    ensures { Adds result old.now watch }
{
    if old.len() >= MAX_WATCHES {
        return Err(refused(Refusal::Full));
    }
    match Watches::from_vec(with_watch(alloc, old, watch)?) {
        Some(all) => Ok(all),
        None => unreachable!(),
    }
}

#[tactic(auto, using(crate::proofs::Seeing::unseen))]
fn hold<T: ScriptTree>(alloc: Global, at: Path, watch: Watch, tree: &mut T) -> Result<(), Halt>
    ensures ends { (m : Machine) → Ends result (run_of m (T.scene tree.new)) (hold at watch (run_of m (T.scene tree.old))) }
    ensures over { T.over tree.new ≡ T.over tree.old }
{
    if at.len() == 0 {
        return Err(refused(Refusal::Root));
    }
    if watch.target.len() > MAX_PATH_NAMES {
        return Err(refused(Refusal::Deep));
    }
    let Some(node) = tree.node(&at) else {
        return Err(refused(Refusal::Absent));
    };
    let watches = add_watch(alloc, node.watches, watch)?;
    tree.set_watches(&at, &watches)?;
    Ok(())
}

fn free<T: ScriptTree>(alloc: Global, at: Path, tree: &mut T) -> Result<(), Halt>
    ensures ends { (m : Machine) → Ends result (run_of m (T.scene tree.new)) (free at (run_of m (T.scene tree.old))) }
    ensures over { T.over tree.new ≡ T.over tree.old }
{
    if at.len() == 0 {
        return Err(refused(Refusal::Root));
    }
    if !stands(&at, tree) {
        return Err(refused(Refusal::Absent));
    }
    tree.set_watches(&at, &Watches::none(alloc))?;
    Ok(())
}

fn emit(v: Operand, machine: &mut Machine) -> Result<(), Halt>
    ensures { (s : Scene) → Ends result (run_of machine.new s) (emit (emitted v) (run_of machine.old s)) }
{
    if machine.values.len() >= MAX_EMITTED {
        return Err(refused(Refusal::Full));
    }
    machine.values.push(into_value(v))?;
    Ok(())
}

fn with_watch(alloc: Global, old: &[Watch], watch: Watch) -> Result<Vec<Watch>, AllocError>
    ensures { IfOk result (λ all. all.items ≡ old.now ++ watch ∷ []) }
{
    let mut all = copies(alloc, old)?;
    all.push(watch)?;
    Ok(all)
}

fn copies(alloc: Global, watches: &[Watch]) -> Result<Vec<Watch>, AllocError>
    ensures { IfOk result (λ all. all.items ≡ watches.now) }
{
    let mut all = Vec::new(alloc);
    for watch in watches {
        all.push(watch.copy(alloc)?)?;
    }
    Ok(all)
}

/// Statements one after the other.
#[cycle(runs)]
pub(crate) fn block<T: ScriptTree>(
    alloc: Global,
    statements: &[Statement],
    machine: &mut Machine,
    tree: &mut T,
) -> Result<(), Halt>
    ensures ends { Ends result (run_of machine.new (T.scene tree.new)) (block statements.now (run_of machine.old (T.scene tree.old))) }
    ensures over { T.over tree.new ≡ T.over tree.old }
{
    for one in statements {
        statement(alloc, one, machine, tree)?;
    }
    Ok(())
}

// One turn of `each`.
#[cycle(runs)]
fn turn<T: ScriptTree>(
    alloc: Global,
    reg: Register,
    at: &Path,
    body: &[Statement],
    machine: &mut Machine,
    tree: &mut T,
) -> Result<(), Halt>
    ensures ends { Ends result (run_of machine.new (T.scene tree.new)) (turn reg (map does body.now) at.now (run_of machine.old (T.scene tree.old))) }
    ensures over { T.over tree.new ≡ T.over tree.old }
{
    spend(machine)?;
    assign(
        alloc,
        reg,
        Operand::Path(at.copy()?),
        &mut machine.registers,
    );
    block(alloc, body, machine, tree)
}

// A turn for each of these paths.
#[cycle(runs)]
fn turns<T: ScriptTree>(
    alloc: Global,
    reg: Register,
    paths: &[Path],
    body: &[Statement],
    machine: &mut Machine,
    tree: &mut T,
) -> Result<(), Halt>
    ensures ends { Ends result (run_of machine.new (T.scene tree.new)) (turns reg (map does body.now) paths.now (run_of machine.old (T.scene tree.old))) }
    ensures over { T.over tree.new ≡ T.over tree.old }
{
    for at in paths {
        turn(alloc, reg, at, body, machine, tree)?;
    }
    Ok(())
}

// A statement, its unit first.
#[cycle(runs)]
#[tactic(auto, using(crate::proofs::Pairs::one_stops, crate::proofs::Pairs::two_stop))]
fn statement<T: ScriptTree>(
    alloc: Global,
    s: &Statement,
    machine: &mut Machine,
    tree: &mut T,
) -> Result<(), Halt>
    ensures ends { Ends result (run_of machine.new (T.scene tree.new)) (does s.now (run_of machine.old (T.scene tree.old))) }
    ensures over { T.over tree.new ≡ T.over tree.old }
{
    spend(machine)?; // before its expressions
    match s {
        Statement::Let(reg, e) => {
            let v = value(alloc, e, &machine.registers, tree)?;
            assign(alloc, *reg, v, &mut machine.registers);
            Ok(())
        }
        Statement::Put(a, b) => {
            let (p, d) = pair(alloc, a, b, &machine.registers, tree)?;
            put(into_path(alloc, p), into_rec(alloc, d), tree)
        }
        Statement::Clear(a) => {
            let p = value(alloc, a, &machine.registers, tree)?;
            clear(into_path(alloc, p), tree)
        }
        Statement::Del(a) => {
            let p = value(alloc, a, &machine.registers, tree)?;
            del(into_path(alloc, p), tree)
        }
        Statement::Hold(a, b, cond) => {
            let (p, q) = pair(alloc, a, b, &machine.registers, tree)?;
            let watch = Watch {
                target: into_path(alloc, q),
                cond: cond.copy(alloc)?,
            };
            hold(alloc, into_path(alloc, p), watch, tree)
        }
        Statement::Free(a) => {
            let p = value(alloc, a, &machine.registers, tree)?;
            free(alloc, into_path(alloc, p), tree)
        }
        Statement::Emit(a) => {
            let v = value(alloc, a, &machine.registers, tree)?;
            emit(v, machine)
        }
        Statement::Abort(a) => {
            let t = value(alloc, a, &machine.registers, tree)?;
            Err(Halt::Stop(Stop::Abort(into_bytes(alloc, t))))
        }
        Statement::If(e, a, b) => {
            let v = value(alloc, e, &machine.registers, tree)?;
            if into_truth(v) {
                return block(alloc, a.as_slice(), machine, tree);
            }
            block(alloc, b.as_slice(), machine, tree)
        }
        Statement::Each(reg, pattern, body) => {
            let paths = tree.matching(pattern)?;
            turns(
                alloc,
                *reg,
                paths.as_slice(),
                body.as_slice(),
                machine,
                tree,
            )
        }
    }
}

// What answers a refusal inside a script.
fn reply_to(why: Refusal) -> Reply
    ensures { result ≡ no_of why }
{
    match why {
        Refusal::Root => Reply::NoRoot,
        Refusal::Deep => Reply::NoDeep,
        Refusal::Absent => Reply::NoAbsent,
        Refusal::Full => Reply::NoFull,
        Refusal::Name => Reply::NoName,
    }
}

fn ended(stop: Stop) -> Outcome
    ensures { result ≡ stopped stop }
{
    match stop {
        Stop::Abort(text) => Outcome::Abort(text),
        Stop::Spent => Outcome::Spent,
        Stop::Refused(why) => Outcome::Refused(reply_to(why)),
    }
}

/// Runs a script with these arguments and this path on a tree through which nothing was written yet. It ends as the script's
/// meaning says and leaves what that says; after `AllocError` the tree may only be dropped.
pub fn run_script<T: ScriptTree>(
    alloc: Global,
    checked: &Checked,
    args: &Rec,
    at: &Path,
    tree: &mut T,
) -> Result<Outcome, AllocError>
    requires fresh { (T.scene tree.old).written ≡ [] }
    ensures outcome { IfOk result (λ o. o ≡ outcome_of (script checked.now args.now at.now (T.scene tree.old).tree)) }
    ensures scene { OnOk result (T.scene tree.new ≡ (end_of (script checked.now args.now at.now (T.scene tree.old).tree)).scene) }
    ensures over { T.over tree.new ≡ T.over tree.old }
{
    let mut machine = Machine {
        registers: opening(alloc, args.copy()?, at.copy()?)?,
        values: Items::new(alloc),
        units: 0,
    };
    match block(alloc, checked.block(), &mut machine, tree) {
        Ok(()) => Ok(Outcome::Done(machine.values)),
        Err(Halt::Stop(stop)) => Ok(ended(stop)),
        Err(Halt::NoMemory) => Err(AllocError),
    }
}
