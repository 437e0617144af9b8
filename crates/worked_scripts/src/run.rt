// Running the text of a script.
ghost use Rattle.std.specs.Prelude.{◌≡◌, ◌<◌};

use crate::answer::append_outcome;
use draft_scene::run_on_draft;
use khepri_terms::{Path, Rec, TextFault};
use khepri_types::{Outcome, Script};
use script_text::{print_script, read_script};
use std::alloc::{AllocError, Global};
use std::marker::Brand;
use std::sync::ledger::{Blank, Ledger};
use step_count::Steps;
use tree_nodes::{Draft, Tree};
use tx_script::{Checked, ScriptFault, check};

/// The row of a script: how it is printed, `|`, and how it ends on a tree that the first script has made.
pub fn tell(alloc: Global, first: &str, text: &str) -> Result<Vec<u8>, AllocError> {
    let mut out = Vec::new(alloc);
    let Some(script) = read_whole(alloc, text)? else {
        out.extend_from_slice(text.as_bytes())?;
        out.extend_from_slice(b"|bad")?;
        return Ok(out);
    };
    print_script(&script, &mut out)?;
    out.extend_from_slice(b"|")?;
    append_end(alloc, first, &script, &mut out)?;
    Ok(out)
}

// Appends how a script ends on a tree of its own.
fn append_end(
    alloc: Global,
    first: &str,
    script: &Script,
    out: &mut Vec<u8>,
) -> Result<(), AllocError> {
    let tree = Tree::fresh(alloc)?;
    let mut draft = tree.draft();
    make(first, &mut draft)?;
    append_run(script, &mut draft, out)
}

// Runs the first script, where its text is one.
fn make(first: &str, draft: &mut Draft) -> Result<(), AllocError> {
    if let Some(first) = read_whole(draft.alloc(), first)? {
        run_on(&first, draft)?;
    }
    Ok(())
}

fn append_run(script: &Script, draft: &mut Draft, out: &mut Vec<u8>) -> Result<(), AllocError> {
    match &run_on(script, draft)? {
        Some(outcome) => append_outcome(outcome, out),
        None => out.extend_from_slice(b"ill"),
    }
}

// The script that is the whole text.
fn read_whole(alloc: Global, text: &str) -> Result<Option<Script>, AllocError> {
    match read_script(alloc, text.as_bytes()) {
        Ok((script, [])) => Ok(Some(script)),
        Ok(_) => Ok(None),
        Err(TextFault::Bad) => Ok(None),
        Err(TextFault::NoMemory) => Err(AllocError),
    }
}

// Runs a script without arguments, from the root: how it ended, none where it is ill typed.
fn run_on(script: &Script, draft: &mut Draft) -> Result<Option<Outcome>, AllocError> {
    match check(draft.alloc(), script) {
        Ok(checked) => Ok(Some(run_checked(&checked, draft)?)),
        Err(ScriptFault::Ill) => Ok(None),
        Err(ScriptFault::NoMemory) => Err(AllocError),
    }
}

// How a well typed script ended.
fn run_checked(checked: &Checked, draft: &mut Draft) -> Result<Outcome, AllocError> {
    run_from::<Brand>(checked, draft, Blank::new(1))
}

// Runs it, and counts its steps from none.
fn run_from<L: Ledger>(
    checked: &Checked,
    draft: &mut Draft,
    blank: Blank,
) -> Result<Outcome, AllocError>
    requires blank { (blank.name ≡ L.name) × (blank.parts ≡ L.parts) × (0 < L.parts) }
{
    let alloc = draft.alloc();
    let mut steps = Steps::<L>::open(blank);
    let mut written = Vec::new(alloc);
    run_on_draft(
        checked,
        &Rec::empty(alloc),
        &Path::root(alloc),
        draft,
        &mut written,
        &mut steps,
    )
}
