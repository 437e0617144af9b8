// The paths that a pattern matches in a draft.
ghost use Rattle.std.specs.Prelude.{◌≡◌, ◌<◌, ◌≤◌, ◌+◌, [], IfOk, length};
ghost use Rattle.std.specs.Option.{option_copied};
ghost use Rattle.khepri_types.specs.Patterns.{matching};
ghost use Rattle.pattern_match.specs.Masks.{AreMasks};
ghost use Rattle.draft_scene.specs.Scans.{ahead, AreBehind, AreClimbed, ComesNext, path_or_root};

use khepri_terms::Path;
use khepri_types::Pattern;
use pattern_match::MaskPath;
use std::alloc::AllocError;
use std::sync::ledger::Ledger;
use step_count::Steps;
use tree_nodes::Draft;

// From the masks of a path to those of a front of it.
fn climb(masks: &mut MaskPath, from: usize, to: usize)
    requires within { to ≤ from }
    requires len { length masks.old ≡ from + 1 }
    ensures len { length masks.new ≡ to + 1 }
    ensures masks { AreClimbed from to masks.old masks.new }
{
    let mut names = from;
    'up: while names > to {
        masks.leave();
        names -= 1;
    }
}

// How many names the path has; before the first path none.
fn names_of(last: Option<&Path>) -> usize
    ensures { result ≡ length (path_or_root (option_copied last.entry)) }
{
    match last {
        None => 0,
        Some(path) => path.len(),
    }
}

// The path of the node that comes next, and its masks in place of those of the path before it.
fn visit<L: Ledger>(
    draft: &Draft,
    last: Option<&Path>,
    pattern: &Pattern,
    masks: &mut MaskPath,
    steps: &mut Steps<L>,
) -> Result<Path, AllocError>
    requires more { 0 < length (ahead draft.now.tree (option_copied last)) }
    requires behind { AreBehind pattern.now draft.now.tree (option_copied last) masks.old }
    ensures next { IfOk result (λ p. ComesNext draft.now.tree (option_copied last.entry) p) }
    ensures masks { IfOk result (λ p. AreMasks pattern.now draft.now.tree [] p masks.new) }
{
    // For the proof alone: the call tells that each front of a standing path stands.
    let _nodes = draft.nodes();
    let from = names_of(last);
    let Some(path) = draft.path_after(last, steps)? else {
        unreachable!()
    };
    let names = path.len();
    if names == 0 {
        return Ok(path);
    }
    let Some(node) = draft.node(&path, steps) else {
        unreachable!()
    };
    climb(masks, from, names - 1);
    masks.enter(pattern, &node);
    Ok(path)
}

/// All paths that a pattern matches in a draft, in order: one look at each node, each by a search of its own. Of the other paths none is
/// kept.
pub fn matching_paths<L: Ledger>(
    draft: &Draft,
    pattern: &Pattern,
    steps: &mut Steps<L>,
) -> Result<Vec<Path>, AllocError>
    ensures { IfOk result (λ v. v.items ≡ matching pattern.now draft.now.tree) }
{
    let mut masks = MaskPath::start(draft.alloc(), pattern);
    let mut paths = Vec::new(draft.alloc());
    let mut last = None;
    'nodes: for _ in 0..draft.nodes() {
        let path = visit(draft, last.as_ref(), pattern, &mut masks, steps)?;
        if masks.top().accepts(pattern) {
            paths.push(path.copy()?)?;
        }
        last = Some(path);
    }
    Ok(paths)
}
