// What refuses a command before anything is changed.
ghost use Rattle.std.specs.Prelude.{◌≡◌, ltb, length};
ghost use Rattle.std.specs.List.{list_any};
ghost use Rattle.khepri_types.specs.Watching.{is_deep, is_given, gives_root_watches, has_deep_target};
ghost use Rattle.tree_commands.specs.Refusals.{unwritable};

use khepri_terms::Path;
use khepri_types::limits::MAX_PATH_NAMES;
use khepri_types::{Payload, Reply, Watch, Watching};
use tx_script::is_checked;

fn is_deep(path: &Path) -> bool
    ensures { result ≡ is_deep path.now }
{
    path.len() > MAX_PATH_NAMES
}

fn is_given(watch: &Watching) -> bool
    ensures { result ≡ is_given watch.now }
{
    match watch {
        Watching::Stay => false,
        Watching::Free => true,
        Watching::While(_) => true,
    }
}

fn gives_root_watches(path: &Path, watch: &Watching) -> bool
    ensures { result ≡ gives_root_watches path.now watch.now }
{
    if path.len() == 0 {
        return is_given(watch);
    }
    false
}

fn some_target_is_deep(watches: &[Watch]) -> bool
    ensures { result ≡ list_any (λ w. is_deep w.target) watches.now }
{
    for watch in watches {
        if is_deep(&watch.target) {
            return true;
        }
    }
    false
}

fn has_deep_target(watch: &Watching) -> bool
    ensures { result ≡ has_deep_target watch.now }
{
    match watch {
        Watching::Stay => false,
        Watching::Free => false,
        Watching::While(watches) => some_target_is_deep(watches.as_slice()),
    }
}

// What refuses each command that sets this payload at the path, whatever stands there.
pub(crate) fn unwritable(path: &Path, payload: &Payload, watch: &Watching) -> Option<Reply>
    ensures { result ≡ unwritable path.now payload.now watch.now }
{
    if gives_root_watches(path, watch) {
        return Some(Reply::NoRoot);
    }
    if is_deep(path) || has_deep_target(watch) {
        return Some(Reply::NoDeep);
    }
    if !is_checked(payload) {
        return Some(Reply::NoScript);
    }
    None
}
