//! Scripts over drafts. A draft of a tree is a scene: scripts read it and change it through the trait `ScriptTree`, each read counts,
//! and the paths that a script writes are noted. Nothing settles here, and no command is known.
#![tactic(auto)]

mod draft;
mod look;
mod matching;
mod run;
mod scene;
mod unmet;

pub use draft::ScriptDraft;
pub use matching::matching_paths;
pub use run::run_on_draft;
pub use scene::DraftScene;
pub use unmet::first_unmet_written;
