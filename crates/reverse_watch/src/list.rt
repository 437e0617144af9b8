// Paths in order.
ghost use Rattle.std.specs.Prelude.{◌≡◌, [], List, OnOk, OnErr, IfOk, IsTrue, ◌||◌, ◌&&◌, not, length};
ghost use Rattle.std.specs.Ordering.{is_eq};
ghost use Rattle.khepri_terms.specs.Terms.{NameText};
ghost use Rattle.khepri_terms.specs.Order.{path_cmp};
ghost use Rattle.worklist_laws.specs.Candidates.{is_in};
ghost use Rattle.worklist_laws.specs.Links.{targets};
ghost use Rattle.reverse_watch.specs.Listing.{Rises};

use khepri_terms::Path;
use khepri_types::Watch;
use std::alloc::{AllocError, Global};
use std::marker::Model;

/// Paths in order, each once.
#[derive(Drop)]
pub(crate) struct Listed {
    items: Vec<Path>,
}

impl Model for Listed {
    ghost use Rattle.std.specs.Prelude.{List};
    ghost use Rattle.khepri_terms.specs.Terms.{NameText};
    ghost use Rattle.reverse_watch.specs.Listing.{Rises};

    ghost Value = { List (List NameText) };

    ghost view = { λ l. l.items.items };

    ghost invariant = { λ l. Rises l.items.items };
}

impl Listed {
    pub(crate) fn none(alloc: Global) -> Listed
        ensures { result ≡ [] }
    {
        Listed {
            items: Vec::new(alloc),
        }
    }

    pub(crate) fn as_slice(&self) -> &[Path]
        ensures same { result.now ≡ self.now }
        ensures rises { Rises self.now }
    {
        self.items.as_slice()
    }

    pub(crate) fn is_empty(&self) -> bool
        ensures { IsTrue result → self.now ≡ [] }
    {
        self.items.len() == 0
    }

    pub(crate) fn add(&mut self, node: Path) -> Result<(), AllocError>
        ensures ok { OnOk result ((p : List NameText) → is_in self.new p ≡ (is_in self.old p || is_eq (path_cmp p node))) }
        ensures err { OnErr result (self.new ≡ self.old) }
    {
        if let Err(i) = self.items.as_slice().binary_search(&node) {
            self.items.insert(i, node)?;
        }
        Ok(())
    }

    /// It takes no memory.
    pub(crate) fn cut(&mut self, node: &Path)
        ensures { (p : List NameText) → is_in self.new p ≡ (is_in self.old p && not (is_eq (path_cmp p node.now))) }
    {
        if let Ok(i) = self.items.as_slice().binary_search(node) {
            self.items.remove(i);
        }
    }
}

/// The targets of a node.
#[derive(Drop)]
pub(crate) struct Targets {
    items: Vec<Path>,
}

impl Model for Targets {
    ghost use Rattle.std.specs.Prelude.{List};
    ghost use Rattle.khepri_terms.specs.Terms.{NameText};

    ghost Value = { List (List NameText) };

    ghost view = { λ l. l.items.items };
}

impl Targets {
    pub(crate) fn of(alloc: Global, watches: &[Watch]) -> Result<Targets, AllocError>
        ensures { IfOk result (λ ts. ts ≡ targets watches.now) }
    {
        Ok(Targets {
            items: copies(alloc, watches)?,
        })
    }

    pub(crate) fn as_slice(&self) -> &[Path]
        ensures { result.now ≡ self.now }
    {
        self.items.as_slice()
    }
}

fn copies(alloc: Global, watches: &[Watch]) -> Result<Vec<Path>, AllocError>
    ensures { IfOk result (λ all. all.items ≡ targets watches.now) }
{
    let mut all = Vec::new(alloc);
    for watch in watches {
        all.push(watch.target.copy()?)?;
    }
    Ok(all)
}
