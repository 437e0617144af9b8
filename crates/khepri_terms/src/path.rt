ghost use Rattle.std.specs.Prelude.{◌≡◌, ◌<◌, ◌≤◌, ◌++◌, [], ◌∷◌, ◌+◌, ◌↔◌, length, slice_get, take, drop, IfOk, OnOk, OnErr, IsTrue, Ok, Err, Some, None};
ghost use Rattle.std.proofs.Common.{rules};
ghost use Rattle.khepri_terms.specs.OrderLaws.{path_ties, path_feeds};
ghost use Rattle.std.specs.Cmp.{partial_order_from_own_ties};
ghost use Rattle.std.specs.Cmp.Rules.{comparing};
ghost use Rattle.std.specs.Ordering.{as_partial_cmp};
ghost use Rattle.std.specs.List.{AllByRecursion, flat_map};
ghost use Rattle.khepri_terms.specs.declared.limits.TheConstants.{MAX_SPELLED_NAMES};
ghost use Rattle.khepri_terms.specs.Lengths.{capped};
ghost use Rattle.khepri_terms.specs.Names.{IsName};
ghost use Rattle.khepri_terms.specs.Paths.{step_text, path_text, step_at, names_at, path_at, LongestPath, BeginsNoPath};
ghost use Rattle.khepri_terms.specs.Order.{name_fed, path_cmp, path_eq};
ghost use Rattle.std.specs.Hash as fed;

use crate::fault::TextFault;
use crate::limits::{MAX_PATH_TEXT, MAX_SPELLED_NAMES};
use crate::name::Name;
use crate::texts::keep_whole;
use std::alloc::{AllocError, Global};
use std::cmp::Ordering;
use std::hash::{Hash, Hasher};
use std::marker::Model;

/// A list of names; the root is the empty one.
#[derive(Drop)]
pub struct Path {
    names: Vec<Name>,
    alloc: Global,
}

impl Model for Path {
    ghost use Rattle.std.specs.Prelude.{List};
    ghost use Rattle.std.specs.List.{AllByRecursion};
    ghost use Rattle.khepri_terms.specs.Terms.{NameText};
    ghost use Rattle.khepri_terms.specs.Names.{IsName};

    ghost Value = { List NameText };

    ghost view = { λ p. p.names.items };

    ghost invariant = { λ p. AllByRecursion IsName p.names.items };
}

impl Path {
    /// The path without names. It takes no memory.
    pub fn root(alloc: Global) -> Path
        ensures { result ≡ [] }
    {
        Path {
            names: Vec::new(alloc),
            alloc,
        }
    }

    /// How many names there are.
    pub fn len(&self) -> usize
        ensures { result ≡ length self.now }
    {
        self.names.len()
    }

    /// Whether all names are the same.
    pub fn is_same(&self, other: &Path) -> bool
        ensures { IsTrue result ↔ (self.now ≡ other.now) }
    {
        self == other
    }

    /// Name by name, from the root on; a path is before those that begin with it.
    pub fn compare(&self, other: &Path) -> Ordering
        ensures { result ≡ path_cmp self.now other.now }
    {
        self.names.as_slice().cmp(other.names.as_slice())
    }

    /// The longest path that is spelled at the front, and what is after it.
    pub fn read(alloc: Global, text: &[u8]) -> Result<(Path, &[u8]), TextFault>
        ensures value { IfOk result (λ x. path_at text.now ≡ Some (x.0, x.1.now)) }
        ensures bad { result ≡ Err TextFault.Bad → path_at text.now ≡ None }
        ensures longest { IfOk result (λ x. LongestPath text.now x.0 x.1.now) }
        ensures none { result ≡ Err TextFault.Bad → BeginsNoPath text.now }
    {
        read_path(alloc, text)
    }

    /// The longest path that is spelled at `at`, and where it ends.
    pub fn read_at(alloc: Global, text: &[u8], at: usize) -> Result<(Path, usize), TextFault>
        requires { at ≤ length text.now }
        ensures value { IfOk result (λ x. path_at (drop at text.now) ≡ Some (x.0, drop x.1 text.now)) }
        ensures end { IfOk result (λ x. x.1 ≡ at + length (path_text x.0)) }
        ensures within { IfOk result (λ x. x.1 ≤ length text.now) }
        ensures bad { result ≡ Err TextFault.Bad → path_at (drop at text.now) ≡ None }
        ensures longest { IfOk result (λ x. LongestPath (drop at text.now) x.0 (drop x.1 text.now)) }
        ensures none { result ≡ Err TextFault.Bad → BeginsNoPath (drop at text.now) }
    {
        let (_, behind) = text.split_at(at);
        let (path, rest) = Path::read(alloc, behind)?;
        Ok((path, text.len() - rest.len()))
    }

    /// Appends the spelling; where memory is wanting, nothing.
    pub fn print(&self, out: &mut Vec<u8>) -> Result<(), AllocError>
        ensures ok { OnOk result (out.new.items ≡ out.old.items ++ path_text self.now) }
        ensures err { OnErr result (out.new.items ≡ out.old.items) }
    {
        let len = out.len();
        let printed = print_names(self.names.as_slice(), out);
        keep_whole(printed, len, out)
    }

    /// How long the spelling is, at most `usize::MAX`.
    #[tactic(auto, unfolding(crate::specs::Paths::path_text))]
    pub fn text_len(&self) -> usize
        ensures len { result ≡ capped (length (path_text self.now)) }
        ensures names { AllByRecursion IsName self.now }
    {
        names_len(self.names.as_slice())
    }

    /// The names, from the root on.
    pub fn names(&self) -> &[Name]
        ensures { result.now ≡ self.now }
    {
        self.names.as_slice()
    }

    /// The name at a place, counted from 0.
    pub fn name(&self, i: usize) -> &Name
        requires { i < length self.now }
        ensures { slice_get self.now i ≡ Some result.now }
    {
        &self.names[i]
    }

    /// A copy with memory of its own.
    pub fn copy(&self) -> Result<Path, AllocError>
        ensures { IfOk result (λ p. p ≡ self.now) }
    {
        Ok(Path {
            names: copy_names(self.alloc, self.names.as_slice())?,
            alloc: self.alloc,
        })
    }

    /// The path of the first `len` names.
    pub fn front(&self, len: usize) -> Result<Path, AllocError>
        requires { len ≤ length self.now }
        ensures { IfOk result (λ p. p ≡ take len self.now) }
    {
        let (front, _) = self.names.as_slice().split_at(len);
        Ok(Path {
            names: copy_names(self.alloc, front)?,
            alloc: self.alloc,
        })
    }

    /// The path with this name behind the others.
    pub fn child(&self, name: &Name) -> Result<Path, AllocError>
        ensures { IfOk result (λ p. p ≡ self.now ++ name.now ∷ []) }
    {
        let mut names = copy_names(self.alloc, self.names.as_slice())?;
        names.push(name.copy()?)?;
        Ok(Path {
            names,
            alloc: self.alloc,
        })
    }

    /// How the path of the first `len` names compares.
    pub fn compare_front(&self, len: usize, other: &Path) -> Ordering
        requires { len ≤ length self.now }
        ensures { result ≡ path_cmp (take len self.now) other.now }
    {
        let (front, _) = self.names.as_slice().split_at(len);
        front.cmp(other.names.as_slice())
    }
}

// The first bytes of a text.
fn first_bytes(text: &[u8], len: usize) -> &[u8]
    ensures { result.now ≡ take len text.now }
{
    if text.len() <= len {
        return text;
    }
    let (front, _) = text.split_at(len);
    front
}

fn copy_names(alloc: Global, names: &[Name]) -> Result<Vec<Name>, AllocError>
    ensures { IfOk result (λ v. v.items ≡ names.now) }
{
    let mut copy = Vec::with_capacity(alloc, names.len())?;
    for name in names {
        copy.push(name.copy()?)?;
    }
    Ok(copy)
}

#[tactic(auto, unfolding(crate::specs::Paths::path_text))]
fn print_names(names: &[Name], out: &mut Vec<u8>) -> Result<(), AllocError>
    ensures ok { OnOk result (out.new.items ≡ out.old.items ++ path_text names.now) }
    ensures front { take (length out.old.items) out.new.items ≡ out.old.items }
{
    match names {
        [] => out.push(b'/')?,
        [_, ..] => print_steps(names, out)?,
    }
    Ok(())
}

// A slash and the name.
#[tactic(auto, using(crate::proofs::Printing::front_then))]
fn print_step(name: &Name, out: &mut Vec<u8>) -> Result<(), AllocError>
    ensures ok { OnOk result (out.new.items ≡ out.old.items ++ step_text name.now) }
    ensures front { take (length out.old.items) out.new.items ≡ out.old.items }
{
    out.push(b'/')?;
    name.append(out)
}

// Each name behind a slash.
fn print_steps(names: &[Name], out: &mut Vec<u8>) -> Result<(), AllocError>
    ensures ok { OnOk result (out.new.items ≡ out.old.items ++ flat_map step_text names.now) }
    ensures front { take (length out.old.items) out.new.items ≡ out.old.items }
{
    for name in names {
        print_step(name, out)?;
    }
    Ok(())
}

// The slash and the name at the front, and what is after it.
#[tactic(auto, unfolding(crate::specs::Paths::step_at))]
fn read_step(alloc: Global, text: &[u8]) -> Result<(Name, &[u8]), TextFault>
    ensures value { IfOk result (λ x. step_at text.now ≡ Some (x.0, x.1.now)) }
    ensures bad { result ≡ Err TextFault.Bad → step_at text.now ≡ None }
{
    match text {
        [b'/', rest @ ..] => Name::read(alloc, rest),
        _ => Err(TextFault::Bad),
    }
}

// As many names as stand at the front, each behind a slash, and what is after them.
fn read_names(alloc: Global, text: &[u8]) -> Result<(Vec<Name>, &[u8]), AllocError>
    ensures value { IfOk result (λ x. names_at MAX_SPELLED_NAMES text.now ≡ (x.0.items, x.1.now)) }
    ensures within { IfOk result (λ x. length x.1.now ≤ length text.now) }
{
    let mut names = Vec::new(alloc);
    let mut rest = text;
    'names: while names.len() < MAX_SPELLED_NAMES {
        match read_step(alloc, rest) {
            Ok((name, after)) => {
                names.push(name)?;
                rest = after;
            }
            Err(TextFault::Bad) => break 'names,
            Err(TextFault::NoMemory) => return Err(AllocError),
        }
    }
    Ok((names, rest))
}

#[tactic(auto, unfolding(crate::specs::Paths::path_text))]
fn names_len(names: &[Name]) -> usize
    ensures { result ≡ capped (length (path_text names.now)) }
{
    match names {
        [] => 1,
        [_, ..] => steps_len(names),
    }
}

// How long the names are, each behind a slash.
fn steps_len(names: &[Name]) -> usize
    ensures { result ≡ capped (length (flat_map step_text names.now)) }
{
    let mut len: usize = 0;
    for name in names {
        len = len.saturating_add(name.text_len().saturating_add(1));
    }
    len
}

// The longest path that is spelled at the front, and what is after it.
#[tactic(auto, unfolding(crate::specs::Paths::path_at))]
fn read_path(alloc: Global, text: &[u8]) -> Result<(Path, &[u8]), TextFault>
    ensures value { IfOk result (λ x. path_at text.now ≡ Some (x.0, x.1.now)) }
    ensures bad { result ≡ Err TextFault.Bad → path_at text.now ≡ None }
{
    match text {
        [b'/', after @ ..] => {
            let window = first_bytes(text, MAX_PATH_TEXT);
            let (names, left) = read_names(alloc, window)?;
            if names.len() == 0 {
                return Ok((Path::root(alloc), after));
            }
            let (_, rest) = text.split_at(window.len() - left.len());
            Ok((Path { names, alloc }, rest))
        }
        _ => Err(TextFault::Bad),
    }
}

impl PartialEq for Path {
    ghost eq = { path_eq };

    ghost laws = { Prim.search (comparing, rules) };

    fn eq(&self, other: &Path) -> bool {
        self.names.as_slice() == other.names.as_slice()
    }
}

impl Eq for Path {
    ghost laws = { Prim.search (comparing, rules) };
}

impl PartialOrd for Path {
    ghost partial_cmp = { as_partial_cmp path_cmp };

    ghost laws = { partial_order_from_own_ties (Prim.search (comparing, rules)) path_ties };

    fn partial_cmp(&self, other: &Path) -> Option<Ordering> {
        Some(self.cmp(other))
    }
}

impl Ord for Path {
    ghost cmp = { path_cmp };

    ghost total = { Prim.search (comparing, rules) };

    ghost matches_partial_cmp = { Prim.search (comparing, rules) };

    ghost matches_eq = { path_ties };

    fn cmp(&self, other: &Path) -> Ordering {
        self.names.as_slice().cmp(other.names.as_slice())
    }
}

impl Hash for Path {
    ghost hash_input = { fed.slice name_fed };

    ghost respects_eq = { path_feeds };

    fn hash<H: Hasher>(&self, state: &mut H) {
        self.names.as_slice().hash(state);
    }
}
