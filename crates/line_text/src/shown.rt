// Nodes as a reply lists them.
ghost use Rattle.std.specs.Prelude.{◌≡◌, ◌++◌, ◌∷◌, length, take, codes, IfOk, OnOk, OnErr, Err, Some, None};
ghost use Rattle.std.specs.List.{flat_map};
ghost use Rattle.std.specs.Fmt.{decimal};
ghost use Rattle.khepri_terms.specs.Many.{many};
ghost use Rattle.khepri_types.specs.Texts.{payload_text, shown_text};
ghost use Rattle.khepri_types.specs.ReadingOut.{shown_content, shown_at, nodes_at};

use crate::payload::{append_payload, read_payload};
use crate::words::read_three;
use condition_text::many::{Item, read_many};
use condition_text::words::{append_number, append_word, read_mark};
use khepri_terms::numbers::read_number;
use khepri_terms::{Path, TextFault};
use khepri_types::limits::MAX_NUMBER;
use khepri_types::{Payload, Reply, ShownNode, ShownNodes};
use std::alloc::{AllocError, Global};

/// Appends the nodes one after another.
pub(crate) fn append_shown_nodes(nodes: &[ShownNode], out: &mut Vec<u8>) -> Result<(), AllocError>
    ensures ok { OnOk result (out.new.items ≡ out.old.items ++ flat_map shown_text nodes.now) }
    ensures front { take (length out.old.items) out.new.items ≡ out.old.items }
{
    for node in nodes {
        append_shown(node, out)?;
    }
    Ok(())
}

// Appends ` PATH PV CV KIDS PAYLOAD`.
#[tactic(auto, unfolding(khepri_types::specs::Texts::shown_text))]
fn append_shown(node: &ShownNode, out: &mut Vec<u8>) -> Result<(), AllocError>
    ensures ok { OnOk result (out.new.items ≡ out.old.items ++ shown_text node.now) }
    ensures front { take (length out.old.items) out.new.items ≡ out.old.items }
{
    append_word(b" ", out)?;
    node.path.print(out)?;
    append_content(b" ", node.pv, node.cv, node.kids, &node.payload, out)
}

/// Appends a word, three numbers and a payload.
pub(crate) fn append_content(
    word: &[u8],
    pv: u64,
    cv: u64,
    kids: u64,
    payload: &Payload,
    out: &mut Vec<u8>,
) -> Result<(), AllocError>
    ensures ok { OnOk result (out.new.items ≡ out.old.items ++ (word.now ++ decimal pv ++ 32 ∷ decimal cv ++ 32 ∷ decimal kids ++ 32 ∷ payload_text payload.now)) }
    ensures front { take (length out.old.items) out.new.items ≡ out.old.items }
{
    append_three(word, pv, cv, kids, out)?;
    append_word(b" ", out)?;
    append_payload(payload, out)
}

// Appends a word and three numbers.
fn append_three(
    word: &[u8],
    pv: u64,
    cv: u64,
    kids: u64,
    out: &mut Vec<u8>,
) -> Result<(), AllocError>
    ensures ok { OnOk result (out.new.items ≡ out.old.items ++ (word.now ++ decimal pv ++ 32 ∷ decimal cv ++ 32 ∷ decimal kids)) }
    ensures front { take (length out.old.items) out.new.items ≡ out.old.items }
{
    append_number(word, pv, out)?;
    append_number(b" ", cv, out)?;
    append_number(b" ", kids, out)
}

/// How many nodes there are, and those that are listed, as the whole text spells them behind `nodes `.
#[tactic(auto, unfolding(khepri_types::specs::ReadingOut::nodes_at))]
pub(crate) fn read_nodes(alloc: Global, text: &[u8]) -> Result<Reply, TextFault>
    ensures value { IfOk result (λ x. nodes_at text.now ≡ Some x) }
    ensures bad { result ≡ Err TextFault.Bad → nodes_at text.now ≡ None }
{
    let Some((count, rest)) = read_number(text, MAX_NUMBER) else {
        return Err(TextFault::Bad);
    };
    let (nodes, rest) = read_many::<ShownItem>(alloc, rest, rest.len())?;
    match rest {
        [] => Ok(Reply::Nodes {
            count,
            nodes: ShownNodes::from_vec(nodes),
        }),
        [_, ..] => Err(TextFault::Bad),
    }
}

struct ShownItem;

impl Item for ShownItem {
    ghost use Rattle.khepri_types.specs.ReadingOut.{shown_at};

    type Value = ShownNode;

    ghost item_at = { shown_at };

    #[tactic(auto, unfolding(khepri_types::specs::ReadingOut::shown_at))]
    fn read_item(alloc: Global, text: &[u8]) -> Result<(ShownNode, &[u8]), TextFault> {
        let rest = read_mark(text, b' ')?;
        let (path, rest) = Path::read(alloc, rest)?;
        let rest = read_mark(rest, b' ')?;
        read_content(alloc, path, rest)
    }
}

// The numbers and the payload behind the path of a node, and what is after them.
#[tactic(auto, unfolding(khepri_types::specs::ReadingOut::shown_content))]
fn read_content(alloc: Global, path: Path, text: &[u8]) -> Result<(ShownNode, &[u8]), TextFault>
    ensures value { IfOk result (λ x. shown_content path text.now ≡ Some (x.0, x.1.now)) }
    ensures bad { result ≡ Err TextFault.Bad → shown_content path text.now ≡ None }
{
    let Some((pv, cv, kids, rest)) = read_three(text) else {
        return Err(TextFault::Bad);
    };
    let (payload, rest) = read_payload(alloc, rest)?;
    let node = ShownNode {
        path,
        pv,
        cv,
        kids,
        payload,
    };
    Ok((node, rest))
}
