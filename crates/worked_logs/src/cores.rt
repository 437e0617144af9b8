// Three cores over empty logs, which run the scripts.
ghost use Rattle.std.specs.Prelude.{◌≡◌, ◌≤◌, All, IfOk, OnOk};
ghost use Rattle.std.specs.Bool.{OnTrue};
ghost use Rattle.raft_types.specs.declared.limits.TheConstants.{MAX_TERM as TERMS_END};
ghost use Rattle.raft_types.specs.declared.state.Role.TheVariants.{Leader};
ghost use Rattle.raft_types.specs.Fits.{TermsFit, IndexesFit, HeldFits, MessageFits, HasRoom, EventFits};

use crate::losses::LOSSES;
use crate::rules::RULES;
use crate::script::{Does, Few, Says, State, Step, Tells};
use crate::telling::{entries_told, tells_acts};
use raft_core::node::Core;
use raft_log::log::Log;
use raft_types::bytes::Bytes;
use raft_types::entry::{Entries, LogEntry};
use raft_types::event::{Acts, CoreEvent};
use raft_types::limits::{MAX_INDEX, MAX_TERM};
use raft_types::message::{Body, Message};
use raft_types::state::Role;
use std::alloc::{AllocError, Global};

fn is_leader(core: &Core) -> bool
    ensures { OnTrue result (core.now.role ≡ Leader) }
{
    match core.state().role {
        Role::Leader => true,
        _ => false,
    }
}

fn has_room(core: &Core) -> bool
    ensures { OnTrue result (HasRoom core.now) }
{
    let (last, _) = core.log().last();
    is_leader(core) && last < MAX_INDEX
}

fn are_terms(entries: &[LogEntry]) -> bool
    ensures { OnTrue result (All (λ x. x.term ≤ TERMS_END) entries.now) }
{
    entries.iter().all(|entry| entry.term <= MAX_TERM)
}

fn terms_fit(body: &Body) -> bool
    ensures { OnTrue result (TermsFit body.now) }
{
    match body {
        Body::Vote {
            term,
            last_term,
            ..
        } => *term <= MAX_TERM && *last_term <= MAX_TERM,
        Body::VoteReply { term, .. } => *term <= MAX_TERM,
        Body::Append {
            term,
            prev_term,
            entries,
            ..
        } => { *term <= MAX_TERM && *prev_term <= MAX_TERM && are_terms(entries.as_slice()) }
        Body::AppendReply { term, .. } => *term <= MAX_TERM,
        Body::Chunk {
            term,
            base_term,
            ..
        } => *term <= MAX_TERM && *base_term <= MAX_TERM,
        Body::ChunkReply { term, .. } => *term <= MAX_TERM,
    }
}

fn indexes_fit(body: &Body) -> bool
    ensures { OnTrue result (IndexesFit body.now) }
{
    match body {
        Body::Vote { last_index, .. } => *last_index <= MAX_INDEX,
        Body::VoteReply { .. } => true,
        Body::Append {
            prev_index,
            entries,
            commit,
            ..
        } => {
            *commit <= MAX_INDEX
                && *prev_index <= MAX_INDEX
                && entries.len() as u64 <= MAX_INDEX - *prev_index
        }
        Body::AppendReply { index, .. } => *index <= MAX_INDEX,
        Body::Chunk { index, .. } => *index <= MAX_INDEX,
        Body::ChunkReply { index, .. } => *index <= MAX_INDEX,
    }
}

fn held_fits(core: &Core, body: &Body, applied: u64, held: u64) -> bool
    ensures { OnTrue result (HeldFits core.now body.now applied held) }
{
    match body {
        Body::Chunk {
            term,
            index,
            total,
            ..
        } => { 1 <= *total && (held == 0 || (core.state().term <= *term && applied < *index)) }
        Body::Vote { .. } => held == 0,
        Body::VoteReply { .. } => held == 0,
        Body::Append { .. } => held == 0,
        Body::AppendReply { .. } => held == 0,
        Body::ChunkReply { .. } => held == 0,
    }
}

fn message_fits(core: &Core, id: u8, message: &Message, applied: u64, held: u64) -> bool
    requires id { core.now.id ≡ id }
    requires nodes { core.now.nodes ≡ 3 }
    ensures { OnTrue result (MessageFits core.now message.now applied held) }
{
    1 <= message.from
        && message.from <= 3
        && message.from != id
        && message.to == id
        && terms_fit(&message.body)
        && indexes_fit(&message.body)
        && held_fits(core, &message.body, applied, held)
}

// Whether the event fits the node of this number.
fn event_fits(core: &Core, id: u8, event: &CoreEvent) -> bool
    requires id { core.now.id ≡ id }
    requires nodes { core.now.nodes ≡ 3 }
    ensures { OnTrue result (EventFits core.now event.now) }
{
    match event {
        CoreEvent::Timeout => true,
        CoreEvent::Beat => is_leader(core),
        CoreEvent::Raise { term } => *term <= MAX_TERM,
        CoreEvent::Command(_) => has_room(core),
        CoreEvent::Fire(_) => has_room(core),
        CoreEvent::Heard {
            message,
            applied,
            held,
        } => { message_fits(core, id, message, *applied, *held) }
    }
}

// The node of this number meets an event, where it fits.
fn meets(core: &mut Core, id: u8, event: CoreEvent) -> Result<Option<Acts>, AllocError>
    requires id { core.old.id ≡ id }
    requires nodes { core.old.nodes ≡ 3 }
    ensures same_id { OnOk result (core.new.id ≡ id) }
    ensures same_nodes { OnOk result (core.new.nodes ≡ 3) }
{
    if !event_fits(core, id, &event) {
        return Ok(None);
    }
    let acts = core.on(event)?;
    Ok(Some(acts))
}

// Three nodes, and the messages in flight.
#[derive(Drop)]
struct Cores {
    one: Core,
    two: Core,
    three: Core,
    flight: Vec<Message>,
}

fn core(alloc: Global, id: u8) -> Result<Core, AllocError>
    requires from_one { 1 ≤ id }
    requires is_node { id ≤ 3 }
    ensures { IfOk result (λ c. (c.id ≡ id) × (c.nodes ≡ 3)) }
{
    Core::new(alloc, id, 3, 0, 0, Log::at(alloc, 0, 0), 0)
}

fn three_cores(alloc: Global) -> Result<Cores, AllocError>
    ensures one { IfOk result (λ c. (c.one.id ≡ 1) × (c.one.nodes ≡ 3)) }
    ensures two { IfOk result (λ c. (c.two.id ≡ 2) × (c.two.nodes ≡ 3)) }
    ensures three { IfOk result (λ c. (c.three.id ≡ 3) × (c.three.nodes ≡ 3)) }
{
    Ok(Cores {
        one: core(alloc, 1)?,
        two: core(alloc, 2)?,
        three: core(alloc, 3)?,
        flight: Vec::new(alloc),
    })
}

fn node(cores: &Cores, id: u8) -> &Core {
    match id {
        1 => &cores.one,
        2 => &cores.two,
        _ => &cores.three,
    }
}

// An event at a node.
fn meets_at(cores: &mut Cores, id: u8, event: CoreEvent) -> Result<Option<Acts>, AllocError>
    requires one { (cores.old.one.id ≡ 1) × (cores.old.one.nodes ≡ 3) }
    requires two { (cores.old.two.id ≡ 2) × (cores.old.two.nodes ≡ 3) }
    requires three { (cores.old.three.id ≡ 3) × (cores.old.three.nodes ≡ 3) }
    ensures one { OnOk result ((cores.new.one.id ≡ 1) × (cores.new.one.nodes ≡ 3)) }
    ensures two { OnOk result ((cores.new.two.id ≡ 2) × (cores.new.two.nodes ≡ 3)) }
    ensures three { OnOk result ((cores.new.three.id ≡ 3) × (cores.new.three.nodes ≡ 3)) }
{
    match id {
        1 => meets(&mut cores.one, 1, event),
        2 => meets(&mut cores.two, 2, event),
        _ => meets(&mut cores.three, 3, event),
    }
}

fn entries_of(alloc: Global, few: Few<(u64, u8)>) -> Result<Entries, AllocError> {
    let mut entries = Vec::new(alloc);
    for place in 0..3 {
        if let Some((term, byte)) = few.get(place) {
            let entry = Bytes::from_slice(alloc, &[byte])?;
            entries.push(LogEntry { term, entry })?;
        }
    }
    Ok(Entries::from_vec(entries))
}

fn body_of(alloc: Global, says: Says) -> Result<Body, AllocError> {
    Ok(match says {
        Says::Vote(term, last_index, last_term) => Body::Vote {
            term,
            last_index,
            last_term,
        },
        Says::VoteReply(term, granted) => Body::VoteReply { term, granted },
        Says::Append(term, prev_index, prev_term, entries, commit) => Body::Append {
            term,
            prev_index,
            prev_term,
            entries: entries_of(alloc, entries)?,
            commit,
        },
        Says::AppendReply(term, ok, index) => Body::AppendReply { term, ok, index },
        Says::Chunk(term, index, base_term, offset, total) => Body::Chunk {
            term,
            index,
            base_term,
            offset,
            total,
            bytes: Bytes::from_vec(Vec::new(alloc)),
        },
        Says::ChunkReply(term, index, offset) => Body::ChunkReply {
            term,
            index,
            offset,
        },
    })
}

// A message in flight arrives at a node that has applied what it knows to be committed.
fn arrives(cores: &Cores, message: Message) -> (u8, CoreEvent) {
    let to = message.to;
    let applied = node(cores, to).state().commit;
    (
        to,
        CoreEvent::Heard {
            message,
            applied,
            held: 0,
        },
    )
}

// The event, and the node that meets it.
fn event_of(
    alloc: Global,
    cores: &mut Cores,
    does: Does,
) -> Result<Option<(u8, CoreEvent)>, AllocError>
    ensures one { cores.new.one ≡ cores.old.one }
    ensures two { cores.new.two ≡ cores.old.two }
    ensures three { cores.new.three ≡ cores.old.three }
{
    Ok(match does {
        Does::Timeout(id) => Some((id, CoreEvent::Timeout)),
        Does::Beat(id) => Some((id, CoreEvent::Beat)),
        Does::Raise(id, term) => Some((id, CoreEvent::Raise { term })),
        Does::Command(id, byte) => {
            Some((id, CoreEvent::Command(Bytes::from_slice(alloc, &[byte])?)))
        }
        Does::Fire(id, byte) => Some((id, CoreEvent::Fire(Bytes::from_slice(alloc, &[byte])?))),
        Does::Hears(from, to, says, applied, held) => {
            let message = Message {
                from,
                to,
                body: body_of(alloc, says)?,
            };
            Some((
                to,
                CoreEvent::Heard {
                    message,
                    applied,
                    held,
                },
            ))
        }
        Does::Deliver(place) => taken(cores, place),
        Does::Again(place) => repeated(alloc, cores, place)?,
        Does::Lose(_) => None,
        Does::Compact(_, _, _) => None,
        Does::Show(_) => None,
    })
}

// The message at a place, which is in flight no longer.
fn taken(cores: &mut Cores, place: usize) -> Option<(u8, CoreEvent)>
    ensures one { cores.new.one ≡ cores.old.one }
    ensures two { cores.new.two ≡ cores.old.two }
    ensures three { cores.new.three ≡ cores.old.three }
{
    if cores.flight.len() <= place {
        return None;
    }
    let message = cores.flight.remove(place);
    Some(arrives(cores, message))
}

// A copy of the message at a place.
fn repeated(
    alloc: Global,
    cores: &Cores,
    place: usize,
) -> Result<Option<(u8, CoreEvent)>, AllocError> {
    if cores.flight.len() <= place {
        return Ok(None);
    }
    let message = cores.flight[place].copy(alloc)?;
    Ok(Some(arrives(cores, message)))
}

fn lose(flight: &mut Vec<Message>, place: usize) {
    if place < flight.len() {
        drop(flight.remove(place));
    }
}

// Moves a node's base, where it can stand.
fn compact(core: &mut Core, index: u64, snapshot_len: u64)
    ensures id { core.new.id ≡ core.old.id }
    ensures nodes { core.new.nodes ≡ core.old.nodes }
{
    let (base, _) = core.log().base();
    if base <= index && index <= core.state().commit && 1 <= snapshot_len {
        core.compact(index, snapshot_len);
    }
}

fn compact_at(cores: &mut Cores, id: u8, index: u64, snapshot_len: u64)
    ensures one { (cores.new.one.id ≡ cores.old.one.id) × (cores.new.one.nodes ≡ cores.old.one.nodes) }
    ensures two { (cores.new.two.id ≡ cores.old.two.id) × (cores.new.two.nodes ≡ cores.old.two.nodes) }
    ensures three { (cores.new.three.id ≡ cores.old.three.id) × (cores.new.three.nodes ≡ cores.old.three.nodes) }
{
    match id {
        1 => compact(&mut cores.one, index, snapshot_len),
        2 => compact(&mut cores.two, index, snapshot_len),
        _ => compact(&mut cores.three, index, snapshot_len),
    }
}

fn fly(alloc: Global, flight: &mut Vec<Message>, messages: &[Message]) -> Result<(), AllocError> {
    for message in messages {
        flight.push(message.copy(alloc)?)?;
    }
    Ok(())
}

// The node's state, and its log; nothing where its log has more entries than scripts have.
fn show(core: &Core) -> Result<Option<Tells>, AllocError> {
    let state = core.state();
    let log = core.log();
    let (base, base_term) = log.base();
    if MAX_INDEX <= base {
        return Ok(None);
    }
    let entries = log.batch(base + 1, 64)?;
    let Some(entries) = entries_told(entries.as_slice()) else {
        return Ok(None);
    };
    let shown = State(
        state.term,
        state.vote,
        state.role,
        state.leader,
        state.commit,
    );
    Ok(Some(Tells::State(shown, (base, base_term), entries)))
}

// An event of a node: what it tells, and its messages are in flight. Nothing where there is no event, or it does not fit.
fn meet(alloc: Global, cores: &mut Cores, does: Does) -> Result<Option<Tells>, AllocError>
    requires one { (cores.old.one.id ≡ 1) × (cores.old.one.nodes ≡ 3) }
    requires two { (cores.old.two.id ≡ 2) × (cores.old.two.nodes ≡ 3) }
    requires three { (cores.old.three.id ≡ 3) × (cores.old.three.nodes ≡ 3) }
    ensures one { OnOk result ((cores.new.one.id ≡ 1) × (cores.new.one.nodes ≡ 3)) }
    ensures two { OnOk result ((cores.new.two.id ≡ 2) × (cores.new.two.nodes ≡ 3)) }
    ensures three { OnOk result ((cores.new.three.id ≡ 3) × (cores.new.three.nodes ≡ 3)) }
{
    let Some((id, event)) = event_of(alloc, cores, does)? else {
        return Ok(None);
    };
    let Some(acts) = meets_at(cores, id, event)? else {
        return Ok(None);
    };
    fly(alloc, &mut cores.flight, acts.messages.as_slice())?;
    Ok(tells_acts(&acts))
}

// Does one thing, and gives what it tells.
fn act(alloc: Global, cores: &mut Cores, does: Does) -> Result<Option<Tells>, AllocError>
    requires one { (cores.old.one.id ≡ 1) × (cores.old.one.nodes ≡ 3) }
    requires two { (cores.old.two.id ≡ 2) × (cores.old.two.nodes ≡ 3) }
    requires three { (cores.old.three.id ≡ 3) × (cores.old.three.nodes ≡ 3) }
    ensures one { OnOk result ((cores.new.one.id ≡ 1) × (cores.new.one.nodes ≡ 3)) }
    ensures two { OnOk result ((cores.new.two.id ≡ 2) × (cores.new.two.nodes ≡ 3)) }
    ensures three { OnOk result ((cores.new.three.id ≡ 3) × (cores.new.three.nodes ≡ 3)) }
{
    match does {
        Does::Lose(place) => {
            lose(&mut cores.flight, place);
            Ok(Some(Tells::Nothing))
        }
        Does::Compact(id, index, snapshot_len) => {
            compact_at(cores, id, index, snapshot_len);
            Ok(Some(Tells::Nothing))
        }
        Does::Show(id) => show(node(cores, id)),
        _ => meet(alloc, cores, does),
    }
}

// The first step that tells something else than it should.
fn first_wrong(alloc: Global, steps: &[Step]) -> Result<Option<usize>, AllocError> {
    let mut cores = three_cores(alloc)?;
    'steps: for (i, step) in steps.iter().enumerate() {
        if act(alloc, &mut cores, step.0)? != Some(step.1) {
            return Ok(Some(i));
        }
    }
    Ok(None)
}

#[test]
fn each_rule(rt: HostRuntime) -> Result<(), AllocError> {
    assert_eq!(rt; first_wrong(rt.alloc(), &RULES)?, None);
    Ok(())
}

#[test]
fn three_cores_commit_over_losses_and_repeats(rt: HostRuntime) -> Result<(), AllocError> {
    assert_eq!(rt; first_wrong(rt.alloc(), &LOSSES)?, None);
    Ok(())
}
