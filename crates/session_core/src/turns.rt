// A session: lines in, answers out.
ghost use Rattle.std.specs.Prelude.{◌≡◌, ◌≤◌, ◌+◌, [], false};
ghost use Rattle.session_core.specs.Turns.{AtHand, Asks, Turn, Parted};
ghost use Rattle.line_io.specs.Streams.{Rose};
ghost use Rattle.khepri_types.specs.Exec.{opening_state};
ghost use Rattle.khepri_types.specs.Calm.{with_lf};
ghost use Rattle.khepri_types.specs.declared.limits.TheConstants.{MAX_INPUT_BYTES, MAX_LINE_BYTES};
ghost use Rattle.khepri_types.specs.declared.out.OutLine.TheVariants.{Leads};
ghost use Rattle.session_core.specs.Session.{Session};

use crate::answer::{answer, lead};
use crate::status::Status;
use khepri_machine::KhepriMachine;
use khepri_types::limits::{MAX_INPUT_BYTES, MAX_LINE_BYTES};
use line_io::{LineFault, Lines, Next, Sink, Source, put_all};
use std::alloc::Global;

// How many bytes of answers are put out at the latest, though whole lines are at hand.
const GATHERED: usize = 65_536;

/// Reads lines to the end of the input, and answers each before it reads the next. Answers to lines that are at hand are
/// gathered; before the source is asked for more, all are put out.
pub fn session<S: Source, K: Sink>(alloc: Global, source: &mut S, sink: &mut K) -> Status
    ensures session { Session result (S.left source.old) (S.left source.new) (K.held sink.old) (K.held sink.new) }
    ensures source_fault { result ≡ Status.SourceFault → Rose (S.faults source.old) (S.faults source.new) }
    ensures sink_fault { result ≡ Status.SinkFault → Rose (K.faults sink.old) (K.faults sink.new) }
{
    let mut lines = match Lines::new(alloc, MAX_LINE_BYTES, MAX_INPUT_BYTES) {
        Ok(lines) => lines,
        Err(_) => return Status::NoMemory,
    };
    let mut machine = match KhepriMachine::fresh(alloc) {
        Ok(machine) => machine,
        Err(_) => return Status::NoMemory,
    };
    let mut out = Vec::new(alloc);
    if lead(&mut out).is_err() {
        return Status::NoMemory;
    }
    answer_all(alloc, &mut lines, &mut machine, &mut out, source, sink)
}

// Answers each line, behind the first line of a session, which stands in `out`.
fn answer_all<S: Source, K: Sink>(
    alloc: Global,
    lines: &mut Lines,
    machine: &mut KhepriMachine,
    out: &mut Vec<u8>,
    source: &mut S,
    sink: &mut K,
) -> Status
    requires lines { lines.old ≡ record { limit = MAX_LINE_BYTES; unread = []; room = MAX_INPUT_BYTES + 1; ended = false } }
    requires machine { machine.old ≡ opening_state }
    requires out { out.old.items ≡ with_lf (Leads 1 1) }
    ensures session { Session result (S.left source.old) (S.left source.new) (K.held sink.old) (K.held sink.new) }
    ensures source_fault { result ≡ Status.SourceFault → Rose (S.faults source.old) (S.faults source.new) }
    ensures sink_fault { result ≡ Status.SinkFault → Rose (K.faults sink.old) (K.faults sink.new) }
{
    let mut number = 1;
    'lines: loop {
        let next = match next_line(lines, out, source, sink) {
            Ok(next) => next,
            Err(status) => return status,
        };
        if let Next::End = next {
            return Status::Ended;
        }
        if answer(alloc, machine, number, &next, out).is_err() {
            return part(out.as_slice(), sink);
        }
        lines.reuse(next);
        number += 1;
    }
}

// The next line, and what of the answers stays gathered. The source is asked when all of them are put out.
fn next_line<S: Source, K: Sink>(
    lines: &mut Lines,
    out: &mut Vec<u8>,
    source: &mut S,
    sink: &mut K,
) -> Result<Next, Status>
    ensures turn { Turn lines.old lines.new
        (S.left source.old) (S.left source.new) (S.faults source.old) (S.faults source.new)
        (K.held sink.old) (K.held sink.new) (K.faults sink.old) (K.faults sink.new)
        out.old.items out.new.items result }
    ensures source { S.faults source.old ≤ S.faults source.new }
    ensures sink { K.faults sink.old ≤ K.faults sink.new }
{
    if let Some(next) = at_hand(lines, out.len()) {
        return Ok(next);
    }
    if put_all(sink, out.as_slice()).is_err() {
        return Err(Status::SinkFault);
    }
    out.clear();
    ask(lines, source)
}

// The next line, where it stands among the bytes taken and there is room to gather its answer. Where memory is wanting it is none:
// the call that follows says so, once all answers are put out.
fn at_hand(lines: &mut Lines, gathered: usize) -> Option<Next>
    ensures { AtHand lines.old lines.new result }
{
    if gathered >= GATHERED {
        return None;
    }
    match lines.next_taken() {
        Ok(next) => next,
        Err(_) => None,
    }
}

// The next line, for which the source may be asked.
fn ask<S: Source>(lines: &mut Lines, source: &mut S) -> Result<Next, Status>
    ensures asked { Asks lines.old lines.new (S.left source.old) (S.left source.new) (S.faults source.old) (S.faults source.new) result }
    ensures later { S.faults source.old ≤ S.faults source.new }
{
    match lines.next(source) {
        Ok(next) => Ok(next),
        Err(LineFault::ReadFault) => Err(Status::SourceFault),
        Err(LineFault::InputLong) => Err(Status::InputLong),
        Err(LineFault::NoMemory) => Err(Status::NoMemory),
    }
}

// Puts out what is gathered, where there is no memory for the next answer.
fn part<K: Sink>(out: &[u8], sink: &mut K) -> Status
    ensures { Parted (K.held sink.old) (K.held sink.new) (K.faults sink.old) (K.faults sink.new) out.now result }
{
    match put_all(sink, out) {
        Ok(_) => Status::NoMemory,
        Err(_) => Status::SinkFault,
    }
}
