// The program's top call.
ghost use Rattle.std.specs.Prelude.{◌≡◌, ◌≢◌, ◌≤◌, ◌⊎◌, Some, None, OnOk};
ghost use Rattle.line_io.specs.Streams.{Rose};
ghost use Rattle.khepri.specs.Words.{bytes_of, work_of, usage_line};
ghost use Rattle.session_core.specs.Session.{Session};
ghost use Rattle.khepri.specs.Refusing.{Refuses};

use crate::words::{Work, work_of};
use line_io::{Sink, Source, put_line};
use session_core::{Status, session};
use std::alloc::Global;

/// Does what the words ask for. Words that are not known take nothing, and get the usage line.
pub fn run<S: Source, K: Sink>(
    alloc: Global,
    words: &[String],
    source: &mut S,
    sink: &mut K,
) -> Status
    ensures session { work_of (bytes_of words.now) ≡ Some Work.Session → Session result (S.left source.old) (S.left source.new) (K.held sink.old) (K.held sink.new) }
    ensures refused { work_of (bytes_of words.now) ≡ None → Refuses result (S.left source.old) (S.left source.new) (K.held sink.old) (K.held sink.new) }
    ensures usage { result ≡ Status.Usage → work_of (bytes_of words.now) ≡ None }
    ensures source_fault { result ≡ Status.SourceFault → Rose (S.faults source.old) (S.faults source.new) }
    ensures sink_fault { result ≡ Status.SinkFault → Rose (K.faults sink.old) (K.faults sink.new) }
    ensures no_audit { result ≢ Status.AuditBad }
    ensures no_listener { result ≢ Status.ListenFault }
{
    match work_of(words) {
        Some(Work::Session) => session(alloc, source, sink),
        None => refuse(sink),
    }
}

// Says which words there are.
fn refuse<K: Sink>(sink: &mut K) -> Status
    ensures written { Refuses result None None (K.held sink.old) (K.held sink.new) }
    ensures cause { result ≡ Status.SinkFault → Rose (K.faults sink.old) (K.faults sink.new) }
{
    match put_line(
        sink,
        b"khepri: session [--nodes N] | audit | gen --lines C --seed X | serve --port P --nodes N --workers W --connections C",
    ) {
        Ok(_) => Status::Usage,
        Err(_) => Status::SinkFault,
    }
}
