// Whole runs over memory.

ghost use Rattle.std.specs.Prelude.{Some};

use crate::run::run;
use line_io::{Failed, MemSink, MemSource, Sink, Source};
use session_core::Status;
use std::alloc::{AllocError, Global};
use std::test::Fail;

// A source in memory; a slow one gives one byte a call.
#[derive(Drop)]
struct Feed {
    source: MemSource,
    is_slow: bool,
}

impl Source for Feed {
    ghost left = { λ s. Some s.source.left };

    ghost faults = { λ s. s.source.faults };

    fn take(&mut self, out: &mut [u8]) -> Result<usize, Failed> {
        if self.is_slow {
            return self.source.take(&mut out[..1]);
        }
        self.source.take(out)
    }
}

// A sink in memory; a slow one takes one byte a call.
#[derive(Drop)]
struct Drain {
    sink: MemSink,
    is_slow: bool,
}

impl Sink for Drain {
    ghost held = { λ s. Some s.sink.bytes };

    ghost faults = { λ s. s.sink.faults };

    fn put(&mut self, bytes: &[u8]) -> Result<usize, Failed> {
        if self.is_slow {
            return self.sink.put(&bytes[..1]);
        }
        self.sink.put(bytes)
    }
}

// How a run goes: whether its source and its sink are slow, and which call of each fails, counted from 1; 0 is none.
#[derive(Clone, Copy)]
struct Way {
    is_slow: bool,
    is_sink_slow: bool,
    failing_take: u64,
    failing_put: u64,
}

const FAST: Way = Way {
    is_slow: false,
    is_sink_slow: false,
    failing_take: 0,
    failing_put: 0,
};

// How a run ended, and what it wrote.
#[derive(Drop)]
struct Ran {
    status: Status,
    sink: Drain,
}

impl Ran {
    fn is(&self, status: Status, written: &[u8]) -> bool {
        self.status == status && self.sink.sink.bytes() == written
    }
}

fn source(alloc: Global, input: &[u8], way: Way) -> Result<Feed, AllocError> {
    let fails = vec![in alloc; way.failing_take]?;
    Ok(Feed {
        source: MemSource::new(Vec::from_slice(alloc, input)?, fails),
        is_slow: way.is_slow,
    })
}

fn sink(alloc: Global, way: Way) -> Result<Drain, AllocError> {
    let fails = vec![in alloc; way.failing_put]?;
    Ok(Drain {
        sink: MemSink::new(Vec::new(alloc), fails),
        is_slow: way.is_sink_slow,
    })
}

fn words_of(alloc: Global, given: &[&str]) -> Result<Vec<String>, AllocError> {
    let mut words = Vec::new(alloc);
    for word in given {
        words.push(String::from_str(alloc, word)?)?;
    }
    Ok(words)
}

fn run_of(alloc: Global, words: &[&str], input: &[u8], way: Way) -> Result<Ran, AllocError> {
    let words = words_of(alloc, words)?;
    let mut source = source(alloc, input, way)?;
    let mut sink = sink(alloc, way)?;
    let status = run(alloc, words.as_slice(), &mut source, &mut sink);
    Ok(Ran { status, sink })
}

fn session(alloc: Global, input: &[u8], way: Way) -> Result<Ran, AllocError> {
    run_of(alloc, &["session"], input, way)
}

static OPENING: &[u8] = b"! 1 leads 1\n";

static LINES: &[u8] =
    b"@1 put /a/b {x=1}\n@1 put /a/b {x=1}\n@1 put /a/b {x=2}\n@1 get /a\n@1 put / {x=1}\n";

static ANSWERS: &[u8] = b"! 1 leads 1\n\
    # 1 @1 put /a/b {x=1}\n= 1 1 ok 1 0\n\
    # 2 @2 put /a/b {x=1}\n= 2 2 ok 1 0\n\
    # 3 @3 put /a/b {x=2}\n= 3 3 ok 2 0\n\
    # 4 @4 get /a\n= 4 4 node 1 1 1 -\n\
    # 5 @5 put / {x=1}\n= 5 5 ok 2 0\n";

// The opening and the answers to so many of the lines.
fn answers_to(lines: usize) -> &'static [u8] {
    let mut left = lines.saturating_mul(2).saturating_add(1);
    for (i, byte) in ANSWERS.iter().enumerate() {
        if left == 0 {
            return &ANSWERS[..i];
        }
        if *byte == b'\n' {
            left -= 1;
        }
    }
    ANSWERS
}

fn count_ends(bytes: &[u8]) -> usize {
    let mut ends: usize = 0;
    for byte in bytes {
        if *byte == b'\n' {
            ends = ends.saturating_add(1);
        }
    }
    ends
}

// Whether the session of the lines goes so.
fn goes(alloc: Global, way: Way, status: Status, written: &[u8]) -> Result<bool, AllocError> {
    Ok(session(alloc, LINES, way)?.is(status, written))
}

// Whether the lines are answered that had ended before the source failed.
fn is_told_of_a_take(alloc: Global, failing_take: usize) -> Result<bool, AllocError> {
    let way = Way {
        is_slow: true,
        is_sink_slow: true,
        failing_take: failing_take as u64,
        failing_put: 0,
    };
    if failing_take == 0 || failing_take > LINES.len() + 1 {
        return goes(alloc, way, Status::Ended, ANSWERS);
    }
    let lines = count_ends(&LINES[..failing_take - 1]);
    goes(alloc, way, Status::SourceFault, answers_to(lines))
}

fn first_wrong_take(alloc: Global) -> Result<Option<usize>, AllocError> {
    for call in 0..=LINES.len() + 2 {
        if !is_told_of_a_take(alloc, call)? {
            return Ok(Some(call));
        }
    }
    Ok(None)
}

#[test]
fn sources_fail_at_each_call(rt: HostRuntime) -> Result<(), Fail> {
    assert_eq!(rt; first_wrong_take(rt.alloc())?, None);
    Ok(())
}

// Whether just the bytes were written that stood before the one that failed.
fn is_told_of_a_byte(alloc: Global, failing_put: usize) -> Result<bool, AllocError> {
    let way = Way {
        is_slow: true,
        is_sink_slow: true,
        failing_take: 0,
        failing_put: failing_put as u64,
    };
    if failing_put == 0 || failing_put > ANSWERS.len() {
        return goes(alloc, way, Status::Ended, ANSWERS);
    }
    goes(alloc, way, Status::SinkFault, &ANSWERS[..failing_put - 1])
}

fn first_wrong_byte(alloc: Global) -> Result<Option<usize>, AllocError> {
    for call in 0..=ANSWERS.len() + 1 {
        if !is_told_of_a_byte(alloc, call)? {
            return Ok(Some(call));
        }
    }
    Ok(None)
}

// Whether just what was put out before stands where the put of this number fails, of a source that gives its bytes so.
fn is_told_of_a_put(
    alloc: Global,
    is_slow: bool,
    failing_put: usize,
    status: Status,
    written: &[u8],
) -> Result<bool, AllocError> {
    let way = Way {
        is_slow,
        is_sink_slow: false,
        failing_take: 0,
        failing_put: failing_put as u64,
    };
    goes(alloc, way, status, written)
}

// Where the source gives the bytes of a line one by one, each answer is put out before the source is asked again.
fn first_wrong_put(alloc: Global) -> Result<Option<usize>, AllocError> {
    if !is_told_of_a_put(alloc, true, 1, Status::SinkFault, b"")? {
        return Ok(Some(1));
    }
    for call in 2..=6 {
        if !is_told_of_a_put(alloc, true, call, Status::SinkFault, answers_to(call - 2))? {
            return Ok(Some(call));
        }
    }
    Ok(None)
}

// Where all lines come at once, the opening is put out before, and the answers together.
fn are_put_together(alloc: Global) -> Result<bool, AllocError> {
    Ok(
        is_told_of_a_put(alloc, false, 1, Status::SinkFault, b"")?
            && is_told_of_a_put(alloc, false, 2, Status::SinkFault, OPENING)?
            && is_told_of_a_put(alloc, false, 3, Status::Ended, ANSWERS)?,
    )
}

#[test]
fn sinks_fail_at_each_byte(rt: HostRuntime) -> Result<(), Fail> {
    assert_eq!(rt; first_wrong_byte(rt.alloc())?, None);
    Ok(())
}

#[test]
fn sinks_fail_at_each_call(rt: HostRuntime) -> Result<(), Fail> {
    assert_eq!(rt; first_wrong_put(rt.alloc())?, None);
    Ok(())
}

#[test]
fn answers_to_lines_at_hand_are_put_together(rt: HostRuntime) -> Result<(), Fail> {
    assert!(rt; are_put_together(rt.alloc())?);
    Ok(())
}

static USAGE: &[u8] =
    b"khepri: session [--nodes N] | audit | gen --lines C --seed X | serve --port P --nodes N --workers W --connections C\n";

static OTHER_WORDS: [&[&str]; 6] = [
    &[],
    &["sessio"],
    &["sessions"],
    &["Session"],
    &["session", "session"],
    &["session", ""],
];

const NINTH_FAILS: Way = Way {
    is_slow: true,
    is_sink_slow: true,
    failing_take: 0,
    failing_put: 9,
};

fn are_answered(
    alloc: Global,
    words: &[&str],
    way: Way,
    status: Status,
    written: &[u8],
) -> Result<bool, AllocError> {
    Ok(run_of(alloc, words, LINES, way)?.is(status, written))
}

fn get_the_usage_line(alloc: Global, words: &[&str]) -> Result<bool, AllocError> {
    if !are_answered(alloc, words, FAST, Status::Usage, USAGE)? {
        return Ok(false);
    }
    are_answered(alloc, words, NINTH_FAILS, Status::SinkFault, b"khepri: ")
}

// The first of the other words that get another answer.
fn first_known_words(alloc: Global) -> Result<Option<usize>, AllocError> {
    for (i, words) in OTHER_WORDS.iter().enumerate() {
        if !get_the_usage_line(alloc, words)? {
            return Ok(Some(i));
        }
    }
    Ok(None)
}

#[test]
fn other_words_get_the_usage_line(rt: HostRuntime) -> Result<(), Fail> {
    assert_eq!(rt; first_known_words(rt.alloc())?, None);
    Ok(())
}
