// Rows of lines and streams: whatever the pieces, and each failure in turn.
ghost use Rattle.std.specs.Prelude.{Some};

use crate::fault::Fault;
use crate::rows::{number, numbered, push_escaped, push_number};
use line_io::{
    Failed, LineFault, Lines, MemSink, MemSource, Next, Sink, Source, put_all, put_line,
};
use std::alloc::{AllocError, Global};

// A source in memory; a slow one gives one byte a call.
#[derive(Drop)]
struct Feed {
    source: MemSource,
    is_slow: bool,
}

impl Source for Feed {
    ghost left = { λ s. Some s.source.left };

    ghost faults = { λ s. s.source.faults };

    fn take(&mut self, out: &mut [u8]) -> Result<usize, Failed> {
        if self.is_slow {
            return self.source.take(&mut out[..1]);
        }
        self.source.take(out)
    }
}

// A sink that takes one byte a call.
#[derive(Drop)]
struct SlowSink {
    sink: MemSink,
}

impl Sink for SlowSink {
    ghost held = { λ s. Some s.sink.bytes };

    ghost faults = { λ s. s.sink.faults };

    fn put(&mut self, bytes: &[u8]) -> Result<usize, Failed> {
        self.sink.put(&bytes[..1])
    }
}

pub fn tell(alloc: Global, form: &[u8], given: &[u8], out: &mut Vec<u8>) -> Result<(), Fault> {
    match form {
        b"whole" => tell_lines(alloc, false, given, out),
        b"slow" => tell_lines(alloc, true, given, out),
        b"put" => tell_put(alloc, given, out),
        b"puts" => tell_puts(alloc, given, out),
        b"many" => tell_many(alloc, given, out),
        _ => Err(Fault::NoRow),
    }
}

// The lines of an input, within a limit and a budget, whose take of this number fails; 0 is none.
fn tell_lines(alloc: Global, is_slow: bool, given: &[u8], out: &mut Vec<u8>) -> Result<(), Fault> {
    let (limit, rest) = numbered(given)?;
    let (budget, rest) = numbered(rest)?;
    let (failing_take, input) = numbered(rest)?;
    let mut lines = Lines::new(alloc, limit as usize, budget)?;
    let mut source = source(alloc, input, is_slow, failing_take)?;
    push_answers(12, &mut lines, &mut source, out)
}

fn source(
    alloc: Global,
    input: &[u8],
    is_slow: bool,
    failing_take: u64,
) -> Result<Feed, AllocError> {
    let bytes = Vec::from_slice(alloc, input)?;
    Ok(Feed {
        source: MemSource::new(bytes, vec![in alloc; failing_take]?),
        is_slow,
    })
}

// What at most so many calls answer.
fn push_answers(
    calls: u64,
    lines: &mut Lines,
    source: &mut Feed,
    out: &mut Vec<u8>,
) -> Result<(), Fault> {
    for _ in 0..calls {
        if !push_answer(&lines.next(source), out)? {
            break;
        }
    }
    Ok(())
}

// Appends what a call answers, and tells whether there is more to ask for.
fn push_answer(answer: &Result<Next, LineFault>, out: &mut Vec<u8>) -> Result<bool, Fault> {
    match answer {
        Ok(Next::Line(line)) => push_line(line.as_slice(), out),
        Ok(Next::TooLong) => push_word(b"(too long)", false, out),
        Ok(Next::End) => push_word(b"(end)", true, out),
        Err(LineFault::ReadFault) => push_word(b"(fault)", false, out),
        Err(LineFault::InputLong) => push_word(b"(long)", true, out),
        Err(LineFault::NoMemory) => Err(Fault::NoMemory),
    }
}

fn push_word(word: &[u8], is_last: bool, out: &mut Vec<u8>) -> Result<bool, Fault> {
    out.extend_from_slice(word)?;
    Ok(!is_last)
}

fn push_line(line: &[u8], out: &mut Vec<u8>) -> Result<bool, Fault> {
    push_escaped(line, out)?;
    push_word(b"\\n", false, out)
}

// What stands of a line and LF that are put byte by byte, where the put of this number fails.
fn tell_put(alloc: Global, given: &[u8], out: &mut Vec<u8>) -> Result<(), Fault> {
    let (failing_put, line) = numbered(given)?;
    let mut slow = SlowSink {
        sink: MemSink::new(Vec::new(alloc), vec![in alloc; failing_put]?),
    };
    push_end(put_line(&mut slow, line), out)?;
    Ok(push_escaped(slow.sink.bytes(), out)?)
}

fn push_end(end: Result<(), Failed>, out: &mut Vec<u8>) -> Result<(), AllocError> {
    match end {
        Ok(()) => out.extend_from_slice(b"put,"),
        Err(_) => out.extend_from_slice(b"failed,"),
    }
}

// What comes of four puts, of which the put of this number fails, and what stands then behind a `>`.
fn tell_puts(alloc: Global, given: &[u8], out: &mut Vec<u8>) -> Result<(), Fault> {
    let failing_put = number(given)?;
    let mut sink = MemSink::new(Vec::from_slice(alloc, b">")?, vec![in alloc; failing_put]?);
    push_end(put_line(&mut sink, b"abc"), out)?;
    push_end(put_all(&mut sink, b"d\ne\n"), out)?;
    push_end(put_all(&mut sink, b"d\ne\n"), out)?;
    push_end(put_line(&mut sink, b""), out)?;
    Ok(push_escaped(sink.bytes(), out)?)
}

// The same line so many times but for its number, and then a line of so many bytes.
fn many_lines(alloc: Global, count: u64, long: u64, ending: &[u8]) -> Result<Vec<u8>, AllocError> {
    let mut bytes = Vec::new(alloc);
    for number in 0..count {
        bytes.extend_from_slice(b"@1 put /q/word {a=")?;
        push_number(number, &mut bytes)?;
        bytes.extend_from_slice(b"}")?;
        bytes.extend_from_slice(ending)?;
    }
    bytes.extend_from_slice(vec![in alloc; b'x'; long as usize]?.as_slice())?;
    bytes.extend_from_slice(ending)?;
    Ok(bytes)
}

// Many lines in pieces that end anywhere in a line, and one line over several pieces.
fn tell_many(alloc: Global, given: &[u8], out: &mut Vec<u8>) -> Result<(), Fault> {
    let (count, rest) = numbered(given)?;
    let long = number(rest)?;
    let told = answers_to_many(alloc, count, long)?;
    if told.as_slice() == many_lines(alloc, count, long, b"\\n")?.as_slice() {
        return Ok(out.extend_from_slice(b"same")?);
    }
    Ok(out.extend_from_slice(b"other")?)
}

fn answers_to_many(alloc: Global, count: u64, long: u64) -> Result<Vec<u8>, Fault> {
    let input = many_lines(alloc, count, long, b"\r\n")?;
    let mut source = source(alloc, input.as_slice(), false, 0)?;
    let mut lines = Lines::new(alloc, long as usize, 1 << 40)?;
    let mut told = Vec::new(alloc);
    push_answers(count.saturating_add(1), &mut lines, &mut source, &mut told)?;
    Ok(told)
}
