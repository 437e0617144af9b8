// Transcripts, those that are kept as files, and the report of each.
use crate::compare::{Difference, first_difference};
use crate::memory::{Drain, Feed, Pace};
use session_core::{Status, session};
use std::alloc::{AllocError, Global};
use std::fs;
use std::io::{self, Write};

/// The names of the transcripts in a folder, in order.
pub fn names_in(rt: &HostRuntime, folder: &str) -> io::Result<Vec<String>> {
    let alloc = rt.alloc();
    let mut names = Vec::new(alloc);
    for entry in fs::read_dir(rt, folder)? {
        let entry = entry?;
        if let Some(name) = entry.file_name().strip_suffix(".in") {
            names.push(String::from_str(alloc, name)?)?;
        }
    }
    names.sort()?;
    Ok(names)
}

/// The lines in and the lines out of a session, each with the ends of its lines.
#[derive(Drop)]
pub struct Transcript {
    pub name: String,
    pub input: Vec<u8>,
    pub output: Vec<u8>,
}

/// The transcript that is kept under a name.
pub fn kept(rt: &HostRuntime, name: &str) -> io::Result<Transcript> {
    let alloc = rt.alloc();
    Ok(Transcript {
        name: String::from_str(alloc, name)?,
        input: fs::read(rt, format!(in alloc; "{name}.in")?.as_str())?,
        output: fs::read(rt, format!(in alloc; "{name}.out")?.as_str())?,
    })
}

/// Prints the name of a transcript, and below it where a session of its lines in, at one of these paces, doesn't write its lines
/// out.
pub fn report(rt: &HostRuntime, transcript: &Transcript, paces: &[Pace]) -> io::Result<()> {
    println!(rt; "{}", transcript.name)?;
    for pace in paces {
        compare(rt, transcript, *pace)?;
    }
    Ok(())
}

fn compare(rt: &HostRuntime, transcript: &Transcript, pace: Pace) -> io::Result<()> {
    let ran = run(rt.alloc(), transcript.input.as_slice(), pace)?;
    if ran.status != Status::Ended {
        println!(rt; "  {}: ended as {:?}", pace_name(pace), ran.status)?;
    }
    match first_difference(transcript.output.as_slice(), ran.drain.bytes()) {
        Some(difference) => tell(rt, pace, &difference),
        None => Ok(()),
    }
}

// How a session ended, and what it wrote.
#[derive(Drop)]
struct Ran {
    status: Status,
    drain: Drain,
}

fn run(alloc: Global, input: &[u8], pace: Pace) -> Result<Ran, AllocError> {
    let mut feed = Feed::new(alloc, Vec::from_slice(alloc, input)?, pace);
    let mut drain = Drain::new(alloc, pace);
    let status = session(alloc, &mut feed, &mut drain);
    Ok(Ran { status, drain })
}

fn tell(rt: &HostRuntime, pace: Pace, difference: &Difference<'_>) -> io::Result<()> {
    println!(rt; "  {}, line {}", pace_name(pace), difference.line)?;
    tell_text(rt, "wanted", difference.wanted)?;
    tell_text(rt, "written", difference.written)
}

// Prints a line as it is; its bytes need not be text.
fn tell_text(rt: &HostRuntime, label: &str, text: &[u8]) -> io::Result<()> {
    print!(rt; "    {label}: ")?;
    rt.stdout().write_all(text)?;
    if text.ends_with(b"\n") {
        return Ok(());
    }
    println!(rt; " (no LF)")
}

fn pace_name(pace: Pace) -> &'static str {
    match pace {
        Pace::Whole => "in one piece",
        Pace::Single => "byte by byte",
    }
}
