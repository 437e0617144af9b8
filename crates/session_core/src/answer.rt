// The answer to one line.
ghost use Rattle.std.specs.Prelude.{◌≡◌, ◌<◌, ◌^◌, ◌++◌, OnOk, OnErr, Some, length, take};
ghost use Rattle.line_io.specs.Shown.{given_next};
ghost use Rattle.khepri_types.specs.declared.command.Line.TheVariants as line_of;
ghost use Rattle.khepri_types.specs.declared.out.EntryText.TheVariants as text_of_entry;
ghost use Rattle.khepri_types.specs.Calm.{answer_line, with_lf, text_of};
ghost use Rattle.khepri_types.specs.Reading.{line_at};
ghost use Rattle.session_core.specs.Told.{told, after};

use khepri_machine::KhepriMachine;
use khepri_terms::TextFault;
use khepri_terms::texts::keep_whole;
use khepri_types::{Command, EntryText, Line, OutLine, Reason, Reply};
use line_io::Next;
use line_text::{print_out, read_line};
use std::alloc::{AllocError, Global};

/// Appends the line that a session begins with: node 1 leads the first term.
pub fn lead(out: &mut Vec<u8>) -> Result<(), AllocError>
    ensures { OnOk result (out.new.items ≡ out.old.items ++ with_lf (OutLine.Leads 1 1)) }
{
    put_out(OutLine::Leads { node: 1, term: 1 }, out)
}

/// Does what line `number` asks for, and appends its answer; where memory is wanting, nothing.
pub fn answer(
    alloc: Global,
    machine: &mut KhepriMachine,
    number: u64,
    next: &Next,
    out: &mut Vec<u8>,
) -> Result<(), AllocError>
    requires { machine.old.position < 2 ^ 40 }
    ensures text { OnOk result (out.new.items ≡ out.old.items ++ text_of (told number machine.old (given_next next.now))) }
    ensures state { OnOk result (machine.new ≡ after number machine.old (given_next next.now)) }
    ensures err { OnErr result (out.new.items ≡ out.old.items) }
{
    let len = out.len();
    let answered = answer_next(alloc, machine, number, next, out);
    keep_whole(answered, len, out)
}

// Answers what the reader gave; after want of memory what was there before still stands at the front.
fn answer_next(
    alloc: Global,
    machine: &mut KhepriMachine,
    number: u64,
    next: &Next,
    out: &mut Vec<u8>,
) -> Result<(), AllocError>
    requires { machine.old.position < 2 ^ 40 }
    ensures text { OnOk result (out.new.items ≡ out.old.items ++ text_of (told number machine.old (given_next next.now))) }
    ensures state { OnOk result (machine.new ≡ after number machine.old (given_next next.now)) }
    ensures front { take (length out.old.items) out.new.items ≡ out.old.items }
{
    match next {
        Next::End => Ok(()),
        Next::TooLong => refuse(number, Reason::TooLong, out),
        Next::Line(text) => answer_text(alloc, machine, number, text.as_slice(), out),
    }
}

// Answers a line of this text.
fn answer_text(
    alloc: Global,
    machine: &mut KhepriMachine,
    number: u64,
    text: &[u8],
    out: &mut Vec<u8>,
) -> Result<(), AllocError>
    requires { machine.old.position < 2 ^ 40 }
    ensures text { OnOk result (out.new.items ≡ out.old.items ++ text_of (answer_line number machine.old (line_at text.now)).0) }
    ensures state { OnOk result (machine.new ≡ (answer_line number machine.old (line_at text.now)).1) }
    ensures front { take (length out.old.items) out.new.items ≡ out.old.items }
{
    match read_line(alloc, text) {
        Ok(line) => answer_line(machine, number, line, out),
        Err(TextFault::Bad) => refuse(number, Reason::BadLine, out),
        Err(TextFault::NoMemory) => Err(AllocError),
    }
}

// Answers a line that asks for something.
fn answer_line(
    machine: &mut KhepriMachine,
    number: u64,
    line: Line,
    out: &mut Vec<u8>,
) -> Result<(), AllocError>
    requires { machine.old.position < 2 ^ 40 }
    ensures text { OnOk result (out.new.items ≡ out.old.items ++ text_of (answer_line number machine.old (Some line)).0) }
    ensures state { OnOk result (machine.new ≡ (answer_line number machine.old (Some line)).1) }
    ensures front { take (length out.old.items) out.new.items ≡ out.old.items }
{
    match line {
        Line::Command { node, cmd } => answer_command(machine, number, node, cmd, out),
    }
}

// Answers a command to a node; there is only node 1.
fn answer_command(
    machine: &mut KhepriMachine,
    number: u64,
    node: u8,
    cmd: Command,
    out: &mut Vec<u8>,
) -> Result<(), AllocError>
    requires { machine.old.position < 2 ^ 40 }
    ensures text { OnOk result (out.new.items ≡ out.old.items ++ text_of (answer_line number machine.old (Some (line_of.Command node cmd))).0) }
    ensures state { OnOk result (machine.new ≡ (answer_line number machine.old (Some (line_of.Command node cmd))).1) }
    ensures front { take (length out.old.items) out.new.items ≡ out.old.items }
{
    if node > 1 {
        drop(cmd);
        return refuse(number, Reason::NoNode, out);
    }
    execute(machine, number, cmd, out)
}

fn refuse(line: u64, reason: Reason, out: &mut Vec<u8>) -> Result<(), AllocError>
    ensures ok { OnOk result (out.new.items ≡ out.old.items ++ with_lf (OutLine.Refused line reason)) }
    ensures front { take (length out.old.items) out.new.items ≡ out.old.items }
{
    put_out(OutLine::Refused { line, reason }, out)
}

// Gives the machine the command of a line, and appends its entry and its reply.
fn execute(
    machine: &mut KhepriMachine,
    line: u64,
    cmd: Command,
    out: &mut Vec<u8>,
) -> Result<(), AllocError>
    requires { machine.old.position < 2 ^ 40 }
    ensures text { OnOk result (out.new.items ≡ out.old.items ++ text_of (answer_line line machine.old (Some (line_of.Command 1 cmd))).0) }
    ensures state { OnOk result (machine.new ≡ (answer_line line machine.old (Some (line_of.Command 1 cmd))).1) }
    ensures front { take (length out.old.items) out.new.items ≡ out.old.items }
{
    match machine.exec_uncounted(&cmd) {
        Ok(reply) => put_applied(machine.position(), line, cmd, reply, out),
        Err(fault) => {
            drop(cmd);
            Err(fault)
        }
    }
}

// Appends the entry of a command at position n, and its reply.
fn put_applied(
    n: u64,
    line: u64,
    cmd: Command,
    reply: Reply,
    out: &mut Vec<u8>,
) -> Result<(), AllocError>
    ensures ok { OnOk result (out.new.items ≡ (out.old.items ++ with_lf (OutLine.Entry n line (text_of_entry.Command cmd))) ++ with_lf (OutLine.Reply line n reply)) }
    ensures front { take (length out.old.items) out.new.items ≡ out.old.items }
{
    let text = EntryText::Command(cmd);
    if let Err(fault) = put_out(OutLine::Entry { n, line, text }, out) {
        drop(reply);
        return Err(fault);
    }
    put_out(OutLine::Reply { line, n, reply }, out)
}

fn put_out(line: OutLine, out: &mut Vec<u8>) -> Result<(), AllocError>
    ensures ok { OnOk result (out.new.items ≡ out.old.items ++ with_lf line) }
    ensures front { take (length out.old.items) out.new.items ≡ out.old.items }
{
    let appended = append_line(&line, out);
    drop(line);
    appended
}

// Appends an output line and its LF.
fn append_line(line: &OutLine, out: &mut Vec<u8>) -> Result<(), AllocError>
    ensures ok { OnOk result (out.new.items ≡ out.old.items ++ with_lf line.now) }
    ensures front { take (length out.old.items) out.new.items ≡ out.old.items }
{
    print_out(line, out)?;
    out.push(b'\n')?;
    Ok(())
}
