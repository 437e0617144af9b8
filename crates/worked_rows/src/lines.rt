// Rows of lines, commands and replies.
use crate::fault::Fault;
use khepri_terms::TextFault;
use khepri_types::{Command, Line, OutLine, Payload, Reply, ShownNodes};
use line_text::{print_command, print_out, print_reply, read_command, read_line, read_out};
use std::alloc::Global;

pub fn tell(alloc: Global, form: &[u8], text: &[u8], out: &mut Vec<u8>) -> Result<(), Fault> {
    match form {
        b"line" => compare(text, &line_again(alloc, text)?, out),
        b"command" => compare(text, &command_again(alloc, text)?, out),
        b"out" => compare(text, &out_again(alloc, text)?, out),
        b"reply" => tell_reply(alloc, text, out),
        _ => Err(Fault::NoRow),
    }
}

// `same` where what was read of a text is spelled as the text is, else how it is spelled.
fn compare(text: &[u8], again: &Vec<u8>, out: &mut Vec<u8>) -> Result<(), Fault> {
    if again.as_slice() == text {
        return Ok(out.extend_from_slice(b"same")?);
    }
    Ok(out.extend_from_slice(again.as_slice())?)
}

fn line_again(alloc: Global, text: &[u8]) -> Result<Vec<u8>, TextFault> {
    let Line::Command { node, cmd } = read_line(alloc, text)?;
    spell(alloc, &[b'@', b'0'.saturating_add(node), b' '], cmd)
}

fn command_again(alloc: Global, text: &[u8]) -> Result<Vec<u8>, TextFault> {
    spell(alloc, b"", read_command(alloc, text)?)
}

fn out_again(alloc: Global, text: &[u8]) -> Result<Vec<u8>, TextFault> {
    spell_out(alloc, read_out(alloc, text)?)
}

// The text of a command behind a front, for each form: to drop a command is what a proof takes long for.
fn spell(alloc: Global, front: &[u8], cmd: Command) -> Result<Vec<u8>, TextFault> {
    command_text(alloc, front, &cmd)
}

fn command_text(alloc: Global, front: &[u8], cmd: &Command) -> Result<Vec<u8>, TextFault> {
    let mut out = Vec::from_slice(alloc, front)?;
    print_command(cmd, &mut out)?;
    Ok(out)
}

fn spell_out(alloc: Global, line: OutLine) -> Result<Vec<u8>, TextFault> {
    out_text(alloc, &line)
}

fn out_text(alloc: Global, line: &OutLine) -> Result<Vec<u8>, TextFault> {
    let mut out = Vec::new(alloc);
    print_out(line, &mut out)?;
    Ok(out)
}

fn tell_reply(alloc: Global, word: &[u8], out: &mut Vec<u8>) -> Result<(), Fault> {
    match word {
        b"changed" => print(Reply::Changed { count: 2, gone: 3 }, out),
        b"node" => print(node(), out),
        b"nodes" => print(nodes(alloc), out),
        b"full" => print(Reply::NoFull, out),
        _ => Err(Fault::NoRow),
    }
}

fn print(reply: Reply, out: &mut Vec<u8>) -> Result<(), Fault> {
    Ok(print_reply(&reply, out)?)
}

fn node() -> Reply {
    Reply::Node {
        pv: 1,
        cv: 2,
        kids: 3,
        payload: Payload::Empty,
    }
}

fn nodes(alloc: Global) -> Reply {
    Reply::Nodes {
        count: 5,
        nodes: ShownNodes::none(alloc),
    }
}
