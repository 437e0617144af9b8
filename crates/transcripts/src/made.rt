// Transcripts that are made and not kept, as they have thousands of lines: of trees that are full.
use crate::transcript::Transcript;
use khepri_types::limits::{MAX_TREE_BYTES, MAX_TREE_NODES};
use std::alloc::{AllocError, Global};

// What is asked of the tree that is full of nodes: the root and below it those that have the numbers from 1 to 65,535 as names.
static AT_THE_LIMIT_OF_NODES: &[(&str, &str)] = &[
    ("count /**", "count 65535"),
    ("get /", "node 1 65536 65535 -"),
    ("put /65536 -", "no full"),
    ("get /65536", "no absent"),
    ("put /1 {}", "ok 2 0"),
    ("put /1/a -", "no full"),
    // One node goes, so one may come, and not two.
    ("del /1", "ok 1 0"),
    ("put /a/b -", "no full"),
    ("put /a -", "ok 1 0"),
    ("put /b -", "no full"),
    // A node that goes as the tree settles makes room for the one that was put, and not for two.
    ("put /2 - while /b absent", "ok 1 0"),
    ("put /b -", "ok 1 1"),
    ("get /2", "no absent"),
    ("put /3 - while /c absent", "ok 1 0"),
    ("put /c/d -", "no full"),
    ("get /3", "node 1 1 0 -"),
    // Since the first get the root lost a child to a del, was given two, and lost one to a round.
    ("get /", "node 1 65540 65535 -"),
    ("delmany /*", "ok 65535 0"),
    ("get /", "node 1 65541 0 -"),
    ("put /a/b -", "ok 1 0"),
];

// What is asked of the tree that lacks 15 of its bytes: the root, of 1 byte, and below it 4,092 nodes of 4,100, which have the
// numbers from 1,000 on as names. Each command has the bytes of a record within it, what stands before that, and what behind.
static AT_THE_LIMIT_OF_BYTES: &[(&str, usize, &str, &str)] = &[
    ("put /5092 ", 4_096, "", "no full"),
    ("put /5092 ", 12, "", "no full"),
    ("put /5092 ", 11, "", "ok 1 0"),
    ("put /a -", 0, "", "no full"),
    ("put / {}", 0, "", "no full"),
    // A payload gives 4,094 bytes back.
    ("put /1000 {}", 0, "", "ok 2 0"),
    ("put / ", 4_096, "", "no full"),
    ("put / ", 4_095, "", "ok 2 0"),
    ("clear /", 0, "", "ok 3 0"),
    // A watch has 4 bytes of target, and of condition 9 beside those of the record.
    ("put /1000 {} while /%2F not(is(", 4_082, "))", "no full"),
    ("put /1000 {} while /%2F not(is(", 4_081, "))", "ok 2 0"),
    // 4,082 bytes come back, and the other 18 of the node where it goes as the tree settles.
    ("put /1001 {} while /after absent", 0, "", "ok 2 0"),
    ("put /after ", 4_096, "", "no full"),
    ("put /after ", 4_095, "", "ok 1 1"),
    ("get /1001", 0, "", "no absent"),
    ("put /a -", 0, "", "no full"),
    // A node goes; the one that is made on the way has 3 bytes.
    ("del /1002", 0, "", "ok 1 0"),
    ("put /on/way ", 4_095, "", "no full"),
    ("put /on/way ", 4_094, "", "ok 1 0"),
    ("count /**", 0, "", "count 4094"),
];

// The bytes of a node of four digits and the largest record.
const NODE_BYTES: u64 = 4_100;

/// A tree is filled to its limit of nodes.
pub fn full_of_nodes(alloc: Global) -> Result<Transcript, AllocError> {
    let mut making = Making::new(alloc)?;
    for name in 1..MAX_TREE_NODES {
        making.ask(format!(in alloc; "put /{name} -")?.as_str(), "ok 1 0")?;
    }
    for (command, reply) in AT_THE_LIMIT_OF_NODES {
        making.ask(command, reply)?;
    }
    making.named("full_of_nodes")
}

/// A tree is filled to its limit of bytes.
pub fn full_of_bytes(alloc: Global) -> Result<Transcript, AllocError> {
    let mut making = Making::new(alloc)?;
    for name in 1_000..1_000 + MAX_TREE_BYTES / NODE_BYTES {
        let front = format!(in alloc; "put /{name} ")?;
        making.ask_large(front.as_str(), 4_096, "", "ok 1 0")?;
    }
    for (front, bytes, rest, reply) in AT_THE_LIMIT_OF_BYTES {
        making.ask_large(front, *bytes, rest, reply)?;
    }
    making.named("full_of_bytes")
}

// A transcript in the making. Each line is a command that takes a position, so its two numbers are equal.
#[derive(Drop)]
struct Making {
    alloc: Global,
    lines: u64,
    input: Vec<u8>,
    output: Vec<u8>,
}

impl Making {
    fn new(alloc: Global) -> Result<Making, AllocError> {
        Ok(Making {
            alloc,
            lines: 0,
            input: Vec::new(alloc),
            output: Vec::from_slice(alloc, b"! 1 leads 1\n")?,
        })
    }

    fn ask(&mut self, command: &str, reply: &str) -> Result<(), AllocError> {
        self.lines = self.lines.saturating_add(1);
        let n = self.lines;
        let line = format!(in self.alloc; "@1 {command}\n")?;
        let answer = format!(in self.alloc; "# {n} @{n} {command}\n= {n} {n} {reply}\n")?;
        self.input.extend_from_slice(line.as_bytes())?;
        self.output.extend_from_slice(answer.as_bytes())
    }

    // Asks with a record of so many bytes between two texts; of 0 bytes there is none.
    fn ask_large(
        &mut self,
        front: &str,
        bytes: usize,
        rest: &str,
        reply: &str,
    ) -> Result<(), AllocError> {
        if bytes == 0 {
            return self.ask(front, reply);
        }
        let letters = "a".repeat(self.alloc, bytes.saturating_sub(5))?;
        let command = format!(in self.alloc; "{front}{{k='{letters}}}{rest}")?;
        self.ask(command.as_str(), reply)
    }

    fn named(self, name: &str) -> Result<Transcript, AllocError> {
        Ok(Transcript {
            name: String::from_str(self.alloc, name)?,
            input: self.input,
            output: self.output,
        })
    }
}
