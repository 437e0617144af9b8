ghost use Rattle.std.specs.Prelude.{◌≡◌, ◌<◌, ◌≤◌, ◌+◌, [], length, IfOk, OnErr, true, false};
ghost use Rattle.line_io.specs.Lines.{NoLf};
ghost use Rattle.line_io.specs.Streams.{Rose, Takes};

use crate::cutting::{ended_line, final_line, keep};
use crate::next::{LineFault, Next};
use crate::streams::{Failed, Source};
use memchr::memchr;
use std::alloc::{AllocError, Global};
use std::marker::Model;

// How many bytes are asked for at a time.
const PIECE: usize = 65536;

/// Cuts the bytes of a source into lines, in whatever pieces they come. A line ends with LF, and one CR right before
/// the LF is dropped; the bytes after the last LF are a line too, where there are any, and keep their CR.
#[derive(Drop)]
pub struct Lines {
    alloc: Global,
    limit: usize,
    // How many bytes of the budget are left, and whether the byte after it was taken.
    budget: u64,
    past: bool,
    ended: bool,
    // What came of a line in earlier pieces: its front, as far as it tells whether the line is too long.
    begun: Vec<u8>,
    // Room for a line; what stands in it counts for nothing.
    spare: Vec<u8>,
    // The last piece, and what is unread of it.
    piece: Vec<u8>,
    at: usize,
    end: usize,
}

impl Model for Lines {
    ghost use Rattle.line_io.specs.Reading.{Reading, IsReader, room_of, unread_of};

    ghost Value = { Reading };

    ghost view = { λ s. record { limit = s.limit; unread = unread_of s.begun.items s.piece.items s.at s.end; room = room_of s.budget s.past; ended = s.ended } };

    ghost invariant = { λ s. IsReader s.limit s.begun.items s.piece.items s.at s.end s.past s.ended };
}

impl Lines {
    ghost use Rattle.line_io.specs.Ahead.{Call, NextTaken};
    ghost use Rattle.line_io.specs.Pieces.{Found, Taken};

    /// A reader of lines of at most `limit` bytes, from an input of at most `budget` bytes.
    pub fn new(alloc: Global, limit: usize, budget: u64) -> Result<Lines, AllocError>
        ensures { IfOk result (λ lines. lines ≡ record { limit = limit; unread = []; room = budget + 1; ended = false }) }
    {
        let piece = vec![in alloc; 0; PIECE]?;
        Ok(Lines {
            alloc,
            limit,
            budget,
            past: false,
            ended: false,
            begun: Vec::new(alloc),
            spare: Vec::new(alloc),
            piece,
            at: 0,
            end: 0,
        })
    }

    /// The next line. After a fault, want of memory included, the bytes taken are kept, and the next call goes on from
    /// them. The byte after the budget is the last that is taken.
    pub fn next<S: Source>(&mut self, source: &mut S) -> Result<Next, LineFault>
        ensures call { Call self.old self.new (S.left source.old) (S.left source.new) (S.faults source.old) (S.faults source.new) result }
        ensures later { S.faults source.old ≤ S.faults source.new }
    {
        if self.has_ended() {
            return Ok(Next::End);
        }
        'pieces: loop {
            if let Some(next) = self.whole_line()? {
                return Ok(next);
            }
            if self.is_past() {
                return Err(LineFault::InputLong);
            }
            if let Some(next) = self.take_piece(source)? {
                return Ok(next);
            }
        }
    }

    /// The next line, where it stands whole among the bytes taken: a call that asks no source, so that the caller can
    /// do what must be done before the source is asked again.
    pub fn next_taken(&mut self) -> Result<Option<Next>, AllocError>
        ensures taken { IfOk result (λ next. NextTaken self.old next self.new) }
        ensures err { OnErr result (self.new ≡ self.old) }
    {
        if self.has_ended() {
            return Ok(None);
        }
        self.whole_line()
    }

    /// Takes back what was given, so that a later line lies in its room.
    pub fn reuse(&mut self, next: Next)
        ensures { self.new ≡ self.old }
    {
        if let Next::Line(line) = next {
            self.spare = line;
        }
    }

    fn has_ended(&self) -> bool
        ensures ended { result ≡ self.now.ended }
        ensures over { result ≡ true → (self.now.unread ≡ []) × (0 < self.now.room) }
    {
        self.ended
    }

    fn is_past(&self) -> bool
        ensures past { result ≡ true → self.now.room ≡ 0 }
        ensures within { result ≡ false → 0 < self.now.room }
    {
        self.past
    }

    // The first whole line of what is unread, where there is one.
    fn whole_line(&mut self) -> Result<Option<Next>, AllocError>
        ensures found { IfOk result (λ found. Found self.old found self.new) }
        ensures err { OnErr result (self.new ≡ self.old) }
    {
        let rest = &self.piece.as_slice()[self.at..self.end];
        match memchr(b'\n', rest) {
            None => Ok(None),
            Some(i) => {
                let (begun, spare) = (&mut self.begun, &mut self.spare);
                let next = ended_line(self.alloc, self.limit, begun, spare, &rest[..i])?;
                self.at += i + 1;
                Ok(Some(next))
            }
        }
    }

    // Takes one more piece. At the end of the input the answer is the last line.
    fn take_piece<S: Source>(&mut self, source: &mut S) -> Result<Option<Next>, LineFault>
        requires going { self.old.ended ≡ false }
        requires room { 0 < self.old.room }
        requires free { NoLf self.old.unread }
        ensures taken { Taken self.old self.new (S.left source.old) (S.left source.new) (S.faults source.old) (S.faults source.new) result }
        ensures later { S.faults source.old ≤ S.faults source.new }
    {
        keep(
            &mut self.begun,
            self.limit,
            &self.piece.as_slice()[self.at..self.end],
        )?;
        self.at = 0;
        self.end = 0;
        let most = piece_length(self.budget, self.piece.len());
        let n = match take_front(source, &mut self.piece, most) {
            Ok(n) => n,
            Err(_) => return Err(LineFault::ReadFault),
        };
        if n == 0 {
            self.ended = true;
            let line = std::mem::replace(&mut self.begun, Vec::new(self.alloc));
            return Ok(Some(final_line(self.limit, line)));
        }
        if n as u64 > self.budget {
            self.past = true;
            self.budget = 0;
            self.end = n - 1;
            return Ok(None);
        }
        self.budget -= n as u64;
        self.end = n;
        Ok(None)
    }
}

// How many bytes to ask for: a whole piece, but no more than the byte after the budget.
fn piece_length(budget: u64, whole: usize) -> usize
    requires { 0 < whole }
    ensures some { 0 < result }
    ensures whole { result ≤ whole }
    ensures budget { result ≤ budget + 1 }
{
    if budget < whole as u64 {
        return budget as usize + 1;
    }
    whole
}

// Places the next bytes at the front of a piece.
fn take_front<S: Source>(source: &mut S, piece: &mut [u8], most: usize) -> Result<usize, Failed>
    requires some { 0 < most }
    requires within { most ≤ length piece.old }
    ensures length { length piece.new ≡ length piece.old }
    ensures within { IfOk result (λ n. n ≤ most) }
    ensures taken { IfOk result (λ n. Takes (S.left source.old) (S.left source.new) piece.new n) }
    ensures kept { OnErr result (S.left source.new ≡ S.left source.old) }
    ensures later { S.faults source.old ≤ S.faults source.new }
    ensures cause { OnErr result (Rose (S.faults source.old) (S.faults source.new)) }
{
    source.take(&mut piece[..most])
}
