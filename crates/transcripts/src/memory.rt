// A source and a sink in memory that may be slow.
ghost use Rattle.std.specs.Prelude.{Some};

use line_io::{Failed, MemSink, MemSource, Sink, Source};
use std::alloc::Global;

/// How the bytes go in and out.
#[derive(Clone, Copy)]
pub enum Pace {
    /// As many a call as there is room for.
    Whole,
    /// One byte a call.
    Single,
}

/// A source in memory.
#[derive(Drop)]
pub struct Feed {
    source: MemSource,
    pace: Pace,
}

impl Feed {
    /// A source of these bytes.
    pub fn new(alloc: Global, bytes: Vec<u8>, pace: Pace) -> Feed {
        Feed {
            source: MemSource::new(bytes, Vec::new(alloc)),
            pace,
        }
    }
}

impl Source for Feed {
    ghost left = { λ s. Some s.source.left };

    ghost faults = { λ s. s.source.faults };

    fn take(&mut self, out: &mut [u8]) -> Result<usize, Failed> {
        match self.pace {
            Pace::Whole => self.source.take(out),
            Pace::Single => self.source.take(&mut out[..1]),
        }
    }
}

/// A sink in memory.
#[derive(Drop)]
pub struct Drain {
    sink: MemSink,
    pace: Pace,
}

impl Drain {
    /// A sink that holds nothing.
    pub fn new(alloc: Global, pace: Pace) -> Drain {
        Drain {
            sink: MemSink::new(Vec::new(alloc), Vec::new(alloc)),
            pace,
        }
    }

    /// What was written to it.
    pub fn bytes(&self) -> &[u8] {
        self.sink.bytes()
    }
}

impl Sink for Drain {
    ghost held = { λ s. Some s.sink.bytes };

    ghost faults = { λ s. s.sink.faults };

    fn put(&mut self, bytes: &[u8]) -> Result<usize, Failed> {
        match self.pace {
            Pace::Whole => self.sink.put(bytes),
            Pace::Single => self.sink.put(&bytes[..1]),
        }
    }
}
