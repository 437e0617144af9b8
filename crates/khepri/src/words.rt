// The words of the command line.
ghost use Rattle.std.specs.Prelude.{◌≡◌};
ghost use Rattle.khepri.specs.Words.{bytes_of, work_of};

use std::alloc::{AllocError, Global};
use std::env::{self, Env};
use std::io::ErrorKind;

/// What a command line asks for.
#[derive(Clone, Copy)]
pub enum Work {
    /// To read input lines to the end, and to answer each.
    Session,
}

/// What these words ask for, where they are known.
pub fn work_of(words: &[String]) -> Option<Work>
    ensures { result ≡ work_of (bytes_of words.now) }
{
    match words {
        [word] => {
            if word.as_str() == "session" {
                return Some(Work::Session);
            }
            None
        }
        _ => None,
    }
}

/// The words after the program's name. Where one of them is no UTF-8 the command line is faulty, and there are none.
pub fn given_words<R: Env>(rt: &R, alloc: Global) -> Result<Vec<String>, AllocError> {
    match env::args(&(rt, alloc)) {
        Ok(args) => args.skip(1).collect(alloc),
        Err(error) => {
            if error.kind() == ErrorKind::OutOfMemory {
                return Err(AllocError);
            }
            Ok(Vec::new(alloc))
        }
    }
}
