// Two texts, line by line.
ghost use Rattle.std.specs.Prelude.{◌≡◌, ◌↔◌, IsNone};

use memchr::memchr;

/// The first line in which two texts differ, counted from 1, and what each has there, with its LF. A text that has ended
/// has an empty line there.
#[derive(Drop)]
pub struct Difference<'a> {
    pub line: u64,
    pub wanted: &'a [u8],
    pub written: &'a [u8],
}

/// Where two texts differ first, if they do.
pub fn first_difference<'a>(wanted: &'a [u8], written: &'a [u8]) -> Option<Difference<'a>>
    ensures { IsNone result ↔ (wanted.now ≡ written.now) }
{
    if wanted == written {
        return None;
    }
    Some(first_of(wanted, written))
}

fn first_of<'a>(wanted: &'a [u8], written: &'a [u8]) -> Difference<'a> {
    let mut wanted = wanted;
    let mut written = written;
    for line in 1..u64::MAX {
        let (here, behind) = cut_line(wanted);
        let (other, behind_other) = cut_line(written);
        if here != other || here.is_empty() {
            return Difference {
                line,
                wanted: here,
                written: other,
            };
        }
        wanted = behind;
        written = behind_other;
    }
    Difference {
        line: u64::MAX,
        wanted,
        written,
    }
}

// The first line with its LF, and what is behind it.
fn cut_line(text: &[u8]) -> (&[u8], &[u8]) {
    match memchr(b'\n', text) {
        Some(at) => text.split_at(at + 1),
        None => (text, b""),
    }
}
