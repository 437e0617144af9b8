// Why an evaluation or a run can't go on.
ghost use Rattle.std.specs.Prelude.{◌≡◌};
ghost use Rattle.tx_script.specs.declared.halt.Halt.TheVariants as halts;
ghost use Rattle.tx_script.specs.declared.halt.Unvalued.TheVariants as unvalued;
ghost use Rattle.tx_script.specs.Halts.{halt_of};

use khepri_types::{Refusal, Stop};
use std::alloc::AllocError;

/// Why an expression has no value.
#[derive(Drop)]
pub enum Unvalued {
    /// It is refused, which ends the script.
    Refused(Refusal),
    NoMemory,
}

/// The end of the script, or want of memory.
#[derive(Drop)]
pub enum Halt {
    Stop(Stop),
    NoMemory,
}

impl From<AllocError> for Unvalued {
    ghost from_gives = { λ _ e. e ≡ unvalued.NoMemory };

    fn from(_: AllocError) -> Self {
        Unvalued::NoMemory
    }
}

impl From<AllocError> for Halt {
    ghost from_gives = { λ _ h. h ≡ halts.NoMemory };

    fn from(_: AllocError) -> Self {
        Halt::NoMemory
    }
}

impl From<Unvalued> for Halt {
    ghost from_gives = { λ e h. h ≡ halt_of e };

    fn from(why: Unvalued) -> Self {
        match why {
            Unvalued::Refused(why) => refused(why),
            Unvalued::NoMemory => Halt::NoMemory,
        }
    }
}

pub(crate) fn refused(why: Refusal) -> Halt
    ensures { result ≡ Halt.Stop (Stop.Refused why) }
{
    Halt::Stop(Stop::Refused(why))
}
