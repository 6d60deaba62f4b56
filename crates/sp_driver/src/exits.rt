// How the program ends.
ghost use Rattle.std.specs.Prelude.{◌≡◌};

use sp_base::NoMemory;
use sp_command::Refusal;
use sp_read_file::Unread;

/// How the run of a unit ends.
#[derive(Clone, Copy, Debug, PartialEq, Eq)]
pub enum RunExit {
    /// The input has ended, and the unit was read whole.
    Done,
    /// The input has ended, and the unit failed.
    Failed,
    /// The input could not be read.
    InputFault,
    /// The lines could not be written.
    OutFault,
    /// The input has more bytes than may be taken.
    TooLong,
    /// There was no memory.
    NoMemory,
}

/// Why no unit of a list runs.
#[derive(Drop)]
pub enum Unready {
    /// No unit is the one that runs, or more than one.
    NoParser,
    /// Something in the list can't be run yet.
    Unbuilt(Refusal),
    /// There was no memory.
    NoMemory,
}

impl From<NoMemory> for Unready {
    ghost use Rattle.sp_driver.specs.declared.exits.Unready.TheVariants as unready_is;

    ghost from_gives = { λ _ e. e ≡ unready_is.NoMemory };

    fn from(_: NoMemory) -> Self {
        Unready::NoMemory
    }
}

/// How the program ends.
#[derive(Drop)]
pub enum Exit {
    /// The command line is faulty.
    Usage,
    /// The list of modules was not loaded.
    Unread(Unread),
    /// No unit of it runs.
    Unready(Unready),
    /// The unit ran.
    Ran(RunExit),
}

/// Why lines were not put.
#[derive(Clone, Copy, Debug, PartialEq, Eq)]
pub enum Stop {
    Failed,
    NoMemory,
}

impl From<NoMemory> for Stop {
    ghost use Rattle.sp_driver.specs.declared.exits.Stop.TheVariants as stop;

    ghost from_gives = { λ _ e. e ≡ stop.NoMemory };

    fn from(_: NoMemory) -> Self {
        Stop::NoMemory
    }
}

/// Whether the run goes on behind a piece.
#[derive(Clone, Copy, Debug, PartialEq, Eq)]
pub enum Turn {
    More,
    Ends(RunExit),
}
