// Why a file is no module.
use sp_base::NoMemory;
use sp_command::Refusal;

/// Why a file was not read as a module.
#[derive(Drop)]
pub enum Unread {
    /// It was refused.
    Refused(Refusal),
    /// It could not be read.
    ModulesFault,
    /// There was no memory.
    NoMemory,
}

impl From<NoMemory> for Unread {
    ghost use Rattle.std.specs.Prelude.{◌≡◌};
    ghost use Rattle.sp_read_file.specs.declared.unread.Unread.TheVariants as unread_is;

    ghost from_gives = { λ _ unread. unread ≡ unread_is.NoMemory };

    fn from(_: NoMemory) -> Unread {
        Unread::NoMemory
    }
}
