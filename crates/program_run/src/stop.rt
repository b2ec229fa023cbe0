use base_types::{NoMemory, Text};

/// Why a run ends before its first command.
#[derive(Drop)]
pub enum Stop {
    /// The words are not of the command set.
    Usage,
    /// The script is outside its form.
    BadScript,
    /// A file of this name could not be read.
    Unreadable(Text),
    /// The loaded file of this name is outside its form, or gives no frame.
    BadFile(Text),
}

/// Why the preparing of a run halts.
#[derive(Drop)]
pub enum Halt {
    Stop(Stop),
    NoMemory,
}

impl From<NoMemory> for Halt {
    ghost use Rattle.std.specs.Prelude.{◌≡◌};
    ghost use Rattle.program_run.specs.declared.stop.Halt.TheVariants as halts;

    ghost from_gives = { λ _ halt. halt ≡ halts.NoMemory };

    fn from(_error: NoMemory) -> Halt {
        Halt::NoMemory
    }
}
