use base_types::NoMemory;

/// Why a file gives no frame.
#[derive(Clone, Copy, Debug)]
pub enum CsvFault {
    /// The file is outside its form.
    BadCsv,
    NoMemory,
}

impl From<NoMemory> for CsvFault {
    ghost use Rattle.std.specs.Prelude.{◌≡◌};
    ghost use Rattle.script_lang.specs.declared.fault.CsvFault.TheVariants as faults;

    ghost from_gives = { λ _ e. e ≡ faults.NoMemory };

    fn from(_error: NoMemory) -> CsvFault {
        CsvFault::NoMemory
    }
}

/// Why a text gives no script.
#[derive(Clone, Copy, Debug)]
pub enum ScriptFault {
    /// The text is outside the form of scripts.
    BadScript,
    NoMemory,
}

impl From<NoMemory> for ScriptFault {
    ghost use Rattle.std.specs.Prelude.{◌≡◌};
    ghost use Rattle.script_lang.specs.declared.fault.ScriptFault.TheVariants as faults;

    ghost from_gives = { λ _ e. e ≡ faults.NoMemory };

    fn from(_error: NoMemory) -> ScriptFault {
        ScriptFault::NoMemory
    }
}
