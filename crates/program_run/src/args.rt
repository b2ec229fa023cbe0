ghost use Rattle.std.specs.Prelude.{◌≡◌, ◌≢◌, drop, IfOk, IfErr, IsErrOf};
ghost use Rattle.std.specs.IoError.{error_kind};
ghost use Rattle.std.specs.Vec.Iter.{into_iter_items};

use crate::stop::{Halt, Stop};
use std::alloc::Global;
use std::env::Args;
use std::io::{self, ErrorKind};

/// The words that the program was started with, without its name. Where they can't be had for another cause than memory, a word is
/// not UTF-8, and so none of the command set.
pub fn words_of(alloc: Global, args: io::Result<Args>) -> Result<Vec<String>, Halt>
    ensures words { IfOk args (λ all. IfOk result (λ words. words.items ≡ drop 1 (into_iter_items all))) }
    ensures usage { IfErr args (λ error. error_kind error ≢ ErrorKind.OutOfMemory → IsErrOf result (Halt.Stop Stop.Usage)) }
    ensures memory { IfErr args (λ error. error_kind error ≡ ErrorKind.OutOfMemory → IsErrOf result Halt.NoMemory) }
    ensures good { IfOk args (λ all. IfErr result (λ halt. halt ≡ Halt.NoMemory)) }
{
    match args {
        Ok(args) => behind_name(alloc, args),
        Err(error) => {
            if error.kind() == ErrorKind::OutOfMemory {
                return Err(Halt::NoMemory);
            }
            Err(Halt::Stop(Stop::Usage))
        }
    }
}

/// The words behind the program's name.
fn behind_name(alloc: Global, mut args: Args) -> Result<Vec<String>, Halt>
    ensures words { IfOk result (λ words. words.items ≡ drop 1 (into_iter_items args)) }
    ensures memory { IfErr result (λ halt. halt ≡ Halt.NoMemory) }
{
    let _name = args.next();
    let mut words = Vec::new(alloc);
    for word in args {
        if words.push(word).is_err() {
            return Err(Halt::NoMemory);
        }
    }
    Ok(words)
}
