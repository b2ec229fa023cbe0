ghost use Rattle.std.specs.Prelude.{◌≡◌, ◌≤◌, length, map, string_bytes, IfOk, IfErr, OnOk};
ghost use Rattle.std.specs.List.{AllZip, list_all};
ghost use Rattle.frame_core.specs.RawFrames.{table_of};
ghost use Rattle.script_lang.specs.Answers.{GivesScript};
ghost use Rattle.library_api.specs.Steps.{is_carried_out};
ghost use Rattle.program_run.specs.Jobs.{client_names, client_blocks, parts_of, is_carried_client, is_carried_script, script_in, AreReady};
ghost use Rattle.program_run.specs.CommandLine.{IsTries};
ghost use Rattle.program_run.specs.Causes.{HeldAs, GivesTable};
ghost use Rattle.program_run.specs.Preparing.{KeepsUnlessRead, FetchHalts, LoadHalts, LoadsHalt, ScriptHalts, FindsJob, parts_in, PlanIs};

use crate::stop::{Halt, Stop};
use crate::words::{Options, read_words};
use base_types::{Items, Keep, NoMemory, Text};
use expr_clause::Command;
use frame_core::RawFrame;
use library_api::is_carried_out;
use program_edge::{Shelf, ShelfErr};
use script_lang::{
    ClientPart, ClientParts, Commands, CsvFault, Load, Script, ScriptFault, read_frame, read_script,
};
use std::alloc::Global;

/// Raw frames, seen as a list.
pub type RawFrames = Items<RawFrame>;

/// What a run is to do: how, the commands of the parts, and the raw frames that they name by their places.
#[derive(Drop)]
pub struct Plan {
    pub options: Options,
    pub first: Commands,
    /// The clients' names, in the script's order.
    pub names: Items<Text>,
    /// The commands of each client, in the same order.
    pub blocks: Items<Commands>,
    pub last: Commands,
    pub frames: RawFrames,
}

/// The bytes of a file.
fn fetch_file<F: Shelf>(alloc: Global, shelf: &mut F, name: &str) -> Result<Vec<u8>, Halt>
    ensures held { IfOk result (λ bytes. HeldAs (F.holds shelf.old) name.now bytes.items) }
    ensures halts { IfErr result (FetchHalts (F.holds shelf.old) (F.faults shelf.old) (F.faults shelf.new) name.now) }
    ensures same { F.holds shelf.new ≡ F.holds shelf.old }
    ensures never_falls { F.faults shelf.old ≤ F.faults shelf.new }
    ensures kept { OnOk result (F.faults shelf.new ≡ F.faults shelf.old) }
    ensures halts_kept { IfErr result (KeepsUnlessRead (F.faults shelf.old) (F.faults shelf.new)) }
{
    let mut bytes = Vec::new(alloc);
    match shelf.fetch(name, &mut bytes) {
        Ok(()) => Ok(bytes),
        Err(ShelfErr::NoMemory) => Err(Halt::NoMemory),
        Err(_) => Err(Halt::Stop(Stop::Unreadable(Text::make(alloc, name)?))),
    }
}

/// The script that the words name, and the options that they say.
fn find_script<F: Shelf>(
    alloc: Global,
    words: &[String],
    shelf: &mut F,
) -> Result<(Script, Options), Halt>
    ensures found { IfOk result (λ x. FindsJob (F.holds shelf.old) (map string_bytes words.now) x.0 x.1) }
    ensures ready { IfOk result (λ x. AreReady (length x.0.loads) (parts_of x.0)) }
    ensures tries { IfOk result (λ x. IsTries x.1.tries) }
    ensures halts { IfErr result (ScriptHalts (F.holds shelf.old) (F.faults shelf.old) (F.faults shelf.new) (map string_bytes words.now)) }
    ensures same { F.holds shelf.new ≡ F.holds shelf.old }
    ensures never_falls { F.faults shelf.old ≤ F.faults shelf.new }
    ensures kept { OnOk result (F.faults shelf.new ≡ F.faults shelf.old) }
    ensures halts_kept { IfErr result (KeepsUnlessRead (F.faults shelf.old) (F.faults shelf.new)) }
{
    let Some((name, options)) = read_words(words) else {
        return Err(Halt::Stop(Stop::Usage));
    };
    let bytes = fetch_file(alloc, shelf, name)?;
    match carried_script(alloc, bytes.as_slice()) {
        Ok(script) => Ok((script, options)),
        Err(ScriptFault::BadScript) => Err(Halt::Stop(Stop::BadScript)),
        Err(ScriptFault::NoMemory) => Err(Halt::NoMemory),
    }
}

/// The script of some bytes, if the library carries out each of its commands.
fn carried_script(alloc: Global, bytes: &[u8]) -> Result<Script, ScriptFault>
    ensures script { GivesScript (λ script. script) result (script_in bytes.now) }
    ensures ready { IfOk result (λ script. AreReady (length script.loads) (parts_of script)) }
{
    let script = read_script(alloc, bytes)?;
    if is_carried_script(&script) {
        Ok(script)
    } else {
        Err(ScriptFault::BadScript)
    }
}

/// Whether the library carries out each command of each part.
fn is_carried_script(script: &Script) -> bool
    ensures { result ≡ is_carried_script script.now }
{
    all_carried_out(&script.first)
        && all_clients_carried_out(script.clients.items())
        && all_carried_out(&script.last)
}

/// Whether the library carries out each of these commands.
fn all_carried_out(commands: &Commands) -> bool
    ensures { result ≡ list_all is_carried_out commands.now }
{
    are_carried_out(commands.items())
}

fn are_carried_out(commands: &[Command]) -> bool
    ensures { result ≡ list_all is_carried_out commands.now }
{
    commands.iter().all(|command| is_carried_out(command))
}

/// Whether the library carries out each command of these clients.
fn all_clients_carried_out(clients: &[ClientPart]) -> bool
    ensures { result ≡ list_all is_carried_client clients.now }
{
    clients
        .iter()
        .all(|client| all_carried_out(&client.commands))
}

/// The names and the commands of clients, in order.
fn names_and_blocks(
    alloc: Global,
    clients: ClientParts,
) -> Result<(Items<Text>, Items<Commands>), NoMemory>
    ensures names { IfOk result (λ x. x.0 ≡ client_names clients) }
    ensures blocks { IfOk result (λ x. x.1 ≡ client_blocks clients) }
{
    let mut names = Items::new(alloc);
    let mut blocks = Items::new(alloc);
    let mut rest = clients.into_vec();
    while !rest.is_empty() {
        let ClientPart { name, commands } = rest.remove(0);
        names.push(name)?;
        blocks.push(commands)?;
    }
    Ok((names, blocks))
}

/// The raw frame of a load.
fn load_frame<F: Shelf>(alloc: Global, shelf: &mut F, load: &Load) -> Result<RawFrame, Halt>
    ensures loaded { IfOk result (λ raw. GivesTable (F.holds shelf.old) load.now (table_of raw)) }
    ensures halts { IfErr result (LoadHalts (F.holds shelf.old) (F.faults shelf.old) (F.faults shelf.new) load.now) }
    ensures same { F.holds shelf.new ≡ F.holds shelf.old }
    ensures never_falls { F.faults shelf.old ≤ F.faults shelf.new }
    ensures kept { OnOk result (F.faults shelf.new ≡ F.faults shelf.old) }
    ensures halts_kept { IfErr result (KeepsUnlessRead (F.faults shelf.old) (F.faults shelf.new)) }
{
    let bytes = fetch_file(alloc, shelf, load.file.text())?;
    match read_frame(alloc, load.types.items(), bytes.as_slice()) {
        Ok(raw) => Ok(raw),
        Err(CsvFault::BadCsv) => Err(Halt::Stop(Stop::BadFile(load.file.copy(alloc)?))),
        Err(CsvFault::NoMemory) => Err(Halt::NoMemory),
    }
}

/// The raw frames of the loads, fetched and read one after another.
fn load_frames<F: Shelf>(alloc: Global, shelf: &mut F, loads: &[Load]) -> Result<RawFrames, Halt>
    ensures loaded { IfOk result (λ frames. AllZip (GivesTable (F.holds shelf.old)) loads.now (map table_of frames)) }
    ensures halts { IfErr result (LoadsHalt (F.holds shelf.old) (F.faults shelf.old) (F.faults shelf.new) loads.now) }
    ensures same { F.holds shelf.new ≡ F.holds shelf.old }
    ensures never_falls { F.faults shelf.old ≤ F.faults shelf.new }
    ensures kept { OnOk result (F.faults shelf.new ≡ F.faults shelf.old) }
    ensures halts_kept { IfErr result (KeepsUnlessRead (F.faults shelf.old) (F.faults shelf.new)) }
{
    let mut frames = Items::new(alloc);
    for load in loads {
        match load_frame(alloc, shelf, load) {
            Ok(frame) => frames.push(frame)?,
            Err(halt) => return Err(halt),
        }
    }
    Ok(frames)
}

/// The plan of a script, of its options and of the raw frames of its loads.
fn plan_of(alloc: Global, options: Options, script: Script, frames: RawFrames) -> Result<Plan, Halt>
    ensures options { IfOk result (λ plan. plan.options ≡ options) }
    ensures names { IfOk result (λ plan. plan.names ≡ client_names script.clients) }
    ensures parts { IfOk result (λ plan. parts_in plan ≡ parts_of script) }
    ensures frames { IfOk result (λ plan. plan.frames ≡ frames) }
    ensures memory { IfErr result (λ halt. halt ≡ Halt.NoMemory) }
{
    let Script {
        first,
        clients,
        last,
        ..
    } = script;
    let (names, blocks) = names_and_blocks(alloc, clients)?;
    Ok(Plan {
        options,
        first,
        names,
        blocks,
        last,
        frames,
    })
}

/// Reads the words, fetches and reads the script that they name, and then each loaded file in order.
pub fn prepare<F: Shelf>(alloc: Global, words: &[String], shelf: &mut F) -> Result<Plan, Halt>
    ensures plan { PlanIs (F.holds shelf.old) (F.faults shelf.old) (F.faults shelf.new) (map string_bytes words.now) result }
    ensures tries { IfOk result (λ plan. IsTries plan.options.tries) }
    ensures ready { IfOk result (λ plan. AreReady (length plan.frames) (parts_in plan)) }
    ensures same { F.holds shelf.new ≡ F.holds shelf.old }
    ensures never_falls { F.faults shelf.old ≤ F.faults shelf.new }
    ensures kept { OnOk result (F.faults shelf.new ≡ F.faults shelf.old) }
    ensures halts_kept { IfErr result (KeepsUnlessRead (F.faults shelf.old) (F.faults shelf.new)) }
{
    let (script, options) = find_script(alloc, words, shelf)?;
    match load_frames(alloc, shelf, script.loads.items()) {
        Ok(frames) => plan_of(alloc, options, script, frames),
        Err(halt) => Err(halt),
    }
}
