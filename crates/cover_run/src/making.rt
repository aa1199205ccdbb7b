//! The command `make SEED EPOCHS`.

ghost use Rattle.std.specs.Prelude.{◌≡◌, ◌≤◌, [], Some, IfOk, IfErr, length};
ghost use Rattle.cover_run.specs.Making.{AreMade, FillsMade, IsCutOff, IsFull, IsSolvedAs, Makes};
ghost use Rattle.cover_run.specs.Making.{SolvesMade};
ghost use Rattle.cover_run.specs.Telling.{sinks};
ghost use Rattle.error_bounds.specs.Reading.{value_of_settings};
ghost use Rattle.error_bounds.specs.Texts.{IsSettings, SettingsValue};
ghost use Rattle.input_files.specs.Inputs.{AreEnough};
ghost use Rattle.input_files.specs.declared.notice.Notice.{Notice};
ghost use Rattle.outer_io.specs.Sizes.{longest_file};
ghost use Rattle.outer_io.specs.Store.{listed};
ghost use Rattle.outer_io.specs.Told.{files_of};
ghost use Rattle.paving_log.specs.Values.{log_value};
ghost use Rattle.sat_model.specs.Logs.{IsNumbered};

use crate::making_texts::made_lines;
use crate::solving::write_solution;
use crate::telling::{say, tell};
use crate::unseen::Unseen;
use epoch_selection::{FIRST_EPOCH, LAST_EPOCH, Selection};
use error_bounds::{Settings, SettingsError, read_settings};
use grid_model::NoMemory;
use input_files::{
    Grammar, Inputs, Limits, LogText, NavText, Notice, ObsText, Status, wants_position,
};
use made_input::make;
use outer_io::{MemoryShelf, Shelf, Sink};
use paving_log::Log;
use rinex_obs::Sought;
use std::alloc::Global;

/// The name of the log in memory.
const LOG: &str = "log";

/// What a text says that has no fault.
fn read_faultless<V, G: Grammar<V>>(alloc: Global, bytes: Vec<u8>, grammar: &G) -> Result<V, Notice>
    requires short { length bytes.items ≤ longest_file }
    requires faultless { (w : (G.text grammar.now).Value)
        × (G.text grammar.now).Spells bytes.items w }
    ensures value { (w : (G.text grammar.now).Value) → (G.text grammar.now).Spells bytes.items w
        → IfOk result (λ v. (G.text grammar.now).value v ≡ w) }
    ensures usual { IfOk result (G.text grammar.now).Usual }
    ensures memory { IfErr result (λ n. n ≡ Notice.NoMemory) }
{
    grammar.read(alloc, bytes)
}

/// The same of settings.
fn faultless_settings(alloc: Global, bytes: &[u8]) -> Result<Settings, Notice>
    requires faultless { (w : SettingsValue) × IsSettings bytes.now w }
    ensures value { (w : SettingsValue) → IsSettings bytes.now w
        → IfOk result (λ settings. value_of_settings settings ≡ w) }
    ensures memory { IfErr result (λ n. n ≡ Notice.NoMemory) }
{
    match read_settings(alloc, bytes) {
        Ok(settings) => Ok(settings),
        Err(SettingsError::NoMemory) => Err(Notice::NoMemory),
        Err(SettingsError::Refused(_)) => unreachable!(),
    }
}

/// What the texts say that are made of a seed.
fn made_inputs(alloc: Global, seed: u32, epochs: u32) -> Result<Inputs, Notice>
    requires from { 1 ≤ epochs }
    requires to { epochs ≤ 240 }
    ensures made { IfOk result (AreMade seed epochs) }
    ensures enough { IfOk result AreEnough }
    ensures memory { IfErr result (λ n. n ≡ Notice.NoMemory) }
{
    let Ok(made) = make(alloc, seed, epochs) else {
        return Err(Notice::NoMemory);
    };
    let settings = faultless_settings(alloc, &made.settings)?;
    let nav = read_faultless(alloc, made.nav, &NavText { galileo: None })?;
    let position = wants_position(settings.centre);
    let sought = Sought::alone(settings.signal);
    let text = ObsText {
        sought: &sought,
        position,
        selection: command_words::Selection {
            from: FIRST_EPOCH,
            to: LAST_EPOCH,
        },
    };
    let obs = read_faultless(alloc, made.obs, &text)?;
    Ok(Inputs {
        settings,
        nav,
        station: None,
        obs,
        after: None,
    })
}

/// A shelf in memory for a log alone, of so many bytes.
fn log_shelf(alloc: Global, room: u64) -> Result<MemoryShelf, NoMemory>
    ensures { IfOk result (λ shelf.
        files_of (⟦<MemoryShelf as Shelf>⟧.state shelf) ≡ Some (listed [])) }
{
    let name = String::from_str(alloc, LOG)?;
    MemoryShelf::make(alloc, Vec::new(alloc), name, room, Vec::new(alloc))
}

/// The log of these files, solved in memory.
fn solved_in_memory(alloc: Global, limits: &Limits, inputs: &Inputs) -> Result<Log, Notice>
    requires { AreEnough inputs.now }
    ensures log { IfOk result (λ log.
        IsSolvedAs limits.now.log inputs.now (log_value log)) }
    ensures numbered { IfOk result (λ log. IsNumbered (log_value log)) }
    ensures cut_off { IfErr result
        (IsCutOff limits.now.log (IsFull limits.now.log inputs.now)) }
{
    let Ok(mut shelf) = log_shelf(alloc, limits.log) else {
        return Err(Notice::NoMemory);
    };
    let all = Selection::all();
    let (mut out, mut err) = (Unseen, Unseen);
    match write_solution(
        alloc, limits, inputs, all, LOG, &mut shelf, &mut out, &mut err,
    ) {
        Status::Done => {}
        Status::LogFull => return Err(Notice::LogFull { limit: limits.log }),
        _ => return Err(Notice::NoMemory),
    }
    let Some(bytes) = shelf.file(LOG) else {
        unreachable!();
    };
    let Ok(text) = Vec::from_slice(alloc, bytes) else {
        return Err(Notice::NoMemory);
    };
    // The value keeps the copy, so the log is in memory once while it is read.
    drop(shelf);
    read_faultless(alloc, text, &LogText)
}

/// The log of the files that are made of a seed.
fn made_log(alloc: Global, limits: &Limits, seed: u32, epochs: u32) -> Result<Log, Notice>
    requires from { 1 ≤ epochs }
    requires to { epochs ≤ 240 }
    ensures log { IfOk result (λ log. SolvesMade limits.now.log seed epochs (log_value log)) }
    ensures numbered { IfOk result (λ log. IsNumbered (log_value log)) }
    ensures cut_off { IfErr result
        (IsCutOff limits.now.log (FillsMade limits.now.log seed epochs)) }
{
    let inputs = made_inputs(alloc, seed, epochs)?;
    solved_in_memory(alloc, limits, &inputs)
}

/// Does what `make SEED EPOCHS` asks for. The log is kept in memory, and the two lines are printed
/// after all other work.
pub fn run_make<O: Sink, E: Sink>(
    alloc: Global,
    limits: &Limits,
    seed: u32,
    epochs: u32,
    out: &mut O,
    err: &mut E,
) -> Status
    requires from { 1 ≤ epochs }
    requires to { epochs ≤ 240 }
    ensures { Makes limits.now.log seed epochs
        (sinks (O.state out.old) (E.state err.old)) (sinks (O.state out.new) (E.state err.new))
        (O.reliable out.new) result }
{
    match made_log(alloc, limits, seed, epochs) {
        Ok(log) => {
            let lines = made_lines(seed, epochs, &log);
            tell(Status::Done, lines.as_bytes(), out, err)
        }
        Err(notice) => say(err, &notice),
    }
}
