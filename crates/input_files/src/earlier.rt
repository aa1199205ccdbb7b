//! The texts of earlier logs, behind which a track goes on.

ghost use Rattle.std.specs.Prelude.{IfErr, IfOk};
ghost use Rattle.std.specs.List.{AllByRecursion};
ghost use Rattle.grid_model.specs.Boxes.{grid_box};
ghost use Rattle.input_files.specs.Earlier.{IsLeft, NamesUnfit};
ghost use Rattle.log_tokens.specs.Fields.{IsTime};
ghost use Rattle.moving_tube.specs.Endings.{before_value};
ghost use Rattle.paving_log.specs.Values.{log_value};
ghost use Rattle.sat_model.specs.Logs.{IsNumbered};
ghost use Rattle.sat_model.specs.Verdicts.{Judged};

use crate::grammar::Grammar;
use crate::notice::Notice;
use crate::role::Role;
use grid_model::{Box3, NoMemory};
use moving_tube::{Kept, ending, is_inside_of};
use paving_log::{Log, read_log};
use paving_log_check::{Verdict, judge};
use std::alloc::Global;
use std::rc::Rc;

/// What the log leaves, where it lies in the search box.
fn left_by(alloc: Global, log: &Log, search: &Box3) -> Result<Option<Kept>, Notice>
    requires judged { Judged (log_value log.now) }
    requires times { AllByRecursion (λ block. IsTime block.ps) (log_value log.now).blocks }
    ensures left { IfOk result (λ left.
        IsLeft (grid_box search.now) (log_value log.now) (before_value left)) }
    ensures unfit { IfErr result (NamesUnfit (grid_box search.now) (log_value log.now)) }
{
    let Ok(left) = ending(alloc, log) else {
        return Err(Notice::NoMemory);
    };
    if is_inside_of(search, &left) {
        return Ok(left);
    }
    Err(Notice::AfterOutside)
}

/// What the log leaves, where it is right and that lies in the search box.
fn judged_left(alloc: Global, log: &Log, search: &Box3) -> Result<Option<Kept>, Notice>
    requires numbered { IsNumbered (log_value log.now) }
    requires times { AllByRecursion (λ block. IsTime block.ps) (log_value log.now).blocks }
    ensures left { IfOk result (λ left.
        IsLeft (grid_box search.now) (log_value log.now) (before_value left)) }
    ensures unfit { IfErr result (NamesUnfit (grid_box search.now) (log_value log.now)) }
{
    match judge(alloc, log) {
        Ok(Verdict::Yes { .. }) => left_by(alloc, log, search),
        Ok(Verdict::No(fault)) => Err(Notice::BadAfter { line: fault.line }),
        Err(NoMemory) => Err(Notice::NoMemory),
    }
}

/// The texts of earlier logs, of any kind and version, whose last paved epoch keeps boxes in this
/// search box.
#[derive(Clone, Copy)]
pub struct EarlierText {
    pub search: Box3,
}

impl Grammar<Option<Kept>> for EarlierText {
    ghost use Rattle.grid_model.specs.Boxes.{grid_box};
    ghost use Rattle.input_files.specs.Earlier.{earlier_text};

    ghost text = { λ t. earlier_text (grid_box t.search) };

    fn role(&self) -> Role {
        Role::After
    }

    fn read(&self, alloc: Global, bytes: Vec<u8>) -> Result<Option<Kept>, Notice> {
        let Ok(text) = Rc::new(alloc, bytes) else {
            return Err(Notice::NoMemory);
        };
        match read_log(alloc, &text) {
            Ok(log) => judged_left(alloc, &log, &self.search),
            Err(error) => Err(Notice::of_text(Role::After, error)),
        }
    }
}
