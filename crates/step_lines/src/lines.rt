//! The line of a step, word by word.

ghost use Rattle.std.specs.Prelude.{◌≡◌, IfSome, IfNone};
ghost use Rattle.log_tokens.specs.Words.{words, Reads};
ghost use Rattle.step_lines.specs.declared.names.StepName.{StepName};
ghost use Rattle.step_lines.specs.Lines.{StepFits, line_words, name_word};

use crate::fields::step_fields;
use crate::names::StepName;
use log_tokens::word;
use sat_model::Step;

/// The word's name, where it is the first word of a step's line.
fn name_from(word: &[u8]) -> Option<StepName>
    ensures found { IfSome result (λ name. word.now ≡ name_word name) }
    ensures none { IfNone result ((name : StepName) → word.now ≡ name_word name → ⊥) }
{
    match word {
        b"cut" => Some(StepName::Cut),
        b"split" => Some(StepName::Split),
        b"out" => Some(StepName::Out),
        b"in" => Some(StepName::In),
        b"edge" => Some(StepName::Edge),
        _ => None,
    }
}

/// The step that this line, without its LF, is the line of.
pub fn step_at(line: &[u8]) -> Option<Step>
    ensures { Reads StepFits line_words (words line.now) result }
{
    let (word, rest) = word(Some(line))?;
    let name = name_from(word)?;
    step_fields(name, rest)
}
