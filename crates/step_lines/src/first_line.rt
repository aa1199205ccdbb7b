//! The first line of some lines of steps.

ghost use Rattle.std.specs.Prelude.{IfSome, IfNone};
ghost use Rattle.step_lines.specs.Reading.{HasFirst};
ghost use Rattle.step_lines.specs.Texts.{HasNoEnd};

use crate::leading_steps::leading_step;
use crate::lines::step_at;
use memchr::memchr;
use sat_model::Step;

/// The step of the first line, none where it is another one, and what stands behind its LF.
pub fn first_line(text: &[u8]) -> Option<(Option<Step>, &[u8])>
    ensures found { IfSome result (λ found. HasFirst text.now found.0 found.1.now) }
    ensures none { IfNone result (HasNoEnd text.now) }
{
    if let Some((step, behind)) = leading_step(text) {
        return Some((Some(step), behind));
    }
    let end = memchr(b'\n', text)?;
    let step = step_at(&text[..end]);
    Some((step, &text[end + 1..]))
}
