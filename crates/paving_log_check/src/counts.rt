//! How many lines stand behind the root of a block.

ghost use Rattle.std.specs.Prelude.{◌≡◌, ◌≤◌, map};
ghost use Rattle.sat_model.specs.Bounds.{lines_of_bounds};
ghost use Rattle.sat_model.specs.Events.{lines_of_all};
ghost use Rattle.paving_log.specs.Values.{bound_value, body_value};
ghost use Rattle.paving_log_check.specs.Renewed.{lines_in_renewals};

use paving_log::{Body, Bound, Renewal};

/// How many lines renewals have.
fn renewal_lines(renewals: &[Renewal]) -> u32
    requires { lines_in_renewals renewals.now ≤ 4000000001 }
    ensures { result ≡ lines_in_renewals renewals.now }
{
    let mut lines = 0;
    for renewal in renewals {
        lines += 1 + renewal.rows.len() as u32;
    }
    lines
}

/// How many lines the steps and renewals of a body have.
pub(crate) fn event_lines(body: &Body) -> u32
    requires { lines_of_all (body_value body.now).events ≤ 4000000001 }
    ensures { result ≡ lines_of_all (body_value body.now).events }
{
    body.steps.len() as u32 + renewal_lines(&body.renewals)
}

/// How many lines bounds have.
pub(crate) fn bound_lines(bounds: &[Bound]) -> u32
    requires { lines_of_bounds (map bound_value bounds.now) ≤ 4000000001 }
    ensures { result ≡ lines_of_bounds (map bound_value bounds.now) }
{
    let mut lines = 0;
    for bound in bounds {
        lines += 1 + bound.sums.len() as u32;
    }
    lines
}
