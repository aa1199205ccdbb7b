//! The lines on what is found of zones and directions, written one behind another.

ghost use Rattle.std.specs.Prelude.{◌≡◌, ◌<◌, ◌^◌, length, get_or, None};
ghost use Rattle.std.specs.List.{AllByRecursion};
ghost use Rattle.cover_run.specs.ZoneTexts.{HasAll, WritesText, epoch_text, epochs_text};
ghost use Rattle.cover_run.specs.ZoneTexts.{finding_lines, guard_text, reach_from, reach_in};
ghost use Rattle.cover_run.specs.ZoneTexts.{reach_of, text_of, total_text, totals_text};
ghost use Rattle.input_files.specs.Zones.{zones_value};
ghost use Rattle.zone_guard.specs.Counted.{item_at};
ghost use Rattle.zone_guard.specs.WatchValues.{watch_value, watch_values};

use outer_io::{Failed, Sink, write_sink};
use zone_guard::{
    EpochFindings, Extent, Finding, Form, Line, Watch, Watches, counts_at, counts_line, few_line,
    finding_line, joined, whole_line,
};

/// Writes a line.
fn write_line<O: Sink>(out: &mut O, line: &[u8]) -> Result<(), Failed>
    ensures { WritesText (O.state out.old) (O.state out.new) (O.reliable out.old)
        (O.reliable out.new) line.now result }
{
    write_sink(out, line)
}

// ---- an epoch

/// What is found at a place.
fn finding_at(found: &[Finding], place: usize) -> Finding
    requires { place < length found.now }
    ensures { result ≡ get_or found.now place result }
{
    found[place]
}

/// A line for each zone and direction.
fn write_findings<O: Sink>(
    index: u32,
    watches: &[Watch],
    found: &[Finding],
    out: &mut O,
) -> Result<(), Failed>
    requires { length found.now ≡ length watches.now }
    ensures { WritesText (O.state out.old) (O.state out.new) (O.reliable out.old)
        (O.reliable out.new)
        (text_of (finding_lines index (watch_values watches.now) found.now)) result }
{
    for (place, watch) in watches.iter().enumerate() {
        let finding = finding_at(found, place);
        write_line(out, finding_line(index, &watch.name, &finding).as_bytes())?;
    }
    Ok(())
}

/// The lines of an epoch.
fn write_epoch<O: Sink>(watches: &[Watch], epoch: &EpochFindings, out: &mut O) -> Result<(), Failed>
    requires { HasAll (length watches.now) epoch.now }
    ensures { WritesText (O.state out.old) (O.state out.new) (O.reliable out.old)
        (O.reliable out.new) (epoch_text (watch_values watches.now) epoch.now) result }
{
    match &epoch.found {
        None => write_line(out, few_line(epoch.index).as_bytes()),
        Some(found) => write_findings(epoch.index, watches, found, out),
    }
}

/// The lines of all epochs.
fn write_epochs<O: Sink>(
    watches: &[Watch],
    epochs: &[EpochFindings],
    out: &mut O,
) -> Result<(), Failed>
    requires { AllByRecursion (HasAll (length watches.now)) epochs.now }
    ensures { WritesText (O.state out.old) (O.state out.new) (O.reliable out.old)
        (O.reliable out.new) (epochs_text (watch_values watches.now) epochs.now) result }
{
    for epoch in epochs {
        write_epoch(watches, epoch, out)?;
    }
    Ok(())
}

// ---- totals

/// The reach at a place; none where there is none or a zone stands there.
fn reach_at(found: &[Finding], place: usize) -> Option<Extent>
    ensures { result ≡ reach_of (item_at place found.now) }
{
    if place < found.len() {
        return match found[place] {
            Finding::Zone(_) => None,
            Finding::Reach(extent) => extent,
        };
    }
    None
}

/// The same of an epoch.
fn reach_in(epoch: &EpochFindings, place: usize) -> Option<Extent>
    ensures { result ≡ reach_in place epoch.now }
{
    match &epoch.found {
        None => None,
        Some(found) => reach_at(found, place),
    }
}

/// The reach over all epochs.
fn reach_over(epochs: &[EpochFindings], place: usize) -> Option<Extent>
    ensures { result ≡ reach_from None place epochs.now }
{
    let mut reach: Option<Extent> = None;
    for epoch in epochs {
        reach = joined(&reach, &reach_in(epoch, place));
    }
    reach
}

/// The total of a zone or a direction.
fn total_line(watch: &Watch, place: usize, epochs: &[EpochFindings]) -> Line
    requires { length epochs.now < 2 ^ 32 }
    ensures { result.bytes ≡ total_text place epochs.now (watch_value watch.now) }
{
    match &watch.form {
        Form::Box(_) | Form::Prism(_) | Form::Group(_) => {
            counts_line(&watch.name, &counts_at(epochs, place))
        }
        Form::Reach(_) => whole_line(&watch.name, &reach_over(epochs, place)),
    }
}

/// The totals behind the epochs.
fn write_totals<O: Sink>(
    watches: &[Watch],
    epochs: &[EpochFindings],
    out: &mut O,
) -> Result<(), Failed>
    requires { length epochs.now < 2 ^ 32 }
    ensures { WritesText (O.state out.old) (O.state out.new) (O.reliable out.old)
        (O.reliable out.new) (totals_text (watch_values watches.now) epochs.now) result }
{
    for (place, watch) in watches.iter().enumerate() {
        write_line(out, total_line(watch, place, epochs).as_bytes())?;
    }
    Ok(())
}

/// All lines: those of each epoch, and for a file of the second form the totals behind them.
pub fn write_zones<O: Sink>(
    zones: &Watches,
    epochs: &[EpochFindings],
    out: &mut O,
) -> Result<(), Failed>
    requires each { AllByRecursion (HasAll (length zones.now.list.items)) epochs.now }
    requires few { length epochs.now < 2 ^ 32 }
    ensures { WritesText (O.state out.old) (O.state out.new) (O.reliable out.old)
        (O.reliable out.new) (guard_text (zones_value zones.now) epochs.now) result }
{
    write_epochs(&zones.list, epochs, out)?;
    if zones.is_second {
        return write_totals(&zones.list, epochs, out);
    }
    Ok(())
}
