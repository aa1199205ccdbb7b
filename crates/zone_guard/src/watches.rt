//! A file of zones of either form.

ghost use Rattle.std.specs.Prelude.{◌≡◌, ℕ, ◌≤◌, Bool, List, ◌∷◌, length, map, IfOk, IfErr, IfSome};
ghost use Rattle.std.specs.Prelude.{IfNone};
ghost use Rattle.zone_guard.specs.Names.{values_of};
ghost use Rattle.zone_guard.specs.Told.{IsToldIn, IsTaken, TellsBad};
ghost use Rattle.zone_guard.specs.Text.{lines};
ghost use Rattle.zone_guard.specs.Watched.{WatchValue, zone_watch};
ghost use Rattle.zone_guard.specs.WatchText.{BeginsSecond, second_line, IsWatchesText};
ghost use Rattle.zone_guard.specs.WatchText.{IsFirstUnfit};
ghost use Rattle.zone_guard.specs.WatchValues.{watch_values};
ghost use Rattle.zone_guard.specs.declared.zone.ZoneError.TheVariants.{NoMemory};

use crate::reading::line;
use crate::text::read_zones;
use crate::watch::{Form, Watch, Watches};
use crate::watching::watches_in;
use crate::zone::{Zone, ZoneError};
use std::alloc::Global;

/// The first line of the second form.
const SECOND_HEAD: &[u8] = b"gpszones 2";

/// What stands behind the first line, where this is that of the second form.
fn behind_head(bytes: &[u8]) -> Option<&[u8]>
    ensures found { IfSome result (λ rest. lines bytes.now ≡ second_line ∷ lines rest.now) }
    ensures less { IfSome result (λ rest. length rest.now ≤ length bytes.now) }
    ensures none { IfNone result (BeginsSecond (lines bytes.now) → ⊥) }
{
    let (head, rest) = line(bytes)?;
    if head == SECOND_HEAD {
        Some(rest)
    } else {
        None
    }
}

/// The same zones.
fn watches_of(alloc: Global, zones: &[Zone]) -> Result<Vec<Watch>, ZoneError>
    ensures value { IfOk result (λ watches. watch_values watches.items
        ≡ map zone_watch (values_of zones.now)) }
    ensures fault { IfErr result (λ e. e ≡ NoMemory) }
{
    let mut watches: Vec<Watch> = Vec::new(alloc);
    for zone in zones {
        watches.push(Watch {
            name: zone.name,
            form: Form::Box(zone.part),
        })?;
    }
    Ok(watches)
}

/// What a text of either form names, or its first fault.
fn read_either(alloc: Global, bytes: &[u8]) -> Result<Watches, ZoneError>
    requires { length bytes.now ≤ 4000000000 }
    ensures value { IfOk result (λ found. IsWatchesText found.is_second
        (watch_values found.list.items) bytes.now) }
    ensures fault { IfErr result (IsToldIn (IsFirstUnfit bytes.now)) }
{
    match behind_head(bytes) {
        Some(rest) => {
            let list = watches_in(alloc, rest)?;
            Ok(Watches {
                list,
                is_second: true,
            })
        }
        None => {
            let zones = read_zones(alloc, bytes)?;
            let list = watches_of(alloc, &zones)?;
            Ok(Watches {
                list,
                is_second: false,
            })
        }
    }
}

/// Reads zones and directions from their text. Its first line is `gpszones 2`, and each later one
/// `zone NAME` with the low and the high corner of a box, `prism NAME K`, behind which K lines
/// `side AX AY AZ H` follow, `group NAME M K` with those of M such prisms one behind another, or
/// `reach NAME AX AY AZ`. Each line has an LF, and no two have one name. A text with another first
/// line is read as `read_zones` reads it.
pub fn read_watches(alloc: Global, bytes: &[u8]) -> Result<Watches, ZoneError>
    requires { length bytes.now ≤ 4000000000 }
    // What is read has this text.
    ensures value { IfOk result (λ found. IsWatchesText found.is_second
        (watch_values found.list.items) bytes.now) }
    // What isn't read has this first line that doesn't fit, unless memory ran out.
    ensures fault { IfErr result (IsToldIn (IsFirstUnfit bytes.now)) }
    // A text of either form isn't refused, unless memory runs out.
    ensures exact { (second : Bool) (watches : List WatchValue)
        → IsWatchesText second watches bytes.now → IsTaken result }
    // A text with a line that doesn't fit is refused with its first, unless memory runs out.
    ensures first { (line : ℕ) → IsFirstUnfit bytes.now line → TellsBad line result }
{
    read_either(alloc, bytes)
}
