//! The line on standard error for a receiver's file that is refused.

ghost use Rattle.std.specs.Prelude.{◌≡◌, ◌+◌, ◌≤◌, ◌++◌, length};
ghost use Rattle.input_files.specs.InputTexts.{header_fault_name, file_fault_name};
ghost use Rattle.input_files.specs.InputTexts.{settings_fault_name, shown_char, shown};
ghost use Rattle.input_files.specs.InputTexts.{file_fault_text, settings_fault_text};
ghost use Rattle.input_files.specs.InputTexts.{input_fault_text};

use crate::input_fault::InputFault;
use crate::notice_texts::Line;
use error_bounds::SettingsFault;
use itoa::Buffer;
use rinex_text::Refusal;

/// The name of a fault of an observation or navigation file, by its number.
fn name_of_file_fault(number: u8) -> &'static str
    ensures name { result.now ≡ file_fault_name number }
    ensures short { length result.now ≤ 16 }
{
    match number {
        19 => "BadEpoch",
        20 => "BadCount",
        21 => "BadSatellite",
        22 => "RepeatSatellite",
        23 => "BadNumber",
        24 => "Truncated",
        25 => "HeaderChange",
        26 => "NotAscii",
        27 => "TooMany",
        43 => "NotRising",
        _ => name_of_header_fault(number),
    }
}

/// The same for those that headers have too.
fn name_of_header_fault(number: u8) -> &'static str
    ensures name { result.now ≡ header_fault_name number }
    ensures short { length result.now ≤ 16 }
{
    match number {
        10 => "NotRinex",
        11 => "Version",
        12 => "Kind",
        13 => "System",
        14 => "NoEndOfHeader",
        15 => "LongLine",
        16 => "CodeAbsent",
        17 => "TimeSystem",
        18 => "ScaleFactor",
        28 => "NoPosition",
        _ => "",
    }
}

/// The name of a fault of the settings.
fn name_of_settings_fault(number: u8) -> &'static str
    ensures name { result.now ≡ settings_fault_name number }
    ensures short { length result.now ≤ 16 }
{
    match number {
        30 => "NotToml",
        31 => "Missing",
        32 => "WrongKind",
        33 => "Outside",
        34 => "Unknown",
        _ => "",
    }
}

/// What stands for a character in a line.
fn shown_of(c: char) -> char
    ensures { result ≡ shown_char c }
{
    if c.is_control() { '?' } else { c }
}

/// A text with `?` in place of each control character.
fn push_shown(line: &mut Line, text: &str)
    requires { length line.old.bytes + length text.now ≤ 192 }
    ensures pushed { line.new.bytes ≡ line.old.bytes ++ shown text.now }
    ensures length { length line.new.bytes ≤ length line.old.bytes + length text.now }
{
    'characters: for c in text.chars() {
        line.push(shown_of(c));
    }
}

/// The first fault of a file with lines.
fn push_file_fault(line: &mut Line, role: &str, refusal: Refusal)
    requires { length line.old.bytes + length role.now ≤ 16 }
    ensures { line.new.bytes ≡ line.old.bytes ++ file_fault_text role.now refusal }
{
    let mut buffer = Buffer::new();
    line.push_str(role);
    line.push_str(" ");
    line.push_str(buffer.format(refusal.number));
    line.push_str(" ");
    line.push_str(name_of_file_fault(refusal.number));
    line.push_str(" line ");
    line.push_str(buffer.format(refusal.line));
    line.push_str("\n");
}

/// The first fault of settings.
fn push_settings_fault(line: &mut Line, fault: &SettingsFault)
    requires { length line.old.bytes ≤ 16 }
    ensures { line.new.bytes ≡ line.old.bytes ++ settings_fault_text fault.now }
{
    if fault.number == 30 {
        line.push_str("settings 30 NotToml\n");
        return;
    }
    let mut buffer = Buffer::new();
    line.push_str("settings ");
    line.push_str(buffer.format(fault.number));
    line.push_str(" ");
    line.push_str(name_of_settings_fault(fault.number));
    line.push_str(" ");
    push_shown(line, fault.key.as_str());
    line.push_str("\n");
}

/// The first fault of a receiver's file.
pub fn push_input_fault(line: &mut Line, fault: &InputFault)
    requires { length line.old.bytes ≤ 8 }
    ensures { line.new.bytes ≡ line.old.bytes ++ input_fault_text fault.now }
{
    match fault {
        InputFault::Obs(refusal) => push_file_fault(line, "obs", *refusal),
        InputFault::Nav(refusal) => push_file_fault(line, "nav", *refusal),
        InputFault::Station(refusal) => push_file_fault(line, "station", *refusal),
        InputFault::Settings(refusal) => push_settings_fault(line, refusal),
    }
}
