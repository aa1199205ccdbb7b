//! The line on standard error for a run that doesn't do its job to the end.

ghost use Rattle.std.specs.Prelude.{◌≡◌, ◌+◌, ◌≤◌, ◌++◌, length, decimal};
ghost use Rattle.input_files.specs.NoticeTexts.{role_text, notice_text};

use crate::input_texts::push_input_fault;
use crate::notice::Notice;
use crate::role::Role;
use arrayvec::ArrayString;
use itoa::Buffer;

/// A line with its LF.
pub type Line = ArrayString<192>;

/// What a file is read or written for.
fn role_of(role: Role) -> &'static str
    ensures role { result.now ≡ role_text role }
    ensures short { length result.now ≤ 8 }
{
    match role {
        Role::Settings => "settings",
        Role::Nav => "nav",
        Role::Obs => "obs",
        Role::Station => "station",
        Role::Rows => "rows",
        Role::Zones => "zones",
        Role::Log => "log",
        Role::After => "after",
    }
}

/// A text and a number.
fn push_count(line: &mut Line, text: &str, count: u64)
    requires { length line.old.bytes + length text.now ≤ 80 }
    ensures pushed { line.new.bytes ≡ line.old.bytes ++ (text.now ++ decimal count) }
    ensures length { length line.new.bytes ≤ length line.old.bytes + length text.now + 20 }
{
    let mut buffer = Buffer::new();
    line.push_str(text);
    line.push_str(buffer.format(count));
}

/// The line on standard error for a run that doesn't do its job to the end.
pub fn notice_line(notice: &Notice) -> Line
    ensures { result.bytes ≡ notice_text notice.now }
{
    let mut line = Line::new();
    match *notice {
        Notice::Usage => {
            line.push_str("usage: gpscover judge LOG, pave ROWS LOG, ");
            line.push_str("solve or check OBS NAV SETTINGS LOG, make SEED EPOCHS, ");
            line.push_str("track or retrack OBS NAV SETTINGS LOG, ");
            line.push_str("guard OBS NAV SETTINGS ZONES LOG\n");
        }
        Notice::TooLong { role, limit } => {
            line.push_str(role_of(role));
            push_count(&mut line, " 29 TooLong ", limit);
            line.push_str("\n");
        }
        Notice::BadLog {
            role,
            line: number,
            kind,
        } => {
            line.push_str(role_of(role));
            push_count(&mut line, " 40 BadLog line ", u64::from(number));
            push_count(&mut line, " kind ", u64::from(kind));
            line.push_str("\n");
        }
        Notice::BadZones { line: number } => {
            push_count(&mut line, "zones 42 BadZones line ", u64::from(number));
            line.push_str("\n");
        }
        Notice::BadAfter { line: number } => {
            push_count(&mut line, "after 44 BadAfter line ", u64::from(number));
            line.push_str("\n");
        }
        Notice::AfterOutside => line.push_str("after 45 OutsideBox\n"),
        Notice::BadInput(ref fault) => push_input_fault(&mut line, fault),
        Notice::ReadFault { role } => {
            line.push_str(role_of(role));
            line.push_str(" fault\n");
        }
        Notice::LogFault => line.push_str("log fault\n"),
        Notice::OutFault => line.push_str("out fault\n"),
        Notice::NoMemory => line.push_str("no memory\n"),
        Notice::LogFull { limit } => {
            push_count(&mut line, "log full ", limit);
            line.push_str("\n");
        }
    }
    line
}
