//! The line for a log that differs from what the files give.

ghost use Rattle.std.specs.Prelude.{◌≡◌, ◌+◌, ◌≤◌, ◌++◌, length};
ghost use Rattle.cover_run.specs.CheckTexts.{span_text, spans_text, fault_text};

use crate::Fault;
use crate::texts::name_of_test;
use arrayvec::ArrayString;
use grid_model::Span;
use itoa::Buffer;

/// A line with its LF and two spans.
pub type FaultLine = ArrayString<192>;

/// Both ends of a span.
fn push_span(line: &mut FaultLine, span: &Span)
    requires { length line.old.bytes ≤ 128 }
    ensures pushed { line.new.bytes ≡ line.old.bytes ++ span_text span.now }
    ensures length { length line.new.bytes ≤ length line.old.bytes + 41 }
{
    let mut buffer = Buffer::new();
    line.push_str(buffer.format(span.lo));
    line.push_str(" ");
    line.push_str(buffer.format(span.hi));
}

/// Of a row that is too narrow, its span and the one that it doesn't hold.
fn push_spans(line: &mut FaultLine, fault: &Fault)
    requires { length line.old.bytes ≤ 64 }
    ensures pushed { line.new.bytes ≡ line.old.bytes ++ spans_text fault.now }
    ensures length { length line.new.bytes ≤ length line.old.bytes + 96 }
{
    if fault.number == 53 {
        line.push_str(" theirs ");
        push_span(line, &fault.theirs);
        line.push_str(" ours ");
        push_span(line, &fault.ours);
    }
}

/// `no NUMBER NAME line LINE`, and for a row that is too narrow the two spans.
pub fn fault_line(fault: &Fault) -> FaultLine
    ensures { result.bytes ≡ fault_text fault.now }
{
    let mut buffer = Buffer::new();
    let mut line = FaultLine::new();
    line.push_str("no ");
    line.push_str(buffer.format(fault.number));
    line.push_str(" ");
    line.push_str(name_of_test(fault.number));
    line.push_str(" line ");
    line.push_str(buffer.format(fault.line));
    push_spans(&mut line, fault);
    line.push_str("\n");
    line
}
