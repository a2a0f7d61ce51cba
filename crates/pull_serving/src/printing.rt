//! Lines of connections and of refusals, without memory.
ghost use Rattle.std.specs.Prelude.{◌≡◌, ◌≤◌, ◌+◌, ◌++◌, length};
ghost use Rattle.std.specs.Fmt.{decimal};
ghost use Rattle.arrayvec.specs.ArrayString.{array_string_len};
ghost use Rattle.pull_exchange.specs.Exchange.{Writes};
ghost use Rattle.pull_serving.specs.Printing.{end_text, line, refusal_line};

use crate::connection::ConnectionEnd;
use crate::status::ServeStatus;
use arrayvec::ArrayString;
use dsc_outside::{Sink, write_all};
use itoa::Buffer;

/// A line, which has at most 64 bytes.
pub type Line = ArrayString<64>;

/// The line of the connection with that number.
pub fn line(number: u32, end: ConnectionEnd) -> Line
    ensures { result.bytes ≡ line number end }
{
    let mut text = Line::new();
    push_number(&mut text, u64::from(number));
    text.push_str(" ");
    push_end(&mut text, end);
    text.push_str("\n");
    text
}

fn push_end(text: &mut Line, end: ConnectionEnd)
    requires { length text.old.bytes ≤ 31 }
    ensures bytes { text.new.bytes ≡ text.old.bytes ++ end_text end }
    ensures length { length text.new.bytes ≤ length text.old.bytes + 32 }
{
    match end {
        ConnectionEnd::Answered { code } => {
            text.push_str("answer ");
            push_number(text, u64::from(code));
        }
        ConnectionEnd::DiskFault => text.push_str("disk fault"),
        ConnectionEnd::Torn { at } => {
            text.push_str("torn ");
            push_number(text, at);
        }
        ConnectionEnd::ReadFault => text.push_str("read fault"),
        ConnectionEnd::WriteFault => text.push_str("write fault"),
        ConnectionEnd::Memory => text.push_str("memory"),
    }
}

fn push_number(text: &mut Line, number: u64)
    requires { length text.old.bytes ≤ 44 }
    ensures bytes { text.new.bytes ≡ text.old.bytes ++ decimal number }
    ensures length { length text.new.bytes ≤ length text.old.bytes + 20 }
{
    let mut digits = Buffer::new();
    text.push_str(digits.format(number));
}

/// Prints the line of a refusal, which stays the status where the output fails.
pub fn refuse<K: Sink>(output: &mut K, status: ServeStatus) -> ServeStatus
    ensures status { result ≡ status }
    ensures writes { Writes (K.held output.old) (K.held output.new) (refusal_line status)
        (K.faults output.old) (K.faults output.new) }
    ensures count { K.faults output.old ≤ K.faults output.new }
{
    let _ = write_all(output, refusal_line(status).as_str().as_bytes());
    status
}

// The line of a refusal; empty where the status is none, or has none.
fn refusal_line(status: ServeStatus) -> Line
    ensures { result.bytes ≡ refusal_line status }
{
    let mut text = Line::new();
    match status {
        ServeStatus::Done | ServeStatus::WriteFault | ServeStatus::Memory => {}
        ServeStatus::Usage => text.push_str("refused Usage\n"),
        ServeStatus::NotAStore { at } => {
            text.push_str("refused NotAStore ");
            push_number(&mut text, at);
            text.push_str("\n");
        }
        ServeStatus::DiskFault => text.push_str("refused DiskFault\n"),
        ServeStatus::DoorFault => text.push_str("refused DoorFault\n"),
    }
    text
}
