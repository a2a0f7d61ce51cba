//! The lines of a text.
ghost use Rattle.std.specs.Prelude.{◌≤◌, IfOk, IfErr, length};
ghost use Rattle.rehearsal.specs.Reading.{IsTextEnd};
ghost use Rattle.rehearsal.specs.Script.{IsOpen, lines};
ghost use Rattle.rehearsal.specs.declared.limits.TheConstants.{MAX_SCRIPT};

use crate::lines::{after_line, line_length};
use std::str;

/// A text that ends.
#[derive(Debug, Drop)]
pub struct TextEnd {
    /// How many bytes it has.
    pub used: usize,

    /// How many bytes it has with the line that ends it.
    pub past: usize,

    /// How many lines it has with that one.
    pub lines: u32,
}

/// A text that breaks off after that many lines: at the end of the script, or at a line that is not in UTF-8.
#[derive(Debug, Drop)]
pub struct BrokenOff {
    pub lines: u32,
}

/// The text that begins with these lines.
pub fn read_text(bytes: &[u8]) -> Result<TextEnd, BrokenOff>
    requires { length bytes.now ≤ MAX_SCRIPT }
    ensures ends { IfOk result (λ end. IsTextEnd bytes.now end.used end.past end.lines) }
    ensures open { IfErr result (λ broken. IsOpen (lines bytes.now) broken.lines
        × (broken.lines ≤ length bytes.now)) }
{
    let mut used = 0;
    let mut lines: u32 = 0;
    while used < bytes.len() {
        let rest = &bytes[used..];
        let length = line_length(rest);
        let line = &rest[..length];
        if line == b".".as_slice() {
            return Ok(TextEnd {
                used,
                past: after_line(bytes, used + length),
                lines: lines + 1,
            });
        }
        let Ok(_) = str::from_utf8(line) else {
            break;
        };
        lines += 1;
        used = after_line(bytes, used + length);
    }
    Err(BrokenOff { lines })
}
