//! The reading of a script.
ghost use Rattle.std.specs.Prelude.{◌≡◌, ◌<◌, ◌≤◌, IfOk, IfErr, OnOk, length};
ghost use Rattle.rehearsal.specs.Reading.{BeginsText, IsReadTo};
ghost use Rattle.rehearsal.specs.Script.{IsScript, IsScriptError};
ghost use Rattle.rehearsal.specs.declared.limits.TheConstants.{MAX_SCRIPT};

use crate::line::{Line, read_line};
use crate::lines::{after_line, line_length};
use crate::step::Step;
use crate::text_lines::{BrokenOff, read_text};
use crate::texts::{NamedText, ScriptText};
use crate::words::Word;
use mof_values::Memory;
use std::alloc::{AllocError, AllocFailed, Global};
use std::{fmt, str};

/// Why a script is not read.
#[derive(Clone, Copy, Debug, PartialEq, Eq)]
pub enum ScriptError {
    /// The first line, counted from 0, that is in no form, which a line not in UTF-8 is too, or names an unknown text; or the number
    /// of the lines, where a text does not end.
    Line { line: u32 },

    Memory,
}

impl From<AllocError> for ScriptError {
    ghost use Rattle.rehearsal.specs.declared.script.ScriptError.TheVariants as errors;

    ghost from_gives = { λ _ e. e ≡ errors.Memory };

    fn from(_: AllocError) -> Self {
        ScriptError::Memory
    }
}

impl<T: Drop> From<AllocFailed<T>> for ScriptError {
    ghost use Rattle.rehearsal.specs.declared.script.ScriptError.TheVariants as errors;

    ghost from_gives = { λ _ e. e ≡ errors.Memory };

    fn from(_: AllocFailed<T>) -> Self {
        ScriptError::Memory
    }
}

impl From<Memory> for ScriptError {
    ghost use Rattle.rehearsal.specs.declared.script.ScriptError.TheVariants as errors;

    ghost from_gives = { λ _ e. e ≡ errors.Memory };

    fn from(_: Memory) -> Self {
        ScriptError::Memory
    }
}

impl fmt::Display for ScriptError {
    fn fmt<W: fmt::Write>(&self, f: &mut fmt::Formatter<W>) -> fmt::Result {
        match self {
            ScriptError::Line { line } => write!(f, "line {line}"),
            ScriptError::Memory => f.write_str("out of memory"),
        }
    }
}

/// The steps of a script.
///
/// # Errors
///
/// `Line`, where a line is in no form, which a line not in UTF-8 is too, names an unknown text, or begins a text that does not end;
/// `Memory`, out of memory.
pub fn read_script<'a>(alloc: Global, script: &'a [u8]) -> Result<Vec<Step<'a>>, ScriptError>
    requires { length script.now ≤ MAX_SCRIPT }
    ensures ok { IfOk result (λ steps. IsScript script.now steps.items) }
    ensures few { IfOk result (λ steps. length steps.items ≤ MAX_SCRIPT) }
    ensures error { IfErr result (IsScriptError script.now) }
{
    let mut reader = Reader {
        script,
        at: 0,
        line: 0,
        texts: Vec::new(alloc),
        steps: Vec::new(alloc),
    };
    while reader.at < script.len() {
        reader.read_on(alloc)?;
    }
    Ok(reader.steps)
}

// A script that is read to some line.
#[derive(Drop)]
struct Reader<'a> {
    script: &'a [u8],
    // the place at which that line begins
    at: usize,
    // its number
    line: u32,
    texts: Vec<NamedText<'a>>,
    steps: Vec<Step<'a>>,
}

impl<'a> Reader<'a> {
    // Reads the line, and where a text begins with it, the text.
    fn read_on(&mut self, alloc: Global) -> Result<(), ScriptError>
        requires so_far { IsReadTo self.old.script.now self.old.at self.old.line
            self.old.steps.items self.old.texts.items }
        requires more { self.old.at < length self.old.script.now }
        requires small { length self.old.script.now ≤ MAX_SCRIPT }
        ensures so_far { OnOk result (IsReadTo self.new.script.now self.new.at self.new.line
            self.new.steps.items self.new.texts.items) }
        ensures on { OnOk result (self.old.at < self.new.at) }
        ensures script { self.new.script ≡ self.old.script }
        ensures error { IfErr result (IsScriptError self.old.script.now) }
    {
        let rest = &self.script[self.at..];
        let length = line_length(rest);
        let Ok(line) = str::from_utf8(&rest[..length]) else {
            return Err(ScriptError::Line { line: self.line });
        };
        let past = after_line(self.script, self.at + length);
        match read_line(alloc, &self.texts, line)? {
            None => Err(ScriptError::Line { line: self.line }),
            Some(Line::Empty) => {
                self.at = past;
                self.line += 1;
                Ok(())
            }
            Some(Line::Does { step }) => {
                self.steps.push(step)?;
                self.at = past;
                self.line += 1;
                Ok(())
            }
            Some(Line::TextBegins { name }) => self.take_text(past, name),
        }
    }

    // Takes the text of that name, whose lines begin at that place.
    fn take_text(&mut self, from: usize, name: Word<'a>) -> Result<(), ScriptError>
        requires so_far { IsReadTo self.old.script.now self.old.at self.old.line
            self.old.steps.items self.old.texts.items }
        requires begins { BeginsText self.old.script.now self.old.at from name self.old.texts.items }
        requires small { length self.old.script.now ≤ MAX_SCRIPT }
        ensures so_far { OnOk result (IsReadTo self.new.script.now self.new.at self.new.line
            self.new.steps.items self.new.texts.items) }
        ensures on { OnOk result (self.old.at < self.new.at) }
        ensures script { self.new.script ≡ self.old.script }
        ensures error { IfErr result (IsScriptError self.old.script.now) }
    {
        let rest = &self.script[from..];
        match read_text(rest) {
            Ok(end) => {
                let text = ScriptText::of(&rest[..end.used]);
                self.texts.push(NamedText { name, text })?;
                self.at = from + end.past;
                self.line += 1 + end.lines;
                Ok(())
            }
            Err(BrokenOff { lines }) => Err(ScriptError::Line {
                line: self.line + 1 + lines,
            }),
        }
    }
}
