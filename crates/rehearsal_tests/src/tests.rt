//! Which scripts are read, to which steps, and at which line others fail.
mod playing;

use mof_values::Memory;
use rehearsal::{MAX_SCRIPT, ScriptError, Step, StopAt, StopPart, read_script};
use std::alloc::{AllocError, Global};
use std::fmt::Write;
use std::rt::HostRuntime;
use std::str;

// Scripts, and their steps, one a line.
fn scripts() -> &'static [(&'static str, &'static str)] {
    &[
        ("", ""),
        ("\n\n\n", ""),
        ("start get", "start get\n"),
        ("start get\n", "start get\n"),
        (
            "\nstart push NAME\n\nstart pull",
            "start push NAME\nstart pull\n",
        ),
        ("start get stop 1 0", "start get stop 1 old\n"),
        (
            "start a b stop 4294967295 1\n",
            "start a b stop 4294967295 new\n",
        ),
        ("start a stop 20 2", "start a stop 20 filled\n"),
        ("key k", "key k\n"),
        ("key  k l ", "key  k l \n"),
        ("wants [File]a b", "wants [File]a b\n"),
        ("doc d\n.\nshelf Web d", "shelf Web=\n"),
        ("doc d\n.", ""),
        ("doc d\na\nb\n.\nshelf Web d", "shelf Web=a;b;\n"),
        (
            "doc d\n\n..\n .\n.\nstart meta < d",
            "start meta < ;..; .;\n",
        ),
        (
            "doc d\nstart x < e\n.\nstart meta < d stop 3 1",
            "start meta < start x < e; stop 3 new\n",
        ),
        (
            "doc d\na\n.\nshelf W d\ndoc d\nb\n.\ndoc e\nc\n.\nstart push < d\nshelf V e",
            "shelf W=a;\nstart push < b;\nshelf V=c;\n",
        ),
        ("doc stop\na\n.\nstart push < stop", "start push < a;\n"),
        (
            "doc <\na\n.\nstart push < < stop 1 2",
            "start push < a; stop 1 filled\n",
        ),
        ("start stopped", "start stopped\n"),
        ("start é", "start é\n"),
    ]
}

// Scripts that fail, and the line.
fn failing() -> &'static [(&'static [u8], u32)] {
    &[
        (b"start", 0),
        (b"start ", 0),
        (b"\nstart get\nstart  get", 2),
        (b"start get ", 0),
        (b" start get", 0),
        (b"Start get", 0),
        (b"start generate 3", 0),
        (b"start a rehearse", 0),
        (b"start < d", 0),
        (b"doc d\n.\nstart < d", 2),
        (b"doc d\n.\nstart a <", 2),
        (b"doc d\n.\nstart a < d b", 2),
        (b"doc d\n.\nstart a < d stop 1", 2),
        (b"doc d\n.\nstart a stop 1 1 < d", 2),
        (b"start a < d\ndoc d\n.", 0),
        (b"start a stop", 0),
        (b"start a stop 1", 0),
        (b"start a stop 0 1", 0),
        (b"start a stop 01 1", 0),
        (b"start a stop +1 1", 0),
        (b"start a stop 1 3", 0),
        (b"start a stop 1 00", 0),
        (b"start a stop 1 1 ", 0),
        (b"start a stop 4294967296 1", 0),
        (b"start a stop 1 1 stop 1 1", 0),
        (b"stop 1 1", 0),
        (b"key", 0),
        (b"key ", 0),
        (b"wants ", 0),
        (b"keys k", 0),
        (b"doc", 0),
        (b"doc ", 0),
        (b"doc a b\n.", 0),
        (b"doc a \n.", 0),
        (b"doc a", 1),
        (b"doc a\n", 1),
        (b"doc a\nb", 2),
        (b"doc a\nb\n. \n\n", 4),
        (b"key k\ndoc a\nb\n\xFF\n.", 3),
        (b"key k\ndoc a\n.\nb\n", 3),
        (b"key k\n\xFF", 1),
        (b"doc d\n.\nshelf W e", 2),
        (b"doc d\n.\nshelf W d ", 2),
        (b"doc d\n.\nshelf W", 2),
        (b"doc d\n.\nshelf  d", 2),
        (b"start get\r\n\r\n", 1),
        (b".", 0),
    ]
}

fn push_text(out: &mut String, bytes: &[u8]) -> Result<(), AllocError> {
    for line in str::from_utf8(bytes).unwrap_or("?").split('\n') {
        out.push_str(line)?;
        out.push(';')?;
    }
    out.pop();
    Ok(())
}

fn push_stop(out: &mut String, stop: &StopAt) -> Result<(), AllocError> {
    let part = match stop.part {
        StopPart::Old => "old",
        StopPart::New => "new",
        StopPart::Filled => "filled",
    };
    let alloc = *out.allocator();
    out.push_str(&format!(in alloc; " stop {} {part}", stop.call)?)
}

fn push_step(out: &mut String, step: &Step) -> Result<(), AllocError> {
    match step {
        Step::Shelf {
            configuration,
            content,
        } => {
            out.push_str("shelf ")?;
            out.push_str(configuration.as_str())?;
            out.push('=')?;
            push_text(out, content.as_slice())?;
        }
        Step::Key { key } => {
            out.push_str("key ")?;
            out.push_str(str::from_utf8(key.as_slice()).unwrap_or("?"))?;
        }
        Step::Wants { id } => {
            out.push_str("wants ")?;
            out.push_str(id.as_str())?;
        }
        Step::Start { words, input, stop } => {
            out.push_str("start")?;
            for word in words.as_slice() {
                out.push(' ')?;
                out.push_str(word.as_str())?;
            }
            if let Some(text) = input {
                out.push_str(" < ")?;
                push_text(out, text.as_slice())?;
            }
            if let Some(stop) = stop {
                push_stop(out, stop)?;
            }
        }
    }
    out.push('\n')
}

fn steps_of(alloc: Global, script: &[u8]) -> Result<String, ScriptError> {
    let mut out = String::new(alloc);
    let most = script.len().min(MAX_SCRIPT);
    for step in read_script(alloc, &script[..most])? {
        push_step(&mut out, &step)?;
    }
    Ok(out)
}

#[test]
fn scripts_are_read_to_their_steps(rt: HostRuntime) {
    for (script, steps) in scripts() {
        let read = steps_of(rt.alloc(), script.as_bytes());
        match read {
            Ok(read) => assert_eq!(rt; read.as_str(), *steps, "{script}"),
            Err(error) => panic!(rt; "{script}: {error}"),
        }
    }
}

#[test]
fn a_script_fails_at_its_first_line_that_is_wrong(rt: HostRuntime) {
    for (script, line) in failing() {
        let failed = steps_of(rt.alloc(), script).err();
        let wanted = Some(ScriptError::Line { line: *line });
        assert_eq!(rt; failed, wanted, "{}", script.escape_ascii());
    }
}
