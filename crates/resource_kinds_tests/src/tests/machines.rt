//! Machines written as words: `p/` is a folder, `p:hi` a file, `p?` something else at a path; `$name=value` a variable,
//! `#id=message` an entry of the log, `!id` a wish for a reboot.
use dsc_outside::LogEntry;
use memory_outside::{HostContents, MemoryHost, PathContent, PathEntry, Variable};
use mof_values::Bytes;
use std::test::Fail;

fn bytes(rt: &impl AllocGlobal, word: &str) -> Result<Bytes, Fail> {
    Ok(Bytes::of(word.as_bytes().to_vec(rt.alloc())?))
}

fn path_entry(rt: &impl AllocGlobal, path: &str, stands: PathContent) -> Result<PathEntry, Fail> {
    let path = bytes(rt, path)?;
    Ok(PathEntry { path, stands })
}

fn file_entry(rt: &impl AllocGlobal, path: &str, held: &str) -> Result<PathEntry, Fail> {
    let held = bytes(rt, held)?;
    path_entry(rt, path, PathContent::File(held))
}

// What stands at a path.
fn entry(rt: &impl AllocGlobal, word: &str) -> Result<PathEntry, Fail> {
    if let Some((path, held)) = word.split_once(':') {
        return file_entry(rt, path, held);
    }
    match word.strip_suffix('?') {
        Some(path) => path_entry(rt, path, PathContent::Other),
        None => path_entry(rt, word.trim_end_matches('/'), PathContent::Folder),
    }
}

fn variable(rt: &impl AllocGlobal, name: &str, value: &str) -> Result<Variable, Fail> {
    let name = bytes(rt, name)?;
    let value = bytes(rt, value)?;
    Ok(Variable { name, value })
}

fn log_entry(rt: &impl AllocGlobal, id: &str, message: &str) -> Result<LogEntry, Fail> {
    let id = bytes(rt, id)?;
    let message = bytes(rt, message)?;
    Ok(LogEntry { id, message })
}

fn put_variable(
    rt: &impl AllocGlobal,
    words: &str,
    variables: &mut Vec<Variable>,
) -> Result<(), Fail> {
    let (name, value) = words.split_once('=').unwrap_or((words, ""));
    variables.push(variable(rt, name, value)?)?;
    Ok(())
}

fn put_log(rt: &impl AllocGlobal, words: &str, log: &mut Vec<LogEntry>) -> Result<(), Fail> {
    let (id, message) = words.split_once('=').unwrap_or((words, ""));
    log.push(log_entry(rt, id, message)?)?;
    Ok(())
}

fn put_wish(rt: &impl AllocGlobal, id: &str, wanting: &mut Vec<Bytes>) -> Result<(), Fail> {
    wanting.push(bytes(rt, id)?)?;
    Ok(())
}

fn put_path(rt: &impl AllocGlobal, word: &str, paths: &mut Vec<PathEntry>) -> Result<(), Fail> {
    paths.push(entry(rt, word)?)?;
    Ok(())
}

fn put_word(rt: &impl AllocGlobal, word: &str, made: &mut HostContents) -> Result<(), Fail> {
    if let Some(words) = word.strip_prefix('$') {
        put_variable(rt, words, &mut made.variables)
    } else if let Some(words) = word.strip_prefix('#') {
        put_log(rt, words, &mut made.log)
    } else if let Some(id) = word.strip_prefix('!') {
        put_wish(rt, id, &mut made.wanting)
    } else {
        put_path(rt, word, &mut made.paths)
    }
}

/// The machine of these words.
pub fn machine(rt: &impl AllocGlobal, words: &str) -> Result<HostContents, Fail> {
    let mut made = HostContents::empty(rt.alloc());
    for word in words.split_whitespace() {
        put_word(rt, word, &mut made)?;
    }
    Ok(made)
}

/// The host that is this machine, of which these calls fail.
pub fn host(rt: &impl AllocGlobal, words: &str, failing: &[u64]) -> Result<MemoryHost, Fail> {
    let contents = machine(rt, words)?;
    Ok(MemoryHost::of(contents, failing.to_vec(rt.alloc())?, None))
}

fn all_stand_in(entries: &[PathEntry], others: &[PathEntry]) -> bool {
    for entry in entries {
        if !others.contains(entry) {
            return false;
        }
    }
    true
}

/// Returns whether the two hold the same; paths may stand in another order.
pub fn hold_the_same(a: &HostContents, b: &HostContents) -> bool {
    a.paths.len() == b.paths.len()
        && all_stand_in(&a.paths, &b.paths)
        && a.variables == b.variables
        && a.log == b.log
        && a.packages == b.packages
        && a.wanting == b.wanting
}
