//! Folders that tests make and remove.
use std::rt::{Env, Files};
use std::{env, fs, io};

// Makes the folder of that number, where there is none yet.
fn make_numbered<R: Files + AllocGlobal>(
    rt: &R,
    temporary: &str,
    number: u32,
) -> io::Result<Option<String>> {
    let folder = format!(in rt.alloc(); "{temporary}/real_outside_{number}")?;
    let made = fs::create_dir(rt, folder.as_str());
    Ok(if made.is_ok() { Some(folder) } else { None })
}

/// Makes a new folder below the system's folder for temporary files.
pub fn make_folder<R: Files + Env + AllocGlobal>(rt: &R) -> io::Result<String> {
    let temporary = env::temp_dir(rt)?.into_string();
    for number in 0..10_000u32 {
        if let Some(folder) = make_numbered(rt, &temporary, number)? {
            return Ok(folder);
        }
    }
    Err(io::Error::from(io::ErrorKind::AlreadyExists))
}
