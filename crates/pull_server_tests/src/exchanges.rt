//! Exchanges, one after the other.
ghost use Rattle.pull_store.specs.Store.{IsReady};

use crate::asking::ask;
use crate::servers::{new_disk, new_shelf};
use dsc_outside::Disk;
use pull_outside::Shelf;
use pull_store::{PullError, PullStore, open_pull};
use std::alloc::{AllocError, Global};

/// The first of the exchanges that is answered otherwise: a head, a body, and the code and the body that must come.
pub fn first_other<D: Disk, S: Shelf>(
    alloc: Global,
    store: &mut PullStore,
    disk: &mut D,
    shelf: &mut S,
    exchanges: &[(&str, &str, u16, &str)],
) -> Option<usize>
    requires { IsReady D.Disk disk.old store.old }
    ensures { IsReady D.Disk disk.new store.new }
{
    for (place, (head, body, code, answer)) in exchanges.iter().enumerate() {
        match ask(alloc, store, disk, shelf, head, body) {
            Some(reply) if reply.code == *code && reply.body.as_slice() == answer.as_bytes() => {}
            _ => return Some(place),
        }
    }
    None
}

/// The first of the exchanges that a new server answers otherwise, or the error of its store. The calls of
/// these numbers of the shelf fail.
pub fn first_other_of(
    alloc: Global,
    failing: &[u64],
    exchanges: &[(&str, &str, u16, &str)],
) -> Result<Option<usize>, PullError> {
    let mut shelf = new_shelf(alloc, failing)?;
    let mut disk = new_disk(alloc, &[])?;
    let mut store = open_pull(alloc, &mut disk)?;
    Ok(first_other(alloc, &mut store, &mut disk, &mut shelf, exchanges))
}

/// The codes of the answers of a new server to requests of these heads and bodies, where the call of that number of the disk fails.
pub fn codes_after(
    alloc: Global,
    failing: u64,
    requests: &[(&str, &str)],
) -> Result<String, AllocError> {
    let mut line = String::new(alloc);
    put_codes_after(&mut line, failing, requests)?;
    Ok(line)
}

fn put_codes_after(
    line: &mut String,
    failing: u64,
    requests: &[(&str, &str)],
) -> Result<(), AllocError> {
    let alloc = *line.allocator();
    let mut shelf = new_shelf(alloc, &[])?;
    let Ok(mut disk) = new_disk(alloc, &[failing]) else {
        return Err(AllocError);
    };
    match open_pull(alloc, &mut disk) {
        Ok(mut store) => put_codes(line, &mut store, &mut disk, &mut shelf, requests),
        Err(_) => line.push_str("unopened"),
    }
}

fn put_codes<D: Disk, S: Shelf>(
    line: &mut String,
    store: &mut PullStore,
    disk: &mut D,
    shelf: &mut S,
    requests: &[(&str, &str)],
) -> Result<(), AllocError>
    requires { IsReady D.Disk disk.old store.old }
{
    let alloc = *line.allocator();
    for (head, body) in requests {
        let code = match ask(alloc, store, disk, shelf, head, body) {
            Some(reply) => reply.code,
            None => 0,
        };
        let text = format!(in alloc; "{code} ")?;
        line.push_str(text.as_str())?;
    }
    Ok(())
}
