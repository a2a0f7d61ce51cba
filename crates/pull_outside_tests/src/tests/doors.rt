use dsc_outside::{Sink, Source};
use pull_outside::{Door, MemoryConn, MemoryDoor, Parting};
use std::alloc::{AllocError, Global};
use std::rt::HostRuntime;
use std::test::Fail;

// The bytes of a connection.
fn sizes() -> &'static [usize] {
    &[0, 1, 4_096, 1_048_576]
}

// How many numbers of calls are to fail, none of which comes, or how many connections come.
fn counts() -> &'static [usize] {
    &[0, 1, 7, 300]
}

// A connection of that many bytes in pieces of at most 4,096.
fn conn(alloc: Global, size: usize, numbers: usize) -> Result<MemoryConn, AllocError> {
    let failing = vec![in alloc; u64::MAX; numbers]?;
    let bytes = vec![in alloc; b'b'; size]?;
    Ok(MemoryConn::new(alloc, bytes, 4_096, failing))
}

// Whether a source gives these bytes, and then ends.
fn gives<S: Source>(source: &mut S, bytes: &[u8]) -> bool {
    let mut buffer = [0u8; 8192];
    let mut rest = bytes;
    for _ in 0..u64::MAX {
        let Ok(count) = source.read(&mut buffer) else {
            return false;
        };
        if count == 0 {
            return rest.is_empty();
        }
        match rest.strip_prefix(&buffer[..count]) {
            Some(later) => rest = later,
            None => return false,
        }
    }
    false
}

// Whether a sink takes these bytes.
fn takes<K: Sink>(sink: &mut K, bytes: &[u8]) -> bool {
    let mut rest = bytes;
    for _ in 0..u64::MAX {
        if rest.is_empty() {
            return true;
        }
        match sink.write(rest) {
            Ok(count) => rest = &rest[count..],
            Err(_) => return false,
        }
    }
    false
}

// Whether a connection gives its bytes, and then takes and keeps as many.
fn is_served(alloc: Global, size: usize, numbers: usize) -> Result<bool, AllocError> {
    let mut conn = conn(alloc, size, numbers)?;
    let bytes = vec![in alloc; b'b'; size]?;
    let is_passed = gives(&mut conn, &bytes) && takes(&mut conn, &bytes);
    Ok(is_passed && conn.taken() == bytes.as_slice() && !conn.short())
}

#[test]
fn each_connection_gives_and_takes_its_bytes(rt: HostRuntime) -> Result<(), Fail> {
    for size in sizes() {
        for numbers in counts() {
            assert!(rt; is_served(rt.alloc(), *size, *numbers)?, "{size} {numbers}");
        }
    }
    Ok(())
}

fn conns(alloc: Global, count: usize, size: usize) -> Result<Vec<MemoryConn>, AllocError> {
    let mut conns = Vec::new(alloc);
    for _ in 0..count {
        conns.push(conn(alloc, size, 0)?)?;
    }
    Ok(conns)
}

// How many connections come until a call gives none; each is handed back.
fn come<D: Door>(door: &mut D) -> u64 {
    for number in 0..u64::MAX {
        match door.next() {
            Ok(conn) => door.close(conn, Parting::AtOnce),
            Err(_) => return number,
        }
    }
    0
}

// How many connections come through a door of that many, and how many it keeps.
fn served(alloc: Global, count: usize, size: usize) -> Result<(u64, usize), AllocError> {
    match MemoryDoor::new(alloc, conns(alloc, count, size)?, Vec::new(alloc)) {
        Ok(mut door) => {
            let number = come(&mut door);
            Ok((number, door.back().len()))
        }
        Err(_) => Err(AllocError),
    }
}

#[test]
fn each_connection_comes_and_is_kept(rt: HostRuntime) -> Result<(), Fail> {
    for count in counts() {
        for size in [0, 1, 4_096] {
            assert_eq!(rt;
                served(rt.alloc(), *count, size)?,
                (*count as u64, *count),
                "{size}"
            );
        }
    }
    Ok(())
}
