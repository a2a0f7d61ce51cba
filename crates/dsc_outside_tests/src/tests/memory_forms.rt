use dsc_outside::{Failed, HostError, LinkError, Sink, Source};
use memory_outside::{MemorySink, MemorySource};
use std::alloc::{AllocError, Global};
use std::test::Fail;

// Reads pieces of that size until nothing is left.
fn drain(alloc: Global, source: &mut MemorySource, capacity: usize) -> Result<Vec<u8>, AllocError> {
    let mut all = Vec::new(alloc);
    let mut buffer = vec![in alloc; 0; capacity]?;
    for _ in 0..100 {
        match source.read(&mut buffer) {
            Ok(count) => all.extend_from_slice(&buffer[..count])?,
            Err(Failed) => all.push(b'!')?,
        }
    }
    Ok(all)
}

// The size of each read, the call that fails, and what is read, with a mark for the failure.
const READS: &[(usize, u64, &str)] = &[
    (1, 200, "abcde"),
    (2, 0, "!abcde"),
    (2, 2, "abcd!e"),
    (9, 1, "abcde!"),
];

// A source of five bytes, of which these calls fail.
fn source(alloc: Global, failing: Vec<u64>) -> Result<MemorySource, AllocError> {
    Ok(MemorySource::new(b"abcde".to_vec(alloc)?, failing))
}

fn expect_read(alloc: Global, capacity: usize, failing: u64, read: &str) -> Result<(), Fail> {
    let mut source = source(alloc, [failing].to_vec(alloc)?)?;
    let all = drain(alloc, &mut source, capacity)?;
    if all.as_slice() == read.as_bytes() && !source.short() {
        return Ok(());
    }
    Err(Fail::new("something else is read"))
}

#[test]
fn with_ample_memory_a_source_gives_its_bytes(rt: HostRuntime) -> Result<(), Fail> {
    for (capacity, failing, read) in READS {
        expect_read(rt.alloc(), *capacity, *failing, read)?;
    }
    Ok(())
}

// Returns whether the sink takes the whole piece.
fn takes(sink: &mut MemorySink, piece: &[u8]) -> bool {
    sink.write(piece) == Ok(piece.len())
}

#[test]
fn with_ample_memory_a_sink_takes_each_piece(rt: HostRuntime) {
    let mut sink = MemorySink::new(rt.alloc(), Vec::new(rt.alloc()));
    assert!(rt; takes(&mut sink, b"ab") && takes(&mut sink, b"") && takes(&mut sink, b"cde"));
    assert!(rt; sink.bytes() == b"abcde".as_slice() && !sink.short());
}

#[test]
fn errors_are_printed(rt: HostRuntime) -> Result<(), Fail> {
    let all = format!(in rt.alloc();
        "{}; {}; {}; {}; {}; {}",
        Failed,
        HostError::Failed,
        HostError::Memory,
        LinkError::Failed,
        LinkError::TooLong,
        LinkError::Memory
    )?;
    assert!(rt;
        all.as_str()
            == "failed; failed; out of memory; failed; the answer is too long; out of memory"
    );
    Ok(())
}
