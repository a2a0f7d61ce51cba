//! Inputs that are made.
use std::alloc::{AllocError, Global};
use std::test::Fail;

/// The pieces in a row, each that many times.
pub fn joined(alloc: Global, pieces: &[(&str, usize)]) -> Result<String, AllocError> {
    let mut out = String::new(alloc);
    for (piece, count) in pieces {
        push_times(&mut out, piece, *count)?;
    }
    Ok(out)
}

fn push_times(out: &mut String, piece: &str, count: usize) -> Result<(), AllocError> {
    for _ in 0..count {
        out.push_str(piece)?;
    }
    Ok(())
}

/// Expects that it is so of that input.
pub fn expect(is_so: bool, input: &str) -> Result<(), Fail> {
    if is_so {
        return Ok(());
    }
    Err(Fail::new(format_args!("{input} is answered otherwise")))
}
