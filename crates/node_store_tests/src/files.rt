//! Files of bodies.
use node_store::StoreError;
use std::alloc::{AllocError, Global};

/// The first eight bytes of a store whose first bank is live.
pub const HEAD: &[u8] = b"DSCSTOR1";

/// Appends the cells of bodies.
pub fn push_cells(file: &mut Vec<u8>, bodies: &[Vec<u8>]) -> Result<(), AllocError> {
    for body in bodies {
        push_cell(file, body)?;
    }
    Ok(())
}

/// Appends the cell of a body.
pub fn push_cell(file: &mut Vec<u8>, body: &[u8]) -> Result<(), AllocError> {
    file.push(0xA5)?;
    let length = u32::try_from(body.len()).unwrap_or(u32::MAX);
    file.extend_from_slice(&length.to_be_bytes())?;
    file.extend_from_slice(body)
}

/// The file of a store with these bodies.
pub fn file_of(alloc: Global, bodies: &[Vec<u8>]) -> Result<Vec<u8>, AllocError> {
    let mut file = HEAD.to_vec(alloc)?;
    push_cells(&mut file, bodies)?;
    file.push(0)?;
    Ok(file)
}

/// Where a file is no store, for an answer.
pub fn place_of<T: Drop>(answer: Result<T, StoreError>) -> Option<u64> {
    match answer {
        Err(StoreError::NotAStore { at }) => Some(at),
        _ => None,
    }
}
