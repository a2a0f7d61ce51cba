//! The disk of a store whose bank is nearly full.
ghost use Rattle.std.specs.Prelude.{◌≤◌, length};

use dsc_outside::{Disk, Failed};
use std::alloc::{AllocError, Global};

const HEAD: &[u8] = b"DSCSTOR1";

// How many agents have all the bytes that an agent may have.
const WHOLE: u64 = 511;

/// A disk that makes the bytes of a store when they are read, and keeps none that are written. It shows nothing.
///
/// The store has 512 agents with four reports of 131,072 bytes each. The texts of each registration have 131,072 bytes of UTF-8,
/// in characters of four bytes, but those of the last agent, 0x511, which are empty. The live bank has capacity for 38,399 bytes
/// more.
#[derive(Drop)]
pub struct FullDisk {
    // the cells of one agent, with the number of the agent that was read last
    whole: Vec<u8>,

    // the cells of the last agent, and the closed gate
    last: Vec<u8>,
}

fn push_head(bytes: &mut Vec<u8>, length: u32, kind: u8, agent: u128) -> Result<(), AllocError> {
    bytes.push(0xA5)?;
    bytes.extend_from_slice(&length.to_be_bytes())?;
    bytes.push(kind)?;
    bytes.extend_from_slice(&agent.to_be_bytes())
}

fn push_text(bytes: &mut Vec<u8>, chars: u16) -> Result<(), AllocError> {
    bytes.extend_from_slice(&chars.saturating_mul(4).to_be_bytes())?;
    for _ in 0..chars {
        bytes.extend_from_slice(b"\xF0\x90\x80\x80")?;
    }
    Ok(())
}

// A registration without names, whose texts have 131,072 bytes.
fn push_long(bytes: &mut Vec<u8>, agent: u128) -> Result<(), AllocError> {
    push_head(bytes, 131_096, 1, agent)?;
    push_text(bytes, 16_383)?;
    push_text(bytes, 16_383)?;
    push_text(bytes, 2)?;
    Ok(bytes.push(0)?)
}

// A registration without names, whose texts are empty.
fn push_empty(bytes: &mut Vec<u8>, agent: u128) -> Result<(), AllocError> {
    push_head(bytes, 24, 1, agent)?;
    bytes.extend_from_slice(&[0; 7])
}

fn push_reports(bytes: &mut Vec<u8>, agent: u128) -> Result<(), AllocError> {
    for job in [1u128, 2, 3, 4] {
        push_head(bytes, 131_105, 2, agent)?;
        bytes.extend_from_slice(&job.to_be_bytes())?;
        let end = bytes.len().saturating_add(131_072);
        bytes.resize(end, b'r')?;
    }
    Ok(())
}

fn set_byte(bytes: &mut [u8], place: usize, byte: u8) {
    if let Some(old) = bytes.get_mut(place) {
        *old = byte;
    }
}

// Copies the bytes from that place on as far as they fit, and answers how many.
fn copy_from(bytes: &[u8], place: u64, into: &mut [u8]) -> usize
    ensures { result ≤ length into.new }
{
    let from = bytes.get(place as usize..).unwrap_or(&[]);
    let count = from.len().min(into.len());
    into[..count].copy_from_slice(&from[..count]);
    count
}

impl FullDisk {
    pub fn new(alloc: Global) -> Result<FullDisk, AllocError> {
        let mut whole = Vec::new(alloc);
        push_long(&mut whole, 0)?;
        push_reports(&mut whole, 0)?;
        let mut last = Vec::new(alloc);
        push_empty(&mut last, 0x511)?;
        push_reports(&mut last, 0x511)?;
        last.push(0)?;
        Ok(FullDisk { whole, last })
    }

    // Gives these cells the number of an agent, of which the last two bytes stand in each.
    fn set_number(&mut self, number: u64) {
        let [high, low] = u16::try_from(number).unwrap_or(0).to_be_bytes();
        for place in [20usize, 131_121, 262_231, 393_341, 524_451] {
            set_byte(&mut self.whole, place, high);
            set_byte(&mut self.whole, place.saturating_add(1), low);
        }
    }
}

impl Disk for FullDisk {
    ghost use Rattle.std.specs.Prelude.{None};
    ghost use Rattle.std.proofs.lemmas.Option.{none-some};

    ghost shown = { λ d. None };

    ghost images = { λ d c. ⊥ };

    ghost moment = { λ d. 0 };

    ghost left_since = { λ d t c. ⊥ };

    ghost faults = { λ d. 0 };

    ghost counts_now = { λ d t c le now. now };

    ghost only_now = { λ d c left. left };

    ghost honest = { λ d held is. none-some held is };

    fn length(&mut self) -> Result<u64, Failed> {
        let whole = self.whole.len() as u64;
        let last = self.last.len() as u64;
        Ok(
            whole
                .saturating_mul(WHOLE)
                .saturating_add(last)
                .saturating_add(8),
        )
    }

    fn read_at(&mut self, at: u64, into: &mut [u8]) -> Result<usize, Failed> {
        if at < 8 {
            return Ok(copy_from(HEAD, at, into));
        }
        let place = at - 8;
        let size = self.whole.len() as u64;
        let number = place.checked_div(size).unwrap_or(0);
        if number < WHOLE {
            self.set_number(number);
            return Ok(copy_from(&self.whole, place.checked_rem(size).unwrap_or(0), into));
        }
        let offset = place.saturating_sub(size.saturating_mul(WHOLE));
        Ok(copy_from(&self.last, offset, into))
    }

    fn write_at(&mut self, _at: u64, _bytes: &[u8]) -> Result<(), Failed> {
        Ok(())
    }

    fn cut(&mut self, _to: u64) -> Result<(), Failed> {
        Ok(())
    }

    fn sync(&mut self) -> Result<(), Failed> {
        Ok(())
    }
}
