//! Which requests are like those whose answers were large.
use std::alloc::Global;

/// The least bytes of a large answer.
pub const LEAST_LARGE: u64 = 1_048_576;

/// The most bytes of a request that is put off.
pub const LONGEST_PUT_OFF: usize = 8192;

// The most request lines that are kept.
const MOST_LINES: usize = 16;

/// When a request is given out.
#[derive(Clone, Copy, Debug, PartialEq, Eq)]
pub enum Rank {
    /// Before those that are put off.
    First,

    /// It is put off: its line is that of one whose answer was large, as far as the first parenthesis, behind which names stand.
    Later,

    /// It is put off for those too: its line is that of one whose answer was large.
    Last,
}

/// The request lines (RFC 9112, 3) to which the last answer was large, the newest of them.
#[derive(Drop)]
pub struct LargeAnswers {
    lines: Vec<Vec<u8>>,
}

impl LargeAnswers {
    pub fn new(alloc: Global) -> LargeAnswers {
        LargeAnswers {
            lines: Vec::new(alloc),
        }
    }

    /// The rank of a request.
    pub fn rank_of(&self, request: &[u8]) -> Rank {
        if self.lines.is_empty() || request.len() > LONGEST_PUT_OFF {
            return Rank::First;
        }
        let line = line_of(request);
        let mut rank = Rank::First;
        for large in &self.lines {
            if large.as_slice() == line {
                return Rank::Last;
            }
            if kind_of(large) == kind_of(line) {
                rank = Rank::Later;
            }
        }
        rank
    }

    /// Notes of how many bytes the answer to the request was, and answers whether ranks may have changed. A line whose answer
    /// failed stays what it was, unless that was large before it failed.
    pub fn note(&mut self, request: &[u8], written: u64, failed: bool) -> bool {
        let is_large = written >= LEAST_LARGE;
        if (self.lines.is_empty() && !is_large) || request.len() > LONGEST_PUT_OFF {
            return false;
        }
        let line = line_of(request);
        match index_of(&self.lines, line) {
            None if is_large => self.add(line),
            Some(at) if at < self.lines.len() && !is_large && !failed => {
                drop(self.lines.remove(at));
                true
            }
            _ => false,
        }
    }

    fn add(&mut self, line: &[u8]) -> bool {
        if self.lines.len() >= MOST_LINES {
            drop(self.lines.remove(0));
        }
        match line.to_vec(*self.lines.allocator()) {
            Ok(line) => self.lines.push(line).is_ok(),
            Err(_) => false,
        }
    }
}

fn index_of(lines: &[Vec<u8>], line: &[u8]) -> Option<usize> {
    lines.iter().position(|kept| kept.as_slice() == line)
}

// The bytes before the first line end.
fn line_of(request: &[u8]) -> &[u8] {
    match request
        .iter()
        .position(|byte| matches!(byte, b'\r' | b'\n'))
    {
        Some(at) if at <= request.len() => &request[..at],
        _ => request,
    }
}

// The bytes before the first parenthesis.
fn kind_of(line: &[u8]) -> &[u8] {
    match line.iter().position(|byte| *byte == b'(') {
        Some(at) if at <= line.len() => &line[..at],
        _ => line,
    }
}
