//! What peers have not taken yet of their answers.
use crate::unsent::Unsent;
use std::alloc::Global;

/// Answers, or the bodies of answers, each with how many connections use it. Equal ones are kept once.
#[derive(Drop)]
pub struct KeptAnswers {
    list: Vec<KeptAnswer>,
    next_number: u64,
}

#[derive(Drop)]
struct KeptAnswer {
    number: u64,
    users: usize,
    bytes: Unsent,
}

impl KeptAnswers {
    pub fn new(alloc: Global) -> KeptAnswers {
        KeptAnswers {
            list: Vec::new(alloc),
            next_number: 0,
        }
    }

    /// How many bytes are kept.
    pub fn total(&self) -> usize {
        let mut sum = 0usize;
        for kept in &self.list {
            sum = sum.saturating_add(kept.bytes.len());
        }
        sum
    }

    /// Keeps the bytes for one more connection, and gives the number under which they are found; none out of memory.
    pub fn keep(&mut self, bytes: Unsent) -> Option<u64> {
        if let Some(number) = share(&mut self.list, &bytes) {
            return Some(number);
        }
        let number = self.next_number;
        let kept = KeptAnswer {
            number,
            users: 1,
            bytes,
        };
        if self.list.push(kept).is_err() {
            return None;
        }
        self.next_number = self.next_number.wrapping_add(1);
        Some(number)
    }

    /// The bytes of that number; empty where there is none.
    pub fn bytes_of(&self, number: Option<u64>) -> &[u8] {
        for kept in &self.list {
            if Some(kept.number) == number {
                return kept.bytes.as_slice();
            }
        }
        &[]
    }

    /// One connection fewer uses them. Where no other does, they are freed.
    pub fn release(&mut self, number: u64) {
        let mut at = 0;
        for _ in 0..self.list.len() {
            let Some(kept) = self.list.get_mut(at) else {
                return;
            };
            if kept.number == number {
                kept.users = kept.users.saturating_sub(1);
                if kept.users == 0 {
                    drop(self.list.swap_remove(at));
                }
                return;
            }
            at += 1;
        }
    }
}

// Counts one more user of the answer with these bytes.
fn share(list: &mut [KeptAnswer], bytes: &Unsent) -> Option<u64> {
    for kept in list {
        if kept.bytes.is_same(bytes) {
            kept.users = kept.users.saturating_add(1);
            return Some(kept.number);
        }
    }
    None
}
