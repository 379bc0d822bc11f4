//! Lists of whole records, as a yardstick.
use crate::vertex::{Kind, vertex};
use peano_records::Stored;
use std::alloc::{AllocError, Global};

/// An input, an output and one lane, each a `Vec`.
#[derive(Drop)]
pub struct Records {
    input: Vec<Stored>,
    output: Vec<Stored>,
    lane: Vec<Stored>,
}

impl Records {
    /// Lists with so many vertices in the input, and one on the lane.
    pub fn filled(alloc: Global, kind: Kind, count: u32) -> Result<Records, AllocError> {
        let mut records = Records {
            input: Vec::new(alloc),
            output: Vec::new(alloc),
            lane: Vec::new(alloc),
        };
        for k in 0..count {
            if let Some(v) = vertex(kind, k) {
                records.input.push(v).map_err(|_| AllocError)?;
            }
        }
        records.output.reserve(count as usize)?;
        if let Some(v) = vertex(kind, 0) {
            records.lane.push(v).map_err(|_| AllocError)?;
        }
        Ok(records)
    }

    /// Moves so many vertices of the input to the output, and then makes it the input; how many.
    pub fn stream(&mut self, count: u32) -> u64 {
        let mut moved: u64 = 0;
        for _ in 0..count {
            if let Some(v) = self.input.pop() {
                if self.output.push(v).is_ok() {
                    moved = moved.wrapping_add(1);
                }
            }
        }
        std::mem::swap(&mut self.input, &mut self.output);
        moved
    }

    /// Pops the last vertex of the lane and pushes it again, so many times; how many.
    pub fn shuttle(&mut self, count: u32) -> u64 {
        let mut moved: u64 = 0;
        for _ in 0..count {
            if let Some(v) = self.lane.pop() {
                if self.lane.push(v).is_ok() {
                    moved = moved.wrapping_add(1);
                }
            }
        }
        moved
    }
}
