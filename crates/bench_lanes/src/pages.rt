//! The lanes of a sweep, in pages.
ghost use Rattle.std.specs.Prelude.{◌≡◌, IfOk, IsTrue};
ghost use Rattle.peano_keys.specs.declared.dim.Dim.TheVariants.{Two};

use crate::vertex::{Kind, vertex};
use peano_keys::Dim;
use peano_records::Stored;
use std::alloc::{AllocError, Global};
use vertex_stacks::{Kind as Sweep, Lanes};

/// Lanes with so many vertices in the input.
pub fn filled(alloc: Global, kind: Kind, count: u32) -> Result<Lanes, AllocError> {
    let mut lanes = Lanes::new(alloc, kind.dim);
    lanes.reserve_live(count as u64)?;
    for k in 0..count {
        if let Some(v) = vertex(kind, k) {
            lanes.put_output(v).map_err(|_| AllocError)?;
        }
    }
    turn(&mut lanes);
    Ok(lanes)
}

// Makes the output the input, where the input is empty.
fn turn(lanes: &mut Lanes) {
    if lanes.is_drained() {
        let _note = lanes.turn(0, Sweep::Show, 0);
    }
}

/// Moves so many vertices of the input to the output through a place, and turns; how many.
pub fn stream(lanes: &mut Lanes, place: &mut Stored, count: u32) -> u64 {
    let mut moved: u64 = 0;
    for _ in 0..count {
        if lanes.take_input_into(place) && lanes.put_output_from(place).is_ok() {
            moved = moved.wrapping_add(1);
        }
    }
    turn(lanes);
    moved
}

/// The same by value.
pub fn stream_by_value(lanes: &mut Lanes, count: u32) -> u64 {
    let mut moved: u64 = 0;
    for _ in 0..count {
        if let Some(v) = lanes.take_input() {
            if lanes.put_output(v).is_ok() {
                moved = moved.wrapping_add(1);
            }
        }
    }
    turn(lanes);
    moved
}

/// Lanes of the plane with so many vertices on lane 0.
pub fn started(alloc: Global, count: u32) -> Result<Lanes, AllocError>
    ensures { IfOk result (λ lanes. lanes.dim ≡ Two) }
{
    let kind = Kind {
        dim: Dim::Two,
        wide: false,
    };
    let mut lanes = Lanes::new(alloc, Dim::Two);
    for k in 0..count {
        if let Some(v) = vertex(kind, k) {
            if lanes.push(0, v).is_err() {
                return Err(AllocError);
            }
        }
    }
    Ok(lanes)
}

// Pops the last vertex of lane 0 into a place and pushes it from there.
fn shuttle_once(lanes: &mut Lanes, place: &mut Stored) -> bool
    requires { lanes.old.dim ≡ Two }
    ensures { lanes.new.dim ≡ Two }
{
    if !lanes.pop_into(0, place) {
        return false;
    }
    lanes.push_from(0, place).is_ok()
}

/// Pops the last vertex of lane 0 into a place and pushes it from there, so many times; how many.
pub fn shuttle(lanes: &mut Lanes, place: &mut Stored, count: u32) -> u64
    requires { lanes.old.dim ≡ Two }
    ensures { lanes.new.dim ≡ Two }
{
    let mut moved: u64 = 0;
    for i in 0..count {
        if shuttle_once(lanes, place) {
            moved = moved.wrapping_add(1);
        }
    }
    moved
}
