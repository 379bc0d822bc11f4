//! The traffic block of a printed step.
ghost use Rattle.std.specs.Prelude.{◌≡◌, ◌++◌, IfOk, OnOk, string_bytes};
ghost use Rattle.field_report.specs.Traffic.{held_text, moved_text, shared_text, tree_line, traffic_head, traffic_block};

use std::alloc::{AllocError, Global};

/// What a tree holds of a grid, and what a sweep of it moves. `pushes` is what goes over its stacks, `hanging` counts each
/// hanging corner of each cell, and `sent` each vertex for each other tree that has it too.
#[derive(Clone, Copy, Debug, PartialEq, Eq)]
pub struct Traffic {
    pub tree: u32,
    pub cells: u64,
    pub stored: u64,
    pub pushes: u64,
    pub hanging: u64,
    pub enclave: u64,
    pub skeleton: u64,
    pub sent: u64,
}

// Appends what a tree holds.
fn push_held(text: &mut String, traffic: &Traffic) -> Result<(), AllocError>
    ensures { OnOk result (string_bytes text.new ≡ string_bytes text.old ++ held_text traffic.now) }
{
    let Traffic {
        tree,
        cells,
        stored,
        ..
    } = *traffic;
    write!(text, "tree {tree} cells {cells} stored {stored}")
}

// Appends what a sweep of it moves, and what hangs.
fn push_moved(text: &mut String, traffic: &Traffic) -> Result<(), AllocError>
    ensures { OnOk result
        (string_bytes text.new ≡ string_bytes text.old ++ moved_text traffic.now) }
{
    let Traffic {
        pushes,
        hanging,
        ..
    } = *traffic;
    write!(text, " pushes {pushes} hanging {hanging}")
}

// Appends its leaves of both kinds, and what it sends.
fn push_shared(text: &mut String, traffic: &Traffic) -> Result<(), AllocError>
    ensures { OnOk result
        (string_bytes text.new ≡ string_bytes text.old ++ shared_text traffic.now) }
{
    let Traffic {
        enclave,
        skeleton,
        sent,
        ..
    } = *traffic;
    writeln!(text, " enclave {enclave} skeleton {skeleton} sent {sent}")
}

// Appends the line of a tree.
fn push_tree(text: &mut String, traffic: &Traffic) -> Result<(), AllocError>
    ensures { OnOk result (string_bytes text.new ≡ string_bytes text.old ++ tree_line traffic.now) }
{
    push_held(text, traffic)?;
    push_moved(text, traffic)?;
    push_shared(text, traffic)
}

// Appends the head line.
fn push_head(text: &mut String, step: u32, trees: usize) -> Result<(), AllocError>
    ensures { OnOk result
        (string_bytes text.new ≡ string_bytes text.old ++ traffic_head step trees) }
{
    writeln!(text, "traffic {step} trees {trees}")
}

/// The traffic block of a step: a head line, then a line for each tree, in order.
pub fn traffic_text(alloc: Global, step: u32, list: &[Traffic]) -> Result<Vec<u8>, AllocError>
    ensures { IfOk result (λ text. text.items ≡ traffic_block step list.now) }
{
    let mut text = String::new(alloc);
    push_head(&mut text, step, list.len())?;
    for traffic in list {
        push_tree(&mut text, traffic)?;
    }
    Ok(text.into_bytes())
}
