//! The store of a tree: its cell stream, its vertices and the numbers that it keeps between sweeps.
ghost use Rattle.std.specs.Prelude.{◌≡◌, ◌↔◌, IsTrue, IsFalse, ◌*◌, ◌<◌, ◌≤◌, ◌+◌, ◌++◌, ◌∷◌, [], true, false, reverse, length, pos, ◌<ℤ◌, ◌≤ℤ◌, ◌+ℤ◌, IfSome, OnErr, OnOk, IsOk, IsSomeAnd, slice_get, slice_set};
ghost use Rattle.peano_keys.specs.Dim.{axes};
ghost use Rattle.peano_records.specs.Slots.{slot_at, with_slot};
ghost use Rattle.vertex_stacks.specs.Lists.{lane_at, held, IsDrained, nothing_moved, parcel_of};
ghost use Rattle.vertex_stacks.specs.Tales.{capped, with_note};
ghost use Rattle.peano_curve.specs.declared.order.Direction.TheVariants.{Forward, Backward};
ghost use Rattle.sweep_visits.specs.Runs.{turned_round};
ghost use Rattle.tree_automaton.specs.TreeLists.{spare_cells, page_count, room_in, IsRoomy};
ghost use Rattle.tree_automaton.specs.Sweep.{served_by};

use crate::decide::Course;
use crate::kinds::Serves;
use peano_curve::{Direction, Range};
use peano_keys::{Dim, VertexKey};
use peano_records::{CellRecord, Parcel, Slot, Stored};
use std::alloc::{AllocError, Global};
use std::marker::Model;
use vertex_stacks::{Kind, Lanes, SweepNote, Tale};

/// The records of a tree: cells to be read, the next one last, cells that were written, and the vertices.
#[derive(Drop)]
pub struct TreeStore {
    cells: Vec<CellRecord>,
    written: Vec<CellRecord>,
    lanes: Lanes,
    dim: Dim,
    depth: u32,
    range: Range,
    tree: u32,
    dir: Direction,
    live: bool,
    // How many vertices lie in the input at rest, and how many leaves of the tree's own the cell stream has then.
    stored: u64,
    leaves: u64,
    // How many such leaves this sweep wrote so far.
    counted: u64,
}

impl Model for TreeStore {
    ghost use Rattle.std.specs.Prelude.{◌≡◌, min, reverse, vec_capacity};
    ghost use Rattle.tree_automaton.specs.TreeLists.{TreeLists};

    ghost Value = { TreeLists };

    ghost view = { λ s. record {
      cells = reverse s.cells.items;
      written = s.written.items;
      lanes = s.lanes;
      depth = s.depth;
      range = s.range;
      tree = s.tree;
      dir = s.dir;
      live = s.live;
      cell_room = min (vec_capacity s.cells) (vec_capacity s.written);
      stored = s.stored;
      leaves = s.leaves;
      counted = s.counted;
    } };

    ghost invariant = { λ s. s.lanes.dim ≡ s.dim };
}

impl TreeStore {
    /// An empty store, forward. Takes no memory.
    pub fn new(alloc: Global, dim: Dim, depth: u32, range: Range, tree: u32) -> TreeStore
        requires { depth ≤ 12 }
        ensures { result ≡ record {
          cells = [];
          written = [];
          lanes = nothing_moved dim (pos 0);
          depth = depth;
          range = range;
          tree = tree;
          dir = Forward;
          live = true;
          cell_room = 0;
          stored = 0;
          leaves = 0;
          counted = 0;
        } }
    {
        TreeStore {
            cells: Vec::new(alloc),
            written: Vec::new(alloc),
            lanes: Lanes::new(alloc, dim),
            dim,
            depth,
            range,
            tree,
            dir: Direction::Forward,
            live: true,
            stored: 0,
            leaves: 0,
            counted: 0,
        }
    }

    /// The dimension of the grid.
    pub fn dim(&self) -> Dim
        ensures { result ≡ self.now.lanes.dim }
    {
        self.dim
    }

    /// The greatest level that a cell may have.
    pub fn depth(&self) -> u32
        ensures { result ≡ self.now.depth }
    {
        self.depth
    }

    /// The positions along the curve that the tree has.
    pub fn range(&self) -> Range
        ensures { result ≡ self.now.range }
    {
        self.range
    }

    /// The number of the tree.
    pub fn tree(&self) -> u32
        ensures { result ≡ self.now.tree }
    {
        self.tree
    }

    /// Which way the next sweep goes.
    pub fn direction(&self) -> Direction
        ensures { result ≡ self.now.dir }
    {
        self.dir
    }

    /// Whether the store is at rest, with no refused sweep behind it.
    pub fn is_live(&self) -> bool
        ensures { result ≡ self.now.live }
    {
        self.live
    }

    /// The tale of the notes of all its sweeps.
    pub fn tale(&self) -> Tale
        ensures { result ≡ self.now.lanes.tale }
    {
        self.lanes.tale()
    }

    /// How many cells the tree holds: the records that the next sweep reads.
    pub fn cell_count(&self) -> u64
        ensures { result ≡ length self.now.cells }
    {
        self.cells.len() as u64
    }

    /// How many vertices the tree has at rest.
    pub fn stored_count(&self) -> u64
        ensures { result ≡ self.now.stored }
    {
        self.stored
    }

    /// How many leaves the tree has whose centre lies in its own range.
    pub fn owned_leaves(&self) -> u64
        ensures { result ≡ self.now.leaves }
    {
        self.leaves
    }

    /// Whether a sweep that changes no grid takes no memory: there is room for all vertices and cells that the tree has.
    pub fn is_roomy(&self) -> bool
        ensures { IsTrue result ↔ IsRoomy self.now }
    {
        if self.stored >= u64::MAX {
            return false;
        }
        if self.lanes.room() < self.stored {
            return false;
        }
        self.cells.len() <= self.written.capacity()
    }

    /// How many vertices lie in the input.
    pub fn input_count(&self) -> u64
        ensures { result ≡ length self.now.lanes.input }
    {
        self.lanes.input_count()
    }

    /// The key of the vertex at a place of the input, in the order in which they will be taken. Takes no memory.
    pub fn key_at(&self, k: u64) -> VertexKey
        requires live { self.now.live ≡ true }
        requires place { k < length self.now.lanes.input }
        ensures { IsSomeAnd (slice_get self.now.lanes.input k) (λ v. result ≡ v.key) }
    {
        self.lanes.key_at(k)
    }

    /// One slot of the vertex at a place of the input, in the order in which they will be taken. Takes no memory.
    pub fn slot_at(&self, k: u64, n: u32) -> Slot
        requires live { self.now.live ≡ true }
        requires place { k < length self.now.lanes.input }
        requires slot { n < 8 }
        ensures slot { IsSomeAnd (slice_get self.now.lanes.input k) (λ v. result ≡ slot_at v n) }
        ensures eight { IsSomeAnd (slice_get self.now.lanes.input k) (λ v. length v.slots ≡ 8) }
    {
        self.lanes.slot_at(k, n)
    }

    /// The vertex at a place of the input, in the order in which they will be taken, as plain data. Takes no memory.
    pub fn parcel_at(&self, k: u64) -> Parcel
        requires live { self.now.live ≡ true }
        requires place { k < length self.now.lanes.input }
        ensures vertex { IsSomeAnd (slice_get self.now.lanes.input k) (λ v. result ≡ parcel_of v) }
        ensures eight { length result.slots ≡ 8 }
    {
        self.lanes.parcel_at(k)
    }

    /// Changes one slot of the vertex at a place of the input, in the order in which they will be taken. Takes no memory.
    pub fn set_slot(&mut self, k: u64, n: u32, slot: Slot)
        requires live { self.old.live ≡ true }
        requires place { k < length self.old.lanes.input }
        requires slot { n < 8 }
        ensures slot { IsSomeAnd (slice_get self.old.lanes.input k)
            (λ v. self.new
            ≡ record self.old {
              lanes = record self.old.lanes {
                input = slice_set
                    self.old.lanes.input k
                    (with_slot v n slot);
              };
            }) }
        ensures eight { IsSomeAnd (slice_get self.old.lanes.input k) (λ v. length v.slots ≡ 8) }
    {
        self.lanes.set_slot(k, n, slot);
    }

    // What a sweep of a kind is over.
    pub(crate) fn course(&self, kind: Kind) -> Course
        ensures { result ≡ record {
          dim = self.now.lanes.dim;
          depth = self.now.depth;
          range = self.now.range;
          dir = self.now.dir;
          serves = served_by kind;
        } }
    {
        Course {
            dim: self.dim,
            depth: self.depth,
            range: self.range,
            dir: self.dir,
            serves: Serves::of(kind),
        }
    }

    // The next cell's record; a store in mid-sweep is not live.
    pub(crate) fn read(&mut self) -> Option<CellRecord>
        ensures none { result ≡ None
            → (self.old.cells ≡ []) × (self.new ≡ record self.old { live = false }) }
        ensures first { IfSome result (λ r. self.old.cells ≡ r ∷ self.new.cells) }
        ensures others { IfSome result
            (λ _. self.new ≡ record self.old { cells = self.new.cells; live = false }) }
    {
        self.live = false;
        let cell = self.cells.pop()?;
        Some(cell)
    }

    // A sweep has begun.
    pub(crate) fn stop(&mut self)
        ensures { self.new ≡ record self.old { live = false } }
    {
        self.live = false;
    }

    // Adds a cell's record.
    pub(crate) fn write(&mut self, cell: CellRecord) -> Result<(), AllocError>
        ensures ok { OnOk result
            (self.new
            ≡ record self.old {
              written = self.old.written ++ cell ∷ [];
              cell_room = self.new.cell_room;
            }) }
        ensures err { OnErr result (self.new ≡ record self.old { cell_room = self.new.cell_room }) }
        ensures room { self.old.cell_room ≤ self.new.cell_room }
        ensures memory { 0 < spare_cells self.old → IsOk result }
    {
        self.written.push(cell)?;
        Ok(())
    }

    // One more leaf of the tree's own was written.
    pub(crate) fn count_leaf(&mut self)
        ensures { self.new ≡ record self.old { counted = capped (self.old.counted + 1) } }
    {
        self.counted = self.counted.saturating_add(1);
    }

    // Takes the next vertex of the input into a place, over what lies there; false where the input is empty.
    pub(crate) fn take_input_into(&mut self, v: &mut Stored) -> bool
        ensures none { IsFalse result → (self.old.lanes.input ≡ []) × (self.new ≡ self.old) }
        ensures first { IsTrue result → self.old.lanes.input ≡ v.new ∷ self.new.lanes.input }
        ensures others { IsTrue result → self.new ≡ record self.old {
          lanes = record self.old.lanes {
            input = self.new.lanes.input;
            spare = self.new.lanes.spare;
            taken = capped (self.old.lanes.taken + 1);
          };
        } }
        ensures spare { IsTrue result → (self.old.lanes.spare +ℤ pos 1) ≤ℤ self.new.lanes.spare }
        ensures pages { page_count self.new.lanes ≡ page_count self.old.lanes }
    {
        self.lanes.take_input_into(v)
    }

    // Takes the last vertex of a lane into a place, over what lies there; false where the lane is empty.
    pub(crate) fn pop_into(&mut self, lane: u32, v: &mut Stored) -> bool
        requires { lane < 2 * axes self.old.lanes.dim }
        ensures none { IsFalse result → (lane_at self.old.lanes lane ≡ []) × (self.new ≡ self.old) }
        ensures last { IsTrue result
            → lane_at self.old.lanes lane ≡ lane_at self.new.lanes lane ++ v.new ∷ [] }
        ensures others { IsTrue result → self.new ≡ record self.old {
          lanes = record self.old.lanes {
            lanes = slice_set self.old.lanes.lanes lane (lane_at self.new.lanes lane);
            spare = self.new.lanes.spare;
          };
        } }
        ensures spare { IsTrue result → (self.old.lanes.spare +ℤ pos 1) ≤ℤ self.new.lanes.spare }
        ensures pages { page_count self.new.lanes ≡ page_count self.old.lanes }
    {
        self.lanes.pop_into(lane, v)
    }

    // Puts the vertex of a place behind the output.
    pub(crate) fn put_output_from(&mut self, v: &mut Stored) -> Result<(), AllocError>
        ensures left { v.new ≡ v.old }
        ensures ok { OnOk result (self.new ≡ record self.old {
          lanes = record self.old.lanes {
            output = self.old.lanes.output ++ v.old ∷ [];
            spare = self.new.lanes.spare;
            put = capped (self.old.lanes.put + 1);
          };
        }) }
        ensures spare { OnOk result (self.old.lanes.spare ≤ℤ (self.new.lanes.spare +ℤ pos 1)) }
        ensures err { OnErr result (self.new ≡ self.old) }
        ensures room { pos 0 <ℤ self.old.lanes.spare → IsOk result }
        ensures pages { page_count self.old.lanes ≤ page_count self.new.lanes }
    {
        self.lanes.put_output_from(v)
    }

    // Puts the vertex of a place on top of a lane.
    pub(crate) fn push_from(&mut self, lane: u32, v: &mut Stored) -> Result<(), AllocError>
        requires { lane < 2 * axes self.old.lanes.dim }
        ensures left { v.new ≡ v.old }
        ensures ok { OnOk result (self.new ≡ record self.old {
          lanes = record self.old.lanes {
            lanes = slice_set self.old.lanes.lanes lane (lane_at self.old.lanes lane ++ v.old ∷ []);
            spare = self.new.lanes.spare;
            pushed = capped (self.old.lanes.pushed + 1);
          };
        }) }
        ensures spare { OnOk result (self.old.lanes.spare ≤ℤ (self.new.lanes.spare +ℤ pos 1)) }
        ensures err { OnErr result (self.new ≡ self.old) }
        ensures room { pos 0 <ℤ self.old.lanes.spare → IsOk result }
        ensures pages { page_count self.old.lanes ≤ page_count self.new.lanes }
    {
        self.lanes.push_from(lane, v)
    }

    // Makes room for a sweep that moves no more than lies here: every vertex and every cell record may go from list to list.
    pub(crate) fn reserve(&mut self) -> Result<(), AllocError>
        ensures lists { self.new
            ≡ record self.old {
              lanes = record self.old.lanes { spare = self.new.lanes.spare };
              cell_room = self.new.cell_room;
            } }
        ensures vertices { OnOk result (pos 0 ≤ℤ self.new.lanes.spare) }
        ensures cells { OnOk result (length self.old.cells ≤ self.new.cell_room) }
        ensures room { OnOk result (held self.old.lanes ≤ self.old.stored
            → self.old.stored ≤ room_in self.old.lanes.dim (page_count self.new.lanes)) }
        ensures memory { IsRoomy self.old → held self.old.lanes ≤ self.old.stored
            → self.old.written ≡ [] → IsOk result }
    {
        self.lanes.reserve_live(self.stored)?;
        self.lanes.reserve(0)?;
        self.written.reserve(self.cells.len())
    }

    // Ends a sweep: the written cells and the output are read next, from their ends, the other way.
    pub(crate) fn turn(&mut self, step: u32, kind: Kind) -> SweepNote
        requires drained { IsDrained self.old.lanes }
        requires read { self.old.cells ≡ [] }
        ensures note { result ≡ record {
          step = step;
          kind = kind;
          tree = self.old.tree;
          taken = self.old.lanes.taken;
          put = self.old.lanes.put;
          pushed = self.old.lanes.pushed;
        } }
        ensures lists { self.new ≡ record self.old {
          cells = reverse self.old.written;
          written = [];
          lanes = record self.old.lanes {
            input = reverse self.old.lanes.output;
            output = [];
            spare = self.new.lanes.spare;
            taken = 0;
            put = 0;
            pushed = 0;
            tale = with_note self.old.lanes.tale result;
          };
          dir = turned_round self.old.dir;
          live = true;
          cell_room = self.new.cell_room;
          stored = self.old.lanes.put;
          leaves = self.old.counted;
          counted = 0;
        } }
        ensures room { self.new.cell_room ≡ self.old.cell_room }
        ensures pages { page_count self.new.lanes ≡ page_count self.old.lanes }
    {
        let note = self.lanes.turn(step, kind, self.tree);
        std::mem::swap(&mut self.cells, &mut self.written);
        self.dir = match self.dir {
            Direction::Forward => Direction::Backward,
            Direction::Backward => Direction::Forward,
        };
        self.stored = note.put();
        self.leaves = self.counted;
        self.counted = 0;
        self.live = true;
        note
    }
}
