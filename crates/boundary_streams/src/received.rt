//! What a tree got from the others, by sender and vertex.
ghost use Rattle.std.specs.Prelude.{◌≡◌, IfOk, OnOk};
ghost use Rattle.indexmap.specs.IndexSet.{contains};
ghost use Rattle.boundary_streams.specs.Mails.{is_vertex_key, HasOneMore, HasNoted, HasReceived, Covers, mail_of};

use crate::outbox::Outbox;
use indexmap::{IndexMap, IndexSet};
use peano_keys::VertexKey;
use peano_records::Parcel;
use std::alloc::{AllocError, Global};

/// A sender and a vertex.
#[derive(Clone, Copy, Debug, PartialEq, Eq, Hash)]
pub struct Address {
    pub sender: u32,
    pub vertex: VertexKey,
}

/// The parcels that a tree got, and of which vertices.
#[derive(Drop)]
pub struct Received {
    pub parcels: IndexMap<Address, Parcel>,
    pub vertices: IndexSet<VertexKey>,
}

// Adds a parcel; of two from one sender of one vertex the last counts.
fn note_one(received: &mut Received, sender: u32, parcel: &Parcel) -> Result<(), AllocError>
    requires { Covers received.old }
    ensures more { OnOk result (HasOneMore sender parcel.now received.old received.new) }
    ensures covers { OnOk result (Covers received.new) }
{
    let address = Address {
        sender,
        vertex: parcel.key,
    };
    received.vertices.insert(parcel.key)?;
    received.parcels.insert(address, *parcel)?;
    Ok(())
}

// Adds the parcels of a sender.
fn note(received: &mut Received, sender: u32, list: &[Parcel]) -> Result<(), AllocError>
    requires { Covers received.old }
    ensures noted { OnOk result (HasNoted sender list.now received.old received.new) }
    ensures covers { OnOk result (Covers received.new) }
{
    for parcel in list {
        note_one(received, sender, parcel)?;
    }
    Ok(())
}

// What a tree got in all boxes.
pub(crate) fn receive(alloc: Global, boxes: &[Outbox], tree: u32) -> Result<Received, AllocError>
    ensures received { IfOk result (λ received. HasReceived tree boxes.now received) }
    ensures covers { IfOk result (λ received. Covers received) }
{
    let mut received = Received {
        parcels: IndexMap::new(alloc),
        vertices: IndexSet::new(alloc),
    };
    for outbox in boxes {
        note(&mut received, outbox.sender(), outbox.parcels_for(tree))?;
    }
    Ok(received)
}

// Whether some tree sent a vertex.
pub(crate) fn is_touched(received: &Received, vertex: VertexKey) -> bool
    ensures { result ≡ contains is_vertex_key received.now.vertices vertex }
{
    received.vertices.contains(&vertex)
}

// The parcel of a vertex from a sender.
pub(crate) fn parcel_from(received: &Received, sender: u32, vertex: VertexKey) -> Option<Parcel>
    ensures { result ≡ mail_of received.now sender vertex }
{
    received.parcels.get(&Address { sender, vertex }).copied()
}
