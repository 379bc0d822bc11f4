//! What a tree sends: for each tree the records of vertices that both have.
ghost use Rattle.std.specs.Prelude.{◌≡◌};
ghost use Rattle.boundary_streams.specs.Sent.{parcels_for};

use peano_records::Parcel;
use std::marker::Model;

/// The parcels that a tree sends to each tree. Contracts see the number of the sender and a list of parcels for each
/// receiver.
#[derive(Drop)]
pub struct Outbox {
    pub(crate) sender: u32,
    pub(crate) parcels: Vec<Vec<Parcel>>,
}

impl Model for Outbox {
    ghost use Rattle.std.specs.Prelude.{map};
    ghost use Rattle.boundary_streams.specs.Sent.{Outgoing};
    ghost use Rattle.boundary_streams.specs.Sendings.{items_of};

    ghost Value = { Outgoing };

    ghost view = { λ o. record { sender = o.sender; parcels = map items_of o.parcels.items } };
}

impl Outbox {
    /// The number of the tree that sends.
    pub fn sender(&self) -> u32
        ensures { result ≡ self.now.sender }
    {
        self.sender
    }

    /// What is sent to a tree; nothing to one that has no list.
    pub fn parcels_for(&self, tree: u32) -> &[Parcel]
        ensures { result.now ≡ parcels_for self.now tree }
    {
        match self.parcels.get(tree as usize) {
            Some(list) => list.as_slice(),
            None => &[],
        }
    }
}
