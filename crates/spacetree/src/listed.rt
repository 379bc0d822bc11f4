//! A list in a type that clauses compare.
ghost use Rattle.std.specs.Prelude.{◌≡◌};

use std::marker::Model;

/// A list that clauses see by its items alone.
#[derive(Drop)]
pub struct Listed<T> {
    items: Vec<T>,
}

impl<T> Model for Listed<T> {
    ghost use Rattle.std.specs.Prelude.{List};

    ghost Value = { List T };

    ghost view = { λ l. l.items.items };
}

impl<T> Listed<T> {
    /// The list of a vector, with no memory taken.
    pub fn new(items: Vec<T>) -> Listed<T>
        ensures { result ≡ items.items }
    {
        Listed { items }
    }

    /// The items, in order.
    pub fn as_slice(&self) -> &[T]
        ensures { result.now ≡ self.now }
    {
        self.items.as_slice()
    }

    /// The vector back, with no memory taken.
    pub fn into_vec(self) -> Vec<T>
        ensures { result.items ≡ self }
    {
        self.items
    }
}
