//! The text of a place, in a fixed array.
ghost use Rattle.std.specs.Prelude.{◌≡◌, ◌+◌, ◌≤◌, ◌++◌, ◌∷◌, [], length};
ghost use Rattle.grid_file.specs.Places.{place_text, numbered, with_key, bare_key};

use crate::place::{KeyName, Part, Place, part_name, spelled};
use itoa::Buffer;
use std::marker::Model;

/// The text of a place: up to 40 bytes, which clauses see as a list.
#[derive(Drop)]
pub struct PlaceText {
    bytes: [u8; 40],
    count: usize,
}

impl Model for PlaceText {
    ghost use Rattle.std.specs.Prelude.{◌≤◌, ℕ, List, take};

    ghost Value = { List ℕ };

    ghost view = { λ t. take t.count t.bytes };

    ghost invariant = { λ t. t.count ≤ 40 };
}

impl PlaceText {
    // No text yet.
    fn empty() -> PlaceText
        ensures { result ≡ [] }
    {
        PlaceText {
            bytes: [0; 40],
            count: 0,
        }
    }

    // One byte more.
    fn push(&mut self, byte: u8)
        requires { length self.old + 1 ≤ 40 }
        ensures { self.new ≡ self.old ++ byte ∷ [] }
    {
        self.bytes[self.count] = byte;
        self.count += 1;
    }

    // A word alone.
    fn word(word: &str) -> PlaceText
        requires { length word.now ≤ 40 }
        ensures { result ≡ word.now }
    {
        let mut text = PlaceText::empty();
        text.push_word(word);
        text
    }

    // A number behind a word.
    fn numbered(word: &str, index: u32) -> PlaceText
        requires { length word.now ≤ 9 }
        ensures value { result ≡ numbered word.now index }
        ensures short { length result ≤ 20 }
    {
        let mut buffer = Buffer::new();
        let mut text = PlaceText::word(word);
        text.push_word(" ");
        text.push_word(buffer.format(index));
        text
    }

    // A key behind the name of its part.
    fn with_key(mut self, key: KeyName) -> PlaceText
        requires { length self ≤ 20 }
        ensures { result ≡ with_key self key }
    {
        if key != KeyName::Whole {
            self.push_word(" ");
            self.push_word(spelled(key));
        }
        self
    }

    // A word more.
    fn push_word(&mut self, word: &str)
        requires { length self.old + length word.now ≤ 40 }
        ensures { self.new ≡ self.old ++ word.now }
    {
        for byte in word.as_bytes() {
            self.push(*byte);
        }
    }

    /// The bytes of the text.
    pub fn as_slice(&self) -> &[u8]
        ensures { result.now ≡ self.now }
    {
        &self.bytes[..self.count]
    }
}

// A key of the document, which stands alone.
fn bare_key(key: KeyName) -> &'static str
    ensures value { result.now ≡ bare_key key }
    ensures short { length result.now ≤ 11 }
{
    match key {
        KeyName::Whole => part_name(Part::Document),
        _ => spelled(key),
    }
}

/// The text of a place: `document`, or a key of the document; `criterion` or `criterion hi`; `fill` for the list of fills,
/// `fill 2` for its third table, `fill 2 value` for a key of that; `refine` alike.
pub fn place_text(place: &Place) -> PlaceText
    ensures { result ≡ place_text place.now }
{
    let name = part_name(place.part);
    match place.part {
        Part::Document => PlaceText::word(bare_key(place.key)),
        Part::Criterion => PlaceText::word(name).with_key(place.key),
        Part::FillList => PlaceText::word(name),
        Part::Fill => PlaceText::numbered(name, place.index).with_key(place.key),
        Part::RefineList => PlaceText::word(name),
        Part::Refine => PlaceText::numbered(name, place.index).with_key(place.key),
    }
}
