//! The texts of refusals, built without memory.
ghost use Rattle.std.specs.Prelude.{◌≡◌, ◌+◌, ◌≤◌, ◌++◌, codes, length, decimal};
ghost use Rattle.field_report.specs.Block.{key_text, spaced};
ghost use Rattle.peano_run.specs.Texts.{text_of};

use crate::answer::{Answer, LimitKind};
use arrayvec::ArrayVec;
use grid_file::{Place, place_text};
use itoa::Buffer;
use peano_keys::{CellKey, Dim};
use std::marker::Model;

/// A text of at most 128 bytes, in a fixed array.
#[derive(Drop)]
pub struct FixedText {
    bytes: ArrayVec<u8, 128>,
}

impl Model for FixedText {
    ghost use Rattle.std.specs.Prelude.{List, ℕ};

    ghost Value = { List ℕ };

    ghost view = { λ t. t.bytes.items };
}

impl FixedText {
    /// The bytes of the text.
    pub fn as_slice(&self) -> &[u8]
        ensures value { result.now ≡ self.now }
        ensures short { length result.now ≤ 128 }
    {
        self.bytes.as_slice()
    }

    // A text that is known.
    fn of(text: &str) -> FixedText
        requires { length text.now ≤ 128 }
        ensures { result ≡ text.now }
    {
        let mut fixed = FixedText {
            bytes: ArrayVec::new(),
        };
        fixed.push(text.as_bytes());
        fixed
    }

    // More bytes.
    fn push(&mut self, more: &[u8])
        requires { length self.old + length more.now ≤ 128 }
        ensures { self.new ≡ self.old ++ more.now }
    {
        self.bytes.try_extend_from_slice(more).unwrap();
    }

    // A number of up to 20 digits.
    fn push_number(&mut self, number: u64)
        requires { length self.old + 20 ≤ 128 }
        ensures value { self.new ≡ self.old ++ decimal number }
        ensures short { length self.new ≤ length self.old + 20 }
    {
        self.push(Buffer::new().format(number).as_bytes());
    }

    // A space and a number.
    fn push_spaced(&mut self, number: u64)
        requires { length self.old + 21 ≤ 128 }
        ensures value { self.new ≡ self.old ++ spaced number }
        ensures short { length self.new ≤ length self.old + 21 }
    {
        self.push(b" ");
        self.push_number(number);
    }

    // A cell, as the report prints it.
    fn push_key(&mut self, dim: Dim, key: &CellKey)
        requires { length self.old + 83 ≤ 128 }
        ensures value { self.new ≡ self.old ++ key_text dim key.now }
        ensures short { length self.new ≤ length self.old + 83 }
    {
        self.push_number(u64::from(key.level));
        self.push_spaced(u64::from(key.x[0]));
        self.push_spaced(u64::from(key.x[1]));
        if dim == Dim::Three {
            self.push_spaced(u64::from(key.x[2]));
        }
    }

    // The end of the line.
    fn ended(mut self) -> FixedText
        requires { length self + 1 ≤ 128 }
        ensures { result ≡ self ++ codes "\n" }
    {
        self.push(b"\n");
        self
    }
}

fn malformed(code: u8, place: &Place) -> FixedText
    ensures { result ≡ text_of Dim.Two (Answer.Malformed code place.now) }
{
    let mut text = FixedText::of("malformed ");
    text.push_number(u64::from(code));
    text.push(b" at ");
    text.push(place_text(place).as_slice());
    text.ended()
}

fn limit(which: LimitKind, number: u64) -> FixedText
    ensures { result ≡ text_of Dim.Two (Answer.Limit which number) }
{
    let mut text = FixedText::of("limit ");
    text.push(match which {
        LimitKind::Cells => b"cells ",
        LimitKind::Lines => b"lines ",
    });
    text.push_number(number);
    text.ended()
}

fn crowded(step: u32, cells: u64) -> FixedText
    ensures { result ≡ text_of Dim.Two (Answer.Crowded step cells) }
{
    let mut text = FixedText::of("crowded step ");
    text.push_number(u64::from(step));
    text.push(b" cells ");
    text.push_number(cells);
    text.ended()
}

fn overflow(dim: Dim, step: u32, key: &CellKey) -> FixedText
    ensures { result ≡ text_of dim (Answer.Overflow step key.now) }
{
    let mut text = FixedText::of("overflow step ");
    text.push_number(u64::from(step));
    text.push(b" at ");
    text.push_key(dim, key);
    text.ended()
}

fn write_fault(written: u64) -> FixedText
    ensures { result ≡ text_of Dim.Two (Answer.WriteFault written) }
{
    let mut text = FixedText::of("write fault after ");
    text.push_number(written);
    text.push(b" bytes");
    text.ended()
}

/// The text of an answer on the error stream: a line, or nothing where the run is done. `dim` tells how many
/// coordinates of a leaf are printed where a value overflowed.
pub fn refusal_text(dim: Dim, answer: &Answer) -> FixedText
    ensures { result ≡ text_of dim answer.now }
{
    match answer {
        Answer::Done => FixedText::of(""),
        Answer::Usage => FixedText::of(
            "usage: peano [--trees N] [--workers N] [--show fields|traffic|all] [--demo N]\n",
        ),
        Answer::ReadFault => FixedText::of("read fault\n"),
        Answer::TooLong => FixedText::of("input longer than 1048576 bytes\n"),
        Answer::Malformed { code, place } => malformed(*code, place),
        Answer::Limit { which, number } => limit(*which, *number),
        Answer::Crowded { step, cells } => crowded(*step, *cells),
        Answer::Overflow { step, key } => overflow(dim, *step, key),
        Answer::WriteFault { written } => write_fault(*written),
        Answer::NoMemory => FixedText::of("out of memory\n"),
    }
}
