//! A record as it lies in memory, in three columns: what every vertex uses, what only space uses, and what only states
//! of more than one value use. A record is moved at each visit of its vertex, and then only the columns that it uses.
ghost use Rattle.std.specs.Prelude.{◌≡◌, ◌+◌, ◌<◌, List, Bool, true, false, length, slice_set};
ghost use Rattle.peano_records.specs.declared.columns.Rests.{Rests};
ghost use Rattle.peano_records.specs.declared.columns.FourSlots.{FourSlots};
ghost use Rattle.peano_records.specs.declared.columns.More.{More};
ghost use Rattle.peano_records.specs.declared.columns.Count.TheVariants.{One};
ghost use Rattle.peano_records.specs.Columns.{state_of, counted, state_in, slot_by, IsNarrow, one_of, four_of, record_of, no_slots, nowhere};
ghost use Rattle.peano_records.specs.Slots.{slot_at, with_slot};
ghost use Rattle.peano_records.specs.Tells.{slot_tells};

use crate::slot::{Intent, Slot, Status};
use crate::stored::Parcel;
use peano_keys::{Mark, State, VertexKey};

/// How many numbers of a state count.
#[derive(Clone, Copy)]
pub enum Count {
    One,
    Two,
    Three,
    Four,
}

/// What a slot has besides its states, and how many numbers of these count.
#[derive(Clone, Copy)]
pub struct SmallParts {
    pub status: Status,
    pub mark: Mark,
    pub intent: Intent,
    pub value_count: Count,
    pub next_count: Count,
}

/// The numbers of a state after the first.
#[derive(Clone, Copy)]
pub struct Rest {
    pub second: i64,
    pub third: i64,
    pub fourth: i64,
}

/// The first numbers of the two states of a slot.
#[derive(Clone, Copy)]
pub struct Firsts {
    pub value: i64,
    pub next: i64,
}

/// The rest of the two states of a slot.
#[derive(Clone, Copy)]
pub struct Rests {
    pub value: Rest,
    pub next: Rest,
}

/// Four slots, but for the rest of their states.
#[derive(Clone, Copy)]
pub struct FourSlots {
    pub firsts: [Firsts; 4],
    pub parts: [SmallParts; 4],
}

/// What every vertex uses: its key and slots 0 to 3, and whether it uses the two other columns.
#[derive(Clone, Copy)]
pub struct Near {
    pub key: VertexKey,
    pub slots: FourSlots,
    pub has_far: bool,
    pub has_more: bool,
}

/// The rest of the states, which counts only where a state has more than one value.
#[derive(Clone, Copy)]
pub struct More {
    pub near: [Rests; 4],
    pub far: [Rests; 4],
}

/// A state as its numbers and how many of them count.
#[derive(Clone, Copy)]
pub struct Numbers {
    pub count: Count,
    pub first: i64,
    pub rest: Rest,
}

/// A slot in the pieces that columns keep.
#[derive(Clone, Copy)]
pub struct Pieces {
    pub parts: SmallParts,
    pub firsts: Firsts,
    pub rests: Rests,
}

const NO_REST: Rest = Rest {
    second: 0,
    third: 0,
    fourth: 0,
};

const NO_PARTS: SmallParts = SmallParts {
    status: Status::Unset,
    mark: Mark::Keep,
    intent: Intent::Stay,
    value_count: Count::One,
    next_count: Count::One,
};

const NO_SLOTS: FourSlots = FourSlots {
    firsts: [Firsts { value: 0, next: 0 }; 4],
    parts: [NO_PARTS; 4],
};

const NO_RESTS: Rests = Rests {
    value: NO_REST,
    next: NO_REST,
};

impl Numbers {
    fn of(state: State) -> Numbers
        ensures { state_in result ≡ state }
    {
        let (count, first, second, third, fourth) = match state {
            State::Single(a) => (Count::One, a, 0, 0, 0),
            State::Pair(a, b) => (Count::Two, a, b, 0, 0),
            State::Triple(a, b, c) => (Count::Three, a, b, c, 0),
            State::Quadruple(a, b, c, d) => (Count::Four, a, b, c, d),
        };
        Numbers {
            count,
            first,
            rest: Rest {
                second,
                third,
                fourth,
            },
        }
    }
}

impl Pieces {
    fn of(slot: Slot) -> Pieces
        ensures { slot_by true result.parts result.firsts result.rests ≡ slot }
    {
        let value = Numbers::of(slot.value);
        let next = Numbers::of(slot.next);
        Pieces {
            parts: SmallParts {
                status: slot.status,
                mark: slot.mark,
                intent: slot.intent,
                value_count: value.count,
                next_count: next.count,
            },
            firsts: Firsts {
                value: value.first,
                next: next.first,
            },
            rests: Rests {
                value: value.rest,
                next: next.rest,
            },
        }
    }

    // Whether its states have one value each.
    fn is_narrow(&self) -> bool
        ensures { result ≡ true → IsNarrow self.now.parts }
    {
        matches!(self.parts.value_count, Count::One) && matches!(self.parts.next_count, Count::One)
    }
}

// The state of a first number and the rest; of one number, unless `wide`.
fn state(wide: bool, count: Count, first: i64, rest: &Rest) -> State
    ensures { result ≡ state_of (counted wide count) first rest.now }
{
    if !wide {
        return State::Single(first);
    }
    match count {
        Count::One => State::Single(first),
        Count::Two => State::Pair(first, rest.second),
        Count::Three => State::Triple(first, rest.second, rest.third),
        Count::Four => State::Quadruple(first, rest.second, rest.third, rest.fourth),
    }
}

// Slot `k` of four.
fn slot_of_four(wide: bool, four: &FourSlots, rests: &[Rests; 4], k: usize) -> Slot
    requires { k < 4 }
    ensures { result ≡ one_of wide four.now rests.now k }
{
    let parts = four.parts[k];
    let firsts = four.firsts[k];
    let rest = &rests[k];
    Slot {
        status: parts.status,
        value: state(wide, parts.value_count, firsts.value, &rest.value),
        next: state(wide, parts.next_count, firsts.next, &rest.next),
        mark: parts.mark,
        intent: parts.intent,
    }
}

// The value of slot `k` of four.
fn value_of_four(wide: bool, four: &FourSlots, rests: &[Rests; 4], k: usize) -> State
    requires { k < 4 }
    ensures { result ≡ (one_of wide four.now rests.now k).value }
{
    state(
        wide,
        four.parts[k].value_count,
        four.firsts[k].value,
        &rests[k].value,
    )
}

// Whether slot `k` of four tells that its cell is refined in the old grid, or with `after` in the new one.
fn tells_of_four(four: &FourSlots, k: usize, after: bool) -> bool
    requires { k < 4 }
    ensures { (wide : Bool) (rests : List Rests)
        → result ≡ slot_tells after (one_of wide four.now rests k) }
{
    let parts = four.parts[k];
    match parts.intent {
        Intent::Stay => matches!(parts.status, Status::Refined),
        Intent::Split => after,
        Intent::Merge => !after,
    }
}

// Changes slot `k` of four, whose states have one value each, unless `wide`.
fn set_in_four(wide: bool, four: &mut FourSlots, rests: &mut [Rests; 4], k: usize, slot: &Pieces)
    requires place { k < 4 }
    requires narrow { wide ≡ false → IsNarrow slot.now.parts }
    ensures { four_of wide four.new rests.new
        ≡ slice_set (four_of wide four.old rests.old) k
        (slot_by true slot.now.parts slot.now.firsts slot.now.rests) }
{
    four.parts[k] = slot.parts;
    four.firsts[k] = slot.firsts;
    if wide {
        rests[k] = slot.rests;
    }
}

// The same parts, with one number of each state.
fn narrowed(parts: SmallParts) -> SmallParts
    ensures { result ≡ record parts { value_count = One; next_count = One } }
{
    SmallParts {
        status: parts.status,
        mark: parts.mark,
        intent: parts.intent,
        value_count: Count::One,
        next_count: Count::One,
    }
}

impl FourSlots {
    /// Four slots of which nothing is known.
    pub fn blank() -> FourSlots
        ensures { result ≡ no_slots }
    {
        NO_SLOTS
    }

    // Says that one value of each state counts.
    fn narrow(&mut self)
        ensures { (wide : Bool) (rests : List Rests)
            → four_of wide self.new rests ≡ four_of false self.old rests }
    {
        self.parts = [
            narrowed(self.parts[0]),
            narrowed(self.parts[1]),
            narrowed(self.parts[2]),
            narrowed(self.parts[3]),
        ];
    }
}

impl More {
    /// Room for the rest of the states.
    pub fn blank() -> More {
        More {
            near: [NO_RESTS; 4],
            far: [NO_RESTS; 4],
        }
    }
}

impl Near {
    /// The vertex of level 0 at the origin, of whose slots nothing is known.
    pub fn blank() -> Near
        ensures { result ≡ nowhere }
    {
        Near {
            key: VertexKey {
                level: 0,
                v: [0; 3],
            },
            slots: NO_SLOTS,
            has_far: false,
            has_more: false,
        }
    }

    // Gives the record the rest of its states.
    fn widen(&mut self, far: &mut FourSlots)
        ensures same { (more : More)
            → record_of self.new far.new more ≡ record_of self.old far.old more }
        ensures wide { self.new.has_more ≡ true }
    {
        if !self.has_more {
            self.slots.narrow();
            far.narrow();
            self.has_more = true;
        }
    }

    // Gives the record slots 4 to 7.
    fn reach_far(&mut self, far: &mut FourSlots)
        ensures same { (more : More)
            → record_of self.new far.new more ≡ record_of self.old far.old more }
        ensures far { self.new ≡ record self.old { has_far = true } }
    {
        if !self.has_far {
            *far = NO_SLOTS;
            self.has_far = true;
        }
    }

    /// Slot number `n`, which is below 8.
    pub fn slot(&self, far: &FourSlots, more: &More, n: u32) -> Slot
        requires { n < 8 }
        ensures { result ≡ slot_at (record_of self.now far.now more.now) n }
    {
        if n < 4 {
            slot_of_four(self.has_more, &self.slots, &more.near, n as usize)
        } else if self.has_far {
            slot_of_four(self.has_more, far, &more.far, n as usize - 4)
        } else {
            Slot::blank(Status::Unset)
        }
    }

    /// The value in slot number `n`, which is below 8.
    pub fn value(&self, far: &FourSlots, more: &More, n: u32) -> State
        requires { n < 8 }
        ensures { result ≡ (slot_at (record_of self.now far.now more.now) n).value }
    {
        if n < 4 {
            value_of_four(self.has_more, &self.slots, &more.near, n as usize)
        } else if self.has_far {
            value_of_four(self.has_more, far, &more.far, n as usize - 4)
        } else {
            State::Single(0)
        }
    }

    /// Whether slot number `n`, which is below 8, tells that its cell is refined in the old grid, or with `after` in the
    /// new one.
    pub fn tells(&self, far: &FourSlots, n: u32, after: bool) -> bool
        requires { n < 8 }
        ensures { (more : More)
            → result ≡ slot_tells after (slot_at (record_of self.now far.now more) n) }
    {
        if n < 4 {
            tells_of_four(&self.slots, n as usize, after)
        } else if self.has_far {
            tells_of_four(far, n as usize - 4, after)
        } else {
            false
        }
    }

    // Gives the record what it needs to hold the states of a slot.
    fn make_way(&mut self, far: &mut FourSlots, slot: &Pieces)
        ensures same { (more : More)
            → record_of self.new far.new more ≡ record_of self.old far.old more }
        ensures narrow { self.new.has_more ≡ false → IsNarrow slot.now.parts }
    {
        if !slot.is_narrow() {
            self.widen(far);
        }
    }

    // Changes one of slots 0 to 3.
    fn set_near(&mut self, more: &mut More, n: u32, slot: &Pieces)
        requires place { n < 4 }
        requires narrow { self.old.has_more ≡ false → IsNarrow slot.now.parts }
        ensures { (far : FourSlots)
            → record_of self.new far more.new
            ≡ with_slot (record_of self.old far more.old) n
            (slot_by true slot.now.parts slot.now.firsts slot.now.rests) }
    {
        let wide = self.has_more;
        set_in_four(wide, &mut self.slots, &mut more.near, n as usize, slot);
    }

    // Changes one of slots 4 to 7, by its number less 4.
    fn set_far(&self, far: &mut FourSlots, more: &mut More, k: u32, slot: &Pieces)
        requires place { k < 4 }
        requires far { self.now.has_far ≡ true }
        requires narrow { self.now.has_more ≡ false → IsNarrow slot.now.parts }
        ensures { record_of self.now far.new more.new
            ≡ with_slot (record_of self.now far.old more.old) (4 + k)
            (slot_by true slot.now.parts slot.now.firsts slot.now.rests) }
    {
        set_in_four(self.has_more, far, &mut more.far, k as usize, slot);
    }

    /// Changes slot number `n`, which is below 8, and nothing else.
    pub fn set(&mut self, far: &mut FourSlots, more: &mut More, n: u32, slot: Slot)
        requires { n < 8 }
        ensures value { record_of self.new far.new more.new
            ≡ with_slot (record_of self.old far.old more.old) n slot }
        ensures eight { length (record_of self.old far.old more.old).slots ≡ 8 }
    {
        let pieces = Pieces::of(slot);
        self.make_way(far, &pieces);
        if n < 4 {
            self.set_near(more, n, &pieces);
            return;
        }
        self.reach_far(far);
        self.set_far(far, more, n - 4, &pieces);
    }

    /// The record as plain data.
    pub fn parcel(&self, far: &FourSlots, more: &More) -> Parcel
        ensures key { result.key ≡ self.now.key }
        ensures slots { result.slots ≡ (record_of self.now far.now more.now).slots }
        ensures eight { length result.slots ≡ 8 }
    {
        Parcel {
            key: self.key,
            slots: [
                self.slot(far, more, 0),
                self.slot(far, more, 1),
                self.slot(far, more, 2),
                self.slot(far, more, 3),
                self.slot(far, more, 4),
                self.slot(far, more, 5),
                self.slot(far, more, 6),
                self.slot(far, more, 7),
            ],
        }
    }
}
