//! States: one to four whole values of a cell.
ghost use Rattle.std.specs.Prelude.{◌≡◌, ◌<◌, ◌≤◌, [], ◌∷◌};
ghost use Rattle.peano_keys.specs.State.{count_of, value_at, values_of, state_from};

/// One to four values of a cell, each an `i64`.
#[derive(Clone, Copy, Debug, PartialEq, Eq)]
pub enum State {
    Single(i64),
    Pair(i64, i64),
    Triple(i64, i64, i64),
    Quadruple(i64, i64, i64, i64),
}

impl State {
    /// A state of one value.
    pub fn one(v: i64) -> State
        ensures { values_of result ≡ v ∷ [] }
    {
        State::Single(v)
    }

    /// A state of two values.
    pub fn two(u: i64, w: i64) -> State
        ensures { values_of result ≡ u ∷ w ∷ [] }
    {
        State::Pair(u, w)
    }

    /// The state of these values, none where there are not one to four of them.
    pub fn of(values: &[i64]) -> Option<State>
        ensures { result ≡ state_from values.now }
    {
        match values {
            [a] => Some(State::Single(*a)),
            [a, b] => Some(State::Pair(*a, *b)),
            [a, b, c] => Some(State::Triple(*a, *b, *c)),
            [a, b, c, d] => Some(State::Quadruple(*a, *b, *c, *d)),
            _ => None,
        }
    }

    /// How many values there are.
    pub fn count(&self) -> u32
        ensures value { result ≡ count_of self.now }
        ensures least { 1 ≤ result }
        ensures most { result ≤ 4 }
    {
        match self {
            State::Single(_) => 1,
            State::Pair(_, _) => 2,
            State::Triple(_, _, _) => 3,
            State::Quadruple(_, _, _, _) => 4,
        }
    }

    /// The value of component `i`.
    pub fn get(&self, i: u32) -> i64
        requires { i < count_of self.now }
        ensures { result ≡ value_at self.now i }
    {
        match (*self, i) {
            (State::Single(a), _) => a,
            (State::Pair(a, _), 0) => a,
            (State::Pair(_, b), _) => b,
            (State::Triple(a, _, _), 0) => a,
            (State::Triple(_, b, _), 1) => b,
            (State::Triple(_, _, c), _) => c,
            (State::Quadruple(a, _, _, _), 0) => a,
            (State::Quadruple(_, b, _, _), 1) => b,
            (State::Quadruple(_, _, c, _), 2) => c,
            (State::Quadruple(_, _, _, d), _) => d,
        }
    }
}
