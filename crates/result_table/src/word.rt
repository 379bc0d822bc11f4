//! The word of a task.
ghost use Rattle.std.specs.Prelude.{◌≡◌};
ghost use Rattle.result_table.specs.Words.{code, taken, published, collected};

/// The numbers that stand for words in a desk. From the last one on a number names the seat that took the task.
pub(crate) const FREE: u64 = 0;

pub(crate) const PUBLISHED: u64 = 1;

pub(crate) const COLLECTED: u64 = 2;

const FIRST_TAKEN: u64 = 3;

/// What a task's word says. It only moves forward in this list.
#[derive(Clone, Copy, Debug, PartialEq, Eq)]
pub enum Word {
    Free,
    Taken(u32),
    Published,
    Collected,
}

impl Word {
    /// The number that stands for the word in a desk.
    pub fn code(self) -> u64
        ensures { result ≡ code self }
    {
        match self {
            Word::Free => FREE,
            Word::Published => PUBLISHED,
            Word::Collected => COLLECTED,
            Word::Taken(seat) => seat as u64 + FIRST_TAKEN,
        }
    }

    /// The word after this actor took the task, none where that is not legal.
    pub fn take(self, actor: u32) -> Option<Word>
        ensures { result ≡ taken actor self }
    {
        match self {
            Word::Free => Some(Word::Taken(actor)),
            _ => None,
        }
    }

    /// The word after this actor published the task's result, none where that is not legal.
    pub fn publish(self, actor: u32) -> Option<Word>
        ensures { result ≡ published actor self }
    {
        match self {
            Word::Taken(seat) => if seat == actor {
                Some(Word::Published)
            } else {
                None
            },
            _ => None,
        }
    }

    /// The word after the task was collected, none where that is not legal.
    pub fn collect(self) -> Option<Word>
        ensures { result ≡ collected self }
    {
        match self {
            Word::Collected => None,
            _ => Some(Word::Collected),
        }
    }
}
