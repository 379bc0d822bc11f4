//! The core again, as the list of the legal events so far: what each of them did is read off that list.
use peano_curve::Direction;
use peano_keys::State;
use result_table::Word;
use std::alloc::{AllocError, Global};
use task_core::Event;

// What the leaves along the curve answer, where they do: of 100 in the centre 10 went to each of its four neighbours.
const AFTER: [i64; 9] = [0, 10, 0, 10, 60, 10, 0, 10, 0];

// The leaves of a tree, from the first one along the curve to the last one, and how many visits a sweep has: it enters and
// leaves the root and them.
#[derive(Clone, Copy)]
struct Span {
    first: u32,
    last: u32,
    visits: u32,
}

// The history of one tree or of two trees.
#[derive(Drop)]
pub(crate) struct History {
    trees: u32,
    dir: Direction,
    legal: Vec<Event>,
    answered: Vec<u32>,
}

// The word of a task after an event.
fn word_after(word: Word, event: Event, of: (u32, u32)) -> Word {
    match event {
        Event::Take { actor, tree, task } if (tree, task) == of => Word::Taken(actor),
        Event::Publish { tree, task, .. } if (tree, task) == of => Word::Published,
        Event::Collect { tree, task } if (tree, task) == of => Word::Collected,
        _ => word,
    }
}

// How many visits of its sweep a tree has made after an event.
fn made_after(made: u32, event: Event, of: u32) -> u32 {
    match event {
        Event::Visit { tree } if tree == of => made.saturating_add(1),
        Event::Exchange => 0,
        _ => made,
    }
}

impl History {
    pub(crate) fn new(alloc: Global, trees: u32, dir: Direction) -> History {
        History {
            trees,
            dir,
            legal: Vec::new(alloc),
            answered: Vec::new(alloc),
        }
    }

    fn span(&self, tree: u32) -> Option<Span> {
        match (self.trees, tree) {
            (1, 0) => Some(Span {
                first: 0,
                last: 8,
                visits: 20,
            }),
            (2, 0) => Some(Span {
                first: 0,
                last: 3,
                visits: 10,
            }),
            (2, 1) => Some(Span {
                first: 4,
                last: 8,
                visits: 12,
            }),
            _ => None,
        }
    }

    // Two trees share a corner of each leaf but one.
    fn is_task(&self, place: u32) -> bool {
        self.trees == 1 || place == 6
    }

    fn exchanges(&self) -> u32 {
        let mut count: u32 = 0;
        for event in self.legal.iter() {
            if *event == Event::Exchange {
                count = count.saturating_add(1);
            }
        }
        count
    }

    fn made(&self, tree: u32) -> u32 {
        let mut made = 0;
        for event in self.legal.iter() {
            made = made_after(made, *event, tree);
        }
        made
    }

    // The leaf that a visit enters, in a sweep that goes along a direction.
    fn entered(&self, tree: u32, visit: u32, dir: Direction) -> Option<u32> {
        let span = self.span(tree)?;
        if visit % 2 == 0 || visit >= span.visits.saturating_sub(1) {
            return None;
        }
        match dir {
            Direction::Forward => Some(span.first.saturating_add(visit / 2)),
            Direction::Backward => Some(span.last.saturating_sub(visit / 2)),
        }
    }

    // How many visits of the first sweep a tree has made.
    fn made_first(&self, tree: u32) -> u32 {
        if self.exchanges() == 0 {
            return self.made(tree);
        }
        20
    }

    // The leaf of a task that was added.
    fn task(&self, tree: u32, task: u32) -> Option<u32> {
        let mut left = task;
        for visit in 0..self.made_first(tree) {
            if let Some(place) = self.entered(tree, visit, self.dir) {
                if self.is_task(place) && left == 0 {
                    return Some(place);
                }
                if self.is_task(place) {
                    left = left.saturating_sub(1);
                }
            }
        }
        None
    }

    fn word(&self, tree: u32, task: u32) -> Option<Word> {
        let _place = self.task(tree, task)?;
        let mut word = Word::Free;
        for event in self.legal.iter() {
            word = word_after(word, *event, (tree, task));
        }
        Some(word)
    }

    fn has_visits(&self, tree: u32) -> bool {
        match self.span(tree) {
            Some(span) => self.made(tree) < span.visits,
            None => false,
        }
    }

    fn is_legal(&self, event: Event) -> bool {
        if self.exchanges() >= 2 {
            return false;
        }
        match event {
            Event::Visit { tree } => self.has_visits(tree),
            Event::Take { tree, task, .. } => self.word(tree, task) == Some(Word::Free),
            Event::Publish { actor, tree, task } => {
                self.word(tree, task) == Some(Word::Taken(actor))
            }
            Event::Collect { tree, task } => match self.word(tree, task) {
                None | Some(Word::Collected) => false,
                Some(_) => self.exchanges() == 1,
            },
            Event::Exchange => !self.has_visits(0) && !self.has_visits(1),
        }
    }

    // The leaf that a visit answers: in the first sweep one that is no task, in the second one that is.
    fn visit_answers(&self, tree: u32) -> Option<u32> {
        let visit = self.made(tree);
        if self.exchanges() == 0 {
            let place = self.entered(tree, visit, self.dir)?;
            return (!self.is_task(place)).then_some(place);
        }
        let back = match self.dir {
            Direction::Forward => Direction::Backward,
            Direction::Backward => Direction::Forward,
        };
        let place = self.entered(tree, visit, back)?;
        self.is_task(place).then_some(place)
    }

    // The leaf that a legal event answers.
    fn answers(&self, event: Event) -> Option<u32> {
        match event {
            Event::Visit { tree } => self.visit_answers(tree),
            Event::Publish { tree, task, .. } => self.task(tree, task),
            _ => None,
        }
    }

    // Whether the event is legal. It becomes part of the history if it is.
    pub(crate) fn add(&mut self, event: Event) -> Result<bool, AllocError> {
        if !self.is_legal(event) {
            return Ok(false);
        }
        if let Some(place) = self.answers(event) {
            self.answered.push(place)?;
        }
        self.legal.push(event)?;
        Ok(true)
    }

    // The words of the first ten tasks of a tree.
    pub(crate) fn words(&self, alloc: Global, tree: u32) -> Result<Vec<Option<Word>>, AllocError> {
        let mut words = Vec::new(alloc);
        for task in 0..10 {
            words.push(self.word(tree, task))?;
        }
        Ok(words)
    }

    fn answer(&self, place: u32, value: i64) -> Option<State> {
        self.answered
            .contains(&place)
            .then_some(State::Single(value))
    }

    // The answers of the leaves along the curve.
    pub(crate) fn all_answers(&self, alloc: Global) -> Result<Vec<Option<State>>, AllocError> {
        let mut answers = Vec::new(alloc);
        for place in 0..9u32 {
            answers.push(self.answer(place, AFTER[place as usize]))?;
        }
        Ok(answers)
    }
}
