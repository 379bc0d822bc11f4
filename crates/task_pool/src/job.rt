//! A task in a deque.
ghost use Rattle.std.specs.Prelude.{◌≡◌, ◌≤◌, true};
ghost use Rattle.task_pool.specs.Fits.{all_have};

use result_table::Task;

/// A task and how many values its states have. A deque's rule can't tell whose task it is, so a helper compares the tree, the number and this count.
#[derive(Clone, Copy)]
pub struct Job {
    pub task: Task,
    pub parts: u32,
    ghost level: { task.key.level ≤ 12 },
    ghost fits: { all_have parts task.own task.sides ≡ true },
}
