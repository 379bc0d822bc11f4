//! What a helper does.
ghost use Rattle.std.specs.Prelude.{◌≡◌, ◌+◌, ◌<◌, ◌≤◌, ◌^◌, ℕ, List};
ghost use Rattle.task_pool.specs.Shifts.{taken_in, EndsAfter};
ghost use Rattle.task_pool.specs.Seen.{IsHelperOf, published_by, taken_by, pool_solver, tree_count, task_count};

use crate::gate::Gate;
use crate::parts::{Helper, Pool};
use crate::shift::{Shift, Work};
use result_table::Updates;

impl<S: Updates> Helper<S> {
    /// One round: one try at each tree's deque.
    fn round<G: Gate>(&mut self, pool: &Pool<S>, solver: &S, gate: &G) -> Work
        requires helper { IsHelperOf pool.now self.old }
        requires solver { solver.now ≡ pool_solver pool.now }
        ensures helper { IsHelperOf pool.now self.new }
        ensures few { (result.published ≤ result.taken) × (result.taken ≤ tree_count pool.now) }
        ensures published { published_by self.new ≡ published_by self.old + result.published }
        ensures taken { taken_by self.new ≡ taken_by self.old + result.taken }
    {
        let mut taken = 0;
        let mut published = 0;
        let mut tree = 0;
        while tree < pool.trees.len() {
            let work = self.posts[tree].work(&pool.trees[tree], tree as u32, solver, gate);
            taken += work.taken;
            published += work.published;
            tree += 1;
        }
        Work { taken, published }
    }

    /// Steals tasks of the pool's trees, computes them and publishes the results, until 16,384 rounds in a row took nothing
    /// or it has taken as many tasks as all desks have. Answers how many results it published.
    /// It always returns, waits for nobody and takes no memory.
    pub fn help<G: Gate>(&mut self, pool: &Pool<S>, solver: &S, gate: &G) -> u64
        requires helper { IsHelperOf pool.now self.old }
        requires solver { solver.now ≡ pool_solver pool.now }
        ensures helper { IsHelperOf pool.now self.new }
        ensures published { published_by self.new ≡ published_by self.old + result }
        ensures taken { taken_by self.old + result ≤ taken_by self.new }
        ensures rounds { (rounds : List ℕ) × EndsAfter (task_count pool.now) rounds
            × (taken_by self.new ≡ taken_by self.old + taken_in rounds) }
        ensures most { taken_by self.new
            ≤ taken_by self.old + task_count pool.now + tree_count pool.now }
    {
        let mut shift = Shift::new();
        'rounds: while !shift.is_over(pool.total) {
            let round = self.round(pool, solver, gate);
            shift = shift.after(round);
        }
        shift.published
    }
}
