//! What is told of each kernel of a task before it runs.

/// Called before each kernel of a task. It returns and tells nothing, so no clause speaks of it: tests count with it.
pub trait Gate: Sync {
    fn pass(&self, tree: u32, task: u32);
}

/// Any gate, as a gathering tree knows it. It says nothing of threads, so that methods which stand in a trait, as those of a
/// sweep's visitor, may be given one.
pub trait Passes {
    fn pass(&self, tree: u32, task: u32);
}

impl<G: Gate> Passes for G {
    fn pass(&self, tree: u32, task: u32) {
        Gate::pass(self, tree, task);
    }
}

/// The gate that does nothing.
pub struct Through;

impl Gate for Through {
    fn pass(&self, tree: u32, task: u32) {
        let _ = (tree, task);
    }
}
