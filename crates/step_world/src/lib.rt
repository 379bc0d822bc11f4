//! What the stores of all trees stand for, from step to step of the evaluation; what the trees find together, as the
//! least failing leaf and the size of the next grid; and the notes of a run. Each law is the contract of a function with
//! an empty body; its statement is in specs/.
#![tactic(auto)]

pub mod count_laws;
pub mod note_laws;
pub mod step_laws;
pub mod world_laws;
