// The walks of the engine use their lanes as stacks: vertices at the corners of cells, grids, ranges and fluxes, input and output, counts.
// Each law is the contract of a function with an empty body; its statement is in specs/.
#![tactic(auto)]

pub mod checks;
pub mod corner_laws;
pub mod count_laws;
pub mod engine_laws;
