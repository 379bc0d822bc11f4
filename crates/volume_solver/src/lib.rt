//! The explicit finite volume solvers: diffusion, upwind advection and waves, over whole numbers, exact to the last unit.
//! The formulas that they are proved against stand in this crate's specs.
#![tactic(auto)]

mod advect;
mod any;
mod diffuse;
mod edge;
mod exact;
mod laplacian;
mod marks;
#[cfg(test)]
mod tests;
mod upwind;
mod wave;

pub use advect::Advect;
pub use any::AnySolver;
pub use diffuse::Diffuse;
pub use edge::EdgeRule;
pub use laplacian::Laplacian;
pub use upwind::Upwind;
pub use wave::Wave;
