// Lists that rise by a total order of their keys.
#![tactic(auto)]

pub mod key;
pub mod literal;
pub mod rising;

pub use key::Key;
pub use literal::{Literal, Sign};
pub use rising::{Full, Rising};
