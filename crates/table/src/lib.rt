// Constant tables: the kinds of entries, the kinds that each place permits, and powers.
#![tactic(auto)]

pub mod arrays;
pub mod entries;
pub mod kind;
pub mod places;
pub mod powers;

pub use arrays::{Entries, Head};
pub use entries::{kinds_of, operands_of};
pub use kind::Kind;
pub use places::{Place, permits};
pub use powers::power;
