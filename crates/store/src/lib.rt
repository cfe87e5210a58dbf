// Stores of facts.
#![tactic(auto)]

pub mod bits;
pub mod images;
pub mod list;
pub mod places;
pub mod puts;
pub mod store;

pub use bits::Bits;
pub use images::{copy, room_for};
pub use list::ListStore;
pub use places::has_places;
pub use puts::put_all;
pub use rising::{Full, Key, Literal, Rising, Sign};
pub use store::Store;
