// Playing lists of calls on a task or a book, one call after the other over one store and one image.
#![tactic(auto)]

mod playing;
mod too_few_places;

pub use playing::play;
pub use too_few_places::TooFewPlaces;
