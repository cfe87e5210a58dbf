// Names of steps: an operator and a list of objects. A name comes before another by its operator, then by its objects from the left.
#[derive(Clone, Copy, PartialEq, Eq, PartialOrd, Ord)]
pub struct Name<'n> {
    pub operator: u32,
    pub objects: &'n [u32],
}
