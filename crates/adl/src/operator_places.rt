// Where an operator begins, and where its effect does.
#[derive(Clone, Copy)]
pub struct OperatorPlaces {
    pub start: usize,
    pub effect: usize,
}
