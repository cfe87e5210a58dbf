// What a call tells, in plain numbers.
ghost use Rattle.std.specs.Prelude.{◌≡◌, ◌<◌, Some};
ghost use Rattle.planning_c.specs.Outcomes.{layer_number as number_of_layer, done, refused, cause_with as cause_by_number, layer_with as layer_by_number, refusal_told};

use fault::{Cause, Fault, Layer};

// The number of a refusal, or 0 if there was none; the number of its layer and its place; and how many bytes were written.
#[repr(C)]
#[derive(Clone, Copy)]
pub struct Outcome {
    pub number: u32,
    pub layer: u32,
    pub place: u64,
    pub length: u64,
}

// The number of a layer.
fn layer_number(layer: Layer) -> u32
    ensures { result ≡ number_of_layer layer }
{
    match layer {
        Layer::Task => 1,
        Layer::Book => 2,
        Layer::Run => 3,
        Layer::Store => 4,
        Layer::File => 5,
    }
}

// The layer that has this number.
fn layer_with(number: u32) -> Option<Layer>
    ensures { result ≡ layer_by_number number }
{
    match number {
        1 => Some(Layer::Task),
        2 => Some(Layer::Book),
        3 => Some(Layer::Run),
        4 => Some(Layer::Store),
        5 => Some(Layer::File),
        _ => None,
    }
}

// The cause that has this number.
#[tactic(auto, unfolding(fault::specs::Faults::writing_cause))]
fn cause_with(number: u32) -> Option<Cause>
    ensures { result ≡ cause_by_number number }
{
    match number {
        1 => Some(Cause::SizeOutOfLimits),
        2 => Some(Cause::ArrayTooShort),
        3 => Some(Cause::KindNotPermitted),
        4 => Some(Cause::EntriesMismatch),
        5 => Some(Cause::OperandOutOfRange),
        6 => Some(Cause::TooLongOrDeep),
        7 => Some(Cause::TooManyAtoms),
        8 => Some(Cause::NotRising),
        9 => Some(Cause::FileLength),
        10 => Some(Cause::PlacesTooShort),
        11 => Some(Cause::BookTooLong),
        12 => Some(Cause::ListTooShort),
        13 => Some(Cause::LiteralClashes),
        14 => Some(Cause::OutputTooShort),
        21 => Some(Cause::StoreTooSmall),
        22 => Some(Cause::ImageTooShort),
        23 => Some(Cause::NameDoesNotFit),
        24 => Some(Cause::NotApplicable),
        25 => Some(Cause::NoSuchAtom),
        26 => Some(Cause::StepLimit),
        31 => Some(Cause::OutsideStore),
        61 => Some(Cause::NoMemory),
        _ => None,
    }
}

impl Outcome {
    // There was no refusal, and so many bytes were written.
    pub(crate) fn done(length: usize) -> Outcome
        ensures { result ≡ done length }
    {
        Outcome {
            number: 0,
            layer: 0,
            place: 0,
            length: length as u64,
        }
    }

    // A refusal.
    pub(crate) fn refused(fault: Fault) -> Outcome
        ensures answers { result ≡ refused fault }
        ensures counted { 0 < result.number }
        ensures told { refusal_told result ≡ Some fault }
    {
        Outcome {
            number: u8::from(fault.cause) as u32,
            layer: layer_number(fault.layer),
            place: fault.place,
            length: 0,
        }
    }

    // The refusal that it tells.
    pub(crate) fn refusal(self) -> Option<Fault>
        ensures { result ≡ refusal_told self }
    {
        let cause = cause_with(self.number)?;
        let layer = layer_with(self.layer)?;
        Some(Fault::new(cause, layer, self.place))
    }
}
