// Refusals: the cause, the layer that refused, and a place.
#![tactic(auto)]

ghost use Rattle.std.specs.Prelude.{◌≡◌, Some};
ghost use Rattle.fault.specs.Faults.{number_of, cause_of, refusal};
ghost use Rattle.fault.specs.declared.Layer.TheVariants as layer;
ghost use Rattle.fault.specs.Texts.{layer_text, fault_text};

mod line;

pub use line::refusal_line;
use std::alloc::AllocError;
use std::fmt;

// Why a call refused.
#[derive(Clone, Copy, PartialEq, Eq, Debug)]
pub enum Cause {
    // a size is outside its limits
    SizeOutOfLimits,
    // the array is shorter than the entries
    ArrayTooShort,
    // the kind is not permitted at its place
    KindNotPermitted,
    // the entries end early, or are left over
    EntriesMismatch,
    // an operand is out of range
    OperandOutOfRange,
    // a formula or an effect has too many entries, or quantifiers or entries are nested too deep
    TooLongOrDeep,
    // the task has too many atoms
    TooManyAtoms,
    // atoms or names do not rise, or an atom is listed twice
    NotRising,
    // the length of the file is not the one that its sizes tell
    FileLength,
    // an array that is to hold the task of a file is shorter than its entries
    PlacesTooShort,
    // the book is longer than an array that is to hold it, or than a book may be
    BookTooLong,
    // the list is shorter than the different literals that it is to hold
    ListTooShort,
    // an effect adds an atom that is always false, or deletes one that is always true
    LiteralClashes,
    // the output is shorter than the file that it is to hold
    OutputTooShort,
    // the store is too small
    StoreTooSmall,
    // the image is too short
    ImageTooShort,
    // the name does not fit
    NameDoesNotFit,
    // the precondition is false, or the book has no such action
    NotApplicable,
    // there is no atom with that number
    NoSuchAtom,
    // the run counts no more steps
    StepLimit,
    // the number is not below the store's size
    OutsideStore,
    // there is no memory left
    NoMemory,
}

// The layer that refused.
#[derive(Clone, Copy, PartialEq, Eq, Debug)]
pub enum Layer {
    Task,
    Book,
    Run,
    Store,
    File,
}

// A refusal.
#[derive(Clone, Copy, PartialEq, Eq, Debug)]
pub struct Fault {
    pub cause: Cause,
    pub layer: Layer,
    pub place: u64,
}

impl Fault {
    // A refusal with this cause, in this layer, at this place.
    pub fn new(cause: Cause, layer: Layer, place: u64) -> Fault
        ensures { result ≡ record { cause = cause; layer = layer; place = place } }
    {
        Fault {
            cause,
            layer,
            place,
        }
    }
}

// The number that the return list gives a cause, written out since the numbers have gaps.
impl From<Cause> for u8 {
    ghost from_gives = { λ cause number. (number ≡ number_of cause) × (cause_of number ≡ cause) };

    #[tactic(auto, unfolding(crate::specs::Faults::writing_cause))]
    fn from(cause: Cause) -> u8 {
        match cause {
            Cause::SizeOutOfLimits => 1,
            Cause::ArrayTooShort => 2,
            Cause::KindNotPermitted => 3,
            Cause::EntriesMismatch => 4,
            Cause::OperandOutOfRange => 5,
            Cause::TooLongOrDeep => 6,
            Cause::TooManyAtoms => 7,
            Cause::NotRising => 8,
            Cause::FileLength => 9,
            Cause::PlacesTooShort => 10,
            Cause::BookTooLong => 11,
            Cause::ListTooShort => 12,
            Cause::LiteralClashes => 13,
            Cause::OutputTooShort => 14,
            Cause::StoreTooSmall => 21,
            Cause::ImageTooShort => 22,
            Cause::NameDoesNotFit => 23,
            Cause::NotApplicable => 24,
            Cause::NoSuchAtom => 25,
            Cause::StepLimit => 26,
            Cause::OutsideStore => 31,
            Cause::NoMemory => 61,
        }
    }
}

impl Layer {
    // The layer's name.
    pub fn name(self) -> &'static str
        ensures { result.now ≡ layer_text self }
    {
        match self {
            Layer::Task => "task",
            Layer::Book => "book",
            Layer::Run => "run",
            Layer::Store => "store",
            Layer::File => "file",
        }
    }
}

impl fmt::Display for Layer {
    ghost output = { λ l. Some (layer_text l) };

    fn fmt<W: fmt::Write>(&self, f: &mut fmt::Formatter<W>) -> fmt::Result {
        f.write_str(self.name())
    }
}

// The number of the cause, the layer and the place, as in `refused 5 task 17`.
impl fmt::Display for Fault {
    ghost output = { λ f. Some (fault_text f) };

    fn fmt<W: fmt::Write>(&self, f: &mut fmt::Formatter<W>) -> fmt::Result {
        let cause = u8::from(self.cause);
        let layer = self.layer;
        let place = self.place;
        write!(f, "refused {cause} {layer} {place}")
    }
}

// Only what is done for books allocates.
impl From<AllocError> for Fault {
    ghost from_gives = { λ _ fault. fault ≡ refusal 61 layer.Book 0 };

    #[tactic(auto, unfolding(crate::specs::Faults::writing_cause))]
    fn from(_: AllocError) -> Fault {
        Fault::new(Cause::NoMemory, Layer::Book, 0)
    }
}
