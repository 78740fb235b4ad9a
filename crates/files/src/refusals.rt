// Refusals: why a call is turned back, and where.
ghost use Rattle.std.specs.Prelude.{◌≡◌};
ghost use Rattle.files.specs.Outcome.{number_of, refused, refusal, in_second};

// Why a call is turned back.
#[derive(Clone, Copy, Debug, PartialEq, Eq)]
pub enum Reason {
    // A record that is cut short.
    CutShort,
    // A kind that is not due, or a byte behind the sign-off.
    NotDue,
    // A body length that the kind does not have.
    WrongLength,
    // A count, size or cost outside its limits, or a file that is too long.
    OutsideLimits,
    // A variable, value or action number out of range.
    OutOfRange,
    // A number that is not above the one before.
    NotRising,
    // A signer 0, or a wrong count of bytes.
    WrongSignOff,
    // A level that the call does not have.
    UnknownLevel,
    // A buffer that is too short.
    ShortBuffer,
    // A step that is not applicable.
    NotApplicable,
    // A goal that does not hold after the last step.
    GoalMissed,
    // A task that has no plan.
    NoPlan,
    // A reduced task of too many states to search.
    TooManyStates,
    // A word or number that the format of a text does not have there.
    WrongForm,
    // Axioms, an axiom layer or effect conditions in a text.
    Unsupported,
    // A variable that a text gives twice.
    GivenTwice,
}

impl Reason {
    // The number of a refusal for this reason.
    pub fn number(self) -> u32
        ensures { result ≡ number_of self }
    {
        match self {
            Reason::CutShort => 1,
            Reason::NotDue => 2,
            Reason::WrongLength => 3,
            Reason::OutsideLimits => 4,
            Reason::OutOfRange => 5,
            Reason::NotRising => 6,
            Reason::WrongSignOff => 7,
            Reason::UnknownLevel => 8,
            Reason::ShortBuffer => 21,
            Reason::NotApplicable => 22,
            Reason::GoalMissed => 23,
            Reason::NoPlan => 24,
            Reason::TooManyStates => 25,
            Reason::WrongForm => 31,
            Reason::Unsupported => 32,
            Reason::GivenTwice => 33,
        }
    }
}

// A refusal and its place; `in_second` where the place is an offset in the second file handed in.
#[derive(Clone, Copy, Debug, PartialEq, Eq)]
pub struct Refusal {
    pub reason: Reason,
    pub in_second: bool,
    pub place: usize,
}

impl Refusal {
    // A refusal at a place of the first file, or of no file.
    pub fn at(reason: Reason, place: usize) -> Refusal
        ensures { refused result ≡ refusal (number_of reason) place }
    {
        Refusal {
            reason,
            in_second: false,
            place,
        }
    }

    // The refusal of the second file handed in.
    pub fn of_second(self) -> Refusal
        ensures { refused result ≡ in_second (refused self) }
    {
        Refusal {
            reason: self.reason,
            in_second: true,
            place: self.place,
        }
    }
}
