//! What a parser answers to a text that it refuses: only the error, or the error with its place.

use crate::faults::ParseError;

/// What a parser answers to a text that it refuses, by the error and the byte at which it lies: for
/// `b"2020-13-01"` either `OutOfRangeMonth`, or the same with byte 5.
pub trait Refusal: Copy {
    ghost use Rattle.std.specs.Prelude.{◌≡◌, ◌≤◌, ℕ};
    ghost use Rattle.speedate_base.specs.Requirement.{ParseError};

    // The refusal with this error at this byte.
    ghost refusal: { ParseError → ℕ → Self };

    // The refusal lies within so many bytes.
    ghost lies_within: { ℕ → Self → Type 0 };

    // The error of a refusal.
    ghost fault_of: { Self → ParseError };

    /// The refusal with this error at this byte: `OutOfRangeMonth` for that error and byte 5, if
    /// the refusal is only the error.
    fn refuse_at(fault: ParseError, place: usize) -> Self
        ensures refusal { result ≡ refusal fault place }
        ensures within { (size : ℕ) → place ≤ size → lies_within size result };

    /// The error of the refusal: `OutOfRangeMonth` of that error at byte 5.
    fn fault(self) -> ParseError
        ensures fault { result ≡ fault_of self };

    // A refusal keeps the error that it was made of.
    ghost keeps_fault: { (fault : ParseError) (place : ℕ)
        → fault_of (refusal fault place) ≡ fault };
}

impl Refusal for ParseError {
    ghost use Rattle.std.specs.Prelude.{refl};
    ghost use Rattle.speedate_base.specs.Requirement.{fault_alone};

    ghost refusal = { fault_alone };

    ghost lies_within = { λ size fault. Unit {0} };

    ghost fault_of = { λ fault. fault };

    #[inline]
    fn refuse_at(fault: ParseError, _place: usize) -> Self {
        fault
    }

    #[inline]
    fn fault(self) -> ParseError {
        self
    }

    ghost keeps_fault = { λ fault place. refl };
}

/// An error and the byte at which it lies, or the text's end: `OutOfRangeMonth` and 5 for `b"2020-13-01"`.
#[derive(Clone, Copy, Debug, PartialEq, Eq)]
pub struct Refused {
    /// Why the text is refused.
    pub fault: ParseError,
    /// The byte at which the part begins, or would begin, that the error is about.
    pub place: usize,
}

impl Refusal for Refused {
    ghost use Rattle.std.specs.Prelude.{◌≤◌, refl};
    ghost use Rattle.speedate_base.specs.Refused.{placed};

    ghost refusal = { placed };

    ghost lies_within = { λ size refused. refused.place ≤ size };

    ghost fault_of = { λ refused. refused.fault };

    #[inline]
    fn refuse_at(fault: ParseError, place: usize) -> Self {
        Refused { fault, place }
    }

    #[inline]
    fn fault(self) -> ParseError {
        self.fault
    }

    ghost keeps_fault = { λ fault place. refl };
}

impl Refused {
    ghost use Rattle.std.specs.Prelude.{◌≡◌, ◌++◌, ℕ, List, Ok};
    ghost use Rattle.speedate_base.specs.Requirement.{TextRow, first_place, first_refusal_or};
    ghost use Rattle.speedate_base.specs.Requirement.{moved, shifted};
    ghost use Rattle.speedate_base.specs.Refused.{placed, refused_place};

    /// The place of a refusal, and none of a value: 5 for `OutOfRangeMonth` at byte 5.
    ///
    /// If the answer comes from a table, and then from the table of a part that begins at a byte,
    /// it is the place of the first row, of both tables in this order, that does not hold.
    #[inline(always)]
    pub fn place_of<T: Copy>(answer: Result<T, Refused>) -> Option<usize>
        ensures place { result ≡ refused_place answer }
        ensures first_row { (first part : List TextRow) (start : ℕ) (value : T)
            → answer ≡ first_refusal_or placed first
            (first_refusal_or (shifted start placed) part (Ok value))
            → result ≡ first_place (first ++ moved start part) }
    {
        match answer {
            Ok(_) => None,
            Err(refused) => Some(refused.place),
        }
    }
}
