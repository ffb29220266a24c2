//! How many digits of a second's fraction are printed.

/// The digits of a second's fraction in a text that always has the same number of them. They are
/// rounded down: 12:13:14.678901 is printed as `12:13:14.678` with `FractionDigits::Three`.
///
/// [`Time::to_text_with_digits`](crate::time::Time::to_text_with_digits) takes it.
#[derive(Clone, Copy, Debug, PartialEq, Eq)]
pub enum FractionDigits {
    /// None, and no point: `12:13:14`.
    Zero,
    /// Milliseconds: `12:13:14.500`.
    Three,
    /// Microseconds: `12:13:14.500000`.
    Six,
}
