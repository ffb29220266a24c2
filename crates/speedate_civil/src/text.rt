//! Pieces of printed texts, for the printers of this crate and of those above it.

ghost use Rattle.std.specs.Prelude.{◌≡◌, ◌<◌, ◌≤◌, ◌+◌, ◌++◌};
ghost use Rattle.arrayvec.specs.ArrayString.{array_string_len};
ghost use Rattle.speedate_base.specs.Digits.{two_digit_text, six_digit_text};
ghost use Rattle.speedate_civil.specs.Time.{three_digit_text};

use arrayvec::ArrayString;

/// The numbers below 100, each in two digits.
const TWO_DIGITS: &str =
    "00010203040506070809101112131415161718192021222324252627282930313233343536373839404142434445464748495051525354555657585960616263646566676869707172737475767778798081828384858687888990919293949596979899";

/// The two digits of a number below 100: `07` for 7.
#[inline(always)]
pub fn two_digit_text(number: u8) -> &'static str
    requires small { number < 100 }
    ensures digits { result.now ≡ two_digit_text number }
{
    let place = 2 * usize::from(number);
    &TWO_DIGITS[place..place + 2]
}

/// Appends the three digits of a number below 1,000: `012` for 12. There must be room for them.
#[inline(always)]
pub(crate) fn push_three_digits<const LENGTH: usize>(number: u32, text: &mut ArrayString<LENGTH>)
    requires small { number ≤ 999 }
    requires room { array_string_len text.old + 3 ≤ LENGTH }
    ensures digits { text.new.bytes ≡ text.old.bytes ++ three_digit_text number }
{
    text.push_str(two_digit_text((number / 10) as u8));
    text.push(char::from(b'0' + (number % 10) as u8));
}

/// Appends the six digits of a number below 1,000,000: `000120` for 120. There must be room for
/// them.
#[inline(always)]
pub(crate) fn push_six_digits<const LENGTH: usize>(number: u32, text: &mut ArrayString<LENGTH>)
    requires small { number ≤ 999999 }
    requires room { array_string_len text.old + 6 ≤ LENGTH }
    ensures digits { text.new.bytes ≡ text.old.bytes ++ six_digit_text number }
{
    text.push_str(two_digit_text((number / 10_000) as u8));
    text.push_str(two_digit_text((number / 100 % 100) as u8));
    text.push_str(two_digit_text((number % 100) as u8));
}
