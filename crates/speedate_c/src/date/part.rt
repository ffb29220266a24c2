//! Parsers that write the part for which a text is refused as a date, as C sees them.

ghost use Rattle.std.specs.Prelude.{◌≡◌};
ghost use Rattle.speedate.specs.Requirement.{result_map, with_size};
ghost use Rattle.speedate.specs.Config.{choices};
ghost use Rattle.speedate.specs.Date.{date_or_timestamp, ymd, ◌gives◌};
ghost use Rattle.speedate_c.specs.Code.{config_out_of_range};
ghost use Rattle.speedate_c.specs.Config.{choices_of};
ghost use Rattle.speedate_c.specs.Date.{date_form, date_reading, shown_date};
ghost use Rattle.speedate_c.specs.Written.{no_part, part_beside, with_option};
ghost use Rattle.speedate_c.specs.Written.{written_front, written_part};

use super::SpeedateDate;
use crate::code::{CONFIG_OUT_OF_RANGE, FRONT, OR_TIMESTAMP, STRICT, SUCCESS, TEXT};
use crate::config::SpeedateConfig;
use crate::part::{NO_PART, SpeedatePart, write_part};
use speedate::{CallKind, Date, DateConfig, DateForm, DateTimeConfig, Refused};

/// Parses a date in a form, under a configuration, and writes the part for which the text is refused:
/// 5 to 7 for `2020-13-01`. The part of an accepted text is from 0 to the end of its value; there is none for
/// `CONFIG_OUT_OF_RANGE`, also for a form that the type lacks, which comes first.
#[unsafe(no_mangle)]
pub extern "C" fn speedate_date_parse_or_part(
    text: &[u8],
    form: i32,
    config: SpeedateConfig,
    out: &mut SpeedateDate,
    part: &mut SpeedatePart,
) -> i32
    ensures answer { (result, out.new)
        ≡ with_option (choices_of config) (config_out_of_range, out.old)
        (λ config. with_option (date_reading form config text.now) (config_out_of_range, out.old)
        (λ reading. written_front shown_date out.old reading.answer)) }
    ensures part { part.new ≡ with_option (choices_of config) no_part
        (λ config. with_option (date_reading form config text.now) no_part
        (λ reading. written_part text.now reading)) }
{
    match config.to_config() {
        Some(config) => parse_form(text, form, &config, out, part),
        None => {
            *part = NO_PART;
            CONFIG_OUT_OF_RANGE
        }
    }
}

/// Parses a date in a form, if the type has it, and writes its part.
#[inline(always)]
fn parse_form(
    text: &[u8],
    form: i32,
    config: &DateTimeConfig,
    out: &mut SpeedateDate,
    part: &mut SpeedatePart,
) -> i32
    ensures answer { (result, out.new)
        ≡ with_option (date_reading form (choices config.now) text.now)
        (config_out_of_range, out.old)
        (λ reading. written_front shown_date out.old reading.answer) }
    ensures part { part.new
        ≡ with_option (date_reading form (choices config.now) text.now) no_part
        (λ reading. written_part text.now reading) }
{
    let Some(read) = form_of(form) else {
        *part = NO_PART;
        return CONFIG_OUT_OF_RANGE;
    };
    let dates = DateConfig {
        timestamp_unit: config.timestamp_unit,
    };
    write_front(
        Date::parse_or_place(text, read.0, &dates),
        read.1,
        text,
        out,
        part,
    )
}

/// The form that a number asks for, if dates have it, and the kind of calls that read so. A date in a text is a
/// date of RFC 3339, so the strict form is the same.
#[inline(always)]
fn form_of(form: i32) -> Option<(DateForm, CallKind)>
    ensures form { result ≡ date_form form }
{
    match form {
        TEXT | STRICT => Some((DateForm::Text, CallKind::Date)),
        OR_TIMESTAMP => Some((DateForm::OrTimestamp, CallKind::DateOrTimestamp)),
        FRONT => Some((DateForm::Front, CallKind::Date)),
        _ => None,
    }
}

/// Writes the date that a call of a kind read, with its size as the part's end, or the part for which the call
/// refuses the text, and gives the code.
#[inline(always)]
fn write_front(
    front: Result<(Date, usize), Refused>,
    kind: CallKind,
    text: &[u8],
    out: &mut SpeedateDate,
    part: &mut SpeedatePart,
) -> i32
    ensures answer { (result, out.new)
        ≡ written_front shown_date out.old (result_map (with_size ymd) front) }
    ensures part { part.new ≡ part_beside kind text.now (result_map (with_size ymd) front) }
{
    match front {
        Ok((value, end)) => {
            *out = SpeedateDate::from_value(&value);
            *part = SpeedatePart {
                start: 0,
                end,
                kind: 0,
            };
            SUCCESS
        }
        Err(refused) => write_part(refused, kind, text, part),
    }
}
