//! Parsers that write the part for which a text is refused as a date-time, as C sees them.

ghost use Rattle.std.specs.Prelude.{◌≡◌};
ghost use Rattle.speedate.specs.Config.{choices};
ghost use Rattle.speedate.specs.Requirement.{result_map, with_size};
ghost use Rattle.speedate.specs.DateTime.{date_and_time};
ghost use Rattle.speedate.specs.Form.{date_time_by_form};
ghost use Rattle.speedate.specs.Base.{CallKind};
ghost use Rattle.speedate.specs.declared.DateTimeForm.{DateTimeForm};
ghost use Rattle.speedate_c.specs.Code.{config_out_of_range};
ghost use Rattle.speedate_c.specs.Config.{choices_of};
ghost use Rattle.speedate_c.specs.DateTime.{date_time_form, date_time_reading, shown_date_time};
ghost use Rattle.speedate_c.specs.Written.{no_part, part_beside, with_option};
ghost use Rattle.speedate_c.specs.Written.{written_front, written_part};

use super::SpeedateDateTime;
use crate::code::{
    CONFIG_OUT_OF_RANGE, FRONT, LOOSE, LOOSE_FRONT, OR_TIMESTAMP, STRICT, SUCCESS, TEXT,
};
use crate::config::SpeedateConfig;
use crate::part::{NO_PART, SpeedatePart, write_part};
use speedate::{CallKind, DateTime, DateTimeConfig, DateTimeForm, Refused};

/// Parses a date-time in a form, under a configuration, and writes the part for which the text is refused:
/// 17 to 19 for `2020-02-29T12:13:60`. The part of an accepted text is from 0 to the end of its value; there is none for
/// `CONFIG_OUT_OF_RANGE`, also for a form that the type lacks, which comes first.
#[unsafe(no_mangle)]
pub extern "C" fn speedate_datetime_parse_or_part(
    text: &[u8],
    form: i32,
    config: SpeedateConfig,
    out: &mut SpeedateDateTime,
    part: &mut SpeedatePart,
) -> i32
    ensures answer { (result, out.new)
        ≡ with_option (choices_of config) (config_out_of_range, out.old)
        (λ config. with_option (date_time_reading form config text.now) (config_out_of_range, out.old)
        (λ reading. written_front shown_date_time out.old reading.answer)) }
    ensures part { part.new ≡ with_option (choices_of config) no_part
        (λ config. with_option (date_time_reading form config text.now) no_part
        (λ reading. written_part text.now reading)) }
{
    match config.to_config() {
        Some(config) => parse_form(text, form, &config, out, part),
        None => {
            *part = NO_PART;
            CONFIG_OUT_OF_RANGE
        }
    }
}

/// Parses a date-time in a form, if the type has it, and writes its part.
#[inline(always)]
fn parse_form(
    text: &[u8],
    form: i32,
    config: &DateTimeConfig,
    out: &mut SpeedateDateTime,
    part: &mut SpeedatePart,
) -> i32
    ensures answer { (result, out.new)
        ≡ with_option (date_time_reading form (choices config.now) text.now)
        (config_out_of_range, out.old)
        (λ reading. written_front shown_date_time out.old reading.answer) }
    ensures part { part.new
        ≡ with_option (date_time_reading form (choices config.now) text.now) no_part
        (λ reading. written_part text.now reading) }
{
    // In functions of their own: a value that two ways return goes through memory.
    match form {
        LOOSE => return parse_loose(text, config, out, part),
        LOOSE_FRONT => return parse_loose_front(text, config, out, part),
        _ => {}
    }
    let Some(read) = form_of(form) else {
        *part = NO_PART;
        return CONFIG_OUT_OF_RANGE;
    };
    write_front(
        DateTime::parse_or_place(text, read.0, config),
        read.1,
        text,
        out,
        part,
    )
}

/// Parses a date-time with a zone as programs print it, and writes its part.
#[inline(never)]
fn parse_loose(
    text: &[u8],
    config: &DateTimeConfig,
    out: &mut SpeedateDateTime,
    part: &mut SpeedatePart,
) -> i32
    ensures answer { (result, out.new) ≡ written_front shown_date_time out.old
        (date_time_by_form DateTimeForm.Loose (choices config.now) text.now) }
    ensures part { part.new ≡ part_beside CallKind.DateTime text.now
        (date_time_by_form DateTimeForm.Loose (choices config.now) text.now) }
{
    let read = DateTime::parse_or_place(text, DateTimeForm::Loose, config);
    write_front(read, CallKind::DateTime, text, out, part)
}

/// The same for a text that such a date-time begins.
#[inline(never)]
fn parse_loose_front(
    text: &[u8],
    config: &DateTimeConfig,
    out: &mut SpeedateDateTime,
    part: &mut SpeedatePart,
) -> i32
    ensures answer { (result, out.new) ≡ written_front shown_date_time out.old
        (date_time_by_form DateTimeForm.LooseFront (choices config.now) text.now) }
    ensures part { part.new ≡ part_beside CallKind.DateTime text.now
        (date_time_by_form DateTimeForm.LooseFront (choices config.now) text.now) }
{
    let read = DateTime::parse_or_place(text, DateTimeForm::LooseFront, config);
    write_front(read, CallKind::DateTime, text, out, part)
}

/// The form that a number asks for, if date-times have it, and the kind of calls that read so.
#[inline(always)]
fn form_of(form: i32) -> Option<(DateTimeForm, CallKind)>
    ensures form { result ≡ date_time_form form }
{
    match form {
        TEXT => Some((DateTimeForm::Text, CallKind::DateTime)),
        OR_TIMESTAMP => Some((DateTimeForm::OrTimestamp, CallKind::DateTimeOrTimestamp)),
        STRICT => Some((DateTimeForm::Strict, CallKind::DateTimeStrict)),
        FRONT => Some((DateTimeForm::Front, CallKind::DateTime)),
        LOOSE => Some((DateTimeForm::Loose, CallKind::DateTime)),
        LOOSE_FRONT => Some((DateTimeForm::LooseFront, CallKind::DateTime)),
        _ => None,
    }
}

/// Writes the date-time that a call of a kind read, with its size as the part's end, or the part for which the call
/// refuses the text, and gives the code.
#[inline(always)]
fn write_front(
    front: Result<(DateTime, usize), Refused>,
    kind: CallKind,
    text: &[u8],
    out: &mut SpeedateDateTime,
    part: &mut SpeedatePart,
) -> i32
    ensures answer { (result, out.new)
        ≡ written_front shown_date_time out.old (result_map (with_size date_and_time) front) }
    ensures part { part.new ≡ part_beside kind text.now (result_map (with_size date_and_time) front) }
{
    match front {
        Ok((value, end)) => {
            *out = SpeedateDateTime::from_value(&value);
            *part = SpeedatePart {
                start: 0,
                end,
                kind: 0,
            };
            SUCCESS
        }
        Err(refused) => write_part(refused, kind, text, part),
    }
}
