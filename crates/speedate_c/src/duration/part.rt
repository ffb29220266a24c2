//! Parsers that write the part for which a text is refused as a duration, as C sees them.

ghost use Rattle.std.specs.Prelude.{◌≡◌};
ghost use Rattle.speedate.specs.Requirement.{result_map, with_size};
ghost use Rattle.speedate.specs.Duration.{duration_numbers};
ghost use Rattle.speedate_c.specs.Code.{config_out_of_range};
ghost use Rattle.speedate_c.specs.Config.{choices_of};
ghost use Rattle.speedate_c.specs.Duration.{duration_reading, shown_duration};
ghost use Rattle.speedate_c.specs.Written.{no_part, part_beside, with_option};
ghost use Rattle.speedate_c.specs.Written.{written_front, written_part};

use super::SpeedateDuration;
use crate::code::{CONFIG_OUT_OF_RANGE, SUCCESS, TEXT};
use crate::config::SpeedateConfig;
use crate::part::{NO_PART, SpeedatePart, whole, write_part};
use speedate::{CallKind, Duration, Refused};

/// Parses a duration in a form, under a configuration, and writes the part for which the text is refused:
/// 4 to 5 for `P1D1Q`. The part of an accepted text is from 0 to the end of its value; there is none for
/// `CONFIG_OUT_OF_RANGE`, also for a form that the type lacks, which comes first.
#[unsafe(no_mangle)]
#[tactic(auto, using(crate::proofs::PartLemmas::whole_seen))]
pub extern "C" fn speedate_duration_parse_or_part(
    text: &[u8],
    form: i32,
    config: SpeedateConfig,
    out: &mut SpeedateDuration,
    part: &mut SpeedatePart,
) -> i32
    ensures answer { (result, out.new)
        ≡ with_option (choices_of config) (config_out_of_range, out.old)
        (λ config. with_option (duration_reading form config text.now) (config_out_of_range, out.old)
        (λ reading. written_front shown_duration out.old reading.answer)) }
    ensures part { part.new ≡ with_option (choices_of config) no_part
        (λ config. with_option (duration_reading form config text.now) no_part
        (λ reading. written_part text.now reading)) }
{
    let Some(config) = config.to_config() else {
        *part = NO_PART;
        return CONFIG_OUT_OF_RANGE;
    };
    match form {
        TEXT => write_front(
            whole(Duration::parse_or_place(text, &config.time_config), text),
            CallKind::Duration,
            text,
            out,
            part,
        ),
        _ => {
            *part = NO_PART;
            CONFIG_OUT_OF_RANGE
        }
    }
}

/// Writes the duration that a call of a kind read, with its size as the part's end, or the part for which the call
/// refuses the text, and gives the code.
#[inline(always)]
fn write_front(
    front: Result<(Duration, usize), Refused>,
    kind: CallKind,
    text: &[u8],
    out: &mut SpeedateDuration,
    part: &mut SpeedatePart,
) -> i32
    ensures answer { (result, out.new)
        ≡ written_front shown_duration out.old (result_map (with_size duration_numbers) front) }
    ensures part { part.new ≡ part_beside kind text.now (result_map (with_size duration_numbers) front) }
{
    match front {
        Ok((value, end)) => {
            *out = SpeedateDuration::from_value(&value);
            *part = SpeedatePart {
                start: 0,
                end,
                kind: 0,
            };
            SUCCESS
        }
        Err(refused) => write_part(refused, kind, text, part),
    }
}
