//! Date-times with zones as programs print them, as whole texts and at the front.

use crate::rows::{HasText, quoted, same, time_config, value, words};
use speedate::{DateTime, DateTimeConfig, DateTimeForm, Refused};
use std::process::Abort;

/// Each row of a behavior and a text: what the whole text is, or its error, and the size or the place; then the same of
/// the date-time at the front.
const ROWS: &str = "\
error    '2026-11-22 06:10:00+0100'         2026-11-22T06:10:00+01:00  24  2026-11-22T06:10:00+01:00  24
error    '2026-11-22 06:10:00+01:00'        2026-11-22T06:10:00+01:00  25  2026-11-22T06:10:00+01:00  25
error    '2026-11-22 06:10:00−0330'         2026-11-22T06:10:00-03:30  26  2026-11-22T06:10:00-03:30  26
error    '2026-11-22T06:10Z'                2026-11-22T06:10:00Z       17  2026-11-22T06:10:00Z       17
error    '2026-11-22T06:10z x'              extra_characters           17  2026-11-22T06:10:00Z       17
error    '2026-11-22 06:10:00.25+23:59'     2026-11-22T06:10:00.250000+23:59 28  2026-11-22T06:10:00.250000+23:59 28
error    '2026-11-22 06:10:00+24:00'        out_of_range_tz            20  out_of_range_tz            20
error    '2026-11-22 06:10:00+01:60'        out_of_range_tz_minute     23  out_of_range_tz_minute     23
error    '2026-11-22 06:10:00+0160'         out_of_range_tz_minute     22  out_of_range_tz_minute     22
error    '2026-11-22 06:10:00+00'           2026-11-22T06:10:00Z       22  2026-11-22T06:10:00Z       22
error    '2026-11-22 06:10:00-05 x'         extra_characters           22  2026-11-22T06:10:00-05:00  22
error    '2026-11-22 06:10:00−23'           2026-11-22T06:10:00-23:00  24  2026-11-22T06:10:00-23:00  24
error    '2026-11-22 06:10:00+24'           out_of_range_tz            20  out_of_range_tz            20
error    '2026-11-22 06:10:00−24'           out_of_range_tz            22  out_of_range_tz            22
error    '2026-11-22 06:10:00+01:3'         extra_characters           22  extra_characters           22
error    '2026-11-22 06:10:00+013'          extra_characters           22  extra_characters           22
error    '2026-11-22 06:10:00+01:'          extra_characters           22  2026-11-22T06:10:00+01:00  22
error    '2026-11-22 06:10:00+1'            invalid_char_tz_sign       19  invalid_char_tz_sign       19
error    '2026-11-22 06:10:00-app'          invalid_char_tz_sign       19  2026-11-22T06:10:00        19
error    '2026-11-22 06:10:00−5'            invalid_char_tz_sign       19  invalid_char_tz_sign       19
error    '2026-11-22 06:10:00−'             invalid_char_tz_sign       19  2026-11-22T06:10:00        19
error    '2026-11-22 06:10:00 +0100'        2026-11-22T06:10:00+01:00  25  2026-11-22T06:10:00+01:00  25
error    '2026-11-22 06:10:00 -09:45 GET'   extra_characters           26  2026-11-22T06:10:00-09:45  26
error    '2026-11-22 06:10:00 +14:00'       2026-11-22T06:10:00+14:00  26  2026-11-22T06:10:00+14:00  26
error    '2026-11-22 06:10:00 +15:00'       invalid_char_tz_sign       19  2026-11-22T06:10:00        19
error    '2026-11-22 06:10:00 -1234 items'  invalid_char_tz_sign       19  2026-11-22T06:10:00        19
error    '2026-11-22 06:10:00 +01'          invalid_char_tz_sign       19  2026-11-22T06:10:00        19
error    '2026-11-22 06:10:00 +0100a'       invalid_char_tz_sign       19  2026-11-22T06:10:00        19
error    '2026-11-22 06:10:00 −01:00'       invalid_char_tz_sign       19  2026-11-22T06:10:00        19
error    '2026-11-22 06:10:00 UTC'          2026-11-22T06:10:00Z       23  2026-11-22T06:10:00Z       23
error    '2026-11-22 06:10:00 GMT]'         extra_characters           23  2026-11-22T06:10:00Z       23
error    '2026-11-22 06:10:00 UTC2'         invalid_char_tz_sign       19  2026-11-22T06:10:00        19
error    '2026-11-22 06:10:00 utc'          invalid_char_tz_sign       19  2026-11-22T06:10:00        19
error    '2026-11-22 06:10:00 Z'            invalid_char_tz_sign       19  2026-11-22T06:10:00        19
error    '2026-11-22 06:10:00  UTC'         invalid_char_tz_sign       19  2026-11-22T06:10:00        19
error    '2026-11-22 06:10:00UTC'           invalid_char_tz_sign       19  invalid_char_tz_sign       19
error    '2026-11-22 06:10:00 CET'          invalid_char_tz_sign       19  2026-11-22T06:10:00        19
error    '2026-11-22 06:10:00 AM'           extra_characters           20  extra_characters           20
error    '2026-11-22 06:10 pm x'            extra_characters           17  extra_characters           17
error    '2026-11-22 06:10:00 PMO'          invalid_char_tz_sign       19  2026-11-22T06:10:00        19
error    '2026-11-22 06:10:00PM'            invalid_char_tz_sign       19  invalid_char_tz_sign       19
error    '2026-11-22 06:10:00'              2026-11-22T06:10:00        19  2026-11-22T06:10:00        19
error    '2026-11-22 06:10:00Zx'            extra_characters           20  extra_characters           20
error    '2026-11-22 06:10:00Z.5'           extra_characters           20  extra_characters           20
error    '2026-11-22 06:10:00Z. 5'          extra_characters           20  2026-11-22T06:10:00Z       20
error    '2026-11-22 06:10:00Z−5'           extra_characters           20  extra_characters           20
error    '2026-11-22 06:10,'                invalid_char_tz_sign       16  2026-11-22T06:10:00        16
error    '2026-11-22T06:10 +0100'           2026-11-22T06:10:00+01:00  22  2026-11-22T06:10:00+01:00  22
error    '2026-11-22 06:10:00.1234567 UTC'  second_fraction_too_long   26  second_fraction_too_long   26
truncate '2026-11-22 06:10:00.1234567 UTC'  2026-11-22T06:10:00.123456Z 31 2026-11-22T06:10:00.123456Z 31
error    '2026-11-22 06:60:00 UTC'          out_of_range_minute        14  out_of_range_minute        14
error    '2026-11-22'                       invalid_char_date_time_sep 10  invalid_char_date_time_sep 10
error    '2026-13-22 06:10:00 UTC'          out_of_range_month          5  out_of_range_month          5
error    '1700000000'                       invalid_char_date_sep       4  invalid_char_date_sep       4
error    ''                                 too_short                   0  too_short                   0";

/// The answer in a form is to be the value that is printed so and its size, or the error of that name and its place.
fn expect_form<R: Abort>(
    rt: &R,
    (text, form, config): (&[u8], DateTimeForm, &DateTimeConfig),
    (want, at): (&str, &str),
    row: &str,
) {
    let at: usize = value(rt, at);
    match DateTime::parse_or_place(text, form, config) {
        Ok((found, size)) => {
            found.expect_text(rt, want, row);
            same(rt, size, at, row);
        }
        Err(refused) => expect_refused(rt, refused, (want, at), row),
    }
    same(rt, DateTime::size_or_place(text, form, config), at, row);
}

/// The error is to have that name and that place.
fn expect_refused<R: Abort>(rt: &R, refused: Refused, (want, at): (&str, usize), row: &str) {
    same(rt, refused.fault.name(), want, row);
    same(rt, refused.place, at, row);
}

#[test]
fn zones_as_programs_print_them(rt: HostRuntime) {
    for row in ROWS.lines() {
        let (behavior, text, wants) = quoted(&rt, row);
        let [whole, whole_at, front, front_at, ..] = words(wants);
        let time_config = time_config(&rt, behavior);
        let config = DateTimeConfig::builder().time_config(time_config).build();
        let text = text.as_bytes();
        let call = (text, DateTimeForm::Loose, &config);
        expect_form(&rt, call, (whole, whole_at), row);
        let call = (text, DateTimeForm::LooseFront, &config);
        expect_form(&rt, call, (front, front_at), row);
    }
}
