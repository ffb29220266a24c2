//! Whole numbers and decimals.

use crate::rows::{quoted, same, value};
use speedate::{
    Decimal, IntFloat, float_parse_bytes, float_parse_str, int_parse_bytes, int_parse_str,
};
use std::process::Abort;

/// Texts, and the whole number that each is.
const WHOLE: &str = "\
'-123'                         -123
'+123'                         123
'1585201087123789'             1585201087123789
'00000000000000000001'         1
'<0*40>1'                      1
'12345678'                     12345678
'123456789'                    123456789
'-1234567890'                  -1234567890
'123456789012345'              123456789012345
'1234567890123456'             1234567890123456
'12345678901234567'            12345678901234567
'9999999999999999'             9999999999999999
'00000000000000012'            12
'0000000000000012'             12
'000000012'                    12
'123456789012345678'           123456789012345678
'1234567890123456789'          1234567890123456789
'0123456789012345678'          123456789012345678
'00123456789012345678'         123456789012345678
'000123456789012345678'        123456789012345678
'0001234567890123456789'       1234567890123456789
'<0*12>1234567890'             1234567890
'<0*15>1234567890'             1234567890
'<0*12>1234567890123456789'    1234567890123456789
'<0*13>1234567890123456789'    1234567890123456789
'<0*14>1234567890123456789'    1234567890123456789
'<0*22>1234567890'             1234567890
'<0*23>1234567890'             1234567890
'<0*28>1234567890'             1234567890
'-<0*13>9223372036854775808'   -9223372036854775808
'-<0*14>9223372036854775808'   -9223372036854775808
'<0*20>'                       0
'<0*21>'                       0
'<0*16>12'                     12
'<0*19>12'                     12
'-<0*32>12'                    -12
'<0*31>9223372036854775807'    9223372036854775807
'-<0*48>9223372036854775808'   -9223372036854775808
'<0*48>9223372036854775808'    none
'<0*16>18446744073709551616'   none
'<0*16>92233720368547758070'   none
'<0*16>100000000000000000000'  none
'99999999999999999999'         none
'<9*21>'                       none
'<9*32>'                       none
'<9*33>'                       none
'<9*48>'                       none
'<0*20>x'                      none
'<9*31>x'                      none
'<9*32>x'                      none
'x<0*31>'                      none
'x<0*32>'                      none
'-x1'                          none
'-.5'                          none
'-09223372036854775808'        -9223372036854775808
'9223372036854775808'          none
'18446744073709551616'         none
'18446745728355951616'         none
'20000000000000000000'         none
'92233720368547758089'         none
''                             none
'+'                            none
'--1'                          none
'xxx'                          none";

/// Texts, and the whole number, or the decimal by its sign and digits, that each is.
const NUMBERS: &str = "\
'1'                                   1
'-0'                                  0
'9223372036854775808'                 none
'092233720368547758089'               none
'9223372036854775808.0'               9223372036854775808.0
'1.0'                                 1.0
'-1.50'                               -1.50
'+1.5'                                1.5
'1.'                                  1.
'.5'                                  .5
'111111111.11111'                     111111111.11111
'1111111111111111111111111111.11111'  1111111111111111111111111111.11111
'.'                                   none
'-.'                                  none
'1..5'                                none
'--1'                                 none
'--1.5'                               none
'1.5 '                                none
'123.12 '                             none
'1.5e3'                               none
'123.XX'                              none
'xxx'                                 none
' '                                   none";

/// Powers of ten, texts, and the whole number that each text is times that power.
const SCALED: &str = "\
2           '12.50'                    1250
2           '12'                       1200
2           '12.345'                   none
2           '12.34<0*40>'              1234
2           '12.34<0*40>1'             none
2           '12.34<0*15>'              1234
2           '12.34<0*16>'              1234
2           '12.34<0*17>'              1234
2           '12.34<0*14>1'             none
2           '12.34<0*15>1'             none
2           '12.34<0*16>1'             none
2           '-12.341<0*16>'            none
2           '<0*32>12.34'              1234
1           '1.500000000000000000000'  15
3           '1.5'                      1500
2           '-0.05'                    -5
2           '-12'                      -1200
2           '-0.0'                     0
2           '.5'                       50
2           '5.'                       500
0           '5.<0*40>'                 5
0           '5.5'                      none
40          '.<0*39>1'                 1
18          '1'                        1000000000000000000
19          '1'                        none
2           '92233720368547758.07'     9223372036854775807
2           '92233720368547758.08'     none
2           '-92233720368547758.08'    -9223372036854775808
2           '-92233720368547759'       none
3           '18446744073709551.616'    none
4294967295  '0'                        0
4294967295  '.<0*40>'                  0
4294967295  '1'                        none
4294967295  '.<0*40>1'                 none
2           '1.5e3'                    none";

#[test]
fn whole_numbers(rt: HostRuntime) {
    for row in WHOLE.lines() {
        let (_, text, want) = quoted(&rt, row);
        let want = want.parse().ok();
        same(&rt, int_parse_str(&text), want, row);
        same(&rt, int_parse_bytes(text.as_bytes()), want, row);
    }
}

/// Texts of one digit over and over with a point, and with a letter, at each place.
#[test]
fn one_other_byte_among_digits(rt: HostRuntime) {
    for length in 1..50usize {
        for place in 0..length {
            expect_other_byte(&rt, b'0', place, length);
            expect_other_byte(&rt, b'7', place, length);
        }
    }
}

/// A text of so many bytes, one digit over and over, with a letter at a place, and then with a point.
fn expect_other_byte<R: Abort>(rt: &R, digit: u8, place: usize, length: usize) {
    let mut text = [digit; 50];
    if place >= length || length > 50 {
        return;
    }
    text[place] = b'x';
    expect_no_number(rt, &text[..length], place);
    text[place] = b'.';
    expect_split(rt, float_parse_bytes(&text[..length]), place, length);
}

/// A text with a letter is to be no number, nor the fraction of one.
fn expect_no_number<R: Abort>(rt: &R, text: &[u8], place: usize) {
    same(rt, int_parse_bytes(text), None, place);
    same(rt, float_parse_bytes(text).is_err(), true, place);
    let decimal = Decimal::new(false, b"1", text);
    same(rt, decimal.is_none(), true, place);
}

/// A decimal is to have so many bytes, of which one is a point at this place. A lone point is none.
fn expect_split<R: Abort>(rt: &R, read: IntFloat<'_>, place: usize, length: usize) {
    match read {
        IntFloat::Float(decimal) => {
            same(rt, decimal.whole.len(), place, length);
            same(
                rt,
                decimal.fraction.len(),
                length.saturating_sub(place).saturating_sub(1),
                place,
            );
        }
        IntFloat::Int(_) | IntFloat::Err => same(rt, length, 1, place),
    }
}

#[test]
fn one_other_byte_among_zeros(rt: HostRuntime) {
    for place in 0..24usize {
        let mut text = [b'0'; 24];
        text[place] = b'x';
        same(&rt, int_parse_bytes(&text), None, place);
        let text = std::str::from_utf8(&text).ok().expect(&rt, "a text");
        same(&rt, int_parse_str(text), None, place);
    }
}

/// A number that was parsed is to be the one that is written so.
fn expect_number<R: Abort>(rt: &R, read: IntFloat<'_>, want: &str, row: &str) {
    same(rt, read.is_err(), want == "none", row);
    match read {
        IntFloat::Int(number) => same(rt, number, value(rt, want), row),
        IntFloat::Float(decimal) => {
            let (whole, fraction) = want.split_once('.').expect(rt, row);
            let (negative, whole) = (whole.starts_with('-'), whole.trim_start_matches('-'));
            let wanted = Decimal::new(negative, whole.as_bytes(), fraction.as_bytes());
            same(rt, decimal.negative, negative, row);
            same(rt, decimal.whole, whole.as_bytes(), row);
            same(rt, decimal.fraction, fraction.as_bytes(), row);
            assert!(rt; wanted.is_some());
        }
        IntFloat::Err => {}
    }
}

#[test]
fn numbers(rt: HostRuntime) {
    for row in NUMBERS.lines() {
        let (_, text, want) = quoted(&rt, row);
        expect_number(&rt, float_parse_str(&text), want, row);
        expect_number(&rt, float_parse_bytes(text.as_bytes()), want, row);
    }
    assert!(rt; Decimal::new(false, b"", b"").is_none());
    assert!(rt; Decimal::new(false, b"1", b"5e3").is_none());
}

#[test]
fn scaled_numbers(rt: HostRuntime) {
    for row in SCALED.lines() {
        let (places, text, want) = quoted(&rt, row);
        let scaled = float_parse_str(&text).scaled(value(&rt, places));
        same(&rt, scaled, want.parse().ok(), row);
    }
}
