// Numbers, instants and spans as they are written: worked cases, None where the text is none.
use rsp_text::{Cursor, instant, read_u64, span};
use std::test::Fail;

const NUMBERS: [(&str, Option<u64>); 7] = [
    ("18446744073709551615", Some(u64::MAX)),
    ("00000000000000000007", Some(7)),
    ("18446744073709551616", None),
    ("000000000000000000007", None),
    ("", None),
    ("+1", None),
    ("1 ", None),
];

#[test]
fn numbers_of_64_bits(rt: HostRuntime) {
    for (text, wanted) in &NUMBERS {
        assert_eq!(rt; read_u64(text.as_bytes()), *wanted, "{text}");
    }
}

const INSTANTS: [(&str, Option<u64>); 16] = [
    ("2024-01-01T01:00:00.5+01:00", Some(1_704_067_200_500)),
    ("1970-01-01T00:00:00Z", Some(0)),
    ("1969-12-31T10:00:00.0019-14:00", Some(1)),
    ("2024-02-29T23:59:59.123456789Z", Some(1_709_251_199_123)),
    ("9999-12-31T23:59:59.999Z", Some(253_402_300_799_999)),
    ("2023-02-29T00:00:00Z", None),
    ("2024-01-01T24:00:00Z", None),
    ("2024-01-01T00:00:60Z", None),
    ("2024-01-01T00:00:00+14:01", None),
    ("2024-01-01T00:00:00+01:60", None),
    ("1970-01-01T00:59:59.999+01:00", None),
    ("9999-12-31T23:00:00-01:00", None),
    ("2024-01-01T00:00:00", None),
    ("2024-01-01T00:00:00.Z", None),
    ("2024-01-01T00:00:00.1234567890Z", None),
    ("2024-1-01T00:00:00Z", None),
];

#[test]
fn instants_in_utc(rt: HostRuntime) {
    for (text, wanted) in &INSTANTS {
        assert_eq!(rt; instant(text.as_bytes()), *wanted, "{text}");
    }
}

const SPANS: [(&str, Option<u64>); 13] = [
    ("P1DT2H", Some(93_600_000)),
    ("PT1M0.0019S", Some(60_001)),
    ("P00000000000000000000000000D", Some(0)),
    ("PT253402300799.999S", Some(253_402_300_799_999)),
    ("P", None),
    ("PT", None),
    ("P1DT", None),
    ("PT1M1H", None),
    ("PT.5S", None),
    ("PT1.S", None),
    ("PT253402300800S", None),
    ("PT99999999999999999999999999H", None),
    ("-P1D", None),
];

#[test]
fn spans_in_milliseconds(rt: HostRuntime) {
    for (text, wanted) in &SPANS {
        assert_eq!(rt; span(text.as_bytes()), *wanted, "{text}");
    }
}

#[test]
fn a_cursor_sees_each_byte(rt: HostRuntime) -> Result<(), Fail> {
    let mut cursor = Cursor { bytes: b"7", at: 0 };
    assert_eq!(rt; cursor.peek(), Some(b'7'));
    if cursor.at < cursor.bytes.len() {
        cursor.step();
    }
    assert_eq!(rt; (cursor.at, cursor.peek()), (1, None));
    Ok(())
}
