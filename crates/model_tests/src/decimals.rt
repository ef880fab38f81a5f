//! Examples from outside: literals with their canonical text, faults, the order and whole numbers.
use json_decimal::{Decimal, DecimalFault};
use std::cmp::Ordering;
use std::test::Fail;

#[test]
fn reads_and_prints(rt: HostRuntime) -> Result<(), Fail> {
    let table: [(&[u8], &str); 22] = [
        (b"21.50", "21.5"),
        (b"2150e-2", "21.5"),
        (b"1e21", "1000000000000000000000"),
        (b"-0e999", "0"),
        (b"0e999", "0"),
        (b"-0.000", "0"),
        (b"1e-40", "1e-40"),
        (b"9007199254740993", "9007199254740993"),
        (b"10e-901", "1e-900"),
        (b"1E+900", "1e900"),
        (b"-1.25e2", "-125"),
        (b"0.001", "0.001"),
        (b"-12e-3", "-0.012"),
        (b"1e-37", "0.0000000000000000000000000000000000001"),
        (b"1e-38", "1e-38"),
        (b"1e37", "10000000000000000000000000000000000000"),
        (b"1e38", "1e38"),
        (b"123e036", "123e36"),
        (
            b"99999999999999999999999999999999999999",
            "99999999999999999999999999999999999999",
        ),
        (
            b"1000000000000000000000000000.0000000000",
            "1000000000000000000000000000",
        ),
        (b"18446744073709551616", "18446744073709551616"),
        (b"-9223372036854775808e-900", "-9223372036854775808e-900"),
    ];
    for (literal, text) in table {
        let decimal = Decimal::read(literal)?;
        let printed = decimal.print(rt.alloc())?;
        assert_eq!(rt; printed.as_str(), text);
        assert_eq!(rt; Decimal::read(printed.as_bytes())?, decimal);
    }
    Ok(())
}

#[test]
fn refuses(rt: HostRuntime) {
    let faults: [(&[u8], DecimalFault); 27] = [
        (b"10e900", DecimalFault::Range),
        (b"1e901", DecimalFault::Range),
        (b"1e-901", DecimalFault::Range),
        (b"0.1e-900", DecimalFault::Range),
        (b"-1e999", DecimalFault::Range),
        (
            b"111111111111111111111111111111111111111",
            DecimalFault::NotALiteral,
        ),
        (
            b"0.00000000000000000000000000000000000000",
            DecimalFault::NotALiteral,
        ),
        (b"01", DecimalFault::NotALiteral),
        (b"00", DecimalFault::NotALiteral),
        (b"-01", DecimalFault::NotALiteral),
        (b"1.", DecimalFault::NotALiteral),
        (b"1.e1", DecimalFault::NotALiteral),
        (b".5", DecimalFault::NotALiteral),
        (b"1e", DecimalFault::NotALiteral),
        (b"1e+", DecimalFault::NotALiteral),
        (b"1e0001", DecimalFault::NotALiteral),
        (b"1e+-1", DecimalFault::NotALiteral),
        (b"-", DecimalFault::NotALiteral),
        (b"--1", DecimalFault::NotALiteral),
        (b"+1", DecimalFault::NotALiteral),
        (b"", DecimalFault::NotALiteral),
        (b"1 ", DecimalFault::NotALiteral),
        (b" 1", DecimalFault::NotALiteral),
        (b"1a", DecimalFault::NotALiteral),
        (b"1.5.5", DecimalFault::NotALiteral),
        (b"1e5e5", DecimalFault::NotALiteral),
        (b"NaN", DecimalFault::NotALiteral),
    ];
    for (literal, fault) in faults {
        assert_eq!(rt; Decimal::read(literal), Err(fault));
    }
}

#[test]
fn orders(rt: HostRuntime) -> Result<(), Fail> {
    let table: [(&[u8], &[u8], Ordering); 12] = [
        (b"1e2", b"99", Ordering::Greater),
        (b"1e-1", b"0.09", Ordering::Greater),
        (b"-1e2", b"-99", Ordering::Less),
        (b"-1", b"0", Ordering::Less),
        (b"0", b"1e-900", Ordering::Less),
        (b"0", b"-1e-900", Ordering::Greater),
        (b"21.50", b"2150e-2", Ordering::Equal),
        (b"0", b"-0e5", Ordering::Equal),
        (b"1e900", b"9e-900", Ordering::Greater),
        (b"123", b"123.4", Ordering::Less),
        (
            b"9.9999999999999999999999999999999999999",
            b"10",
            Ordering::Less,
        ),
        (b"-2", b"1e-5", Ordering::Less),
    ];
    for (left, right, want) in table {
        assert_eq!(rt; Decimal::read(left)?.order(&Decimal::read(right)?), want);
    }
    Ok(())
}

#[test]
fn gives_whole_numbers(rt: HostRuntime) -> Result<(), Fail> {
    let table: [(&[u8], Option<i32>, Option<i64>); 15] = [
        (b"2147483647", Some(2147483647), Some(2147483647)),
        (b"2147483648", None, Some(2147483648)),
        (b"-2147483648", Some(-2147483648), Some(-2147483648)),
        (b"-2147483649", None, Some(-2147483649)),
        (b"1e9", Some(1000000000), Some(1000000000)),
        (b"1.5", None, None),
        (b"1e-1", None, None),
        (b"-15e1", Some(-150), Some(-150)),
        (b"0e-5", Some(0), Some(0)),
        (b"9223372036854775807", None, Some(9223372036854775807)),
        (b"9223372036854775808", None, None),
        (b"-9223372036854775808", None, Some(-9223372036854775808)),
        (b"-9223372036854775809", None, None),
        (b"1e18", None, Some(1000000000000000000)),
        (b"1e19", None, None),
    ];
    for (literal, small, large) in table {
        let decimal = Decimal::read(literal)?;
        assert_eq!(rt; decimal.as_i32(), small);
        assert_eq!(rt; decimal.as_i64(), large);
    }
    Ok(())
}

#[test]
fn holds_the_coefficient_in_halves(rt: HostRuntime) -> Result<(), Fail> {
    let table: [(&[u8], u64, u64, u128); 4] = [
        (b"-215e1", 0, 215, 215),
        (
            b"18446744073709551615",
            0,
            18446744073709551615,
            18446744073709551615,
        ),
        (b"18446744073709551617", 1, 1, 18446744073709551617),
        (
            b"99999999999999999999999999999999999999",
            5421010862427522170,
            687399551400673279,
            99999999999999999999999999999999999999,
        ),
    ];
    for (literal, high, low, coefficient) in table {
        let decimal = Decimal::read(literal)?;
        assert_eq!(rt; decimal.high, high);
        assert_eq!(rt; decimal.low, low);
        assert_eq!(rt; decimal.coefficient(), coefficient);
    }
    Ok(())
}

#[test]
fn is_equal_where_the_numbers_are(rt: HostRuntime) -> Result<(), Fail> {
    let decimal = Decimal::read(b"21.50")?;
    assert!(rt; decimal == Decimal::read(b"2150e-2")?);
    assert!(rt; decimal != Decimal::read(b"-21.50")?);
    Ok(())
}
