//! Numbers and characters as texts. Expected values are worked by hand from the format's rules.
use mimic_trial::{escape_char, exact_seconds, fmt_with_thousand_sep, thousands};
use std::test::Fail;

static GROUPED: [(u64, &str); 5] = [
    (0, "0"),
    (999, "999"),
    (1000, "1,000"),
    (1_000_001, "1,000,001"),
    (u64::MAX, "18,446,744,073,709,551,615"),
];

#[test]
fn groups_thousands(rt: HostRuntime) -> Result<(), Fail> {
    for (number, want) in &GROUPED {
        assert!(rt; thousands(*number, &mut [0; 26]) == *want);
        let owned = fmt_with_thousand_sep(rt.alloc(), *number)?;
        assert!(rt; owned.as_str() == *want);
    }
    Ok(())
}

static ESCAPED: [(char, &str); 15] = [
    ('"', "\\\""),
    ('\\', "\\\\"),
    ('\u{8}', "\\b"),
    ('\t', "\\t"),
    ('\n', "\\n"),
    ('\u{c}', "\\f"),
    ('\r', "\\r"),
    ('\u{0}', "\\u0000"),
    ('\u{b}', "\\u000b"),
    ('\u{1f}', "\\u001f"),
    (' ', " "),
    ('/', "/"),
    ('\u{7f}', "\u{7f}"),
    ('\u{e9}', "\u{e9}"),
    ('\u{1f600}', "\u{1f600}"),
];

#[test]
fn escapes_characters(rt: HostRuntime) {
    for (character, want) in &ESCAPED {
        assert!(rt; escape_char(*character).as_str() == *want);
    }
}

static SECONDS: [(u64, &str); 7] = [
    (0, "0"),
    (1, "0.000000001"),
    (4_999_999, "0.004999999"),
    (1_000_000_000, "1"),
    (1_500_000_000, "1.5"),
    (10_000_000_000, "10"),
    (u64::MAX, "18446744073.709551615"),
];

#[test]
fn tells_exact_seconds(rt: HostRuntime) {
    for (nanos, want) in &SECONDS {
        assert!(rt; exact_seconds(*nanos, &mut [b'x'; 32]) == *want);
    }
}
