//! Checks for tests: an `Ok`, or the failure to return. If an allocation failed, a failure has no message.

/// `Ok(())` if the condition holds, else a failure: `check!(in alloc; a < b)?`.
///
/// Its message is the condition, or a text of one's own: `check!(in alloc; a < b, "{a} is too large")?`.
#[macro_export]
macro_rules! check {
    (in $alloc:expr; $condition:expr $(,)?) => {
        $crate::Failed::unless(
            $alloc,
            $condition,
            &concat!("check failed: ", stringify!($condition)),
        )
    };
    (in $alloc:expr; $condition:expr, $($message:tt)+) => {
        $crate::Failed::unless($alloc, $condition, &format_args!($($message)+))
    };
}

/// `Ok(())` if both values are equal, else a failure whose message shows both: `check_eq!(in alloc; total, 3)?`.
#[macro_export]
macro_rules! check_eq {
    (in $alloc:expr; $left:expr, $right:expr $(,)?) => {
        $crate::Failed::unless_equal($alloc, &$left, &$right)
    };
}

/// The value of an `Ok`, else a failure whose message is the error: `let bytes = check_ok!(in alloc; decode(text))?`.
///
/// A text of one's own comes before the error: `check_ok!(in alloc; decode(text), "cannot decode {text}")?`.
#[macro_export]
macro_rules! check_ok {
    (in $alloc:expr; $result:expr $(,)?) => {
        $crate::Failed::unless_ok($alloc, $result)
    };
    (in $alloc:expr; $result:expr, $($message:tt)+) => {
        match $result {
            Ok(value) => Ok(value),
            Err(error) => Err($crate::fail!(in $alloc; "{}: {error}", format_args!($($message)+))),
        }
    };
}

/// The failure with this message: `Err(fail!(in alloc; "{a} is too large"))`.
#[macro_export]
macro_rules! fail {
    (in $alloc:expr; $($message:tt)+) => {
        $crate::Failed::because($alloc, &format_args!($($message)+))
    };
}
