//! The words of cases, and the answers to the cases of everything below an instance (docs/CASES.md).
#![tactic(auto)]

/// Prints values one after the other; `?` before a value prints it as code writes it, and `@` as cases do.
#[macro_export]
macro_rules! put {
    ($case:expr;) => { () };
    ($case:expr; ? $value:expr $(, $($rest:tt)*)?) => {{ $case.debug($value); $crate::put!($case; $($($rest)*)?) }};
    ($case:expr; @ $value:expr $(, $($rest:tt)*)?) => {{ $value.print($case); $crate::put!($case; $($($rest)*)?) }};
    ($case:expr; $value:expr $(, $($rest:tt)*)?) => {{ $case.put($value); $crate::put!($case; $($($rest)*)?) }};
}

/// Prints values likewise, and ends the line.
#[macro_export]
macro_rules! say {
    ($case:expr; $($rest:tt)+) => {{ $crate::put!($case; $($rest)+); $case.put("\n") }};
}

/// Prints values about a named value, or `none` if there is no such value.
#[macro_export]
macro_rules! say_some {
    ($case:expr; $name:pat = $value:expr; $($rest:tt)+) => {
        match $value { Some($name) => $crate::say!($case; $($rest)+), None => $case.put("none\n") }
    };
}

/// Names a value, and returns if there is none.
#[macro_export]
macro_rules! given {
    ($name:pat = $value:expr) => { let Some($name) = $value else { return; }; };
}

pub mod common;
pub mod parts;
