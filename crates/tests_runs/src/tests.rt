//! What no clause says: whole reports as texts, flushes, and which runners were called; and rows of selection.
//! Expected texts are worked by hand from the format's rules, and those of the Rust crate.
mod checks;
mod first_page;
mod in_memory;
mod large;
mod marks;
mod reports;
mod runners;
mod runs;
mod selection;
mod times;

// A test of this name over the closure.
macro_rules! test_trial {
    ($alloc:expr, $name:expr, $runner:expr) => {{
        let runner: Box<dyn FnOnce() -> Result<(), Failed> + Send> = Box::new($alloc, $runner)?;
        Trial::test(String::from_str($alloc, $name)?, runner)
    }};
}

use test_trial;

// A benchmark of this name over the closure.
macro_rules! bench_trial {
    ($alloc:expr, $name:expr, $runner:expr) => {{
        let runner: Box<dyn FnOnce(bool) -> Result<Option<Measurement>, Failed> + Send> = Box::new(
            $alloc,
            $runner,
        )?;
        Trial::bench(String::from_str($alloc, $name)?, runner)
    }};
}

use bench_trial;
