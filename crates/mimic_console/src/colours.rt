//! Whether somebody sees colours.
use std::env::FillError;
use std::io::IsTerminal;
use std::rt::Env;

/// Whether a report to this output has colours, if nothing else is asked: the output is a terminal, the variable `TERM` is
/// set and not `dumb`, and `NO_COLOR` is not set, or is empty.
pub fn shows_colours<R: Env, O: IsTerminal>(env: &R, out: &O) -> bool {
    out.is_terminal() && has_colours(env) && !are_unwanted(env)
}

// Whether the terminal of this environment can show colours.
fn has_colours<R: Env>(env: &R) -> bool {
    let mut term = [0; 4];
    match env.var("TERM", &mut term) {
        Ok(count) => term[..count] != b"dumb"[..],
        Err(FillError::TooLong) => true,
        Err(FillError::NotPresent) => false,
    }
}

// Whether the user of this environment wants no colours.
fn are_unwanted<R: Env>(env: &R) -> bool {
    !matches!(
        env.var("NO_COLOR", &mut [0; 1]),
        Ok(0) | Err(FillError::NotPresent)
    )
}
