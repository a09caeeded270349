//! Why a command line gives no arguments.
ghost use Rattle.std.specs.Prelude.{◌≡◌, IfOk};
ghost use Rattle.mimic_args.specs.Line.{IsBecause};
ghost use Rattle.mimic_args.specs.declared.error.ArgumentsError.TheVariants.{OutOfMemory, Refused};

use std::alloc::{AllocError, Global};
use std::fmt::Display;
use thiserror::Error;

/// Why a command line gives no arguments. Its text is meant for the user.
#[derive(Debug, Drop, Error)]
pub enum ArgumentsError {
    /// An allocation failed.
    #[error("out of memory")]
    OutOfMemory,
    /// Help was asked for: the text of the help.
    #[error("{0}")]
    Help(String),
    /// The line was refused: what is wrong with it, and how the program is used.
    #[error("{0}")]
    Refused(String),
}

impl ArgumentsError {
    /// Makes the refusal of a line whose words are wrong, in the form of `clap`'s: `error: `, what the reason displays, an empty
    /// line, and the usage. It is `OutOfMemory` if an allocation failed, or the reason's own `Display`.
    pub fn because<M: Display>(alloc: Global, reason: &M, usage: &str) -> ArgumentsError
        ensures { IsBecause (M.output reason.now) usage.now result }
    {
        match text_because(alloc, reason, usage) {
            Ok(text) => ArgumentsError::Refused(text),
            Err(error) => error.into(),
        }
    }
}

fn text_because<M: Display>(alloc: Global, reason: &M, usage: &str) -> Result<String, AllocError>
    ensures { IfOk result (λ text. IsBecause (M.output reason.now) usage.now (Refused text)) }
{
    let mut text = String::from_str(alloc, "error: ")?;
    text.push_str(reason.to_string(alloc)?.as_str())?;
    text.push_str("\n\n")?;
    text.push_str(usage)?;
    Ok(text)
}

impl From<AllocError> for ArgumentsError {
    ghost from_gives = { λ _ error. error ≡ OutOfMemory };

    fn from(_error: AllocError) -> ArgumentsError {
        ArgumentsError::OutOfMemory
    }
}
