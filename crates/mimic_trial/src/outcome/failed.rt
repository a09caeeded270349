//! Why a trial failed.
ghost use Rattle.std.specs.Prelude.{◌≡◌, ◌↔◌, Some, None, IsSome, IsTrue, IfSome, IfErr, IfOk, IsUtf8, string_bytes};
ghost use Rattle.std.specs.Option.{option_copied};
ghost use Rattle.std.specs.Result.{is_ok};
ghost use Rattle.std.specs.Cmp.Rules.{comparing};
ghost use Rattle.std.proofs.Common.{rules};
ghost use Rattle.mimic_trial.specs.Failed.{not_measured_text, out_of_memory_text, same_text};

use crate::outcome::Outcome;
use std::alloc::{AllocError, Global};
use std::fmt;
use std::fmt::{Debug, Display};
use std::marker::Model;

/// The failure of a trial, with a message or without one. Contracts see it as an optional text.
#[derive(Drop)]
pub struct Failed {
    message: Message,
}

// What a failure says. Two texts take no memory.
#[derive(Drop)]
enum Message {
    Nothing,
    NotMeasured,
    OutOfMemory,
    Text(String),
}

const NOT_MEASURED: &str = "bench runner returned `Ok(None)` in bench mode";

const OUT_OF_MEMORY: &str = "out of memory";

impl Model for Failed {
    ghost use Rattle.std.specs.Prelude.{ℕ, List, Option, IfSome, IsUtf8};
    ghost use Rattle.mimic_trial.specs.Failed.{message_text};

    ghost Value = { Option (List ℕ) };

    ghost view = { λ f. message_text f.message };

    ghost invariant = { λ f. IfSome (message_text f.message) IsUtf8 };
}

impl Failed {
    /// Makes a failure without a message.
    pub fn without_message() -> Self
        ensures { result ≡ None }
    {
        Failed {
            message: Message::Nothing,
        }
    }

    /// Makes a failure with this message, which may be empty.
    pub fn with_message(message: String) -> Self
        ensures { result ≡ Some (string_bytes message) }
    {
        Failed {
            message: Message::Text(message),
        }
    }

    /// Makes a failure whose message is what the value displays.
    ///
    /// It returns an `Err` if an allocation failed, or the value's own `Display`.
    pub fn from_display<M: Display>(alloc: Global, message: &M) -> Result<Self, AllocError>
        ensures some { IfOk result (λ f. IsSome f) }
        ensures kept { IfOk result (λ f. IfSome (M.output message.now) (λ text. f ≡ Some text)) }
    {
        Ok(Failed::with_message(message.to_string(alloc)?))
    }

    /// Like `from_display`, for callers that need a `Failed` in any case: if an allocation failed, or the value's own
    /// `Display`, it has no message.
    pub fn because<M: Display>(alloc: Global, reason: &M) -> Self
        ensures { IfSome result (λ text. IfSome (M.output reason.now) (λ shown. text ≡ shown)) }
    {
        Failed::from_display(alloc, reason).unwrap_or(Failed::without_message())
    }

    /// Returns `Ok` if the condition holds, else a failure whose message is what the value displays, as `because` makes it.
    pub fn unless<M: Display>(alloc: Global, condition: bool, reason: &M) -> Result<(), Self>
        ensures passed { is_ok result ≡ condition }
        ensures failed { IfErr result
            (λ f. IfSome f (λ text. IfSome (M.output reason.now) (λ shown. text ≡ shown))) }
    {
        if condition {
            Ok(())
        } else {
            Err(Failed::because(alloc, reason))
        }
    }

    /// Returns `Ok` if both values are equal, else a failure that shows both, in the words of `assert_eq!`.
    pub fn unless_equal<T: PartialEq + Debug>(
        alloc: Global,
        left: &T,
        right: &T,
    ) -> Result<(), Self>
        ensures { is_ok result ≡ T.eq left.now right.now }
    {
        let reason = format_args!(
            "assertion `left == right` failed\n  left: {left:?}\n right: {right:?}"
        );
        Failed::unless(alloc, left == right, &reason)
    }

    /// Returns the value of an `Ok`, else a failure whose message is what the error displays, as `because` makes it.
    pub fn unless_ok<T, X: Display + Drop>(alloc: Global, given: Result<T, X>) -> Result<T, Self>
        ensures value { IfOk given (λ value. result ≡ Ok value) }
        ensures failed { IfErr given (λ error. IfErr result
            (λ f. IfSome f (λ text. IfSome (X.output error) (λ shown. text ≡ shown)))) }
        ensures refused { is_ok result ≡ is_ok given }
    {
        match given {
            Ok(value) => Ok(value),
            Err(error) => Err(Failed::because(alloc, &error)),
        }
    }

    /// Returns an equal failure, or an `Err` if there is no memory for its message.
    pub fn try_clone(&self, alloc: Global) -> Result<Self, AllocError>
        ensures { IfOk result (λ f. f ≡ self.now) }
    {
        match &self.message {
            Message::Text(message) => {
                let copy = String::from_str(alloc, message.as_str())?;
                Ok(Failed::with_message(copy))
            }
            Message::NotMeasured => Ok(Failed::not_measured()),
            Message::OutOfMemory => Ok(AllocError.into()),
            Message::Nothing => Ok(Failed::without_message()),
        }
    }

    // Makes the failure of a benchmark that measured nothing in bench mode.
    pub(crate) fn not_measured() -> Self
        ensures { result ≡ Some not_measured_text }
    {
        Failed {
            message: Message::NotMeasured,
        }
    }

    // Makes the outcome of a trial that failed with this. Only here, where fields can be seen, is the message known to be text.
    pub(crate) fn into_outcome(self) -> Outcome
        ensures outcome { result ≡ Outcome.Failed self }
        ensures text { IfSome self IsUtf8 }
    {
        let _message = &self.message;
        Outcome::Failed(self)
    }

    /// Returns the message, if there is one.
    pub fn message(&self) -> Option<&str>
        ensures { option_copied result ≡ self.now }
    {
        match &self.message {
            Message::Text(message) => Some(message.as_str()),
            Message::NotMeasured => Some(NOT_MEASURED),
            Message::OutOfMemory => Some(OUT_OF_MEMORY),
            Message::Nothing => None,
        }
    }
}

/// A test whose allocation fails returns this with `?`. Its message, `out of memory`, takes no memory.
impl From<AllocError> for Failed {
    ghost from_gives = { λ _ f. f ≡ Some out_of_memory_text };

    fn from(_error: AllocError) -> Failed {
        Failed {
            message: Message::OutOfMemory,
        }
    }
}

// Shows the message alone, whichever way it is kept, as the Rust crate does.
impl fmt::Debug for Failed {
    fn fmt<W: fmt::Write>(&self, f: &mut fmt::Formatter<W>) -> fmt::Result {
        f.debug_struct("Failed")
            .field("msg", &self.message())
            .finish()
    }
}

impl PartialEq for Failed {
    ghost eq = { same_text };

    ghost laws = { Prim.search (comparing, rules) };

    /// Whether both have the same text, or none.
    fn eq(&self, other: &Failed) -> bool
        ensures computed { result ≡ same_text self.now other.now }
        ensures same { IsTrue result ↔ (self.now ≡ other.now) }
    {
        match (self.message(), other.message()) {
            (Some(mine), Some(theirs)) => mine == theirs,
            (None, None) => true,
            _ => false,
        }
    }
}

impl Eq for Failed {
    ghost laws = { Prim.search (comparing, rules) };
}
