//! Finds out whether failures have other messages in one report than in another.
ghost use Rattle.std.specs.Prelude.{◌≡◌, IfOk, List};
ghost use Rattle.std.specs.List.{list_any};
ghost use Rattle.std.specs.Option.{option_copied};
ghost use Rattle.mimic_trial.specs.declared.outcome.Outcome.TheVariants as outcome;
ghost use Rattle.mimic_compare.specs.Classes.{frequency, have_other_messages, is_other};
ghost use Rattle.mimic_compare.specs.Fates.{Fate};
ghost use Rattle.mimic_compare.specs.Messages.{HasCounts};

use crate::fates::KeptFate;
use std::alloc::{AllocError, Global};
use std::collections::HashMap;
use std::hash::BuildHasher;

// How often each message comes in failures. Those without a message have `None`.
type MessageCounts<'a, S> = HashMap<Option<&'a str>, u64, S>;

// Returns how often the message was counted.
fn count_of_message<'a, S: BuildHasher>(
    counted: &MessageCounts<'a, S>,
    message: Option<&'a str>,
) -> u64
    ensures { (fates : List Fate) → HasCounts counted.now fates
        → result ≡ frequency (outcome.Failed (option_copied message.entry)) fates }
{
    counted.get(&message).copied().unwrap_or(0)
}

// Counts how often each message comes in the failures.
fn message_counts<S: BuildHasher + Drop>(
    alloc: Global,
    hash_builder: S,
    fates: &[KeptFate],
) -> Result<MessageCounts<'_, S>, AllocError>
    ensures { IfOk result (λ counted. HasCounts counted fates.now) }
{
    let mut counted = HashMap::with_hasher(alloc, hash_builder);
    for fate in fates {
        if let Some(failed) = fate.failed() {
            let before = count_of_message(&counted, failed.message());
            counted.insert(failed.message(), before + 1)?;
        }
    }
    Ok(counted)
}

// Whether the row is a failure whose message comes more often in one report than in the other.
fn is_other<'a, S: BuildHasher>(
    fate: &'a KeptFate,
    old: &MessageCounts<'a, S>,
    new: &MessageCounts<'a, S>,
) -> bool
    ensures { (before after : List Fate) → HasCounts old.now before → HasCounts new.now after
        → result ≡ is_other before after fate.now }
{
    match fate.failed() {
        Some(failed) => count_of_message(old, failed.message())
            != count_of_message(new, failed.message()),
        None => false,
    }
}

// Whether one of the rows is such a failure.
fn are_other<'a, S: BuildHasher>(
    fates: &'a [KeptFate],
    old: &MessageCounts<'a, S>,
    new: &MessageCounts<'a, S>,
) -> bool
    ensures { (before after : List Fate) → HasCounts old.now before → HasCounts new.now after
        → result ≡ list_any (is_other before after) fates.now }
{
    for fate in fates {
        if is_other(fate, old, new) {
            return true;
        }
    }
    false
}

// Whether one report has a failure more often than the other.
pub(crate) fn have_other_messages<S: BuildHasher + Copy>(
    alloc: Global,
    hash_builder: S,
    old: &[KeptFate],
    new: &[KeptFate],
) -> Result<bool, AllocError>
    ensures { IfOk result (λ other. other ≡ have_other_messages old.now new.now) }
{
    let old_counts = message_counts(alloc, hash_builder, old)?;
    let new_counts = message_counts(alloc, hash_builder, new)?;
    Ok(are_other(old, &old_counts, &new_counts) || are_other(new, &old_counts, &new_counts))
}
