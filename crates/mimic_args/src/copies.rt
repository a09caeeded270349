//! Texts copied into memory of their own.
ghost use Rattle.std.specs.Prelude.{◌≡◌, IfOk, map, option_map, string_bytes};

use std::alloc::{AllocError, Global};
use std::convert::AsStr;

pub(super) fn copied<S: AsStr>(
    alloc: Global,
    text: Option<&S>,
) -> Result<Option<String>, AllocError>
    ensures { IfOk result
        (λ t. option_map string_bytes t ≡ option_map (λ s. S.text s.now) text.entry) }
{
    match text {
        Some(text) => Ok(Some(String::from_str(alloc, text.as_str())?)),
        None => Ok(None),
    }
}

pub(super) fn all_copied<S: AsStr>(alloc: Global, texts: &[S]) -> Result<Vec<String>, AllocError>
    ensures { IfOk result (λ all. map string_bytes all.items ≡ map S.text texts.now) }
{
    let mut all = Vec::new(alloc);
    for text in texts {
        all.push(String::from_str(alloc, text.as_str())?)?;
    }
    Ok(all)
}
