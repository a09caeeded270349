//! The numbers in the names of files: the order of shards that they give, and which shards have no file.
ghost use Rattle.std.specs.Prelude.{◌≡◌, IfOk, OnOk, map};
ghost use Rattle.std.specs.List.Sorted.{IsPermutation};

use crate::input::STANDARD;
use crate::line::{Join, LineError};
use std::alloc::{AllocError, Global};
use std::fmt;

// How many absent shards are named at most.
const MOST_NAMED: usize = 20;

// A file, and the numbers in its name.
#[derive(Debug, Drop)]
struct NumberedFile {
    file: String,
    numbers: Vec<u64>,
}

/// Returns the files in the order of the numbers in their names, which is that of their lists of numbers. If two have the same
/// numbers, or one is standard input, there is no such order.
pub(crate) fn in_order(alloc: Global, files: Vec<String>) -> Result<Vec<String>, LineError>
    ensures { IfOk result (λ sorted. IsPermutation files.items sorted.items) }
{
    if files.iter().any(|file| file.as_str() == STANDARD) {
        return Err(LineError::NamelessInput);
    }
    let mut named = with_numbers(alloc, files)?;
    sort(&mut named)?;
    if let Some((first, second)) = equal_pair(&named) {
        return Err(LineError::SameNumbers {
            first: first.file.clone()?,
            second: second.file.clone()?,
        });
    }
    Ok(files_of(alloc, named)?)
}

fn with_numbers(alloc: Global, files: Vec<String>) -> Result<Vec<NumberedFile>, AllocError>
    ensures { IfOk result (λ named. map (λ it. it.file) named.items ≡ files.items) }
{
    let mut named = Vec::with_capacity(alloc, files.len())?;
    for file in files {
        let numbers = numbers_in(alloc, file.as_str())?;
        named.push(NumberedFile { file, numbers })?;
    }
    Ok(named)
}

fn files_of(alloc: Global, named: Vec<NumberedFile>) -> Result<Vec<String>, AllocError>
    ensures { IfOk result (λ files. files.items ≡ map (λ it. it.file) named.items) }
{
    let mut files = Vec::with_capacity(alloc, named.len())?;
    for NumberedFile { file, numbers: _ } in named {
        files.push(file)?;
    }
    Ok(files)
}

fn sort(named: &mut Vec<NumberedFile>) -> Result<(), AllocError>
    ensures { OnOk result (IsPermutation named.old.items named.new.items) }
{
    named.sort_by(|first, second| first.numbers.cmp(&second.numbers))
}

// Returns the first two neighbours that have the same numbers.
fn equal_pair(named: &[NumberedFile]) -> Option<(&NumberedFile, &NumberedFile)> {
    for pair in named.windows(2) {
        if let [first, second] = pair
            && first.numbers == second.numbers
        {
            return Some((first, second));
        }
    }
    None
}

// Returns all numbers in the name, in their order. Each is a run of digits, and at most `u64::MAX`.
fn numbers_in(alloc: Global, name: &str) -> Result<Vec<u64>, AllocError> {
    // Digits are refused only if there are too many.
    name.split(|c: char| !c.is_ascii_digit())
        .filter(|digits| !digits.is_empty())
        .map(|digits| digits.parse::<u64>().unwrap_or(u64::MAX))
        .collect(alloc)
}

/// The shards that have no file. It is shown how many they are, and of at most 20 the numbers, if the files' names say them.
#[derive(Debug, Drop)]
pub(crate) struct Absent {
    count: usize,
    shards: usize,
    numbers: Vec<u64>,
}

impl Absent {
    /// Returns the shards that have no file, if there are fewer files than shards. Their numbers aren't known either if there is no
    /// memory for them.
    pub(crate) fn of(alloc: Global, join: &Join) -> Option<Absent> {
        let (files, shards) = (join.files.as_slice(), join.shards);
        if files.len() >= shards {
            return None;
        }
        let numbers = if join.by_name {
            absent_numbers(alloc, files, shards as u64).unwrap_or(Vec::new(alloc))
        } else {
            Vec::new(alloc)
        };
        Some(Absent {
            count: shards - files.len(),
            shards,
            numbers,
        })
    }
}

impl fmt::Display for Absent {
    fn fmt<W: fmt::Write>(&self, f: &mut fmt::Formatter<W>) -> fmt::Result {
        write!(f, "no report of {} of {} shards", self.count, self.shards)?;
        for (place, number) in self.numbers.iter().enumerate() {
            let before = if place == 0 { ": " } else { ", " };
            write!(f, "{before}{number}")?;
        }
        if !self.numbers.is_empty() && self.numbers.len() < self.count {
            write!(f, ", ..")?;
        }
        Ok(())
    }
}

// Returns the first numbers of shards that none of these files has, which are in order. There are none if the names don't say which
// shards the files are of.
fn absent_numbers(alloc: Global, files: &[String], shards: u64) -> Result<Vec<u64>, AllocError> {
    let numbers = shard_numbers(alloc, files)?;
    let Some(first) = first_number(&numbers, shards) else {
        return Ok(Vec::new(alloc));
    };
    let last = first.saturating_add(shards.saturating_sub(1));
    (first..=last)
        .filter(|number| numbers.binary_search(number).is_err())
        .take(MOST_NAMED)
        .collect(alloc)
}

// Returns the number of each file's shard, which is the first one that isn't the same in the first and the last name. There are none
// if both names have the same numbers as far as they go. In between, all numbers before it are the same too.
fn shard_numbers(alloc: Global, files: &[String]) -> Result<Vec<u64>, AllocError> {
    let mut numbers = Vec::new(alloc);
    let Some(place) = shard_place(alloc, files)? else {
        return Ok(numbers);
    };
    for file in files {
        if let Some(number) = numbers_in(alloc, file.as_str())?.get(place) {
            numbers.push(*number)?;
        }
    }
    Ok(numbers)
}

fn shard_place(alloc: Global, files: &[String]) -> Result<Option<usize>, AllocError> {
    let (Some(first), Some(last)) = (files.first(), files.last()) else {
        return Ok(None);
    };
    let first = numbers_in(alloc, first.as_str())?;
    let last = numbers_in(alloc, last.as_str())?;
    Ok(
        first
            .iter()
            .zip(last.iter())
            .position(|(one, other)| one != other),
    )
}

// Returns the number from which on shards count, 0 or 1, if these can be the numbers of `shards` shards.
fn first_number(numbers: &[u64], shards: u64) -> Option<u64> {
    if !numbers.is_sorted_by(|one, next| one < next) {
        return None;
    }
    match (numbers.first(), numbers.last()) {
        (Some(0), Some(last)) if *last < shards => Some(0),
        (Some(first), Some(last)) if *first > 0 && *last == shards => Some(1),
        _ => None,
    }
}
