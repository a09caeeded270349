//! Tagged JSON, in which toml-test writes the values of a document: `{"type": "integer", "value": "1"}`. Arrays and tables are
//! those of JSON.
use libtest_mimic::{Failed, check, fail};
use serde_json::{Map, Value};
use std::alloc::{AllocError, Global};
use std::fmt::Display;
use toml::value::{Array, Datetime, Table};

// The tagged JSON of a value.
#[cycle(tagged)]
fn tagged(alloc: Global, value: &toml::Value) -> Result<Value, AllocError> {
    match value {
        toml::Value::String(text) => tagged_leaf(alloc, "string", text),
        toml::Value::Integer(number) => tagged_leaf(alloc, "integer", number),
        toml::Value::Float(number) => tagged_leaf(alloc, "float", number),
        toml::Value::Boolean(flag) => tagged_leaf(alloc, "bool", flag),
        toml::Value::Datetime(moment) => tagged_leaf(alloc, type_of(moment), moment),
        toml::Value::Array(values) => tagged_array(alloc, values),
        toml::Value::Table(table) => tagged_table(alloc, table),
    }
}

#[cycle(tagged)]
fn tagged_array(alloc: Global, values: &Array) -> Result<Value, AllocError> {
    let mut items = Vec::new(alloc);
    for value in values {
        items.push(tagged(alloc, value)?)?;
    }
    Ok(Value::Array(items))
}

/// The tagged JSON of a table.
#[cycle(tagged)]
pub(crate) fn tagged_table(alloc: Global, table: &Table) -> Result<Value, AllocError> {
    let mut members = Map::new(alloc);
    for (key, value) in table {
        members.insert(key.clone()?, tagged(alloc, value)?)?;
    }
    Ok(Value::Object(members))
}

fn tagged_leaf<T: Display>(alloc: Global, type_name: &str, value: &T) -> Result<Value, AllocError> {
    let mut members = Map::new(alloc);
    let type_name = String::from_str(alloc, type_name)?;
    members.insert(String::from_str(alloc, "type")?, Value::String(type_name))?;
    let text = value.to_string(alloc)?;
    members.insert(String::from_str(alloc, "value")?, Value::String(text))?;
    Ok(Value::Object(members))
}

fn type_of(moment: &Datetime) -> &'static str {
    match (moment.date, moment.time, moment.offset) {
        (Some(_), Some(_), Some(_)) => "datetime",
        (Some(_), Some(_), None) => "datetime-local",
        (Some(_), None, _) => "date-local",
        (None, _, _) => "time-local",
    }
}

// A value that is no array and no table.
#[derive(Clone, Copy)]
struct Leaf<'a> {
    type_name: &'a str,
    text: &'a str,
}

impl<'a> Leaf<'a> {
    // The members of a table are values, and those of a leaf are texts.
    fn of(members: &'a Map<String, Value>) -> Option<Leaf<'a>> {
        Some(Leaf {
            type_name: members.get("type")?.as_str()?,
            text: members.get("value")?.as_str()?,
        })
    }

    // Floats and times have several texts.
    fn is_same(self, other: Leaf<'_>) -> bool {
        let (text, other_text) = (self.text, other.text);
        self.type_name == other.type_name
            && match self.type_name {
                "float" => is_same_float(text, other_text),
                "datetime" | "datetime-local" | "date-local" | "time-local" => {
                    is_same_moment(text, other_text)
                }
                _ => text == other_text,
            }
    }
}

/// Fails at the first value of tagged JSON that is another one. The place is where the values are in their documents: the keys and
/// indices that lead there, with a slash before each.
#[cycle(check)]
pub(crate) fn check_tagged(
    alloc: Global,
    place: &str,
    expected: &Value,
    answered: &Value,
) -> Result<(), Failed> {
    let is_same = match (expected, answered) {
        (Value::Array(expected), Value::Array(answered)) if expected.len() == answered.len() => {
            return check_items(alloc, place, expected, answered);
        }
        (Value::Object(expected), Value::Object(answered)) => match (
            Leaf::of(expected),
            Leaf::of(answered),
        ) {
            (Some(expected), Some(answered)) => expected.is_same(answered),
            (None, None) => return check_members(alloc, place, expected, answered),
            _ => false,
        },
        _ => false,
    };
    check!(in alloc; is_same, "{place}: expected {expected}, answered {answered}")
}

#[cycle(check)]
fn check_items(
    alloc: Global,
    place: &str,
    expected: &Vec<Value>,
    answered: &Vec<Value>,
) -> Result<(), Failed> {
    for (index, (expected, answered)) in expected.iter().zip(answered).enumerate() {
        let place = format!(in alloc; "{place}/{index}")?;
        check_tagged(alloc, place.as_str(), expected, answered)?;
    }
    Ok(())
}

#[cycle(check)]
fn check_members(
    alloc: Global,
    place: &str,
    expected: &Map<String, Value>,
    answered: &Map<String, Value>,
) -> Result<(), Failed> {
    for (key, expected) in expected {
        let place = format!(in alloc; "{place}/{key}")?;
        match answered.get(key) {
            Some(answered) => check_tagged(alloc, place.as_str(), expected, answered)?,
            None => return Err(fail!(in alloc; "{place}: expected {expected}, answered nothing")),
        }
    }
    match answered
        .iter()
        .find(|(key, _)| !expected.contains_key(*key))
    {
        Some((key, answered)) => {
            Err(fail!(in alloc; "{place}/{key}: expected nothing, answered {answered}"))
        }
        None => Ok(()),
    }
}

fn is_same_float(expected: &str, answered: &str) -> bool {
    match (expected.parse::<f64>(), answered.parse::<f64>()) {
        (Ok(expected), Ok(answered)) => {
            expected == answered || (expected.is_nan() && answered.is_nan())
        }
        _ => false,
    }
}

fn is_same_moment(expected: &str, answered: &str) -> bool {
    match (expected.parse::<Datetime>(), answered.parse::<Datetime>()) {
        (Ok(expected), Ok(answered)) => expected == answered,
        _ => false,
    }
}
