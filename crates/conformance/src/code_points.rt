//! Code points in hexadecimal, as Unicode's files have them.
use crate::error::LineError;
use std::alloc::Global;
use std::fmt;

/// The text of the code points, which the separator is between.
pub(crate) fn text_of(alloc: Global, digits: &str, separator: char) -> Result<String, LineError> {
    let mut text = String::new(alloc);
    for word in digits.split(separator) {
        let word = word.trim();
        let code_point = u32::from_str_radix(word, 16).ok();
        let Some(character) = code_point.and_then(char::from_u32) else {
            return Err(LineError::CodePoint(String::from_str(alloc, word)?));
        };
        text.push(character)?;
    }
    Ok(text)
}

/// Shows the code points of a text, with the separator between them.
#[derive(Clone, Copy)]
pub(crate) struct CodePoints<'a> {
    pub(crate) text: &'a str,
    pub(crate) separator: &'static str,
}

impl fmt::Display for CodePoints<'_> {
    fn fmt<W: fmt::Write>(&self, f: &mut fmt::Formatter<W>) -> fmt::Result {
        for (index, character) in self.text.chars().enumerate() {
            if index > 0 {
                f.write_str(self.separator)?;
            }
            write!(f, "{:04X}", u32::from(character))?;
        }
        Ok(())
    }
}
