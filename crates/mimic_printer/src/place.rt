//! The places that texts are written to, and what these forbid.
ghost use Rattle.std.specs.Prelude.{◌≡◌};
ghost use Rattle.mimic_printer.specs.Places.{plain_byte};

/// Where a text is written.
#[derive(Clone, Copy, Debug, PartialEq, Eq)]
pub enum Place {
    /// Between tags of XML.
    Content,
    /// Between the quotes of an attribute's value in XML.
    Value,
    /// Between tags of HTML, or between the quotes of a value.
    Html,
    /// In a line of text, which U+2028 and U+2029 would end.
    Line,
    /// In a line on a terminal, which they don't end.
    Terminal,
}

impl Place {
    ghost use Rattle.std.specs.Prelude.{◌≡◌};
    ghost use Rattle.mimic_printer.specs.Places.{has_markup, has_quotes, has_breaks, is_forbidden, is_xml};

    pub(crate) fn is_xml(self) -> bool
        ensures { result ≡ is_xml self }
    {
        matches!(self, Place::Content | Place::Value)
    }

    pub(crate) fn has_markup(self) -> bool
        ensures { result ≡ has_markup self }
    {
        !matches!(self, Place::Line | Place::Terminal)
    }

    // Whether the byte can't be written there as it is.
    pub(crate) fn forbids(self, byte: u8) -> bool
        ensures { result ≡ is_forbidden self byte }
    {
        match byte {
            b'&' | b'<' | b'>' => self.has_markup(),
            b'"' => matches!(self, Place::Value | Place::Html),
            b'\t' | b'\n' => !matches!(self, Place::Content | Place::Html),
            127 => !self.is_xml(),
            _ => byte < b' ',
        }
    }
}

// Whether the byte is written as it is, wherever it is and whatever follows it.
pub(crate) fn is_plain(byte: u8) -> bool
    ensures { result ≡ plain_byte byte }
{
    byte >= b' '
        && !matches!(
            byte,
            b'&' | b'<' | b'>' | b'"' | b'\\' | 127 | 194 | 226 | 239
        )
}
