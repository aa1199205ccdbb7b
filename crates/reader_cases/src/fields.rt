//! The fields of a case.

use std::io::{self, ErrorKind};
use std::str::{FromStr, Split};

/// The fields of a case that weren't taken yet.
#[derive(Drop)]
pub struct Fields<'a> {
    parts: Split<'a, char>,
}

impl<'a> Fields<'a> {
    /// The fields of a text, with the mark between them.
    pub fn between(text: &'a str, mark: char) -> Fields<'a> {
        Fields {
            parts: text.split(mark),
        }
    }

    /// The fields that weren't taken yet, one by one.
    pub fn rest(self) -> Split<'a, char> {
        self.parts
    }

    /// The next field. It fails where there is none.
    pub fn text(&mut self) -> io::Result<&'a str> {
        match self.parts.next() {
            Some(text) => Ok(text),
            None => Err(ErrorKind::InvalidInput.into()),
        }
    }

    /// The number of the next field. It fails where it is no number of the type.
    pub fn number<T: FromStr>(&mut self) -> io::Result<T>
    where
        T::Err: Drop,
    {
        match self.text()?.parse() {
            Ok(number) => Ok(number),
            Err(_) => Err(ErrorKind::InvalidInput.into()),
        }
    }
}
