//! The members of a line that is an array: what each is, and how the line has it.
use serde_json::Value;
use std::alloc::{AllocError, Global};

/// A member of a line: what it is, and how the line has it.
#[derive(Clone, Copy, Debug)]
pub struct Member<'a> {
    pub value: &'a Value,
    pub text: &'a str,
}

impl<'a> Member<'a> {
    // The text of a string.
    pub(crate) fn as_str(self) -> Option<&'a str> {
        self.value.as_str()
    }
}

// Where in a line of JSON a reader is.
#[derive(Clone, Copy, Debug)]
struct Place {
    /// How many brackets and braces are open.
    depth: usize,
    is_string: bool,
    is_escaped: bool,
}

impl Place {
    const START: Place = Place {
        depth: 0,
        is_string: false,
        is_escaped: false,
    };

    // The place behind a character.
    fn after(self, character: char) -> Place {
        let Place {
            depth,
            is_string,
            is_escaped,
        } = self;
        let place = match character {
            _ if is_escaped => Place {
                is_escaped: false,
                ..self
            },
            '\\' if is_string => Place {
                is_escaped: true,
                ..self
            },
            '"' => Place {
                is_string: !is_string,
                ..self
            },
            '[' | '{' if !is_string => Place {
                depth: depth.saturating_add(1),
                ..self
            },
            ']' | '}' if !is_string => Place {
                depth: depth.saturating_sub(1),
                ..self
            },
            _ => self,
        };
        place
    }

    // Whether a member of the line ends before a character.
    fn ends_member(self, character: char) -> bool {
        self.depth == 1 && !self.is_string && matches!(character, ',' | ']')
    }
}

// The texts of the members of a line that is an array.
fn texts_in(alloc: Global, line: &str) -> Result<Vec<&str>, AllocError> {
    let mut texts = Vec::new(alloc);
    let mut place = Place::START;
    let mut from = 0_usize;
    'characters: for (at, character) in line.char_indices() {
        if place.ends_member(character) {
            texts.push(line.get(from..at).unwrap_or_default().trim())?;
        }
        let next = place.after(character);
        if place.ends_member(character) || (place.depth == 0 && next.depth == 1) {
            from = at.saturating_add(1);
        }
        place = next;
    }
    Ok(texts)
}

/// The members of a line that is this array.
pub fn members_in<'a>(
    alloc: Global,
    line: &'a str,
    values: &'a [Value],
) -> Result<Vec<Member<'a>>, AllocError> {
    let texts = texts_in(alloc, line)?;
    let mut members = Vec::new(alloc);
    'members: for (value, text) in values.iter().zip(&texts) {
        members.push(Member { value, text: *text })?;
    }
    Ok(members)
}
