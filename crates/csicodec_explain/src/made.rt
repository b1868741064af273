//! The text of an action, found by trying. A text is taken only if `explain` says of it what the object does.
//!
//! ```text
//! {"actions":[{"action":"Cursor::Up","value":7}]}            ESC [ 7 A
//! {"actions":[{"action":"Cursor::Up","value":"seven"}]}      none, and csicodec_listing refuses the line
//! ```

use crate::Result;
use crate::explain::Explainer;
use crate::fill::append_filled;
use crate::patterns::PATTERNS;
use csicodec_listing::Finds;
use csicodec_listing::style::Style;
use csicodec_spans::LIMIT;
use memchr::memmem::find;
use serde_json::Value;
use std::alloc::{AllocError, Global};

/// The largest number that a pattern is tried with, where a name stands for one: all buttons and modifiers of a mouse are below.
const MOST: u8 = 255;

/// Finds texts of actions.
#[derive(Drop)]
pub struct Maker {
    alloc: Global,
    /// What tells of each text that is tried.
    explainer: Explainer<'static>,
    /// The text that is tried.
    text: Vec<u8>,
}

/// The value that a text of JSON has, if it is one.
fn value_of(alloc: Global, line: &[u8]) -> Result<Option<Value>> {
    let Ok(text) = std::str::from_utf8(line) else {
        return Ok(None);
    };
    match Value::from_str(alloc, text) {
        Ok(value) => Ok(Some(value)),
        Err(error) if error.is_memory() => Err(AllocError),
        Err(_) => Ok(None),
    }
}

/// The only action of an object that has this text.
fn only_action<'a>(object: &'a Value, text: &[u8]) -> Option<&'a Value> {
    if object.get("text")?.as_str()?.as_bytes() != text {
        return None;
    }
    match object.get("actions")?.as_array()?.as_slice() {
        [action] => Some(action),
        _ => None,
    }
}

/// Whether an action has all members of another, but for its name in a document and its words.
fn has_all(action: &Value, other: &Value) -> bool {
    let Some(members) = other.as_object() else {
        return false;
    };
    for (name, value) in members {
        let name = name.as_str();
        if !matches!(name, "name" | "words") && action.get(name) != Some(value) {
            return false;
        }
    }
    true
}

impl Maker {
    /// Nothing was tried.
    pub fn new(alloc: Global) -> Maker {
        let style = Style {
            json: true,
            ..Style::default()
        };
        Maker {
            alloc,
            explainer: Explainer::new(alloc, style),
            text: Vec::new(alloc),
        }
    }

    /// Whether the text is read as this action of that name, and as nothing else.
    fn is_read(&mut self, name: &str, action: &Value) -> Result<bool> {
        let told = self.explainer.tell_alone(&self.text)?;
        if find(told, name.as_bytes()).is_none() {
            return Ok(false);
        }
        let Some(object) = value_of(self.alloc, told)? else {
            return Ok(false);
        };
        match only_action(&object, &self.text) {
            Some(only) => Ok(has_all(action, only) && has_all(only, action)),
            None => Ok(false),
        }
    }

    /// Whether a text of this pattern has the action of that name; it is the one that was tried last.
    fn finds(&mut self, pattern: &str, name: &str, action: &Value) -> Result<bool> {
        let most = if pattern.contains("{}") { MOST } else { 0 };
        for number in 0..=most {
            self.text.clear();
            let is_filled = append_filled(&mut self.text, pattern, action, number)?;
            if !is_filled || self.text.len() > LIMIT {
                return Ok(false);
            }
            if self.is_read(name, action)? {
                return Ok(true);
            }
        }
        Ok(false)
    }

    /// Appends a text that has the action; whether there is one.
    fn append_action(&mut self, action: &Value, out: &mut Vec<u8>) -> Result<bool> {
        let name = action.get("action").and_then(Value::as_str).unwrap_or("");
        let Some(patterns) = csicodec_words::find(&PATTERNS, name.as_bytes()) else {
            return Ok(false);
        };
        for pattern in patterns.split('\t') {
            if self.finds(pattern, name, action)? {
                out.extend_from_slice(&self.text)?;
                return Ok(true);
            }
        }
        Ok(false)
    }
}

impl Finds for Maker {
    fn bytes_of_line(&mut self, line: &[u8]) -> Result<Option<Vec<u8>>> {
        let Some(object) = value_of(self.alloc, line)? else {
            return Ok(None);
        };
        let Some(actions) = object.get("actions").and_then(Value::as_array) else {
            return Ok(None);
        };
        let mut bytes = Vec::new(self.alloc);
        for action in actions {
            if !self.append_action(action, &mut bytes)? {
                return Ok(None);
            }
        }
        Ok(Some(bytes))
    }
}
