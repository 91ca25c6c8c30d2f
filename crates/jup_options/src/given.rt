//! The values that a command line gives.
ghost use Rattle.std.specs.Prelude.{◌≤◌, IfSome};

use std::alloc::{AllocError, Global};

/// What an option was given.
#[derive(Clone, Copy)]
pub(crate) enum Value<'a> {
    Nothing,
    Text(&'a str),
    Number(u32),
}

/// The options that a command line gives, each with its value.
#[derive(Drop)]
pub struct Given<'a> {
    values: Vec<(&'static str, Value<'a>)>,
}

impl<'a> Given<'a> {
    // None yet.
    pub(crate) fn none(alloc: Global) -> Given<'a> {
        Given {
            values: Vec::new(alloc),
        }
    }

    // One more option.
    pub(crate) fn add(&mut self, name: &'static str, value: Value<'a>) -> Result<(), AllocError> {
        self.values.push((name, value))?;
        Ok(())
    }

    fn value(&self, name: &str) -> Option<Value<'a>> {
        for &(given, value) in &self.values {
            if given == name {
                return Some(value);
            }
        }
        None
    }

    /// Whether an option is given that takes nothing.
    pub fn has(&self, name: &str) -> bool {
        matches!(self.value(name), Some(Value::Nothing))
    }

    /// The text that an option is given.
    pub fn text(&self, name: &str) -> Option<&'a str> {
        match self.value(name)? {
            Value::Text(text) => Some(text),
            _ => None,
        }
    }

    /// The number that an option is given, if it is from 1 to the most.
    pub fn count(&self, name: &str, most: u32) -> Option<u32>
        ensures { IfSome result (λ count. (1 ≤ count) × (count ≤ most)) }
    {
        match self.number(name, most) {
            Some(count) if count > 0 => Some(count),
            _ => None,
        }
    }

    /// The number that an option is given, if it is at most this.
    pub fn number(&self, name: &str, most: u32) -> Option<u32>
        ensures { IfSome result (λ number. number ≤ most) }
    {
        match self.value(name)? {
            Value::Number(number) if number <= most => Some(number),
            _ => None,
        }
    }
}
