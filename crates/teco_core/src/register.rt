//! Registers.
ghost use Rattle.std.specs.Prelude.{◌≡◌, ◌<◌, IfOk, length};
ghost use Rattle.teco_core.specs.Register.{register_of, blank, blank_registers, content, with_content, with_number, with_text};
ghost use Rattle.teco_core.specs.Contents.{content_of};

use crate::NoMemory;
use std::alloc::Global;
use std::marker::Model;
use std::{array, mem};

/// The name of one of the 36 registers, A to Z and 0 to 9.
///
/// A clause sees it as a number: 0 to 25 are the letters, 26 to 35 the digits.
#[derive(Clone, Copy, Debug, PartialEq, Eq)]
pub struct Reg {
    index: u8,
}

impl Model for Reg {
    ghost use Rattle.std.specs.Prelude.{ℕ, ◌<◌};

    ghost Value = { ℕ };

    ghost view = { λ q. q.index };

    ghost invariant = { λ q. q.index < 36 };

    ghost inverse = { λ n. record { index = n } };
}

impl Reg {
    /// The register that a byte names, a letter in either case; none where it names no register.
    pub fn of(byte: u8) -> Option<Reg>
        ensures { result ≡ register_of byte }
    {
        let name = byte.to_ascii_uppercase();
        if name.is_ascii_uppercase() {
            Some(Reg { index: name - b'A' })
        } else if name.is_ascii_digit() {
            Some(Reg {
                index: name - b'0' + 26,
            })
        } else {
            None
        }
    }

    /// Its place among the registers, from 0 to 35.
    pub fn index(self) -> usize
        ensures value { result ≡ self }
        ensures small { result < 36 }
    {
        usize::from(self.index)
    }
}

/// What a register, or a place of the push-down list, holds.
#[derive(Debug, Drop)]
pub struct Value {
    /// The text, in bytes.
    pub text: Vec<u8>,
    pub num: i32,
}

impl Value {
    /// The number 0 and no text. Takes no memory.
    pub fn new(alloc: Global) -> Value
        ensures { content_of result ≡ blank }
    {
        Value {
            text: Vec::new(alloc),
            num: 0,
        }
    }

    /// A value with the same number and the same text, in memory of its own.
    pub fn copy(&self) -> Result<Value, NoMemory>
        ensures { IfOk result (λ v. content_of v ≡ content_of self.now) }
    {
        let text = Vec::from_slice(*self.text.allocator(), self.text.as_slice())?;
        Ok(Value {
            text,
            num: self.num,
        })
    }
}

/// The 36 registers, A to Z and 0 to 9.
///
/// A clause sees them as the list of what they hold, at their places from 0 to 35.
#[derive(Drop)]
pub struct Registers {
    values: [Value; 36],
}

impl Model for Registers {
    ghost use Rattle.std.specs.Prelude.{◌≡◌, List, length, map};
    ghost use Rattle.teco_core.specs.Register.{Content};
    ghost use Rattle.teco_core.specs.Contents.{content_of};

    ghost Value = { List Content };

    ghost view = { λ r. map content_of r.values };

    ghost invariant = { λ r. length r.values ≡ 36 };
}

impl Registers {
    /// Each with the number 0 and no text. Takes no memory.
    pub fn new(alloc: Global) -> Registers
        ensures { result ≡ blank_registers }
    {
        let blank = |_: usize| -> Value
            ensures { content_of result ≡ blank }
        { Value::new(alloc) };
        Registers {
            values: array::from_fn(blank),
        }
    }

    /// What `q` holds.
    pub fn value(&self, q: Reg) -> &Value
        ensures value { content_of result.now ≡ content self.now q }
        ensures all { length self.now ≡ 36 }
    {
        &self.values[q.index()]
    }

    /// The number of `q`.
    pub fn number(&self, q: Reg) -> i32
        ensures { result ≡ (content self.now q).number }
    {
        self.value(q).num
    }

    /// The text of `q`.
    pub fn text(&self, q: Reg) -> &[u8]
        ensures { result.now ≡ (content self.now q).text }
    {
        self.value(q).text.as_slice()
    }

    /// Puts `value` into `q`.
    pub fn set(&mut self, q: Reg, value: Value)
        ensures put { self.new ≡ with_content self.old q (content_of value) }
        ensures all { length self.new ≡ 36 }
    {
        self.values[q.index()] = value;
    }

    /// Sets the number of `q`; its text stays.
    pub fn set_number(&mut self, q: Reg, number: i32)
        ensures put { self.new ≡ with_number self.old q number }
        ensures all { length self.new ≡ 36 }
    {
        self.values[q.index()].num = number;
    }

    /// Sets the text of `q`; its number stays.
    pub fn set_text(&mut self, q: Reg, text: Vec<u8>)
        ensures put { self.new ≡ with_text self.old q text.items }
        ensures all { length self.new ≡ 36 }
    {
        self.values[q.index()].text = text;
    }

    /// Puts `value` into `q`, and gives what `q` held. Takes no memory.
    pub fn swap(&mut self, q: Reg, value: &mut Value)
        ensures put { self.new ≡ with_content self.old q (content_of value.old) }
        ensures held { content_of value.new ≡ content self.old q }
        ensures all { length self.new ≡ 36 }
    {
        mem::swap(&mut self.values[q.index()], value);
    }

    /// Makes `text` the text of `q`, and gives the text that `q` held. Takes no memory.
    pub fn swap_text(&mut self, q: Reg, text: &mut Vec<u8>)
        ensures put { self.new ≡ with_text self.old q text.old.items }
        ensures held { text.new.items ≡ (content self.old q).text }
        ensures all { length self.new ≡ 36 }
    {
        mem::swap(&mut self.values[q.index()].text, text);
    }
}
