//! The push-down list.
ghost use Rattle.std.specs.Prelude.{◌≡◌, ◌==◌, ◌<◌, ◌≤◌, [], ◌∷◌, length, IfOk, MatchOption, slice_get};
ghost use Rattle.teco_core.specs.Contents.{content_of};
ghost use Rattle.teco_core.specs.Register.{blank};

use crate::NoMemory;
use crate::limits::PUSHED_LIMIT;
use crate::register::Value;
use arrayvec::ArrayVec;
use std::alloc::Global;
use std::default::MadeWith;
use std::marker::Model;

impl MadeWith<Global> for Value {
    ghost is_made_with = { λ v. content_of v ≡ blank };

    fn made_with(alloc: Global) -> Value {
        Value::new(alloc)
    }
}

/// The push-down list, of at most [`PUSHED_LIMIT`] values.
///
/// A clause sees it as the list of what the values hold, the last pushed first.
#[derive(Debug, Drop)]
pub struct PushList {
    places: ArrayVec<Value, PUSHED_LIMIT, Global>,
}

impl Model for PushList {
    ghost use Rattle.std.specs.Prelude.{◌≤◌, List, map, reverse, length};
    ghost use Rattle.teco_core.specs.Register.{Content};
    ghost use Rattle.teco_core.specs.Contents.{content_of};
    ghost use Rattle.teco_core.specs.declared.limits.TheConstants.{PUSHED_LIMIT};

    ghost Value = { List Content };

    ghost view = { λ p. reverse (map content_of p.places.items) };

    ghost invariant = { λ p. length p.places.items ≤ PUSHED_LIMIT };
}

impl PushList {
    /// An empty list. Takes no memory.
    pub fn new(alloc: Global) -> PushList
        ensures { result ≡ [] }
    {
        PushList {
            places: ArrayVec::new_in(alloc),
        }
    }

    /// The number of values, from 0 to [`PUSHED_LIMIT`].
    pub fn len(&self) -> usize
        ensures value { result ≡ length self.now }
        ensures small { length self.now ≤ PUSHED_LIMIT }
    {
        self.places.len()
    }

    /// Whether it has no values.
    pub fn is_empty(&self) -> bool
        ensures { result ≡ (length self.now == 0) }
    {
        self.places.is_empty()
    }

    /// Whether it has [`PUSHED_LIMIT`] values, so that no further one can be pushed.
    pub fn is_full(&self) -> bool
        ensures value { result ≡ (length self.now == PUSHED_LIMIT) }
        ensures small { length self.now ≤ PUSHED_LIMIT }
    {
        self.places.is_full()
    }

    /// Pushes a value. Takes no memory.
    pub fn push(&mut self, value: Value)
        requires { length self.old < PUSHED_LIMIT }
        ensures { self.new ≡ content_of value ∷ self.old }
    {
        self.places.push(value);
    }

    /// Takes off the value that was pushed last.
    pub fn pop(&mut self) -> Value
        requires { 0 < length self.old }
        ensures { self.old ≡ content_of result ∷ self.new }
    {
        self.places.pop().unwrap()
    }

    /// The value that was pushed last, if there is one.
    pub fn top(&self) -> Option<&Value>
        ensures { MatchOption result (self.now ≡ []) (λ v. slice_get self.now 0 ≡ Some (content_of v.now)) }
    {
        self.places.as_slice().last()
    }
}
