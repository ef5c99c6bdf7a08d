//! Values are put in their places, and what stood there is given back.
ghost use Rattle.std.specs.Prelude.{◌≡◌, ◌+◌, ◌≤◌, [], length};
ghost use Rattle.std.specs.Vec.{vec_capacity};
ghost use Rattle.teco_store.specs.ChangeView.{small_turn, turn_of, HasRoom, IsHere};
ghost use Rattle.teco_store.specs.declared.change.PartValue.TheVariants.{Splice, Lend, PutIn, TakeOut, PopInto, PutBack};
ghost use Rattle.teco_store.specs.Turn as turn;
ghost use Rattle.teco_store.specs.Turn.{turn_after, full_after, FitsFull, Number};

use crate::change::{Loan, PartValue, SmallChange, TextSpan};
use crate::editor::Editor;
use crate::exchange::{exchange, exchange_short, swap_bytes};
use crate::short_text::SHORT_LIMIT;
use std::alloc::Global;
use std::mem;
use std::sync::Arc;
use teco_core::{Reg, Value};

impl Editor {
    /// Puts a number into a register, and gives the one that stood there. Takes no memory.
    #[inline(always)]
    pub fn put_number(&mut self, q: Reg, number: i32) -> i32
        requires { FitsFull (Number q number) self.old }
        ensures editor { self.new ≡ full_after (Number q number) self.old }
        ensures number { Number q result ≡ turn_after (Number q number) self.old.body }
    {
        let registers = &mut self.registers;
        let there = registers.number(q);
        registers.set_number(q, number);
        there
    }

    /// Puts a value that lies in its change in its place, and gives what stood there. Takes no memory.
    ///
    /// In line, since a caller's value is mostly known: then nothing is matched, and nothing goes through memory.
    #[inline(always)]
    pub fn put_small(&mut self, small: SmallChange) -> SmallChange
        requires fits { FitsFull (small_turn small) self.old }
        requires here { IsHere small }
        ensures editor { self.new ≡ full_after (small_turn small) self.old }
        ensures small { small_turn result ≡ turn_after (small_turn small) self.old.body }
        ensures here { IsHere result }
    {
        match small {
            SmallChange::InsertByte { at, pointer, byte } => {
                self.text.splice(at as usize, 0, &[byte]);
                let there = mem::replace(&mut self.pointer, pointer as usize);
                SmallChange::RemoveByte {
                    at,
                    pointer: there as u32,
                }
            }
            SmallChange::RemoveByte { at, pointer } => {
                let byte = self.text.get(at as usize);
                self.text.splice(at as usize, 1, &[]);
                let there = mem::replace(&mut self.pointer, pointer as usize);
                SmallChange::InsertByte {
                    at,
                    pointer: there as u32,
                    byte,
                }
            }
            SmallChange::Point(pointer) => {
                SmallChange::Point(mem::replace(&mut self.pointer, pointer as usize) as u32)
            }
            SmallChange::Number(q, number) => SmallChange::Number(q, self.put_number(q, number)),
            SmallChange::Pages {
                place,
                end,
                form_feed,
            } => SmallChange::Pages {
                place: mem::replace(&mut self.place, place as usize) as u32,
                end: mem::replace(&mut self.shown, end as usize) as u32,
                form_feed: mem::replace(&mut self.form_feed, form_feed),
            },
            SmallChange::Found(found) => SmallChange::Found(mem::replace(
                &mut self.last_found,
                found,
            )),
            SmallChange::Done(done) => SmallChange::Done(mem::replace(&mut self.done, done)),
            SmallChange::Mode(mode) => SmallChange::Mode(mem::replace(&mut self.case_mode, mode)),
            // The value lies in it, by what the call requires.
            SmallChange::HeldApart(_) => unreachable!(),
        }
    }

    /// Puts a value in its place, and gives what stood there. Takes no memory.
    pub fn put(&mut self, kind: PartValue) -> PartValue
        requires fits { FitsFull (turn_of kind) self.old }
        requires room { HasRoom kind }
        ensures editor { self.new ≡ full_after (turn_of kind) self.old }
        ensures kind { turn_of result ≡ turn_after (turn_of kind) self.old.body }
        ensures room { HasRoom result }
    {
        match kind {
            PartValue::Small(small) => PartValue::Small(self.put_small(small)),
            PartValue::Splice(place, held) => self.put_splice(place, held),
            PartValue::Short(place, held) => self.exchange_short(
                place.at as usize,
                place.len as usize,
                held.as_slice(),
                place.pointer as usize,
            ),
            PartValue::Lend(loan) => self.put_lent(loan),
            PartValue::PutIn(text, pointer) => self.put_in(text, pointer),
            PartValue::TakeOut(text, pointer) => self.take_out(text, pointer),
            PartValue::Text(q, mut held) => {
                self.registers.swap_text(q, &mut held);
                PartValue::Text(q, held)
            }
            PartValue::Push(value) => {
                self.pushed.push(value);
                PartValue::TakeOff
            }
            PartValue::TakeOff => PartValue::Push(self.pushed.pop()),
            PartValue::PopInto(q) => self.put_popped(q),
            PartValue::PutBack(q, value) => self.put_back(q, value),
            PartValue::Search(held) => PartValue::Search(mem::replace(&mut self.last_search, held)),
        }
    }

    // Puts bytes of the text in their place.
    fn put_splice(&mut self, place: TextSpan, held: Vec<u8>) -> PartValue
        requires fits { FitsFull (turn_of (Splice place held)) self.old }
        requires room { HasRoom (Splice place held) }
        ensures editor { self.new ≡ full_after (turn_of (Splice place held)) self.old }
        ensures kind { turn_of result ≡ turn_after (turn_of (Splice place held)) self.old.body }
        ensures room { HasRoom result }
    {
        let there = TextSpan {
            at: place.at,
            len: held.len() as u32,
            pointer: self.pointer as u32,
        };
        let held = swap_bytes(&mut self.text, place.at as usize, place.len as usize, held);
        self.pointer = place.pointer as usize;
        PartValue::Splice(there, held)
    }

    // Puts bytes of the input for the whole text, and gives where in the input that stands.
    fn put_lent(&mut self, loan: Loan) -> PartValue
        requires { FitsFull (turn_of (Lend loan)) self.old }
        ensures editor { self.new ≡ full_after (turn_of (Lend loan)) self.old }
        ensures kind { turn_of result ≡ turn_after (turn_of (Lend loan)) self.old.body }
        ensures room { HasRoom result }
    {
        let from = loan.from as usize;
        let part = &self.input[from..from + loan.len as usize];
        self.text.splice(0, loan.old_len as usize, part);
        let pointer = self.pointer as u32;
        self.pointer = loan.pointer as usize;
        PartValue::Lend(Loan {
            from: loan.old_from,
            len: loan.old_len,
            old_from: loan.from,
            old_len: loan.len,
            pointer,
        })
    }

    // Puts a text that has other owners too in the empty buffer.
    fn put_in(&mut self, text: Arc<Vec<u8>, Global>, pointer: u32) -> PartValue
        requires { FitsFull (turn_of (PutIn text pointer)) self.old }
        ensures editor { self.new ≡ full_after (turn_of (PutIn text pointer)) self.old }
        ensures kind { turn_of result ≡ turn_after (turn_of (PutIn text pointer)) self.old.body }
        ensures room { HasRoom result }
    {
        self.text.splice(0, 0, text.as_slice());
        let there = mem::replace(&mut self.pointer, pointer as usize);
        PartValue::TakeOut(text, there as u32)
    }

    // Takes the text out of the buffer, which has other owners too.
    fn take_out(&mut self, text: Arc<Vec<u8>, Global>, pointer: u32) -> PartValue
        requires { FitsFull (turn_of (TakeOut text pointer)) self.old }
        ensures editor { self.new ≡ full_after (turn_of (TakeOut text pointer)) self.old }
        ensures kind { turn_of result ≡ turn_after (turn_of (TakeOut text pointer)) self.old.body }
        ensures room { HasRoom result }
    {
        self.text.splice(0, text.len(), &[]);
        let there = mem::replace(&mut self.pointer, pointer as usize);
        PartValue::PutIn(text, there as u32)
    }

    /// Puts `ins` for the `there` bytes at `at`, and gives those that stood there in `held`, which is empty.
    pub fn exchange(
        &mut self,
        at: usize,
        there: usize,
        ins: &[u8],
        pointer: usize,
        held: Vec<u8>,
    ) -> PartValue
        requires empty { held.items ≡ [] }
        requires room { there + length ins.now ≤ vec_capacity held }
        requires fits { FitsFull (turn.Splice at there pointer ins.now) self.old }
        ensures editor { self.new ≡ full_after (turn.Splice at there pointer ins.now) self.old }
        ensures kind { turn_of result ≡ turn_after (turn.Splice at there pointer ins.now) self.old.body }
        ensures room { HasRoom result }
    {
        let place = TextSpan {
            at: at as u32,
            len: ins.len() as u32,
            pointer: self.pointer as u32,
        };
        let held = exchange(&mut self.text, at, there, ins, held);
        self.pointer = pointer;
        PartValue::Splice(place, held)
    }

    /// Puts `ins` for the `there` bytes at `at`, and gives those that stood there, as a short text.
    pub fn exchange_short(
        &mut self,
        at: usize,
        there: usize,
        ins: &[u8],
        pointer: usize,
    ) -> PartValue
        requires short { there + length ins.now ≤ SHORT_LIMIT }
        requires fits { FitsFull (turn.Splice at there pointer ins.now) self.old }
        ensures editor { self.new ≡ full_after (turn.Splice at there pointer ins.now) self.old }
        ensures kind { turn_of result ≡ turn_after (turn.Splice at there pointer ins.now) self.old.body }
        ensures room { HasRoom result }
    {
        let place = TextSpan {
            at: at as u32,
            len: ins.len() as u32,
            pointer: self.pointer as u32,
        };
        let held = exchange_short(&mut self.text, at, there, ins);
        self.pointer = pointer;
        PartValue::Short(place, held)
    }

    /// Puts `count` bytes of the input from `from` on for the `there` bytes at `at`, and gives those that stood there in `held`, which is
    /// empty.
    pub fn exchange_input(
        &mut self,
        from: usize,
        count: usize,
        at: usize,
        there: usize,
        pointer: usize,
        held: Vec<u8>,
    ) -> PartValue
        requires within { from + count ≤ length self.old.body.input }
        requires empty { held.items ≡ [] }
        requires room { there + count ≤ vec_capacity held }
        requires fits { FitsFull (turn.Splice at there pointer (turn.lent self.old.body.input from count)) self.old }
        ensures editor { self.new ≡ full_after (turn.Splice at there pointer
            (turn.lent self.old.body.input from count)) self.old }
        ensures kind { turn_of result ≡ turn_after
            (turn.Splice at there pointer (turn.lent self.old.body.input from count)) self.old.body }
        ensures room { HasRoom result }
    {
        let place = TextSpan {
            at: at as u32,
            len: count as u32,
            pointer: self.pointer as u32,
        };
        let part = &self.input[from..from + count];
        let held = exchange(&mut self.text, at, there, part, held);
        self.pointer = pointer;
        PartValue::Splice(place, held)
    }

    // Takes off what was pushed last, and puts it into `q`.
    fn put_popped(&mut self, q: Reg) -> PartValue
        requires { FitsFull (turn_of (PopInto q)) self.old }
        ensures editor { self.new ≡ full_after (turn_of (PopInto q)) self.old }
        ensures kind { turn_of result ≡ turn_after (turn_of (PopInto q)) self.old.body }
        ensures room { HasRoom result }
    {
        let mut value = self.pushed.pop();
        self.registers.swap(q, &mut value);
        PartValue::PutBack(q, value)
    }

    // Pushes what `q` holds, and puts a value into it.
    fn put_back(&mut self, q: Reg, mut value: Value) -> PartValue
        requires { FitsFull (turn_of (PutBack q value)) self.old }
        ensures editor { self.new ≡ full_after (turn_of (PutBack q value)) self.old }
        ensures kind { turn_of result ≡ turn_after (turn_of (PutBack q value)) self.old.body }
        ensures room { HasRoom result }
    {
        self.registers.swap(q, &mut value);
        self.pushed.push(value);
        PartValue::PopInto(q)
    }
}
