//! A change in 12 bytes: the steps before it in 4 of them, and its value in 8.
ghost use Rattle.std.specs.Prelude.{◌≡◌, ℕ, ◌<◌, ◌^◌};
ghost use Rattle.teco_store.specs.declared.change.SmallChange.TheVariants.{HeldApart};
ghost use Rattle.teco_undo.specs.Slots.{slot_pointer, slot_place, small_of, slot_value, FitsSlot};

use teco_core::{CaseMode, Reg};
use teco_store::change::SmallChange;

/// A value that lies in a slot. A place and a pointer share 16 bits and 32: the lower 24 of these are the place.
#[derive(Clone, Copy)]
pub(crate) enum SlotValue {
    InsertByte(u8, u16, u32),
    // with the pointer after the last byte of the longest text, which takes a bit more
    InsertByteAtTop(u8, u32),
    RemoveByte(u16, u32),
    Point(u32),
    Number(Reg, i32),
    Found(bool),
    Done(bool),
    Mode(CaseMode),
    // the lower half of a place; the slot's steps are the upper one
    HeldApart(u32),
}

/// A change with the steps that were done before it was noted: what it holds, or the place of what is held apart.
#[derive(Clone, Copy)]
pub(crate) struct Slot {
    pub(crate) step: u32,
    pub(crate) value: SlotValue,
}

const _: () = prove!(size_of::<Slot>() <= 12);

// A place and a pointer, each of 24 bits, in 16 bits and 32.
#[inline(always)]
fn shared(at: u32, pointer: u32) -> (u16, u32)
    requires at { at < 2 ^ 24 }
    requires pointer { pointer < 2 ^ 24 }
    ensures place { slot_place result.1 ≡ at }
    ensures pointer { slot_pointer result.0 result.1 ≡ pointer }
{
    (
        (pointer % 65536) as u16,
        at + 16_777_216 * (pointer / 65536),
    )
}

// The place.
#[inline(always)]
fn place_in(word: u32) -> u32
    ensures { result ≡ slot_place word }
{
    word % 16_777_216
}

// The pointer.
#[inline(always)]
fn pointer_in(low: u16, word: u32) -> u32
    ensures { result ≡ slot_pointer low word }
{
    u32::from(low) + 65536 * (word / 16_777_216)
}

impl SlotValue {
    /// The value of a change that has a slot.
    ///
    /// In line, since the kind of a change that is noted is known: then nothing is matched.
    #[inline(always)]
    pub(crate) fn of(small: SmallChange) -> SlotValue
        requires { FitsSlot small }
        ensures { (step : ℕ) → slot_value step result ≡ small }
    {
        match small {
            SmallChange::InsertByte { at, pointer, byte } => {
                if pointer == 16_777_216 {
                    SlotValue::InsertByteAtTop(byte, at)
                } else {
                    let (low, word) = shared(at, pointer);
                    SlotValue::InsertByte(byte, low, word)
                }
            }
            SmallChange::RemoveByte { at, pointer } => {
                let (low, word) = shared(at, pointer);
                SlotValue::RemoveByte(low, word)
            }
            SmallChange::Point(pointer) => SlotValue::Point(pointer),
            SmallChange::Number(q, number) => SlotValue::Number(q, number),
            SmallChange::Found(found) => SlotValue::Found(found),
            SmallChange::Done(done) => SlotValue::Done(done),
            SmallChange::Mode(mode) => SlotValue::Mode(mode),
            // They don't fit, by what the call requires.
            SmallChange::Pages { .. } | SmallChange::HeldApart(_) => unreachable!(),
        }
    }
}

// The two halves of a place of one that is held apart: the steps of its slot, and its value.
#[inline(always)]
pub(crate) fn halves_of(place: usize) -> (u32, SlotValue)
    ensures { slot_value result.0 result.1 ≡ HeldApart place }
{
    (
        (place / 4_294_967_296) as u32,
        SlotValue::HeldApart((place % 4_294_967_296) as u32),
    )
}

impl Slot {
    /// What it stands for.
    #[inline(always)]
    pub(crate) fn small(&self) -> SmallChange
        ensures { result ≡ small_of self.now }
    {
        match self.value {
            SlotValue::InsertByte(byte, low, word) => SmallChange::InsertByte {
                at: place_in(word),
                pointer: pointer_in(low, word),
                byte,
            },
            SlotValue::InsertByteAtTop(byte, at) => SmallChange::InsertByte {
                at,
                pointer: 16_777_216,
                byte,
            },
            SlotValue::RemoveByte(low, word) => SmallChange::RemoveByte {
                at: place_in(word),
                pointer: pointer_in(low, word),
            },
            SlotValue::Point(pointer) => SmallChange::Point(pointer),
            SlotValue::Number(q, number) => SmallChange::Number(q, number),
            SlotValue::Found(found) => SmallChange::Found(found),
            SlotValue::Done(done) => SmallChange::Done(done),
            SlotValue::Mode(mode) => SmallChange::Mode(mode),
            SlotValue::HeldApart(low) => {
                SmallChange::HeldApart(low as usize + 4_294_967_296 * self.step as usize)
            }
        }
    }
}
