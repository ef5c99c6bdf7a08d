//! The text of a string, which lies in its entry where it is short.
ghost use Rattle.std.specs.Prelude.{◌≡◌, ◌≤◌, length, IfOk, IsOk};

use std::alloc::Global;
use std::marker::Model;
use teco_core::NoMemory;

/// The most bytes of a text that lies in its entry: with so many it takes no more of it than a text with memory of its own.
pub(crate) const SHORT_LIMIT: usize = 30;

/// Where the bytes of a text lie: the first of the places of a short one, as many as it counts, or memory of their own.
#[derive(Drop)]
pub(crate) enum TextForm {
    Short(u8, [u8; SHORT_LIMIT]),
    Long(Vec<u8>),
}

/// The text of a string. One of at most [`SHORT_LIMIT`] bytes takes no memory.
///
/// A clause sees it as its bytes.
pub struct Text {
    form: TextForm,
}

// Its bytes go here, and a crate that lets a text go calls this.
impl Drop for Text {
    fn drop(self) {
        let Text { form: _ } = self;
    }
}

const _: () = prove!(size_of::<Text>() <= 32);

impl Model for Text {
    ghost use Rattle.std.specs.Prelude.{ℕ, List};
    ghost use Rattle.teco_session.specs.Forms.{bytes_of, HasPlaces};

    ghost Value = { List ℕ };

    ghost view = { λ t. bytes_of t.form };

    ghost invariant = { λ t. HasPlaces t.form };
}

// A text of these bytes, which lie in it.
fn short_text(bytes: &[u8]) -> Text
    requires { length bytes.now ≤ SHORT_LIMIT }
    ensures { result ≡ bytes.now }
{
    let mut places = [0; SHORT_LIMIT];
    places[..bytes.len()].copy_from_slice(bytes);
    Text {
        form: TextForm::Short(bytes.len() as u8, places),
    }
}

impl Text {
    /// A text of these bytes. Memory is found for it where it is not short.
    pub fn copied(alloc: Global, bytes: &[u8]) -> Result<Text, NoMemory>
        ensures value { IfOk result (λ text. text ≡ bytes.now) }
        ensures short { length bytes.now ≤ SHORT_LIMIT → IsOk result }
    {
        if bytes.len() <= SHORT_LIMIT {
            return Ok(short_text(bytes));
        }
        let held = Vec::from_slice(alloc, bytes)?;
        Ok(Text {
            form: TextForm::Long(held),
        })
    }

    /// Its bytes. Takes no memory.
    pub fn as_slice(&self) -> &[u8]
        ensures { result.now ≡ self.now }
    {
        match &self.form {
            TextForm::Short(count, places) => &places[..usize::from(*count)],
            TextForm::Long(held) => held.as_slice(),
        }
    }
}
