//! A text.
use teco_core::Profile;

/// The bytes of a text, and the profile that they are read in.
#[derive(Clone, Copy)]
pub struct Text<'t> {
    pub profile: Profile,
    pub bytes: &'t [u8],
}
