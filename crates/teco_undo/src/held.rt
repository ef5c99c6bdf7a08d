//! What holds a text that goes, until its change is noted.
ghost use Rattle.std.specs.Prelude.{◌≡◌};
ghost use Rattle.teco_undo.specs.Holding.{place_of};

/// What holds a text that goes: the input, where the text stands at a place, or memory that was found for it.
#[derive(Drop)]
pub(crate) enum Held {
    Input(usize),
    Memory(Vec<u8>),
}

impl Held {
    // The place in the input, if that holds it.
    pub(crate) fn place(&self) -> Option<usize>
        ensures { result ≡ place_of self.now }
    {
        match self {
            Held::Input(from) => Some(*from),
            Held::Memory(_) => None,
        }
    }
}
