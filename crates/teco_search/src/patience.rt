//! Who may tell a search to give up, and when it is asked.

/// Who tells a search that it has lasted long enough.
pub trait Patience {
    /// Whether the search is to give up now.
    ///
    /// No contract tells the answer, since a clock or another thread decides it.
    fn has_ended(&self) -> bool;
}

/// Patience without end.
#[derive(Clone, Copy)]
pub struct Endless;

impl Patience for Endless {
    #[inline(always)]
    fn has_ended(&self) -> bool {
        false
    }
}

/// The search gave up.
#[derive(Clone, Copy)]
pub struct GivenUp;

/// So many bytes are looked at before patience is asked again, which takes about a millisecond.
const PACE: usize = 1 << 20;

/// Asks whether a search is to give up, after so many bytes that it looked at.
#[derive(Drop)]
pub(crate) struct Asker<'a, P: Patience> {
    patience: &'a P,
    left: usize,
}

impl<'a, P: Patience> Asker<'a, P> {
    pub(crate) fn new(patience: &'a P) -> Self {
        Asker {
            patience,
            left: PACE,
        }
    }

    /// Goes on after a start without a match, where so many bytes matched; or gives up.
    #[inline]
    pub(crate) fn goes_on(&mut self, matched: usize) -> Result<(), GivenUp> {
        if matched < self.left {
            self.left -= matched + 1;
            return Ok(());
        }
        self.left = PACE;
        if self.patience.has_ended() {
            return Err(GivenUp);
        }
        Ok(())
    }
}
