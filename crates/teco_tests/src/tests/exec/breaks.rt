//! Runs that are broken off: each ends as under a limit of the steps that are done.
use teco_exec::{Patience, Stop};

/// When a run is asked to stop.
#[derive(Clone, Copy)]
pub(crate) enum Asking {
    /// After so many steps,
    Steps(u64),
    /// when it is asked once more than so many times,
    Answers(u64),
    /// or within a step that lasts long: whether it is still to stop when that was given up.
    Within(bool),
}

impl Patience for Asking {
    fn has_ended(&self) -> bool {
        matches!(self, Asking::Within(_))
    }
}

impl Stop for Asking {
    ghost use Rattle.teco_exec.specs.Runs.{Answers};

    ghost answered = { λ _. record { span = 0; said = λ _ _. Unit {0} } };

    fn asks(&mut self, done: u64) -> bool {
        match self {
            Asking::Steps(after) => done >= *after,
            Asking::Answers(left) => match left.checked_sub(1) {
                Some(fewer) => {
                    *left = fewer;
                    false
                }
                None => true,
            },
            Asking::Within(_) => false,
        }
    }

    fn asks_now(&mut self, _done: u64) -> bool {
        matches!(self, Asking::Within(true))
    }
}

pub(super) const ROWS: &str = "
    // The steps of a line: each number is one, and each command.
    1=2=3= => 100 => LIM => 0 => 0 0 [] [] None => 0
    1=2=3= => 100 => LIM => 1 => 1 1 [] [] None => 1
    1=2=3= => 100 => LIM => 4 => 4 4 [] [] None => 4 => 1\r\n2\r\n
    1=2=3= => 100 => LIM => 5 => 5 5 [] [] None => 5 => 1\r\n2\r\n
    // No step comes where the last one is done.
    1=2=3= => 100 => => 6 => => 6 => 1\r\n2\r\n3\r\n
     => 100 => => 0 => => 0
    // The smaller of both ends it.
    1=2=3= => 2 => LIM => 2 => 2 2 [] [] None => 4 => 1\r\n
    1=2=3= => 4 => LIM => 2 => 2 2 [] [] None => 2 => 1\r\n
    // A called text, also where the step that comes calls it.
    \x15A1=2=\x1bMAMA => 100 => LIM => 1 => 1 7 [] [] None => 1
    \x15A1=2=\x1bMAMA => 100 => LIM => 5 => 5 3 [] [Call { register: Reg { index: 0 }, at: 7, turns: [] }] None => 5 => 1\r\n
    \x15A1=2=\x1bMAMA => 100 => LIM => 6 => 6 9 [] [] None => 6 => 1\r\n2\r\n
    // A text that never ends by itself, and one that fails before.
    <> => 5000 => LIM => 1000 => 1000 1 [None] [] None => 1000
    1=; => 100 => SNI => 3 => 2 2 [] [] None => 3 => 1\r\n
    ";
