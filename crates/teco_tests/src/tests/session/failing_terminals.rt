//! Strings on a terminal that fails after so many bytes, and undone then.

/// A step whose put fails is not done: its beginning is shown, and the state is that of the steps before.
pub(super) const SCRIPTS: &str = "
    over
    1=2=\x1b => TTY => => - => => => 1 0 3: => 4 1\r\n2
    { => => => -
    over
    1=2=3C => TTY => => - => => => 1 0 1: => 0
    { => => => -
    over
    1=2=3C => TTY => => - => => => 1 0 1: => 1 1
    { => => => -
    over
    1=2=3C => TTY => => - => => => 1 0 1: => 2 1\r
    { => => => -
    over
    1=2=3C => TTY => => - => => => 1 0 3: => 3 1\r\n
    { => => => -
    over
    1=2=3C => TTY => => - => => => 1 0 3: => 4 1\r\n2
    { => => => -
    over
    1=2=3C => TTY => => - => => => 1 0 3: => 5 1\r\n2\r
    { => => => -
    over
    1=2=3C => POP => => - => => => 1 0 6: => 6 1\r\n2\r\n
    { => => => -
    over
    1=2=3C => POP => => - => => => 1 0 6: => 7 1\r\n2\r\n
    { => => => -
    over
    Ia\x1bHTIb\x1b => TTY => => a => => => 1 1 2: => 0
    { => => => -
    over
    Ia\x1bHTIb\x1b => => => ab => => => 1 2 4: => 1 a
    { => => => -
    over
    Iab\x1bHTHKIc\x1b => TTY => => ab => => => 1 2 2: => 1 a
    { => => => -
    over
    Ia\x1b3<HT> => TTY => => a => => => 1 1 10: => 2 aa
    { => => => -
    over
    @^UA/65^TIx\x1b/2<MA> => TTY => => x => => => 1 1 10: => 1 A
    { => => => -
    ";
