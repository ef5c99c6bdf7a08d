//! Strings that are broken off are noted with the steps that they took, and are undone, redone and rewound as any other.

/// A string that moves over three bytes is broken off after two of them.
pub(super) const SCRIPTS: &str = "
    over abc
    Y => => => => => => 1 0 1:
    2! => LIM => => => => => 2 2 2:
    { => => => => => => 2 0 2:
    } => => => => => => 2 2 2:
    ~1 => => => => => => 2 1 1:
    // It tells the place of the third move.
    over abc
    Y =>
    2? => LIM => => => => => 2 2 2:
    ";
