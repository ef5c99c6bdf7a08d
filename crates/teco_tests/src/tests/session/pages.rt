//! What pages leave in the output, those that are written as they were read and others among them.

pub(super) const SCRIPTS: &str = "
    // The first page is changed.
    over a\nb\nc\nd\n => => => 1
    YIx\x1bP\x1b => => xa\n => b\n
    2P\x1b => => xa\nb\nc\n => d\n
    EX\x1b => => xa\nb\nc\nd\n => -
    { => => xa\nb\nc\n => d\n
    { => => xa\n => b\n
    { => => => -
    } => => xa\n => b\n
    } => => xa\nb\nc\n => d\n
    } => => xa\nb\nc\nd\n => -
    // One in the middle is changed.
    over a\nb\nc\nd\ne\n => => => 1
    Y2P\x1b => => a\nb\n => c\n
    Ix\x1bP\x1b => => a\nb\nxc\n => d\n
    P\x1b => => a\nb\nxc\nd\n => e\n
    { => => a\nb\nxc\n => d\n
    { => => a\nb\n => c\n
    } => => a\nb\nxc\n => d\n
    EX\x1b => => a\nb\nxc\nd\ne\n => -
    // The last one is changed.
    over a\nb\nc\n => => => 1
    Y2P\x1b => => a\nb\n => c\n
    Ix\x1bEX\x1b => => a\nb\nxc\n => -
    { => => a\nb\n => c\n
    } => => a\nb\nxc\n => -
    // Each second one is changed, or two after one another are.
    over a\nb\nc\nd\ne\nf\n => => => 1
    Y3<Ix\x1bPP>\x1b => => xa\nb\nxc\nd\nxe\nf\n => -
    { => => => -
    } => => xa\nb\nxc\nd\nxe\nf\n => -
    EX\x1b => => xa\nb\nxc\nd\nxe\nf\n => -
    over a\nb\nc\nd\ne\nf\n => => => 1
    YP2<Ix\x1bP>2P\x1b => => a\nxb\nxc\nd\ne\n => f\n
    { => => => -
    } => => a\nxb\nxc\nd\ne\n => f\n
    // A write after an undo drops what was taken back: whole parts, and the end of one.
    over a\nb\nc\nd\n => => => 1
    YIx\x1bP\x1b => => xa\n => b\n
    P\x1b => => xa\nb\n => c\n
    Iy\x1bP\x1b => => xa\nb\nyc\n => d\n
    { => => xa\nb\n => c\n
    { => => xa\n => b\n
    Iz\x1bP\x1b => => xa\nzb\n => c\n
    P\x1b => => xa\nzb\nc\n => d\n
    { => => xa\nzb\n => c\n
    } => => xa\nzb\nc\n => d\n
    EX\x1b => => xa\nzb\nc\nd\n => -
    over a\nb\nc\nd\n => => => 1
    Y3P\x1b => => a\nb\nc\n => d\n
    { => => => -
    YP\x1b => => a\n => b\n
    P\x1b => => a\nb\n => c\n
    { => => a\n => b\n
    HPWP\x1b => => a\nb\nb\n => c\n
    { => => a\n => b\n
    } => => a\nb\nb\n => c\n
    ";
