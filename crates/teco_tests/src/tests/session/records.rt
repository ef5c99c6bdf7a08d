//! What strings leave for their undo: how much it is, and the pages that it turns back.

pub(super) const SCRIPTS: &str = "
    // The changes of the last string hold few bytes when it is run, undone and redone.
    over
    Iab\x1b3D\x1b => DTB => => => 2
    { => => => => 2
    } => => => => 2
    over
    Ihello\x1b =>
    HK\x1b => => => => 5
    { => => => => 5
    } => => => => 5
    over
    Ihello\x1b =>
    J\x1b => => => => 0
    { => => => => 0
    } => => => => 0
    over
    Ihello\x1b =>
    HXA\x1b => => => => 5
    { => => => => 5
    } => => => => 5
    over
    @^UA/abc/\x1b =>
    [A^UAde\x1b]A\x1b => => => => 13
    { => => => => 13
    } => => => => 13
    over
    Iabc\x1b =>
    0JSc\x1b => => => => 1
    { => => => => 1
    } => => => => 1
    over
    Iabc\x1b =>
    0JFSb\x1bxy\x1b => => => => 4
    { => => => => 4
    } => => => => 4
    over
    5UA<%A>\x1b => LIM => => => 0
    { => => => => 0
    } => => => => 0
    over => 1\r\n
    1=\x1b => => => => 0
    { => => => => 0
    } => => => => 0
    over
    \x1b => => => => 0
    { => => => => 0
    } => => => => 0
    // A page that leaves the buffer as it was read is not held: only a changed one is.
    over ab\x0ccd\x0cef
    Y\x1b => => => ab => 0
    P\x1b => => ab\x0c => cd => 0
    { => => => ab => 0
    } => => ab\x0c => cd => 0
    Ix\x1bP\x1b => => ab\x0cxcd\x0c => ef => 3
    { => => ab\x0c => cd => 3
    } => => ab\x0cxcd\x0c => ef => 3
    EX\x1b => => ab\x0cxcd\x0cef => - => 0
    { => => ab\x0cxcd\x0c => ef => 0
    // A string shows the kinds of its changes, and the way back once it is undone.
    over
    Iabc\x1b-DIxy\x1bJ\x1b => => => => => => 1 0 5: splice [0, 3, 0] splice [2, 0, 1] splice [2, 2, 0] point [0, 0, 0] end
    { => => => => => => 1 0 5: splice [0, 0, 3] splice [2, 1, 0] splice [2, 0, 2] point [0, 0, 0] end
    // A hundred strings are undone, each by itself, and redone, and one redo more is refused.
    over
    Ix\x1b => => => => => 100
    { => => => => => 100
    { => NTU => => -
    } => => => => => 100
    } => NTR => => xxxxxxxxxxxxxxxxxxxxxxxxxxxxxxxxxxxxxxxxxxxxxxxxxxxxxxxxxxxxxxxxxxxxxxxxxxxxxxxxxxxxxxxxxxxxxxxxxxxx
    // Twelve strings, of which each third is not undone. A string that is begun drops those that are undone.
    over => 1\r\n1\r\n1\r\n1\r\n1\r\n1\r\n1\r\n1\r\n1\r\n1\r\n1\r\n1\r\n => 5
    1=\x1b => => => => => => 1 0 2:
    } => NTR
    1=\x1b => => => => => => 2 0 2:
    } => NTR
    { =>
    1=\x1b => => => => => => 2 0 2:
    } => NTR
    { =>
    1=\x1b => => => => => => 2 0 2:
    } => NTR
    1=\x1b => => => => => => 3 0 2:
    } => NTR
    { =>
    1=\x1b => => => => => => 3 0 2:
    } => NTR
    { =>
    1=\x1b => => => => => => 3 0 2:
    } => NTR
    1=\x1b => => => => => => 4 0 2:
    } => NTR
    { =>
    1=\x1b => => => => => => 4 0 2:
    } => NTR
    { =>
    1=\x1b => => => => => => 4 0 2:
    } => NTR
    1=\x1b => => => => => => 5 0 2:
    } => NTR
    { =>
    1=\x1b => => => => => => 5 0 2:
    } => NTR
    { =>
    { => => => => => 4
    { => NTU
    // A page that was turned is turned back with its output, and forth again; and the output goes on from where the undo left it.
    over one\n\x0ctwo\n
    YP\x1b => => one\n\x0c => two\n
    { => => => -
    } => => one\n\x0c => two\n
    { => => => -
    YIx\x1bP\x1b => => xone\n\x0c => two\n
    } => NTR => xone\n\x0c => two\n
    // A page that lines ended is turned back with its output, and forth again.
    over one\ntwo\nthree\n => => 1 => 2
    YP\x1b => => one\ntwo\n => three\n
    { => => => -
    } => => one\ntwo\n => three\n
    // A session that keeps one string goes back to the page before it, and no further.
    over one\ntwo\nthree\n => => 1 => 2 => 1
    Y\x1b => => => one\ntwo\n
    P\x1b => => one\ntwo\n => three\n
    { => => => one\ntwo\n
    { => NTU => => one\ntwo\n
    } => => one\ntwo\n => three\n
    // A session that keeps no string goes on from each, and back to none.
    over one\ntwo\nthree\n => => 0 => 2 => 0
    Y\x1b => => => one\ntwo\n
    P\x1b => => one\ntwo\n => three\n
    { => NTU => one\ntwo\n => three\n
    } => NTR => one\ntwo\n => three\n
    ~ => NTU => one\ntwo\n => three\n
    ";
