//! Pieces of a stream, which memory is refused for.
use teco_serve::{Asked, Splitter};

/// Whether the next text is this; where memory was refused, at the second time.
fn gives(splitter: &mut Splitter, text: &[u8]) -> bool {
    for _ in 0..2 {
        if let Ok(asked) = splitter.next() {
            return matches!(asked, Some(Asked::Run(run)) if run.as_slice() == text);
        }
    }
    false
}

/// Feeds a piece; where that is refused, the same piece once more.
fn feeds(splitter: &mut Splitter, piece: &[u8]) -> bool {
    splitter.feed(piece).is_ok() || splitter.feed(piece).is_ok()
}

/// A piece that is refused leaves what is held, and is taken once when it is fed again.
#[test]
fn takes_each_piece_once(rt: HostRuntime) {
    let splitter = &mut Splitter::new(rt.alloc());
    let held = feeds(splitter, b"1=\x1b")
        && feeds(splitter, b"\x1bIa\x1b\x1bIbcdefghijklmnop")
        && gives(splitter, b"1=\x1b")
        && feeds(splitter, b"qrst\x1b\x1bZ")
        && gives(splitter, b"Ia\x1b")
        && gives(splitter, b"Ibcdefghijklmnopqrst\x1b")
        && matches!(splitter.next(), Ok(None));
    assert!(rt; held);
}
