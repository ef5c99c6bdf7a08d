//! What is told besides of a source that may be a file of bytes, which `-b` takes.
ghost use Rattle.std.specs.Prelude.{◌≡◌};
ghost use Rattle.teco_driver.specs.Advice.{advice_of, are_escaped, bytes_advice, has_escape};

use crate::ReadSource;
use teco_core::ESC;

/// Whether a source has an ESC, for which it would write a dollar sign.
pub(crate) fn has_escape(source: &[u8]) -> bool
    ensures { result ≡ has_escape source.now }
{
    source.iter().any(|byte| *byte == ESC)
}

/// What is told besides if there is such a source.
pub(crate) fn bytes_advice(has: bool) -> &'static str
    ensures { result.now ≡ bytes_advice has }
{
    if has {
        "; teco -b takes the bytes of a file as they are"
    } else {
        ""
    }
}

/// Whether the source of a part has an ESC.
fn is_escaped(part: &ReadSource) -> bool
    ensures { result ≡ has_escape part.now.source.items }
{
    has_escape(part.source.as_slice())
}

/// Whether one of these sources has an ESC.
fn are_escaped(parts: &[ReadSource]) -> bool
    ensures { result ≡ are_escaped parts.now }
{
    parts.iter().any(|part| is_escaped(part))
}

/// What is told besides of these sources.
pub(crate) fn advice_of(parts: &[ReadSource]) -> &'static str
    ensures { result.now ≡ advice_of parts.now }
{
    bytes_advice(are_escaped(parts))
}
