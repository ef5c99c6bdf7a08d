//! Bytes put together.
ghost use Rattle.std.specs.Prelude.{◌≡◌, ◌++◌, IfErr, IfOk};
ghost use Rattle.teco_step.specs.declared.failure.Failure.TheVariants.{Memory};

use crate::failure::Failure;
use std::alloc::Global;
use teco_core::Reg;
use teco_store::Desk;

/// The allocator of a desk.
pub(crate) fn allocator<D: Desk>(desk: &D) -> Global {
    let register = Reg::of(b'A').unwrap();
    *desk.registers().value(register).text.allocator()
}

/// Bytes and those that follow them, in memory of their own.
pub(crate) fn joined<D: Desk>(desk: &D, first: &[u8], second: &[u8]) -> Result<Vec<u8>, Failure>
    ensures ok { IfOk result (λ bytes. bytes.items ≡ first.now ++ second.now) }
    ensures err { IfErr result (λ failure. failure ≡ Memory) }
{
    let mut bytes = Vec::new(allocator(desk));
    bytes.reserve(first.len().saturating_add(second.len()))?;
    bytes.extend_from_slice(first)?;
    bytes.extend_from_slice(second)?;
    Ok(bytes)
}

/// Bytes of a text and those of two parts that follow them, in memory of their own.
pub(crate) fn joined_after<D: Desk>(
    desk: &D,
    text: &[u8],
    first: &[u8],
    second: &[u8],
) -> Result<Vec<u8>, Failure>
    ensures ok { IfOk result (λ bytes. bytes.items ≡ text.now ++ (first.now ++ second.now)) }
    ensures err { IfErr result (λ failure. failure ≡ Memory) }
{
    let parts = first.len().saturating_add(second.len());
    let mut bytes = Vec::new(allocator(desk));
    bytes.reserve(text.len().saturating_add(parts))?;
    bytes.extend_from_slice(text)?;
    bytes.extend_from_slice(first)?;
    bytes.extend_from_slice(second)?;
    Ok(bytes)
}
