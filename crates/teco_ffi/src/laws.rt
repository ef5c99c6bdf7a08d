//! What a caller may rest on of the handles.
ghost use denote.Param.Send.{IsSend};
ghost use Rattle.teco_ffi.specs.contracts.stopper.Stopper.{the_row};

/// A stopper may go from thread to thread. The call does nothing.
pub fn stopper_laws()
    ensures crosses { IsSend the_row }
{}
