//! What always holds of numbers in the buffer.
ghost use Rattle.teco_step.specs.DecimalLaws.{ReadsWhatItInserts};

/// Numbers in the buffer. It does nothing: its clause is a law.
pub fn decimal_laws()
    ensures back { ReadsWhatItInserts }
{}
