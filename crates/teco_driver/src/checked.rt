//! What a check of commands comes to where they are run.
ghost use Rattle.teco_driver.specs.CheckedRuns.{NeverAnswersFault};
ghost use Rattle.teco_serve.specs.Exchange.{HasRung, allowance};
ghost use Rattle.teco_serve.specs.declared.alarm.Bounds.{Bounds};

use teco_check::check_laws;
use teco_serve::Alarm;

/// The law of checked commands. If their check finds no fault, no reply of a run that serves them ends by ILL, IQN, IQC, UTC, BNI or TAG.
/// The call does nothing.
pub fn checked_laws<A: Alarm>()
    ensures { (bounds : Bounds) → NeverAnswersFault (allowance bounds (HasRung A.answered)) }
{
    check_laws();
}
