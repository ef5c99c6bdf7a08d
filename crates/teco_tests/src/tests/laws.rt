//! The functions that do nothing, whose clauses are laws of tokens, steps, screens and strings.
use teco_exec::meaning_laws;
use teco_io::screen_laws;
use teco_scan::{profile_laws, spelling};
use teco_step::effect_laws;

#[test]
fn laws_are_told() {
    spelling();
    profile_laws();
    effect_laws();
    screen_laws();
    meaning_laws();
}
