//! Of teco_scan: spelling and its faults.
pub(crate) mod faults;
pub(crate) mod modifiers;
pub(crate) mod profiles;
