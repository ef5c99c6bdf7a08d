//! Runs of the whole program by the commands of its line. Those on standard input are not read then.
pub(crate) mod checked;
pub(crate) mod explained;
pub(crate) mod kept;
pub(crate) mod manners;
pub(crate) mod shown;
pub(crate) mod sources;
pub(crate) mod values;
pub(crate) mod wide;
