//! Of teco_driver: the steps of strings whose line says no limit. A million take seconds where nothing is proved, so they have tests of
//! their own.

/// A string that an option gives has 1,000,000 steps, and 1,000 more for each byte of its input.
pub(super) const BY_OPTIONS: &str = "
    - teco -e 501000<%A>QA=EX$$ in => => 501000\r\n => => => => in == hi\n => in == hi\n ++ in.out == hi\n
    - teco -p 501000<%A>QA=$ in => => 501000\r\nhi\n => => => => in == hi\n";

/// Each input has its own limit, if an option gives the commands. A string that is typed has 1,000,000 steps.
pub(super) const AS_TOLD: &str = "
    - teco --explain -e <>$$ in => => => => teco: in: --execute:1:2: string 1, step 1003000, 1:2, >: LIM, 1003000 steps are done: --limit N allows more\nthe commands ended without EX: in.out is not written\n => 2 => in == hi\n
    - teco --explain in => <>\x1b\x1b => ?LIM\r\n => => string 1, step 1000000, 1:2, >: LIM, 1000000 steps are done: --limit N allows more\nthe commands ended without EX: in.out is not written\n => 2 => in == hi\n";
