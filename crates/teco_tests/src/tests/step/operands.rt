//! Values and operators in each place: after nothing, a number, a sign, an operator, a parenthesis or a comma.

pub(crate) const ROWS: &str = "
    // Registers are given in each form.
    5Ua1Qa => => ARG
    5Ua-Qa= => -5\r\n
    5Ua(Qa)= => 5\r\n
    5Ua1+Qa= => 6\r\n
    Iabc\x1b1,:QaT => a
    %a= => 1\r\n
    5%a= => 5\r\n
    Iabc\x1b0,2%aT => ab
    -%a= => -1\r\n
    (%a)= => 1\r\n
    (5%a)= => 5\r\n
    1+%a= => 2\r\n
    I5\x1bJ\\= => 5\r\n
    7\\HT => 7
    1,2\\ => => ARG
    I5\x1bJ-\\= => -5\r\n
    I5\x1bJ(\\)= => 5\r\n
    (2\\ => => MRP
    I5\x1bJ1+\\= => 6\r\n
    I5\x1bJ0,\\= => => ARG
    // Places are given in each form.
    1B => => ARG
    1Z => => ARG
    1. => => ARG
    1^E => => ARG
    1^N => => ARG
    1^^a => => ARG
    -Z= => 0\r\n
    (B)= => 0\r\n
    1+.= => 1\r\n
    -^N= => 1\r\n
    (^E)= => 0\r\n
    1-^^a= => -96\r\n
    1H => => ARG
    -H => => ARG
    (H => => ARG
    1+H => => ARG
    1,H => => ARG
    HT =>
    // Operators wait for values.
    * => => ARG
    / => => ARG
    & => => ARG
    # => => ARG
    (* => => ARG
    1+* => => ARG
    -+ => => ARG
    1--1 => => ARG
    , => => ARG
    -, => => ARG
    1+, => => ARG
    1,, => => ARG
    (1, => => ARG
    1( => => ARG
    -(2)= => -2\r\n
    1-(2)= => -1\r\n
    ) => => ARG
    (1+) => => ARG
    (-) => => ARG
    (1)) => => ARG
    (1)( => => ARG
    // Results are in range.
    2147483647= => 2147483647\r\n
    2147483648 => => OVF
    1/0 => => DVZ
    -7/2= => -3\r\n
    -( =>
    -1&255= => 255\r\n
    -8#7= => -1\r\n
    (\x1b5= => 5\r\n
    1,\x1b5= => 5\r\n
    ";
