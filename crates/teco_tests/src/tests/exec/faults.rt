//! The first fault of the text where a run last stood: at the place, in what is skipped, or after it.

pub(super) const ROWS: &str = "
    // The run is at the fault.
    J? => => ILL => 1 => 1 1 [] [] Some(ListFault { at: 1, opened: None, code: Ill })
    J  ? => => ILL => 1 => 1 3 [] [] Some(ListFault { at: 3, opened: None, code: Ill })
    1> => => BNI => 1 => 1 1 [] [] Some(ListFault { at: 1, opened: None, code: Bni })
    <1'> => => ILL => 2 => 2 2 [None] [] Some(ListFault { at: 2, opened: None, code: Ill })
    <1 => => UTC => 2 => 2 2 [None] [] Some(ListFault { at: 2, opened: Some(0), code: Utc })
    1\"EJ|1 => => UTC => 3 => 3 6 [] [] Some(ListFault { at: 6, opened: Some(4), code: Utc })
    <Iab => => UTC => 1 => 1 1 [None] [] Some(ListFault { at: 1, opened: None, code: Utc })
    // A first part is skipped,
    0\"GZZZ?~' => => ILL => 2 => 1 1 [] [] Some(ListFault { at: 6, opened: None, code: Ill })
    0\"G1 => => UTC => 2 => 1 1 [] [] Some(ListFault { at: 4, opened: Some(1), code: Utc })
    0\"G1\"E2<3' => => ILL => 2 => 1 1 [] [] Some(ListFault { at: 9, opened: None, code: Ill })
    0\"G1\"E2|3<4 => => UTC => 2 => 1 1 [] [] Some(ListFault { at: 11, opened: Some(9), code: Utc })
    0\"G1\"E2|3 => => UTC => 2 => 1 1 [] [] Some(ListFault { at: 9, opened: Some(7), code: Utc })
    0\"G1\"E2|3'> => => BNI => 2 => 1 1 [] [] Some(ListFault { at: 10, opened: None, code: Bni })
    0\"GQ?' => => IQN => 2 => 1 1 [] [] Some(ListFault { at: 3, opened: None, code: Iqn })
    // a second part,
    1\"GJ|?' => => ILL => 3 => 3 4 [] [] Some(ListFault { at: 5, opened: None, code: Ill })
    1\"GJ|2 => => UTC => 3 => 3 4 [] [] Some(ListFault { at: 6, opened: Some(4), code: Utc })
    // an iteration,
    0<J?> => => ILL => 2 => 1 1 [] [] Some(ListFault { at: 3, opened: None, code: Ill })
    0<J => => UTC => 2 => 1 1 [] [] Some(ListFault { at: 3, opened: Some(1), code: Utc })
    0<J<> => => UTC => 2 => 1 1 [] [] Some(ListFault { at: 5, opened: Some(1), code: Utc })
    // or the rest of one.
    <1;?> => => ILL => 3 => 2 2 [None] [] Some(ListFault { at: 3, opened: None, code: Ill })
    <1; => => UTC => 3 => 2 2 [None] [] Some(ListFault { at: 3, opened: Some(0), code: Utc })
    <1\"G1;'?> => => ILL => 5 => 4 5 [None] [] Some(ListFault { at: 7, opened: None, code: Ill })
    // A jump finds no tag after a fault.
    Oa\x1b?!a! => => TAG => 1 => 0 0 [] [] Some(ListFault { at: 3, opened: None, code: Ill })
    <Oa\x1b => => TAG => 2 => 1 1 [None] [] Some(ListFault { at: 4, opened: Some(0), code: Utc })
    <Oa\x1b>!b! => => TAG => 2 => 1 1 [None] [] None
    // A step fails where the text has a fault, or none.
    J5J? => => POP => 3 => 2 2 [] [] Some(ListFault { at: 3, opened: None, code: Ill })
    J5J => => POP => 3 => 2 2 [] [] None
    // In a text that is called.
    @^UA/0<J?>/MA? => => ILL => 4 => 3 1 [] [Call { register: Reg { index: 0 }, at: 11, turns: [] }] Some(ListFault { at: 3, opened: None, code: Ill })
    @^UA/5J/MA? => => POP => 4 => 3 1 [] [Call { register: Reg { index: 0 }, at: 8, turns: [] }] None
    ";
