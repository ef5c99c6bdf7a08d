//! What holds of all occurrences, whatever is looked for and wherever.
ghost use Rattle.std.specs.Prelude.{◌↔◌, ◌≡◌, ◌<◌, ℕ, List, length, Ok, Err};
ghost use Rattle.teco_search.specs.Law.{MatchesAreLong, AreForward, AreBackward, AreRising, AreFalling, ReadsAsItself, MatchesWhereItIs};
ghost use Rattle.teco_search.specs.Occurrence.{Sought, Span, forward, backward};
ghost use Rattle.teco_search.specs.Reading.{read};
ghost use Rattle.teco_search.specs.Spelling.{Spells, SpellsNothing};
ghost use Rattle.teco_search.specs.declared.element.Element.{Element};
ghost use Rattle.teco_core.specs.declared.code.Code.TheVariants.{Ice};

/// The laws of occurrences, of a pattern of at least one element.
///
/// Every match is at least one byte long. The forward occurrences from a place are the one list whose first has the least start at or after the
/// place, and each next the least start at or after the former's end. The backward occurrences are the one list whose first has the highest
/// start at or before the place, and each next the highest start among those that end no later than the former began. So occurrences don't
/// overlap, and rise or fall.
pub fn occurrences()
    ensures long { (sought : Sought) (text : List ℕ) → 0 < length sought.elements
        → MatchesAreLong sought text }
    ensures forward { (sought : Sought) (text : List ℕ) (from : ℕ) (ms : List Span)
        → 0 < length sought.elements → AreForward sought text from ms ↔ (ms ≡ forward sought text from) }
    ensures backward { (sought : Sought) (text : List ℕ) (from : ℕ) (ms : List Span)
        → 0 < length sought.elements → AreBackward sought text from ms ↔ (ms ≡ backward sought text from) }
    ensures rising { (sought : Sought) (text : List ℕ) (from : ℕ) → 0 < length sought.elements
        → AreRising (forward sought text from) }
    ensures falling { (sought : Sought) (text : List ℕ) (from : ℕ) → 0 < length sought.elements
        → AreFalling (backward sought text from) }
{}

/// The law of reading: what is read of a search text is what it spells, and it is refused exactly where it spells nothing.
///
/// So a search text spells one list of elements at most.
pub fn search_texts()
    ensures spelled { (text : List ℕ) (es : List Element) → (read text ≡ Ok es) ↔ Spells text es }
    ensures refused { (text : List ℕ) → (read text ≡ Err Ice) ↔ SpellsNothing text }
{}

/// The laws of literals: a search text that has no controls, in exact case.
///
/// It is read as its bytes, each of them itself. It matches exactly where these bytes are, and its match ends with the last of them.
pub fn literal_texts()
    ensures read { (bytes : List ℕ) → ReadsAsItself bytes }
    ensures matches { (bytes text : List ℕ) (p q : ℕ) → 0 < length bytes → MatchesWhereItIs bytes text p q }
{}
