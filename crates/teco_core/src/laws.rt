//! The laws of the arguments and of digits.
ghost use Rattle.std.specs.Prelude.{◌≡◌, ◌<◌, ◌≤◌, ◌^◌, ℕ, List, ◌∷◌, Ok, Err, pos};
ghost use Rattle.std.specs.Fmt.{decimal};
ghost use Rattle.teco_core.specs.Number.{digits_value, decimal_value};
ghost use Rattle.teco_core.specs.declared.code.Code.TheVariants.{Ovf};
ghost use Rattle.teco_core.specs.ArgumentLaws.{LeftToRight, ParenthesesFirst, Signs, Sixteen, Commas, Unfinished};

/// The laws that the rules of the arguments come to. The call does nothing.
pub fn argument_laws()
    ensures left_to_right { LeftToRight }
    ensures parentheses_first { ParenthesesFirst }
    ensures signs { Signs }
    ensures sixteen { Sixteen }
    ensures commas { Commas }
    ensures unfinished { Unfinished }
{}

/// The laws of digits. The call does nothing.
///
/// The digits of a number, as std writes them, have that number as their value; zeros before them count for nothing. Read as a
/// number they give it back, and are OVF where it is above 2147483647. std writes numbers below 2^64.
pub fn digit_laws()
    ensures value { (n : ℕ) → n < 2 ^ 64 → digits_value 0 (decimal n) ≡ n }
    ensures leading_zero { (digits : List ℕ) → digits_value 0 (48 ∷ digits) ≡ digits_value 0 digits }
    ensures read { (n : ℕ) → n < 2 ^ 31 → decimal_value (decimal n) ≡ Ok (pos n) }
    ensures too_large { (n : ℕ) → 2 ^ 31 ≤ n → n < 2 ^ 64 → decimal_value (decimal n) ≡ Err Ovf }
{}
