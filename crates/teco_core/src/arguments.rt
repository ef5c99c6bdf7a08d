//! Arguments: the numbers before a command.
ghost use Rattle.std.specs.Prelude.{◌≡◌, ◌≤◌, ◌<◌, ◌^◌, Ok, Err, OnOk, OnErr, IfErr};
ghost use Rattle.teco_core.specs.Arguments.{no_arguments, with_value, with_operator, sign_value, ground_value, level_of, emptied, give, operate, open_level, close_level, comma, give_pair, taken_from, with_first};
ghost use Rattle.teco_core.specs.declared.limits.TheConstants.{PARENTHESIS_LIMIT};

use crate::code::Code;
use crate::limits::PARENTHESIS_LIMIT;
use crate::number::{Op, operation};
use std::mem;

/// A `+` or `-` before a value.
#[derive(Clone, Copy)]
pub enum Sign {
    Positive,
    Negative,
}

/// What a level of the arguments has so far. A level is the ground or an open parenthesis.
///
/// `Signed` is a sign that waits for a value, `Operation` a value and an operator that waits for the next one.
#[derive(Clone, Copy)]
pub enum Expression {
    Nothing,
    Number(i32),
    Signed(Sign),
    Operation(i32, Op),
}

/// What the level in use has, for the commands that look at it without taking it.
///
/// `Sign` is a lone sign, as 1 or -1; at `Waits` an operator waits after a value.
#[derive(Clone, Copy)]
pub enum Level {
    Empty,
    Value(i32),
    Sign(i32),
    Waits,
}

/// What a command takes: nothing, `n`, or `m,n`.
#[derive(Clone, Copy)]
pub enum Taken {
    None,
    One(i32),
    Two(i32, i32),
}

impl Sign {
    /// A lone sign as a number, 1 or -1.
    fn value(self) -> i32
        ensures { result ≡ sign_value self }
    {
        match self {
            Sign::Positive => 1,
            Sign::Negative => -1,
        }
    }
}

impl Expression {
    /// The number that it makes with `value`.
    #[inline(always)]
    fn with_value(self, value: i32) -> Result<i32, Code>
        ensures { result ≡ with_value self value }
    {
        match self {
            Expression::Nothing => Ok(value),
            Expression::Number(_) => Err(Code::Arg),
            Expression::Signed(Sign::Positive) => Ok(value),
            Expression::Signed(Sign::Negative) => value.checked_neg().ok_or(Code::Ovf),
            Expression::Operation(first, op) => operation(op, first, value),
        }
    }

    /// What it becomes with `op` after it.
    fn with_operator(self, op: Op) -> Result<Expression, Code>
        ensures { result ≡ with_operator op self }
    {
        match self {
            Expression::Number(value) => Ok(Expression::Operation(value, op)),
            Expression::Nothing => match op {
                Op::Plus => Ok(Expression::Signed(Sign::Positive)),
                Op::Minus => Ok(Expression::Signed(Sign::Negative)),
                Op::Times | Op::Over | Op::And | Op::Or => Err(Code::Arg),
            },
            Expression::Signed(_) | Expression::Operation(..) => Err(Code::Arg),
        }
    }

    /// Its value for a command, if it has one.
    fn ground_value(self) -> Result<Option<i32>, Code>
        ensures { result ≡ ground_value self }
    {
        match self {
            Expression::Nothing => Ok(None),
            Expression::Number(value) => Ok(Some(value)),
            Expression::Signed(sign) => Ok(Some(sign.value())),
            Expression::Operation(..) => Err(Code::Arg),
        }
    }
}

/// What two values make for a command.
fn with_first(first: Option<i32>, value: Option<i32>) -> Result<Taken, Code>
    ensures { result ≡ with_first first value }
{
    match (first, value) {
        (None, None) => Ok(Taken::None),
        (None, Some(n)) => Ok(Taken::One(n)),
        (Some(m), Some(n)) => Ok(Taken::Two(m, n)),
        (Some(_), None) => Err(Code::Arg),
    }
}

/// The arguments as they are built, with at most [`PARENTHESIS_LIMIT`] open parentheses. They take no memory.
///
/// A call that is refused changes nothing.
#[derive(Clone, Copy)]
pub struct Args {
    first: Option<i32>,
    /// At the level in use.
    expression: Expression,
    /// Around the open parentheses, the outermost first.
    outer: [Expression; PARENTHESIS_LIMIT],
    /// How many parentheses are open.
    depth: usize,
    ghost within_limit: { depth ≤ PARENTHESIS_LIMIT },
}

impl Default for Args {
    ghost use Rattle.std.specs.Prelude.{◌≡◌};
    ghost use Rattle.teco_core.specs.Arguments.{no_arguments};
    ghost use Rattle.teco_core.specs.ArgumentsView.{arguments};

    ghost is_default = { λ a. arguments a ≡ no_arguments };

    fn default() -> Args {
        Args::new()
    }
}

#[tactic(auto, unfolding(crate::specs::ArgumentsView::arguments, crate::specs::Arguments::give, crate::specs::Arguments::operate, crate::specs::Arguments::open_level, crate::specs::Arguments::close_level, crate::specs::Arguments::comma, crate::specs::Arguments::give_pair, crate::specs::Arguments::taken_from))]
impl Args {
    ghost use Rattle.teco_core.specs.ArgumentsView.{arguments};

    /// No arguments.
    pub fn new() -> Args
        ensures { arguments result ≡ no_arguments }
    {
        Args {
            first: None,
            expression: Expression::Nothing,
            outer: [Expression::Nothing; PARENTHESIS_LIMIT],
            depth: 0,
        }
    }

    /// Drops the arguments.
    pub fn clear(&mut self)
        ensures { arguments self.new ≡ no_arguments }
    {
        self.first = None;
        self.expression = Expression::Nothing;
        self.depth = 0;
    }

    /// Takes over the arguments of another.
    ///
    /// The levels around open parentheses are copied only where there are any, so that a call of a text is cheap.
    #[inline(always)]
    pub fn copy_from(&mut self, other: &Args)
        ensures { arguments self.new ≡ arguments other.now }
    {
        if other.depth > 0 {
            *self = *other;
            return;
        }
        self.first = other.first;
        self.expression = other.expression;
        self.depth = 0;
    }

    /// Gives a value to the level in use, to which a waiting operator or sign is applied.
    ///
    /// Answers [`Code::Arg`] after a value alone, and [`Code::Ovf`] or [`Code::Dvz`] where the operator or sign has no result.
    #[inline(always)]
    pub fn give(&mut self, value: i32) -> Result<(), Code>
        ensures ok { OnOk result (give value (arguments self.old) ≡ Ok (arguments self.new)) }
        ensures err { IfErr result (λ code. give value (arguments self.old) ≡ Err code) }
        ensures unchanged { OnErr result (self.new ≡ self.old) }
    {
        let number = self.expression.with_value(value)?;
        self.expression = Expression::Number(number);
        Ok(())
    }

    /// Lets an operator wait after a value, or a sign where there is nothing.
    ///
    /// Anywhere else, and for an operator that is no sign, it answers [`Code::Arg`].
    pub fn operator(&mut self, op: Op) -> Result<(), Code>
        ensures ok { OnOk result (operate op (arguments self.old) ≡ Ok (arguments self.new)) }
        ensures err { IfErr result (λ code. operate op (arguments self.old) ≡ Err code) }
        ensures unchanged { OnErr result (self.new ≡ self.old) }
    {
        let expression = self.expression.with_operator(op)?;
        self.expression = expression;
        Ok(())
    }

    /// Opens a parenthesis.
    ///
    /// Answers [`Code::Arg`] after a value alone, and [`Code::Pdo`] where [`PARENTHESIS_LIMIT`] are open.
    pub fn open(&mut self) -> Result<(), Code>
        ensures ok { OnOk result (open_level (arguments self.old) ≡ Ok (arguments self.new)) }
        ensures err { IfErr result (λ code. open_level (arguments self.old) ≡ Err code) }
        ensures unchanged { OnErr result (self.new ≡ self.old) }
    {
        if let Expression::Number(_) = self.expression {
            return Err(Code::Arg);
        }
        if self.depth == PARENTHESIS_LIMIT {
            return Err(Code::Pdo);
        }
        self.outer[self.depth] = mem::replace(&mut self.expression, Expression::Nothing);
        self.depth += 1;
        Ok(())
    }

    /// Closes a parenthesis and gives its value to the level around it.
    ///
    /// Answers [`Code::Arg`] where none is open or its value isn't finished, and otherwise as [`Args::give`] does.
    pub fn close(&mut self) -> Result<(), Code>
        ensures ok { OnOk result (close_level (arguments self.old) ≡ Ok (arguments self.new)) }
        ensures err { IfErr result (λ code. close_level (arguments self.old) ≡ Err code) }
        ensures unchanged { OnErr result (self.new ≡ self.old) }
    {
        let Expression::Number(value) = self.expression else {
            return Err(Code::Arg);
        };
        if self.depth == 0 {
            return Err(Code::Arg);
        }
        let around = self.outer[self.depth - 1];
        let number = around.with_value(value)?;
        self.depth -= 1;
        self.expression = Expression::Number(number);
        Ok(())
    }

    /// Makes a value alone the first of two.
    ///
    /// Answers [`Code::Arg`] where there is no value alone, a first one already, or an open parenthesis.
    pub fn comma(&mut self) -> Result<(), Code>
        ensures ok { OnOk result (comma (arguments self.old) ≡ Ok (arguments self.new)) }
        ensures err { IfErr result (λ code. comma (arguments self.old) ≡ Err code) }
        ensures unchanged { OnErr result (self.new ≡ self.old) }
    {
        if self.depth > 0 {
            return Err(Code::Arg);
        }
        match (self.first, self.expression) {
            (None, Expression::Number(value)) => {
                self.first = Some(value);
                self.empty_level();
                Ok(())
            }
            _ => Err(Code::Arg),
        }
    }

    /// Makes the arguments 0 and `length`, a text's length in bytes.
    ///
    /// Answers [`Code::Arg`] where there are arguments already.
    pub fn pair(&mut self, length: usize) -> Result<(), Code>
        requires { length < 2 ^ 31 }
        ensures ok { OnOk result (give_pair length (arguments self.old) ≡ Ok (arguments self.new)) }
        ensures err { IfErr result (λ code. give_pair length (arguments self.old) ≡ Err code) }
        ensures unchanged { OnErr result (self.new ≡ self.old) }
    {
        if self.depth > 0 {
            return Err(Code::Arg);
        }
        match (self.first, self.expression) {
            (None, Expression::Nothing) => {
                self.first = Some(0);
                self.expression = Expression::Number(length as i32);
                Ok(())
            }
            _ => Err(Code::Arg),
        }
    }

    /// What a command takes.
    ///
    /// Answers [`Code::Mrp`] where a parenthesis is open, and [`Code::Arg`] where an operator waits after a value or nothing
    /// follows a comma.
    pub fn taken(&self) -> Result<Taken, Code>
        ensures { result ≡ taken_from (arguments self.now) }
    {
        if self.depth > 0 {
            return Err(Code::Mrp);
        }
        let value = self.expression.ground_value()?;
        with_first(self.first, value)
    }

    /// Takes the arguments for a command and leaves none.
    ///
    /// Answers what [`Args::taken`] does. Where it refuses, the arguments stay.
    pub fn take(&mut self) -> Result<Taken, Code>
        ensures value { result ≡ taken_from (arguments self.old) }
        ensures empty { OnOk result (arguments self.new ≡ no_arguments) }
        ensures unchanged { OnErr result (self.new ≡ self.old) }
    {
        let taken = self.taken()?;
        self.clear();
        Ok(taken)
    }

    /// What the level in use has.
    pub fn level(&self) -> Level
        ensures { result ≡ level_of (arguments self.now).expression }
    {
        match self.expression {
            Expression::Nothing => Level::Empty,
            Expression::Number(value) => Level::Value(value),
            Expression::Signed(sign) => Level::Sign(sign.value()),
            Expression::Operation(..) => Level::Waits,
        }
    }

    /// Empties the level in use; a first value and the open parentheses stay.
    pub fn empty_level(&mut self)
        ensures { arguments self.new ≡ emptied (arguments self.old) }
    {
        self.expression = Expression::Nothing;
    }
}
