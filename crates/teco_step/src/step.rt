//! One step of a token.
ghost use Rattle.std.specs.Prelude.{◌≡◌, Err, length, true};
ghost use Rattle.teco_core.specs.ArgumentsView.{arguments};
ghost use Rattle.teco_core.specs.declared.code.Code.TheVariants.{Mem};
ghost use Rattle.teco_scan.specs.Scan as token;
ghost use Rattle.teco_scan.specs.Seen.{IsItemIn, IsSpanIn, bytes_in, item_in};
ghost use Rattle.teco_store.specs.Trail.{Trail};
ghost use Rattle.teco_step.specs.Effect.{bare_effect, command_effect, item_effect, register_effect, text_effect};
ghost use Rattle.teco_step.specs.Families.{Does};
ghost use Rattle.teco_step.specs.Step.{at};
ghost use Rattle.teco_step.specs.Stepping.{IsStepIn, Steps, name_in, takes_nothing, takes_nothing_in, token_effect, trail_after};
ghost use Rattle.teco_step.specs.declared.failure.Failure.TheVariants.{Memory};
ghost use Rattle.teco_step.specs.declared.next.Next.TheVariants.{Error};

use crate::typing::Base;
use crate::{
    Context, Failure, Next, Setting, case, control, edit, next_of, page_searching, pages,
    registers, replacing, searching, typing, value,
};
use teco_core::{Args, Code, Reg};
use teco_io::Terminal;
use teco_scan::{Bare, Command, Item, RegisterCommand, Span, TextCommand, Token, TokenKind};
use teco_search::Patience;
use teco_store::Desk;

/// A step of a command without an operand.
#[inline(always)]
fn command_step<D: Desk, T: Terminal>(
    desk: &mut D,
    command: Command,
    setting: Setting,
    args: &mut Args,
    term: &mut T,
) -> Result<Next, Failure>
    ensures { Does D.Desk T.Terminal (command_effect command setting)
        (desk.old, args.old, term.old) (desk.new, args.new, term.new) result }
{
    match command {
        Command::Jump => edit::jump(desk, args),
        Command::Forward => edit::forward(desk, args),
        Command::TypeOut => typing::type_out(desk, args, term),
        Command::View => typing::view(desk, args, term),
        Command::TypeByte => typing::type_byte(desk, args, term),
        Command::Print => typing::print(desk, Base::Decimal, setting.modifiers, args, term),
        Command::PrintOctal => typing::print(desk, Base::Octal, setting.modifiers, args, term),
        Command::PrintHexadecimal => {
            typing::print(desk, Base::Hexadecimal, setting.modifiers, args, term)
        }
        Command::Leave => control::leave_or_not(desk, setting.modifiers, setting.inside, args),
        Command::Back => edit::back(desk, args),
        Command::Line => edit::to_line(desk, args),
        Command::Delete => edit::delete(desk, args),
        Command::Kill => edit::kill(desk, args),
        Command::NextPage => pages::next_page(desk, setting.modifiers, args),
        Command::TurnPages => pages::turn_pages(desk, setting.modifiers, setting.work, args),
        Command::WritePage => pages::write_page(desk, args),
        Command::Exit => pages::exit(desk, args),
        Command::CaseMode => case::set_case(desk, args),
    }
}

/// A step of what has no operand.
#[inline(always)]
fn bare_step<D: Desk, T: Terminal>(
    desk: &mut D,
    bare: Bare,
    setting: Setting,
    args: &mut Args,
    term: &mut T,
) -> Result<Next, Failure>
    ensures does { Does D.Desk T.Terminal (bare_effect bare setting)
        (desk.old, args.old, term.old) (desk.new, args.new, term.new) result }
    ensures no_memory { takes_nothing (token.bare bare) ≡ true → result ≡ Err Memory → ⊥ }
{
    match bare {
        Bare::Quantity(which) => value::quantity(desk, which, args),
        Bare::Arithmetic(which) => value::arithmetic(desk, which, args),
        Bare::Command(command) => command_step(desk, command, setting, args, term),
        Bare::Level(command) => value::at_level(desk, setting.modifiers, command, args),
    }
}

/// A step of a command on a register.
#[inline(always)]
fn register_step<D: Desk, T: Terminal>(
    desk: &mut D,
    command: RegisterCommand,
    q: Reg,
    setting: Setting,
    args: &mut Args,
    term: &mut T,
) -> Result<Next, Failure>
    ensures does { Does D.Desk T.Terminal (register_effect command q setting)
        (desk.old, args.old, term.old) (desk.new, args.new, term.new) result }
    ensures no_memory { takes_nothing (token.register command q) ≡ true → result ≡ Err Memory → ⊥ }
{
    match command {
        RegisterCommand::Number => registers::register_value(desk, setting.modifiers, q, args),
        RegisterCommand::Increment => registers::increment(desk, q, args),
        RegisterCommand::Set => registers::set_number(desk, q, args),
        RegisterCommand::Macro => control::run_register(desk, q, args),
        RegisterCommand::Extract => registers::extract(desk, setting.modifiers, q, args),
        RegisterCommand::Get => registers::get(desk, setting.modifiers, q, args, term),
        RegisterCommand::Push => registers::push(desk, q, args),
        RegisterCommand::Pop => registers::pop(desk, q, args),
    }
}

/// A step of a command with one text.
#[inline(always)]
fn text_step<D: Desk, T: Terminal, P: Patience>(
    desk: &mut D,
    command: TextCommand,
    text: &[u8],
    setting: Setting,
    args: &mut Args,
    term: &mut T,
    patience: &P,
) -> Result<Next, Failure>
    ensures { Does D.Desk T.Terminal (text_effect command text.now setting)
        (desk.old, args.old, term.old) (desk.new, args.new, term.new) result }
{
    match command {
        TextCommand::Insert => edit::insert(desk, text, args),
        TextCommand::Go => control::jump_to(desk, text, args),
        TextCommand::InsertTab => edit::insert_tab(desk, text, args),
        TextCommand::TypeOut => typing::type_text(desk, text, args, term),
        TextCommand::Search => searching::search_or_compare(desk, text, setting, args, patience),
        TextCommand::SearchPages => page_searching::search_pages(
            desk, text, false, setting, args, patience,
        ),
        TextCommand::SearchPagesQuietly => page_searching::search_pages(
            desk, text, true, setting, args, patience,
        ),
        TextCommand::FindAndDelete => {
            replacing::search_and_replace(desk, text, &[], setting, args, patience)
        }
        TextCommand::FindAndKill => replacing::search_and_kill(desk, text, setting, args, patience),
    }
}

/// The bytes of a span of the text.
fn bytes_of(text: &[u8], span: Span) -> &[u8]
    requires { IsSpanIn (length text.now) span }
    ensures { result.now ≡ bytes_in text.now span }
{
    &text[span.from..span.to]
}

/// A step of a command, with its operands in the text.
#[inline(always)]
fn item_step<D: Desk, T: Terminal, P: Patience>(
    desk: &mut D,
    text: &[u8],
    item: Item,
    setting: Setting,
    args: &mut Args,
    term: &mut T,
    patience: &P,
) -> Result<Next, Failure>
    requires { IsItemIn (length text.now) item }
    ensures does { Does D.Desk T.Terminal (item_effect (item_in text.now item) setting)
        (desk.old, args.old, term.old) (desk.new, args.new, term.new) result }
    ensures no_memory { takes_nothing (item_in text.now item) ≡ true → result ≡ Err Memory → ⊥ }
{
    match item {
        Item::Digits(span) => value::number(desk, bytes_of(text, span), args),
        Item::Bare(bare) => bare_step(desk, bare, setting, args, term),
        Item::Register(command, q) => register_step(desk, command, q, setting, args, term),
        Item::Text(command, span) => {
            text_step(
                desk,
                command,
                bytes_of(text, span),
                setting,
                args,
                term,
                patience,
            )
        }
        Item::SetText(q, span) => {
            registers::set_text(desk, setting.modifiers, q, bytes_of(text, span), args)
        }
        Item::Byte(code) => value::byte(desk, code, args),
        Item::Replace(old, new) => {
            let (old, new) = (bytes_of(text, old), bytes_of(text, new));
            replacing::replace(desk, old, new, setting, args, patience)
        }
    }
}

/// One step of a token of the text: its first, or a further one where the context has work left.
///
/// The step does what it means; or it ends by [`Code::Mem`] or [`Code::Tty`], and then the state and the arguments are unchanged. A search
/// that gives up, since patience has ended, ends by [`Code::Mem`].
#[inline(always)]
pub fn step_token<D: Desk, T: Terminal, P: Patience>(
    desk: &mut D,
    text: &[u8],
    token: &Token,
    context: Context,
    args: &mut Args,
    term: &mut T,
    patience: &P,
) -> Next
    requires { IsStepIn text.now token.now }
    ensures steps { Steps (token_effect text.now token.now context (D.state desk.old) (arguments args.old))
        (name_in text.now token.now)
        (at (D.state desk.old) (arguments args.old) (T.screen term.old))
        (at (D.state desk.new) (arguments args.new) (T.screen term.new)) result }
    ensures follows { (t : Trail) → D.follows desk.old t → D.follows desk.new
        (trail_after result t (token_effect text.now token.now context (D.state desk.old) (arguments args.old)).load) }
    ensures no_memory { takes_nothing_in text.now token.now ≡ true → result ≡ Error Mem → ⊥ }
{
    let setting = Setting {
        modifiers: token.modifiers,
        work: context.work,
        inside: context.inside,
        before: context.before,
    };
    match token.kind {
        TokenKind::Item(item) => {
            next_of(item_step(desk, text, item, setting, args, term, patience))
        }
        TokenKind::Mark(_) | TokenKind::Test(_) | TokenKind::Tag(_) | TokenKind::Escape => {
            Next::Error(Code::Ill)
        }
    }
}
