//! One step of what was found in a text.
ghost use Rattle.std.specs.Prelude.{◌≡◌, ◌+◌, ◌<◌, ◌≤◌, ℕ, List, None, Some, MatchOption, MatchResult, drop, false, length, true};
ghost use Rattle.teco_core.specs.declared.code.Code.TheVariants.{Lim, Mem};
ghost use Rattle.teco_scan.specs.Scan.{scan};
ghost use Rattle.teco_scan.specs.Seen.{IsFoundAt, IsSpanIn, bytes_in, found_in};
ghost use Rattle.teco_store.specs.State.{State};
ghost use Rattle.teco_step.specs.Stepping.{IsStepIn, name_in, takes_nothing_in};
ghost use Rattle.teco_step.specs.Ending.{end_of, is_unfinished, is_unfinished_code};
ghost use Rattle.teco_io.specs.Terminal.{Screen};
ghost use Rattle.teco_step.specs.declared.next.Next.TheVariants.{Call, Error};
ghost use Rattle.teco_exec.specs.CursorMoves.{inside_iteration, leave_is_next};
ghost use Rattle.teco_exec.specs.Machine.{Caller, Now, after_step_end, ready_of};
ghost use Rattle.teco_exec.specs.Running.{Comes, FlowStays, GoesOn, GoesQuietly, HasStoodBefore, OnCall, OnLast, RunLeads, at_block_step, at_token, config, itself, reached_by_flow};
ghost use Rattle.teco_exec.specs.Runs.{StillSays};
ghost use Rattle.teco_exec.specs.TextStep.{StepsText};
ghost use Rattle.teco_exec.specs.Tokens.{Continues, CountsSteps, OnDone, ProgressFinishes, ProgressStays, ProgressesQuietly, call_of, calls_text, looks_around, reached_by_progress};
ghost use Rattle.teco_exec.specs.Quiet.{IsQuiet, is_plain};
ghost use Rattle.teco_exec.specs.View.{MayOpen, cursor as cursor_of, item_of_kind};
ghost use Rattle.teco_exec.specs.declared.flow.Flow.TheVariants as flow;
ghost use Rattle.teco_exec.specs.declared.flow.Progress.TheVariants as progress;

use crate::cursor::Cursor;
use crate::flow::{Flow, Progress, Steps};
use crate::moves::{BlockStep, Coming};
use crate::stop::Stop;
use teco_core::{Code, Reg};
use teco_io::Terminal;
use teco_scan::{
    Bare, Command, Found, Item, RegisterCommand, Span, TextCommand, Token, TokenKind, block_laws,
};
use teco_step::{Context, Next, Work, effect_laws, step_token};
use teco_store::Desk;

/// Passes what was found at the cursor, where it uses no step, or else does its steps.
///
/// What uses no step is passed one token at a time. Where the limit of steps is reached, the run is over. A step that ends for want
/// of memory, or because the terminal fails, isn't counted.
#[inline(always)]
pub(crate) fn step_found<D: Desk, S: Stop, T: Terminal>(
    desk: &mut D,
    cursor: &mut Cursor,
    found: &Found,
    steps: &mut Steps,
    stop: &mut S,
    term: &mut T,
) -> Flow
    requires read { found_in cursor.old.text.bytes.now found.now ≡ scan cursor.old.text.profile (drop cursor.old.at cursor.old.text.bytes.now) }
    requires place { IsFoundAt cursor.old.text.bytes.now cursor.old.at found.now }
    ensures { StepsText D.Desk T.Terminal (S.answered stop.old) (S.answered stop.new)
        (desk.old, term.old, steps.old) (desk.new, term.new, steps.new) cursor.old cursor.new result }
{
    block_laws();
    match cursor.pass(found) {
        Coming::Passed => Flow::On,
        Coming::Step => match found {
            Found::Token(token) => token_steps(desk, cursor, token, steps, stop, term),
            // `pass` tells of a step only where a token was found.
            Found::End | Found::Fault(_) => unreachable!(),
        },
        Coming::Block(block, to) => block_step(desk, cursor, block, to, steps, stop),
        Coming::End => Flow::Return,
        Coming::Fault(code) => Flow::Stop(code),
    }
}

/// Does the steps of a token, one after the other.
#[inline(always)]
fn token_steps<D: Desk, S: Stop, T: Terminal>(
    desk: &mut D,
    cursor: &mut Cursor,
    token: &Token,
    steps: &mut Steps,
    stop: &mut S,
    term: &mut T,
) -> Flow
    requires { IsStepIn cursor.old.text.bytes.now token.now }
    ensures text { cursor.new.text ≡ cursor.old.text }
    ensures counts { CountsSteps (S.answered stop.old) (S.answered stop.new) (result ≡ flow.Stop Lim)
        steps.old steps.new }
    ensures more { GoesOn result → steps.old.done < steps.new.done }
    ensures leads { RunLeads D.Desk T.Terminal (desk.old, term.old, steps.old) (desk.new, term.new, steps.new)
        (at_token cursor.old token.now None) (λ callers. reached_by_flow cursor.new callers result) }
    ensures quiet { IsQuiet cursor.old.text.profile (cursor_of cursor.old) → takes_nothing_in cursor.old.text.bytes.now token.now ≡ true
        → GoesQuietly cursor.new result }
    ensures stays { FlowStays cursor.old cursor.new result }
    ensures stood { OnLast result steps.new.done
        (HasStoodBefore D.Desk T.Terminal (desk.old, term.old, steps.old) cursor.old token.now) }
    ensures visited { (k : ℕ) → steps.old.done ≤ k → k < steps.new.done
        → HasStoodBefore D.Desk T.Terminal (desk.old, term.old, steps.old) cursor.old token.now k }
    ensures calls { OnCall result (λ q. token.now.kind ≡ call_of q) }
{
    let mut work = None;
    'stepping: loop {
        match token_step(desk, cursor, token, work, steps, stop, term) {
            Progress::Further(left) => {
                work = Some(left);
                continue 'stepping;
            }
            Progress::Done(flow) => return flow,
        }
    }
}

/// Does a step of a token, its first or a further one with this work left. A step that calls a text is told, and not done.
#[inline(always)]
fn token_step<D: Desk, S: Stop, T: Terminal>(
    desk: &mut D,
    cursor: &mut Cursor,
    token: &Token,
    work: Option<Work>,
    steps: &mut Steps,
    stop: &mut S,
    term: &mut T,
) -> Progress
    requires { IsStepIn cursor.old.text.bytes.now token.now }
    ensures text { cursor.new.text ≡ cursor.old.text }
    ensures counts { CountsSteps (S.answered stop.old) (S.answered stop.new)
        (result ≡ progress.Done (flow.Stop Lim)) steps.old steps.new }
    ensures one { steps.new.done ≤ steps.old.done + 1 }
    ensures more { Continues result → steps.old.done < steps.new.done }
    ensures leads { RunLeads D.Desk T.Terminal (desk.old, term.old, steps.old) (desk.new, term.new, steps.new)
        (at_token cursor.old token.now work)
        (λ callers. reached_by_progress cursor.new token.now callers result) }
    ensures quiet { IsQuiet cursor.old.text.profile (cursor_of cursor.old) → takes_nothing_in cursor.old.text.bytes.now token.now ≡ true
        → ProgressesQuietly cursor.new result }
    ensures stays { ProgressStays cursor.old cursor.new result }
    ensures stood { OnDone result (λ f. OnLast f steps.new.done (λ k. k ≡ steps.old.done)) }
    ensures calls { OnDone result (λ f. OnCall f (λ q. token.now.kind ≡ call_of q)) }
{
    effect_laws();
    if let Some(q) = called_by(token) {
        return Progress::Done(Flow::Call(q));
    }
    if steps.are_over(stop) {
        steps.limit = steps.done;
        return Progress::Done(Flow::Stop(Code::Lim));
    }
    let inside = iteration_is_seen(cursor, token);
    let before = leave_is_seen(cursor, token);
    let context = Context {
        work,
        inside,
        before,
    };
    let next = step_token(
        desk,
        cursor.text.bytes,
        token,
        context,
        &mut cursor.args,
        term,
        &*stop,
    );
    if let Some(mut code) = unfinished(&next) {
        if is_given_up(code, steps.done, stop) {
            steps.limit = steps.done;
            code = Code::Lim;
        }
        return Progress::Done(Flow::Stop(code));
    }
    steps.count();
    desk.step_done(steps.done);
    resume(cursor, token, next)
}

/// Does a step of a block.
#[inline(always)]
fn block_step<D: Desk, S: Stop>(
    desk: &mut D,
    cursor: &mut Cursor,
    block: BlockStep,
    to: usize,
    steps: &mut Steps,
    stop: &mut S,
) -> Flow
    requires within { to ≤ length cursor.old.text.bytes.now }
    requires opens { MayOpen block cursor.old.blocks }
    ensures text { cursor.new.text ≡ cursor.old.text }
    ensures counts { CountsSteps (S.answered stop.old) (S.answered stop.new) (result ≡ flow.Stop Lim)
        steps.old steps.new }
    ensures more { GoesOn result → steps.old.done < steps.new.done }
    ensures one { steps.new.done ≤ steps.old.done + 1 }
    ensures leads { (screen : Screen)
        → RunLeads D.Desk itself (desk.old, screen, steps.old) (desk.new, screen, steps.new)
        (at_block_step cursor.old block to) (λ callers. reached_by_flow cursor.new callers result) }
    ensures stood { OnLast result steps.new.done (λ k. k ≡ steps.old.done) }
    ensures stays { FlowStays cursor.old cursor.new result }
    ensures calls { OnCall result (λ q. ⊥) }
{
    if steps.are_over(stop) {
        steps.limit = steps.done;
        return Flow::Stop(Code::Lim);
    }
    let moved = cursor.block_step(block, to);
    steps.count();
    desk.step_done(steps.done);
    on_unless(moved)
}

/// Goes on where a step of the token before the cursor has ended so.
#[inline(always)]
fn resume(cursor: &mut Cursor, token: &Token, next: Next) -> Progress
    requires token { IsStepIn cursor.old.text.bytes.now token.now }
    requires finished { is_unfinished next ≡ false }
    requires no_call { (q : ℕ) → next ≡ Call q → ⊥ }
    ensures text { cursor.new.text ≡ cursor.old.text }
    ensures finished { ProgressFinishes result }
    ensures stays { ProgressStays cursor.old cursor.new result }
    ensures resumes { (s : State) (callers : List Caller) (now : Now)
        → Comes (ready_of (after_step_end token.now.modifiers
        (item_of_kind cursor.old.text.bytes.now token.now.kind)
        (end_of s (name_in cursor.old.text.bytes.now token.now) next)
        (config cursor.old.text.profile cursor.old.text.bytes.now (cursor_of cursor.old) None callers now)))
        now (reached_by_progress cursor.new token.now callers result) }
    ensures quiet { (s : State) → IsQuiet cursor.old.text.profile (cursor_of cursor.old)
        → is_plain (end_of s (name_in cursor.old.text.bytes.now token.now) next) ≡ true
        → ProgressesQuietly cursor.new result }
{
    match next {
        Next::Again(work) => Progress::Further(work),
        Next::On => Progress::Done(Flow::On),
        Next::Leave => Progress::Done(on_unless(cursor.leave())),
        Next::Go => {
            let name = name_of(token);
            Progress::Done(on_unless(cursor.jump(name)))
        }
        // A token that calls is no step of its own: `run_called` does it.
        Next::Call(_) => unreachable!(),
        Next::Out => Progress::Done(Flow::Over),
        Next::Error(code) => Progress::Done(failed(code)),
    }
}

/// The register whose text the token calls.
#[inline(always)]
fn called_by(token: &Token) -> Option<Reg>
    ensures { MatchOption result (calls_text token.now.kind ≡ false) (λ q. token.now.kind ≡ call_of q) }
{
    match token.kind {
        TokenKind::Item(Item::Register(RegisterCommand::Macro, q)) => Some(q),
        _ => None,
    }
}

/// Whether an iteration is open, where the token looks around.
#[inline(always)]
fn iteration_is_seen(cursor: &Cursor, token: &Token) -> bool
    ensures { looks_around token.now.kind ≡ true → result ≡ inside_iteration (cursor_of cursor.now).blocks }
{
    looks_around(token) && cursor.has_iteration()
}

/// Whether a plain `;` comes next, where the token looks around.
#[inline(always)]
fn leave_is_seen(cursor: &Cursor, token: &Token) -> bool
    ensures { looks_around token.now.kind ≡ true → result ≡ leave_is_next (scan cursor.now.text.profile (cursor_of cursor.now).left) }
{
    looks_around(token) && cursor.leave_is_next()
}

/// Whether a step of the token looks at what surrounds it: only `;` does, and a search.
#[inline(always)]
fn looks_around(token: &Token) -> bool
    ensures { result ≡ looks_around token.now.kind }
{
    match token.kind {
        TokenKind::Item(Item::Bare(Bare::Command(Command::Leave))) => true,
        TokenKind::Item(Item::Text(TextCommand::Search, _)) => true,
        TokenKind::Item(Item::Text(TextCommand::SearchPages, _)) => true,
        TokenKind::Item(Item::Text(TextCommand::SearchPagesQuietly, _)) => true,
        TokenKind::Item(Item::Text(TextCommand::FindAndDelete, _)) => true,
        TokenKind::Item(Item::Text(TextCommand::FindAndKill, _)) => true,
        TokenKind::Item(Item::Replace(_, _)) => true,
        _ => false,
    }
}

/// The code by which a step was begun and not done.
#[inline(always)]
fn unfinished(next: &Next) -> Option<Code>
    ensures { MatchOption result (is_unfinished next.now ≡ false)
        (λ code. (next.now ≡ Error code) × (is_unfinished_code code ≡ true)) }
{
    match next {
        Next::Error(Code::Mem) => Some(Code::Mem),
        Next::Error(Code::Tty) => Some(Code::Tty),
        _ => None,
    }
}

/// Whether a step that was begun and not done was given up, since the run is to stop. Then the string ends before it, as if that had been
/// seen there. Else it ends by its code.
#[cold]
fn is_given_up<S: Stop>(code: Code, done: u64, stop: &mut S) -> bool
    ensures memory { result ≡ true → code ≡ Mem }
    ensures asked { result ≡ true → (S.answered stop.new).said done true }
    ensures still { StillSays (S.answered stop.old) (S.answered stop.new) }
{
    code == Code::Mem && stop.asks_now(done)
}

/// A step has failed by this code.
#[inline(always)]
fn failed(code: Code) -> Flow
    ensures { result ≡ flow.Fail code }
{
    Flow::Fail(code)
}

/// The text goes on, unless there was an error.
#[inline(always)]
fn on_unless(moved: Result<(), Code>) -> Flow
    ensures { MatchResult moved (λ _. result ≡ flow.On) (λ code. result ≡ flow.Fail code) }
{
    match moved {
        Ok(()) => Flow::On,
        Err(code) => failed(code),
    }
}

/// Where the name of the tag lies that a jump goes to.
#[inline(always)]
fn name_of(token: &Token) -> Span
    ensures named { (text : List ℕ) → IsStepIn text token.now → bytes_in text result ≡ name_in text token.now }
    ensures inside { (text : List ℕ) → IsStepIn text token.now → IsSpanIn (length text) result }
{
    match token.kind {
        TokenKind::Item(Item::Text(_, span)) => span,
        _ => Span { from: 0, to: 0 },
    }
}
