//! Which registers hold code: those that are called.
ghost use Rattle.std.specs.Prelude.{◌≡◌, ◌<◌, ◌≤◌, ℕ, List, length};
ghost use Rattle.teco_scan.specs.Scan.{register, step};
ghost use Rattle.teco_scan.specs.Seen.{instruction_in};
ghost use Rattle.teco_lint.specs.Calls.{AllAreCalled, AnyCalls, AnyCallsWithin, AreCalledOver, Calls, CallsWithin, MayCall, Notes, register_call};
ghost use Rattle.teco_lint.specs.Strings.{strings_of};

use crate::cutting::string_end;
use teco_check::{MOST_TEXTS, REGISTERS};
use teco_core::{Profile, Reg, Registers};
use teco_scan::{Found, Item, RegisterCommand, Token, TokenKind, filler_end, token_at};

/// The register at this place among the registers.
pub fn register_at(index: usize) -> Reg
    requires { index < 36 }
    ensures { result ≡ index }
{
    let index = index as u8;
    let name = if index < 26 {
        b'A' + index
    } else {
        b'0' - 26 + index
    };
    match Reg::of(name) {
        Some(register) => register,
        None => unreachable!(),
    }
}

/// Which registers are called, and which are given a text.
#[derive(Clone, Copy)]
pub struct RegisterUses {
    pub called: [bool; REGISTERS],
    pub given: [bool; REGISTERS],
}

impl RegisterUses {
    /// Notes what a command does to the register of this number.
    fn note(&mut self, command: RegisterCommand, index: usize)
        requires { index < 36 }
        ensures { Notes (λ q. step (register command index) ≡ register_call q)
            (λ q. step (register command index) ≡ register_call q) self.old.called self.new.called }
    {
        match command {
            RegisterCommand::Macro => self.called[index] = true,
            RegisterCommand::Extract | RegisterCommand::Pop => self.given[index] = true,
            _ => {}
        }
    }

    /// Notes what a token does, and what the tokens do of a text that it puts where code is.
    #[cycle(noting)]
    fn note_token(&mut self, profile: Profile, text: &[u8], token: &Token, texts: usize)
        ensures { Notes (λ q. instruction_in text.now token.now.kind ≡ register_call q)
            (MayCall profile (instruction_in text.now token.now.kind)) self.old.called self.new.called }
    {
        let TokenKind::Item(item) = token.kind else {
            return;
        };
        match item {
            Item::Register(command, register) => self.note(command, register.index()),
            Item::SetText(register, span) => {
                let index = register.index();
                self.given[index] = true;
                if self.called[index]
                    && texts > 0
                    && span.from <= span.to
                    && span.to <= text.len()
                {
                    self.note_text(profile, &text[span.from..span.to], texts - 1);
                }
            }
            _ => {}
        }
    }

    /// Notes what the tokens of a text do. Where none can be read it goes on after a byte.
    #[cycle(noting)]
    fn note_text(&mut self, profile: Profile, text: &[u8], texts: usize)
        ensures { Notes (λ q. Calls profile q text.now) (λ q. CallsWithin profile q text.now)
            self.old.called self.new.called }
    {
        let mut at = 0;
        while at < text.len() {
            match token_at(profile, text, at) {
                Found::Token(token) => {
                    at = token.span.to;
                    self.note_token(profile, text, &token, texts);
                }
                Found::End => return,
                Found::Fault(_) => at = filler_end(text, at).saturating_add(1),
            }
        }
    }

    /// Notes that a register may have a text at first, and what the tokens of that do if the register is called.
    fn note_register(&mut self, profile: Profile, first: &Registers, register: Reg)
        ensures { (strings : List (List ℕ)) → AllAreCalled profile first.now strings self.old.called
            → AllAreCalled profile first.now strings self.new.called }
    {
        let index = register.index();
        let text = first.text(register);
        self.given[index] |= !text.is_empty();
        if !self.called[index] {
            return;
        }
        self.note_text(profile, text, MOST_TEXTS);
    }

    /// The same of each register.
    fn note_registers(&mut self, profile: Profile, first: &Registers)
        ensures { (strings : List (List ℕ)) → AllAreCalled profile first.now strings self.old.called
            → AllAreCalled profile first.now strings self.new.called }
    {
        'registers: for index in 0..REGISTERS {
            self.note_register(profile, first, register_at(index));
        }
    }

    /// The same of each command string, and of what comes after the last.
    fn note_strings(&mut self, profile: Profile, commands: &[u8])
        ensures { Notes (λ q. AnyCalls profile q (strings_of commands.now))
            (λ q. AnyCallsWithin profile q (strings_of commands.now)) self.old.called self.new.called }
    {
        let mut start = 0;
        while let Some(end) = string_end(commands, start) {
            self.note_text(profile, &commands[start..end], MOST_TEXTS);
            start = end + 1;
        }
        self.note_text(profile, &commands[start..], MOST_TEXTS);
    }
}

/// Which registers the commands call, and which have or get a text, where the registers hold this at first.
///
/// A text counts if it is put where code is, or if it is there at first. So the commands are gone over until no more registers are called.
pub fn registers_in(profile: Profile, commands: &[u8], first: &Registers) -> RegisterUses
    ensures { AreCalledOver profile first.now result.called commands.now }
{
    let mut registers = RegisterUses {
        called: [false; REGISTERS],
        given: [false; REGISTERS],
    };
    registers.note_strings(profile, commands);
    'passes: for _i in 0..REGISTERS {
        let before = registers.called;
        registers.note_registers(profile, first);
        registers.note_strings(profile, commands);
        if before == registers.called {
            return registers;
        }
    }
    registers
}
