//! Arguments that are not UTF-8.
use crate::tests::rows::{Rule, cells_of};
use std::alloc::Global;
use std::env::FillError;
use std::rt::Env;
use teco_cli::{Line, LineFault, refused_status, words_given};

/// The arguments of a program, with a blank between them. In an argument ? is a byte that is in no UTF-8.
#[derive(Drop)]
struct Given<'a> {
    words: &'a str,
}

impl<'a> Env for Given<'a> {
    fn arg(&self, i: usize, buf: &mut [u8]) -> Result<usize, FillError> {
        let Some(word) = self.words.split(' ').nth(i) else {
            return Err(FillError::NotPresent);
        };
        if word.len() > buf.len() {
            return Err(FillError::TooLong);
        }
        for (at, byte) in word.bytes().enumerate() {
            if at < buf.len() {
                buf[at] = if byte == b'?' { 0xff } else { byte };
            }
        }
        Ok(word.len().min(buf.len()))
    }

    fn var(&self, _name: &str, _buf: &mut [u8]) -> Result<usize, FillError> {
        Err(FillError::NotPresent)
    }

    fn var_at(&self, _i: usize, _buf: &mut [u8]) -> Result<usize, FillError> {
        Err(FillError::NotPresent)
    }
}

/// Arguments, and why they are no words of a line, or that they are.
#[derive(Clone, Copy)]
pub(crate) struct Arguments;

impl Rule for Arguments {
    fn holds(&self, alloc: Global, row: &str) -> bool {
        let [words, told, ..] = cells_of(row);
        match words_given::<Line, (Given, Global)>(&(Given { words }, alloc)) {
            Ok(_) => told.is_empty(),
            Err(LineFault::Refused(refusal)) => match &refusal.text {
                Some(text) => {
                    refused_status(&refusal) == 3 && text.as_str().lines().next() == Some(told)
                }
                None => false,
            },
            Err(LineFault::NoMemory) => false,
        }
    }
}

pub(crate) const ROWS: &str = "
    teco -i a b =>
    teco gr?n => error: argument 1 is not UTF-8 text
    teco -i a ? b ? => error: argument 3 is not UTF-8 text
    te?o a => error: argument 0 is not UTF-8 text
    ";
