use std::alloc::{Alloc, Global};
use std::env::{self, Env, FillError};
use std::io;

/// The arguments of a process without the first, its own name, which need not be UTF-8.
#[derive(Drop)]
struct BehindTheName<'a, R: Env> {
    env: &'a R,
}

impl<R: Env> Env for BehindTheName<'_, R> {
    fn arg(&self, index: usize, buf: &mut [u8]) -> Result<usize, FillError> {
        match index.checked_add(1) {
            Some(next) => self.env.arg(next, buf),
            None => Err(FillError::NotPresent),
        }
    }

    fn var(&self, name: &str, buf: &mut [u8]) -> Result<usize, FillError> {
        self.env.var(name, buf)
    }

    fn var_at(&self, index: usize, buf: &mut [u8]) -> Result<usize, FillError> {
        self.env.var_at(index, buf)
    }
}

/// The words after the program's name.
pub fn words_of<R: Env + AllocGlobal>(rt: &R) -> io::Result<Vec<String>> {
    let alloc = rt.alloc();
    let mut words = Vec::new(alloc);
    for word in env::args(&(BehindTheName { env: rt }, alloc))? {
        words.push(word)?;
    }
    Ok(words)
}
