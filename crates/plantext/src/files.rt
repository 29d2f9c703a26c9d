// The plans and files that a program is given: on standard input, and in the files that its arguments name. What cannot be read is told on
// standard error; where it cannot be told either, there is nobody to tell.
ghost use Rattle.std.specs.Prelude.{◌≡◌, ◌≤◌, ◌⊎◌, List, ℕ, length, IfOk, IfSome};
ghost use Rattle.std.specs.Fn.{FnOnceReturnsAt};

use std::env::{Env, FillError};
use std::io::{ErrorKind, Read};
use std::rt::Files;
use std::{fs, io, str};

// What a program runs on: its arguments, files, input and output, and standard error.
#[derive(Clone, Copy)]
pub struct Host<'a, R, E> {
    pub rt: &'a R,
    pub errors: &'a E,
}

// Reads until the buffer is full, the input ends or a read fails; what was read.
fn read<'w, I: Read>(input: &mut I, bytes: &'w mut [u8]) -> io::Result<&'w [u8]>
    ensures { IfOk result (λ r. length r.now ≤ length bytes.old) }
{
    let mut n = 0;
    while n < bytes.len() {
        match input.read(&mut bytes[n..])? {
            0 => break,
            more => n += more,
        }
    }
    Ok(&bytes[..n])
}

// A path of the library's is text.
fn read_path<'w, R: Files>(rt: &R, name: &[u8], bytes: &'w mut [u8]) -> io::Result<&'w [u8]>
    ensures { IfOk result (λ r. length r.now ≤ length bytes.old) }
{
    match str::from_utf8(name) {
        Ok(path) => read(&mut fs::open(rt, path)?, bytes),
        Err(_) => Err(io::Error::new(ErrorKind::InvalidInput, "the file's name is not UTF-8")),
    }
}

// Why there is no such argument.
fn argument_error(why: FillError) -> io::Error {
    match why {
        FillError::NotPresent => io::Error::new(ErrorKind::InvalidInput, "Invalid argument"),
        FillError::TooLong => io::Error::new(ErrorKind::InvalidFilename, "File name too long"),
    }
}

// What failed, and why, in a line. A file's name need not be text.
fn tell<E: Print>(errors: &E, what: &[u8], why: io::Error) -> io::Result<()> {
    errors.write_all(what)?;
    println!(errors; ": {why}")
}

// The longest argument that is read; a path has one byte less at most. A file by a longer argument is told without its name.
const WORD: usize = 4096;

impl<R: Env, E> Host<'_, R, E> {
    // How many arguments there are, the program's name among them.
    pub fn count(&self) -> usize {
        for i in 0..usize::MAX {
            if let Err(FillError::NotPresent) = self.rt.arg(i, &mut []) {
                return i;
            }
        }
        usize::MAX
    }

    // An argument, read into what is lent; empty where there is none or it is too long.
    pub fn argument<'w>(&self, i: usize, word: &'w mut [u8]) -> &'w [u8]
        ensures { length result.now ≤ length word.old }
    {
        match self.rt.arg(i, word) {
            Ok(n) => &word[..n],
            Err(_) => &[],
        }
    }

    // Whether an argument is this word.
    pub fn is(&self, i: usize, word: &[u8]) -> bool {
        self.argument(i, &mut [0u8; WORD]) == word
    }

    // Whether an argument begins as an option does.
    pub fn is_option(&self, i: usize) -> bool {
        self.argument(i, &mut [0u8; WORD]).starts_with(b"-")
    }
}

impl<R: Env + Print, E> Host<'_, R, E> {
    // An argument, and what stands behind it.
    pub fn print_name(&self, i: usize, behind: &[u8]) -> io::Result<()> {
        self.rt.write_all(self.argument(i, &mut [0u8; WORD]))?;
        self.rt.write_all(behind)
    }
}

impl<R, E: Print> Host<'_, R, E> {
    // What is read; what cannot be is told.
    fn told<'w>(&self, what: &[u8], read: io::Result<&'w [u8]>) -> Option<&'w [u8]>
        ensures { IfSome result (λ r. read.entry ≡ Ok r) }
    {
        match read {
            Ok(bytes) => Some(bytes),
            Err(why) => {
                let _ = tell(self.errors, what, why);
                None
            }
        }
    }
}

impl<R: Env + Files, E: Print> Host<'_, R, E> {
    // The bytes of the file that an argument names, as many as fit; none where it cannot be read.
    pub fn read_file<'w>(&self, i: usize, bytes: &'w mut [u8]) -> Option<&'w [u8]>
        ensures { IfSome result (λ r. length r.now ≤ length bytes.old) }
    {
        let mut word = [0u8; WORD];
        match self.rt.arg(i, &mut word) {
            Ok(n) => self.told(&word[..n], read_path(self.rt, &word[..n], bytes)),
            Err(why) => self.told(b"argument", Err(argument_error(why))),
        }
    }
}

impl<R: Env + Files + Input, E: Print> Host<'_, R, E> {
    // The plan in the file that an argument names. For argument 0, which is the program, it is the plan on standard input.
    pub fn read_plan<'w>(&self, i: usize, plan: &'w mut [u8]) -> Option<&'w [u8]>
        ensures { IfSome result (λ r. length r.now ≤ length plan.old) }
    {
        if i == 0 {
            return self.told(b"standard input", read(&mut self.rt.reader(), plan));
        }
        self.read_file(i, plan)
    }

    // The first 8,192 bytes of that plan, lent; they decide. Nothing is done where it cannot be read.
    pub fn with_plan<F: FnOnce(&[u8]) -> io::Result<()>>(&self, i: usize, show: F) -> io::Result<()>
        requires { F.IsAlwaysCallable show }
        ensures { (result ≡ Ok tt) ⊎ ((plan : List ℕ) × (length plan ≤ 8192) × FnOnceReturnsAt F.FnOnce show plan result) }
    {
        let mut plan = [0u8; 8192];
        match self.read_plan(i, &mut plan) {
            Some(plan) => show(plan),
            None => Ok(()),
        }
    }
}

impl<R: Env + Files + Input + Print, E: Print> Host<'_, R, E> {
    // The list of an argument's plan as text; of the plan, the first 8,192 bytes decide. Where something is to stand behind its name, they
    // stand before it.
    pub fn list_file(&self, i: usize, behind: Option<&[u8]>) -> io::Result<()> {
        self.with_plan(i, |plan| {
            if let Some(behind) = behind {
                self.print_name(i, behind)?;
            }
            super::print_list(self.rt, plan)
        })
    }

    // The list's bytes.
    pub fn write_file(&self, i: usize) -> io::Result<()> {
        self.with_plan(i, |plan| super::write_list(self.rt, self.errors, plan))
    }

    // The lists of all files that arguments name, as text. Their names stand before them where something is to stand behind those.
    pub fn list_files(&self, behind: &[u8]) -> io::Result<()> {
        let behind = if behind.is_empty() {
            None
        } else {
            Some(behind)
        };
        for i in 1..self.count() {
            self.list_file(i, behind)?;
        }
        Ok(())
    }
}
