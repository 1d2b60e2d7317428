//! What the program does with its command-line arguments, files and streams.

ghost use Rattle.std.specs.Prelude.{◌≤◌};

use crate::tell::{tell_exit, tell_fault, tell_folder, tell_unopened, tell_unread};
use std::env::{Env, args};
use std::fs::{File, Files};
use std::io::{Eprint, Input, Print};
use std::{fs, io};
use wi_cli::{ReadFrom, WriteTo, options, run_new, run_new_in_turn};

/// The words with which the program is called, its name first.
fn words<R: AllocGlobal + Env>(rt: &R) -> io::Result<Vec<String>> {
    Ok(args(rt)?.collect(rt.alloc())?)
}

/// Runs the script of standard input.
fn run_input<R: AllocGlobal + Input + Print + Eprint>(rt: &R, keep: usize) -> u8
    requires { 1 ≤ keep }
{
    let mut reader = ReadFrom::new(rt.reader());
    let mut writer = WriteTo::new(io::writer(rt));
    tell_exit(rt, run_new(rt.alloc(), keep, &mut reader, &mut writer))
}

/// Opens the file of the path, and runs its script and then that of standard input.
fn run_loaded<R: AllocGlobal + Files + Input + Print + Eprint>(
    rt: &R,
    keep: usize,
    path: &str,
) -> u8
    requires { 1 ≤ keep }
{
    let file = match File::open(rt, path) {
        Ok(file) => file,
        Err(error) => return tell_unopened(rt, path, &error),
    };
    // A folder can be opened, and fails at the first read, where its name isn't known.
    if fs::metadata(rt, path).is_ok_and(|it| it.is_dir()) {
        return tell_folder(rt, path);
    }
    let mut load = ReadFrom::new(file);
    let mut reader = ReadFrom::new(rt.reader());
    let mut writer = WriteTo::new(io::writer(rt));
    tell_exit(
        rt,
        run_new_in_turn(rt.alloc(), keep, &mut load, &mut reader, &mut writer),
    )
}

/// Does what the program's words ask for. Gives the exit status.
pub fn run<R: AllocGlobal + Env + Files + Input + Print + Eprint>(rt: &R) -> u8 {
    let words = match words(rt) {
        Ok(words) => words,
        Err(error) => return tell_unread(rt, &error),
    };
    match options(rt.alloc(), &words) {
        Ok(asked) => match asked.load {
            Some(path) => run_loaded(rt, asked.keep, path),
            None => run_input(rt, asked.keep),
        },
        Err(fault) => tell_fault(rt, &fault),
    }
}
