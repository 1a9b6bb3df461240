// Loads a file's limits from the image on standard input. The arguments are the file's path, the time now and the
// greatest age, both in 100 ns, the time from the start of 1601 on. Discards the 65,536 bytes before sector 32, and
// keeps the 32 sectors from there on.
#![tactic(auto)]

use std::env::{Env, FillError};
use std::io;
use std::io::Read;
use units::Sector;

fn show_usage(rt: &impl Eprint) -> io::Result<()> {
    eprintln!(rt;
        "usage: load PATH TIME AGE <IMAGE: TIME and AGE in 100 ns, TIME since the start of 1601"
    )
}

// Whether there is an argument of this number.
fn has_arg(rt: &impl Env, i: usize) -> bool {
    let mut text = [0u8; 1];
    !matches!(rt.arg(i, &mut text), Err(FillError::NotPresent))
}

// The number that an argument is.
// (`arg` fills a lent buffer and answers how much of it, here and in `load_at`.)
fn number_of(rt: &impl Env, i: usize) -> Option<u64> {
    let mut text = [0u8; 4096];
    match rt.arg(i, &mut text) {
        Ok(n) => loading::read_decimal(&text[..n]),
        Err(_) => None,
    }
}

fn load_from_input(rt: &HostRuntime, path: &[u8], time: u64, age: u64) -> io::Result<()> {
    let mut input = rt.reader();
    io::copy(&mut input.by_ref().take(65536), &mut io::sink())?;
    let mut kept = Vec::with_capacity(rt.alloc(), 65536)?;
    input.take(65536).read_to_end(&mut kept)?;
    loading::show_limits(rt, kept.as_slice(), Sector::new(32), path, time, age)
}

fn load_at(rt: &HostRuntime, time: u64, age: u64) -> io::Result<()> {
    let mut path = [0u8; 4096];
    let Ok(n) = rt.arg(1, &mut path) else {
        return show_usage(rt);
    };
    load_from_input(rt, &path[..n], time, age)
}

fn main(rt: HostRuntime) -> io::Result<()> {
    if !has_arg(&rt, 3) || has_arg(&rt, 4) {
        return show_usage(&rt);
    }
    let Some(time) = number_of(&rt, 2) else {
        return show_usage(&rt);
    };
    let Some(age) = number_of(&rt, 3) else {
        return show_usage(&rt);
    };
    load_at(&rt, time, age)
}
