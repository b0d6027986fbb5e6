// Judges each rules file that an argument names, and prints its name and the answer.
#![tactic(auto)]

use listing::text::put_answer;
use program::{ROOM, read_file};
use spec::validate::validate;
use std::rt::Files;
use std::{env, io};

fn print_answer(rt: &impl Print, name: &str, file: &[u8]) -> io::Result<()> {
    let mut text = [0u8; 64];
    let len = put_answer(&mut text, validate(file));
    print!(rt; "{name} ")?;
    rt.write_all(&text[..len])
}

fn judge_file<R: Files + Print + Eprint>(rt: &R, name: &str) -> io::Result<()> {
    let mut file = [0u8; ROOM];
    if let Some(n) = read_file(rt, name, &mut file)? {
        print_answer(rt, name, &file[..n])?;
    }
    Ok(())
}

fn main(rt: HostRuntime) -> io::Result<()> {
    for name in env::args(&rt)?.skip(1) {
        judge_file(&rt, name.as_str())?;
    }
    Ok(())
}
