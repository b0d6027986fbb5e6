// join_files FIRST SECOND: writes the joined file to standard output; or, to standard error, a line with refused, the file that it is about, the number and the record.
#![tactic(auto)]

ghost use Rattle.std.specs.Prelude.{IfOk, IfSome};
ghost use Rattle.listing.specs.Counts.{IsPrefixLen};

use join::join::join;
use program::{ROOM, read_file};
use std::rt::Files;
use std::{env, io};

// The file that an argument names. A missing argument is an empty name, which no file has.
fn read_argument<R: Files + Eprint>(
    rt: &R,
    name: Option<String>,
    file: &mut [u8],
) -> io::Result<Option<usize>>
    ensures { IfOk result (λ read. IfSome read (λ n. IsPrefixLen n file.new)) }
{
    read_file(rt, name.as_deref().unwrap_or(""), file)
}

fn print_joined<R: Print + Eprint>(rt: &R, first: &[u8], second: &[u8]) -> io::Result<()> {
    let mut out = [0u8; 65536];
    match join(first, second, &mut out) {
        Ok(len) => rt.write_all(&out[..len]),
        Err(r) => {
            let (which, number, record) = (r.which, u8::from(r.why.fault), r.why.record);
            eprintln!(rt; "refused {which} {number} {record}")
        }
    }
}

fn main(rt: HostRuntime) -> io::Result<()> {
    let mut names = env::args(&rt)?.skip(1);
    let mut first = [0u8; ROOM];
    let a = read_argument(&rt, names.next(), &mut first)?;
    let mut second = [0u8; ROOM];
    let b = read_argument(&rt, names.next(), &mut second)?;
    if let (Some(m), Some(n)) = (a, b) {
        print_joined(&rt, &first[..m], &second[..n])?;
    }
    Ok(())
}
