// What the programs share: a rules file, read from standard input to its end or by its name.
#![tactic(auto)]

pub mod list;

ghost use Rattle.std.specs.Prelude.{◌≡◌, ◌<◌, IfOk, IfSome, OnOk, length, take};
ghost use Rattle.std.specs.Io.KnownBytes.{Consumes, IsAtEnd};
ghost use Rattle.listing.specs.Counts.{IsPrefixLen};

use std::fs::File;
use std::io;
use std::io::Read;
use std::rt::Files;

// Room for the longest rules file and one byte more, so that a longer one is seen to be too long.
pub const ROOM: usize = 65537;

// Reads until `file` is full or the input ends, and gives how many bytes stand at its start. After an error nothing is said of `file`.
fn read_full<R: Read>(input: &mut R, file: &mut [u8]) -> io::Result<usize>
    ensures prefix { IfOk result (λ n. IsPrefixLen n file.new) }
    ensures bytes { IfOk result (λ n. Consumes (R.remaining input.old) (R.remaining input.new) (take n file.new)) }
    ensures end { IfOk result (λ n. n < length file.new → IsAtEnd (R.remaining input.new)) }
{
    let mut n = 0;
    // No `for`: a read gives as many bytes as it likes.
    while n < file.len() {
        let more = input.read(&mut file[n..])?;
        if more == 0 {
            break;
        }
        n += more;
    }
    Ok(n)
}

// Puts the input at the start of `file`, and gives how many bytes. What finds no room is read and dropped. After an error nothing is said of `file`.
pub fn read_input<R: Read>(input: &mut R, file: &mut [u8]) -> io::Result<usize>
    ensures prefix { IfOk result (λ n. IsPrefixLen n file.new) }
    ensures bytes { IfOk result (λ n. IfSome (R.remaining input.old) (λ xs. take n file.new ≡ take (length file.new) xs)) }
    ensures end { OnOk result (IsAtEnd (R.remaining input.new)) }
{
    let n = read_full(input, file)?;
    if n == file.len() {
        io::copy(input, &mut io::sink())?;
    }
    Ok(n)
}

// Puts the file of that name at the start of `file`, and gives how many bytes. What finds no room is left unread.
// A file that cannot be opened is None, after a line on standard error with its name and the error.
pub fn read_file<R: Files + Eprint>(
    rt: &R,
    name: &str,
    file: &mut [u8],
) -> io::Result<Option<usize>>
    ensures { IfOk result (λ read. IfSome read (λ n. IsPrefixLen n file.new)) }
{
    match File::open(rt, name) {
        Ok(mut input) => Ok(Some(read_full(&mut input, file)?)),
        Err(error) => {
            eprintln!(rt; "{name}: {error}")?;
            Ok(None)
        }
    }
}
