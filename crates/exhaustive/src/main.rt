// Lists the rules file on standard input with the exhaustive engine: a line for each verdict, then the counts; or the refusal.
#![tactic(auto)]

use compose::force::Engine;
use program::list::list;
use std::io;

fn main(rt: HostRuntime) -> io::Result<()> {
    list(Engine::Exhaustive, &mut rt.stdin(), &mut rt.stdout())
}
