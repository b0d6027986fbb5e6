// What is done with a kept map and the lists of its fields, for the childless keys and for the table alike: what helps to find members and values is laid first, where that is worth it.
ghost use Rattle.std.specs.Prelude.{◌≡◌, ◌/◌, ◌≤◌, true, ◌&&◌, ◌||◌, leb, ltb, map, length};
ghost use Rattle.spec.specs.Record.{entry_of, records_of};
ghost use Rattle.compose.specs.Known.{ascends, run_of, values_of};

use crate::members::{INDEXED, MapRun, Members, ROOM, Run, indexed, keys_in};
use crate::slots::{REMAINDERS, Slots, lay_slots};
use crate::values::Values;
use registry::sorting::IndexedRun;

// What is to be done: what it asks of both lists and of the cells, and what it gives and leaves in the cells, by the members' entries and both lists.
pub(crate) trait MapTask {
    ghost use Rattle.std.specs.Prelude.{List, ℕ, ℤ};
    ghost use Rattle.spec.specs.Spec.{Entry};

    type Answer;

    ghost asks: { Self → (parents list : List ℤ) → List ℕ → Type 0 };

    ghost gives: { Self → List Entry → (parents list : List ℤ) → Self.Answer → List ℕ → Type 0 };

    // Goes by the values of the parent's list. It and `by_keys` are two, since one turns to a value and the other to a key, of which there may be fewer.
    fn by_parents<M: Members>(
        &self,
        members: M,
        parents: &[i64],
        children: Values,
        cells: &mut [u8],
    ) -> Self::Answer
        requires { asks self.now parents.now (values_of children) cells.old }
        ensures { gives self.now (M.entries members) parents.now (values_of children.entry) result cells.new };

    // Goes by the keys of the members.
    fn by_keys(
        &self,
        members: IndexedRun,
        parents: Values,
        children: Values,
        cells: &mut [u8],
    ) -> Self::Answer
        requires { asks self.now (values_of parents) (values_of children) cells.old }
        ensures { gives self.now (map entry_of (records_of members.entry.run.now)) (values_of parents.entry) (values_of children.entry) result cells.new };
}

// So many members are worth an index, where so many values are looked for among them.
fn is_worth(members: usize, values: usize) -> bool
    ensures { result ≡ true → members ≤ 2048 }
{
    (members <= INDEXED) & (32 < values) & ((16 < members) | (512 < values))
}

// So many members are worth slots of a list of so many values, among which they are looked for.
fn is_worth_slots(members: usize, values: usize) -> bool
    ensures { result ≡ (ltb 16 members && ltb 32 values) }
{
    (16 < members) & (32 < values)
}

// Going by the keys is quicker: they are no more than the values of the parent's list, and found in it by halving or few.
fn goes_by_keys(parents: Values, keys: usize) -> bool
    ensures { result ≡ (leb keys (length (values_of parents.entry)) && (ascends parents.entry || leb keys 24)) }
{
    (keys <= parents.list().len()) & (parents.ascends() | (keys <= 24))
}

// Members, lists and cells go on one by one, here and below, and not in a struct: each function turns one of them into another type.
// Does the task by the keys or by the parent's list, whichever is quicker.
fn run_indexed<T: MapTask>(
    task: &T,
    members: IndexedRun,
    parents: &[i64],
    children: Values,
    cells: &mut [u8],
) -> T::Answer
    requires { T.asks task.now parents.now (values_of children) cells.old }
    ensures { T.gives task.now (map entry_of (records_of members.entry.run.now)) parents.now (values_of children.entry) result cells.new }
{
    let values = Values::new(parents);
    if goes_by_keys(values, keys_in(members)) {
        return task.by_keys(members, values, children, cells);
    }
    task.by_parents(members, parents, children, cells)
}

// The same; the members of a run are indexed first.
// Out of line, for its large array.
#[inline(never)]
fn run_ordered<T: MapTask>(
    task: &T,
    run: &[u8],
    parents: &[i64],
    children: Values,
    cells: &mut [u8],
) -> T::Answer
    requires { (length run.now / 32 ≤ 2048) × T.asks task.now parents.now (values_of children) cells.old }
    ensures { T.gives task.now (map entry_of (records_of run.now)) parents.now (values_of children.entry) result cells.new }
{
    let mut room = [0usize; ROOM];
    run_indexed(task, indexed(run, &mut room), parents, children, cells)
}

// The same; members without an index are given one where that is worth it.
fn run_on<T: MapTask>(
    task: &T,
    members: MapRun,
    parents: &[i64],
    children: Values,
    cells: &mut [u8],
) -> T::Answer
    requires { T.asks task.now parents.now (values_of children) cells.old }
    ensures { T.gives task.now (map entry_of (records_of (run_of members.entry))) parents.now (values_of children.entry) result cells.new }
{
    match members {
        MapRun::Indexed(members) => run_indexed(task, members, parents, children, cells),
        MapRun::Plain(run) => {
            if is_worth(run.len() / 32, parents.len()) {
                return run_ordered(task, run, parents, children, cells);
            }
            task.by_parents(Run(run), parents, children, cells)
        }
    }
}

// The same; the slots of the child's list are laid first.
// Out of line, for its large array.
#[inline(never)]
fn run_slotted<T: MapTask>(
    task: &T,
    members: MapRun,
    parents: &[i64],
    list: &[i64],
    cells: &mut [u8],
) -> T::Answer
    requires { T.asks task.now parents.now list.now cells.old }
    ensures { T.gives task.now (map entry_of (records_of (run_of members.entry))) parents.now list.now result cells.new }
{
    let mut numbers = [0u16; REMAINDERS];
    lay_slots(list, &mut numbers);
    let numbers = &numbers;
    let children = Values::Slotted(Slots { list, numbers });
    run_on(task, members, parents, children, cells)
}

// Does the task; the slots of the child's list are laid where it does not ascend and that is worth it.
pub(crate) fn run<T: MapTask>(
    task: &T,
    members: MapRun,
    parents: &[i64],
    list: &[i64],
    cells: &mut [u8],
) -> T::Answer
    requires { T.asks task.now parents.now list.now cells.old }
    ensures { T.gives task.now (map entry_of (records_of (run_of members.entry))) parents.now list.now result cells.new }
{
    let children = Values::new(list);
    if !children.ascends() && is_worth_slots(members.many(), list.len()) {
        return run_slotted(task, members, parents, list, cells);
    }
    run_on(task, members, parents, children, cells)
}
