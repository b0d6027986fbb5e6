// The domain of a field, laid into the lent scratch.
ghost use Rattle.std.specs.Prelude.{◌≡◌, length};
ghost use Rattle.spec.specs.Code.{InScale};

use spec::domains::{domain_len, domain_value};
use spec::numbers::{Index, Value};
use spec::records::Record;

// The domain of a field: its head, and the records of its values.
#[derive(Clone, Copy)]
pub(crate) struct Domain<'a> {
    pub head: Record,
    pub values: &'a [u8],
    ghost scaled: { InScale head.p head.q head.r },
}

impl<'a> Domain<'a> {
    ghost use Rattle.std.specs.Prelude.{Bool, ℤ};
    ghost use Rattle.lists.specs.Lists.{filter, over};
    ghost use Rattle.compose.specs.Code.{Answers};
    ghost use Rattle.compose.specs.Known.{domain_of};

    pub(crate) fn len(self) -> usize
        ensures { result ≡ length (domain_of self.entry) }
    {
        domain_len(self.head, self.values.len() / 32)
    }

    // Lays it.
    pub(crate) fn lay(self, list: &mut [i64])
        requires { length list.old ≡ length (domain_of self) }
        ensures { list.new ≡ domain_of self.entry }
    {
        let (h, values) = (self.head, self.values);
        for (i, v) in list.iter_mut().enumerate() {
            *v = domain_value(h, values, Index(i)).0;
        }
    }

    // Lays those of its values that pass the test over the list; how many they are. Not one function with `compact`, which reads the list that it writes.
    // Out of line: inlined, what the loop goes by lies on the stack.
    #[inline(never)]
    pub(crate) fn lay_passing<F: Fn(Value) -> bool>(self, list: &mut [i64], passes: F) -> usize
        requires can { F.IsAlwaysCallable passes }
        requires room { length list.old ≡ length (domain_of self) }
        ensures count { (p : ℤ → Bool) → Answers (F.post passes) p → result ≡ length (filter p (domain_of self.entry)) }
        ensures left { (p : ℤ → Bool) → Answers (F.post passes) p → list.new ≡ over (filter p (domain_of self.entry)) list.old }
    {
        let (h, values) = (self.head, self.values);
        let mut kept = 0;
        // By index: a value is written where it is kept, not where it is read.
        for i in 0..list.len() {
            let v = domain_value(h, values, Index(i));
            if passes(v) {
                list[kept] = v.0;
                kept += 1;
            }
        }
        kept
    }
}
