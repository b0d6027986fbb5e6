// Numbers that a test chooses, written as bytes.
ghost use Rattle.std.specs.Prelude.{◌≡◌, Bool, ℕ, ◌+◌, ◌≤◌, ◌<◌, ◌++◌, length, take};
ghost use Rattle.lists.specs.Lists.{filter, over, upto};
ghost use Rattle.compose.specs.Code.{Chooses};

// Behind the first `before` numbers, writes those below c that the test chooses; how many numbers there are then.
pub fn choose<F: Fn(usize) -> bool>(
    c: usize,
    chooses: F,
    before: usize,
    numbers: &mut [u8],
) -> usize
    requires { (c ≤ 256) × ((k : ℕ) → k < c → F.pre chooses k) × ((q : ℕ → Bool) × Chooses (F.post chooses) c q × (before + length (filter q (upto c)) ≤ length numbers.old)) }
    ensures numbers { (q : ℕ → Bool) → Chooses (F.post chooses) c q → numbers.new ≡ over (take before numbers.old ++ filter q (upto c)) numbers.old }
    ensures count { (q : ℕ → Bool) → Chooses (F.post chooses) c q → result ≡ before + length (filter q (upto c)) }
{
    let mut count = before;
    for k in 0..c {
        if chooses(k) {
            numbers[count] = k as u8;
            count += 1;
        }
    }
    count
}
