// Words put into the middle of a buffer: a part's log into the launch's.
#![tactic(auto)]

ghost use Rattle.std.specs.Prelude.{◌≡◌, ◌+◌, ◌*◌, ◌<◌, ◌≤◌, length, take, replicate};
ghost use Rattle.layout.specs.Views.{put_part};
ghost use Rattle.placing.specs.Kinds.{kind_placed, kinds_placed, KindsAsk};

// The first n words, from place `at` on.
pub fn place_first(words: &[u32], n: usize, at: usize, to: &mut [u32])
    requires { (n ≤ length words.now) × (at + n ≤ length to.old) }
    ensures { to.new ≡ put_part at (take n words.now) to.old }
{
    place(&words[..n], at, to);
}

// All of them. Not inlined: within the run's function the loops change how the compiler lays out those over rows.
#[inline(never)]
#[tactic(auto, unfolding(layout::specs::Views::put_part), using(crate::proofs::Stretches::put_more))]
pub fn place(words: &[u32], at: usize, to: &mut [u32])
    requires { at + length words.now ≤ length to.old }
    ensures { to.new ≡ put_part at words.now to.old }
{
    // No copy_from_slice: the archive for C would need memmove from outside.
    for (k, word) in words.iter().enumerate() {
        to[at + k] = *word;
    }
}

// The k words of kind j.
#[tactic(auto, unfolding(crate::specs::Kinds::kind_placed, layout::specs::Views::part))]
fn place_kind(
    words: &[u32],
    j: usize,
    first: usize,
    k: usize,
    total: usize,
    at: usize,
    to: &mut [u32],
)
    requires { (j * k + k ≤ length words.now) × (at + k ≤ total) × ((first + j) * total + total ≤ length to.old)
        × (j < 8) × (first ≤ 8) × (total ≤ 1024) }
    ensures { to.new ≡ kind_placed first total at k j words.now to.old }
{
    let start = j * k;
    let end = start + k;
    place(&words[start..end], (first + j) * total + at, to);
}

// The words of a part of k cells, put to place `at` of each kind of the launch's `total` words, from kind `first` on.
#[tactic(auto, unfolding(crate::specs::Kinds::kinds_placed))]
pub fn place_kinds(
    words: &[u32],
    kinds: usize,
    first: usize,
    k: usize,
    total: usize,
    at: usize,
    to: &mut [u32],
)
    requires { KindsAsk kinds first k total at words.now to.old }
    ensures { to.new ≡ kinds_placed first total at k kinds words.now to.old }
{
    for j in 0..kinds {
        place_kind(words, j, first, k, total, at, to);
    }
}

// All words 0.
pub fn zero(to: &mut [u32])
    ensures { to.new ≡ replicate (length to.old) 0 }
{
    to.fill(0);
}

// A group's counts of steps, behind those of the groups before it.
pub fn copy_counts(counts: &[u32; 32], n: usize, at: usize, steps: &mut [u32; 256])
    requires { (n ≤ 32) × (at + n ≤ 256) }
    ensures { steps.new ≡ put_part at (take n counts.now) steps.old }
{
    place_first(counts, n, at, steps);
}
