// What a row's bank conflicts cost. They are counted by stamps: each cell has the last row that used it, so that nothing is cleared between rows. What
// was counted last is remembered for a few rows: the same cells, all moved by one distance or by none, cost the same again.
#![tactic(auto)]

ghost use Rattle.std.specs.Prelude.{◌≡◌, true, ◌+◌, ◌-◌, ◌*◌, ◌^◌, ◌<◌, ◌≤◌, length, get_or};
ghost use Rattle.banks.specs.Counting.{numbers_in, numbers_of, Older, Fit, Counted, RowCounted, AllFar};
ghost use Rattle.banks.specs.Remembering.{AtOneDistance, Nearby, lanes_from, Memo, Remembered, RowCosts};

// What a launch's costs are told by: the stamp of each cell, and what is remembered, in sixteen slots. Lent, not copied.
#[derive(Drop)]
pub struct Costs {
    pub stamps: [u32; 1024],
    pub memo: [u32; 544],
}

// A cell that the row uses: where it has not used it before, its bank has one more. The largest count so far comes in and goes out.
fn count(stamps: &mut [u32; 1024], counts: &mut [u32; 16], stamp: u32, i: usize, most: u32) -> u32
    requires { (i < 1024) × Fit counts.old most }
    ensures { Counted stamp i stamps.old counts.old most stamps.new counts.new result }
{
    if stamps[i] == stamp {
        return most;
    }
    stamps[i] = stamp;
    let b = i % 16;
    let k = counts[b] + 1;
    counts[b] = k;
    most.max(k)
}

// The cost of a row whose enabled threads have these cells' numbers, counted. Numbers that are no cell's count nothing, but where there are any the
// answer is 32 more, which no row costs.
fn count_row(numbers: &[u32], mask: u32, stamps: &mut [u32; 1024], stamp: u32) -> u32
    requires { (length numbers.now ≡ 32) × Older stamp stamps.old }
    ensures { RowCounted (numbers_of numbers.now) 32 mask stamp result stamps.new }
{
    let mut counts: [u32; 16] = [0; 16];
    let mut most: u32 = 0;
    let mut far: u32 = 0;
    // No thread from here on is enabled.
    let reach = (32 - mask.leading_zeros()) as usize;
    for t in 0..reach {
        if (mask >> t) % 2 == 1 {
            let i = numbers[t] as usize;
            if i < 1024 {
                most = count(stamps, &mut counts, stamp, i, most);
            } else {
                far = 32;
            }
        }
    }
    most.saturating_sub(1) + far
}

// Whether the first n numbers are at one distance from those that are remembered from `at` on.
fn at_one_distance(numbers: &[u32], memo: &[u32; 544], at: usize, n: usize) -> bool
    requires { (length numbers.now ≡ 32) × (length memo.now ≡ 544) × (at + 34 ≤ 544) × (n ≤ 32) }
    ensures { result ≡ true → AtOneDistance n (numbers_of numbers.now) (lanes_from memo.now at)
        × Nearby (numbers_of numbers.now) (lanes_from memo.now at) }
{
    let distance = words::sub(numbers[0], memo[at]);
    if 2048 <= words::add(distance, 1024) {
        return false;
    }
    let mut same = 0;
    for t in 0..n {
        same += words::eq(words::sub(numbers[t], memo[at + t]), distance);
    }
    same == n as u32
}

// The numbers, the mask and the cost, remembered from `at` on.
fn remember(numbers: &[u32], mask: u32, cost: u32, memo: &mut [u32; 544], at: usize)
    requires { (length numbers.now ≡ 32) × (length memo.old ≡ 544) × (at + 34 ≤ 544) }
    ensures { Remembered (numbers_of numbers.now) mask cost at memo.old memo.new }
{
    memo[at..at + 32].copy_from_slice(numbers);
    memo[at + 32] = mask;
    memo[at + 33] = cost;
}

// Whether what is remembered from `at` on tells the cost of the row.
fn recalls(numbers: &[u32], n: u32, mask: u32, memo: &[u32; 544], at: usize) -> bool
    requires { (length numbers.now ≡ 32) × (length memo.now ≡ 544) × (at + 34 ≤ 544) × (n ≤ 32) }
    ensures { result ≡ true → (get_or memo.now (at + 32) 0 ≡ mask)
        × AtOneDistance n (numbers_of numbers.now) (lanes_from memo.now at)
        × Nearby (numbers_of numbers.now) (lanes_from memo.now at) }
{
    if memo[at + 32] != mask {
        return false;
    }
    at_one_distance(numbers, memo, at, n as usize)
}

// Whether the first n numbers are all common cells', or beyond: then they cost nothing. Mostly the first one tells that they are not.
fn all_far(numbers: &[u32], n: usize) -> bool
    requires { (length numbers.now ≡ 32) × (n ≤ 32) }
    ensures { result ≡ true → AllFar n (numbers_of numbers.now) }
{
    if numbers[0] < 65536 {
        return false;
    }
    let mut near: u32 = 0;
    for number in &numbers[..n] {
        near += words::lt(*number, 65536);
    }
    near == 0
}

// The cost of a row of n threads that nothing remembered tells, counted likewise.
fn count_new(numbers: &[u32], n: u32, mask: u32, stamps: &mut [u32; 1024], stamp: u32) -> u32
    requires { (length numbers.now ≡ 32) × (n ≤ 32) × Older stamp stamps.old }
    ensures { RowCounted (numbers_of numbers.now) n mask stamp result stamps.new }
{
    if all_far(numbers, n as usize) {
        return 32;
    }
    count_row(numbers, mask, stamps, stamp)
}

// What the row with this stamp costs, whose threads' numbers are in register r. `slot` is where its cost is looked for and remembered, unless it has
// common cells. One thread alone meets no conflict.
pub fn row_cost(
    regs: &[u32; 512],
    r: usize,
    n: u32,
    mask: u32,
    costs: &mut Costs,
    stamp: u32,
    slot: usize,
) -> u32
    requires { (length regs.now ≡ 512) × (r < 16) × (n ≤ 32) × (mask < 2 ^ n) × Older stamp costs.old.stamps × Memo costs.old.memo × (slot < 16) }
    ensures { RowCosts (numbers_in regs.now r) n mask stamp result costs.new.stamps costs.new.memo }
{
    if n <= 1 {
        return 0;
    }
    let numbers = &regs[r * 32..r * 32 + 32];
    let at = slot * 34;
    if recalls(numbers, n, mask, &costs.memo, at) {
        return costs.memo[at + 33];
    }
    let cost = count_new(numbers, n, mask, &mut costs.stamps, stamp);
    if 32 <= cost {
        return cost - 32;
    }
    remember(numbers, mask, cost, &mut costs.memo, at);
    cost
}
