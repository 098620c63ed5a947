// The records of the barrier intervals in the lent list, three words each: the row due at its start, its rows, its cost. While an interval goes on, its
// record holds the rows run before it in place of its own. Records are words, and no structs, since C lends the list as words (`sekufoyi_bare_launch`).
#![tactic(auto)]

ghost use Rattle.std.specs.Prelude.{◌≡◌, ◌+◌, ◌*◌, ◌<◌, ◌≤◌, length, get_or};
ghost use Rattle.spec.specs.Limits.{records_lent};
ghost use Rattle.intervals.specs.Records.{in_use, begun, ended, charged, released, costs_up_to, EndAsks};

// The record in use: when all are, the last one goes on.
#[tactic(auto, unfolding(crate::specs::Records::in_use))]
fn in_use(earlier: u32) -> usize
    ensures { (result ≡ in_use earlier) × (result ≤ 1024) }
{
    earlier.min(1024) as usize
}

// An interval starts at this row, with so many rows run before it.
#[tactic(auto, unfolding(crate::specs::Records::begun))]
fn begin(records: &mut [u32], k: usize, row: u32, rows: u32)
    requires { (records_lent ≤ length records.old) × (k ≤ 1024) }
    ensures { records.new ≡ begun k row rows records.old }
{
    records[k * 3] = row;
    records[k * 3 + 1] = rows;
    records[k * 3 + 2] = 0;
}

// The first one starts with the launch.
pub fn launch(records: &mut [u32])
    requires { records_lent ≤ length records.old }
    ensures { records.new ≡ begun 0 0 0 records.old }
{
    begin(records, 0, 0, 0);
}

// An interval is over, with so many rows run.
#[tactic(auto, unfolding(crate::specs::Records::ended))]
fn end(records: &mut [u32], k: usize, rows: u32)
    requires { (records_lent ≤ length records.old) × (k ≤ 1024) × (get_or records.old (k * 3 + 1) 0 ≤ rows) }
    ensures { records.new ≡ ended k rows records.old }
{
    records[k * 3 + 1] = rows - records[k * 3 + 1];
}

// What a row costs, after so many intervals.
#[tactic(auto, using(crate::proofs::Ledger::charged_none), unfolding(crate::specs::Records::charged))]
pub fn charge(records: &mut [u32], earlier: u32, cost: u32)
    requires { (records_lent ≤ length records.old) × (get_or records.old (in_use earlier * 3 + 2) 0 + cost < 4294967296) }
    ensures { records.new ≡ charged earlier cost records.old }
{
    // Most rows cost nothing.
    if cost == 0 {
        return;
    }
    let p = in_use(earlier) * 3 + 2;
    records[p] += cost;
}

// A release, after so many intervals before the one that it ends: the run goes on at this row, with so many rows run.
#[tactic(auto, unfolding(crate::specs::Records::in_use, crate::specs::Records::released))]
pub fn release(records: &mut [u32], earlier: u32, row: u32, rows: u32)
    requires { (records_lent ≤ length records.old) × (get_or records.old (in_use earlier * 3 + 1) 0 ≤ rows) }
    ensures { records.new ≡ released earlier row rows records.old }
{
    if earlier < 1024 {
        let k = earlier as usize;
        end(records, k, rows);
        begin(records, k + 1, row, rows);
    }
}

// The costs of the first records, together.
#[tactic(auto, using(crate::proofs::AddingUp::costs_next), unfolding(crate::specs::Records::costs_up_to))]
fn costs(records: &[u32], count: usize) -> u32
    requires { (records_lent ≤ length records.now) × (count ≤ 1025) × (costs_up_to count records.now < 4294967296) }
    ensures { result ≡ costs_up_to count records.now }
{
    let mut sum: u32 = 0;
    for k in 0..count {
        sum += records[k * 3 + 2];
    }
    sum
}

// The run is over, after so many intervals and rows: the last interval is, and all records' costs are put together.
pub fn finish(records: &mut [u32], earlier: u32, rows: u32) -> u32
    requires { EndAsks earlier rows records.old }
    ensures records { records.new ≡ ended (in_use earlier) rows records.old }
    ensures conflicts { result ≡ costs_up_to (in_use earlier + 1) records.new }
{
    let k = in_use(earlier);
    end(records, k, rows);
    costs(records, k + 1)
}
