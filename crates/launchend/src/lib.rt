// What follows a group's turn: another group's, or the end of the launch.
#![tactic(auto)]

ghost use Rattle.std.specs.Prelude.{◌<◌};
ghost use Rattle.launchend.specs.Ends.{GoesOn, CloseAsks, Closed};

// Whether another group runs behind group g with this verdict.
pub fn goes_on(v: spec::Verdict, g: u32, groups: u32) -> bool
    requires { g < 8 }
    ensures { GoesOn v g groups result }
{
    matches!(v, spec::Verdict::Passed) && g + 1 < groups
}

// The launch is over in this group's run: the log of the k global cells, from place `at` on, and their group masks go to the launch's log.
pub fn close(
    log: &mut [u32],
    shared: &[u32],
    masks: &[u32],
    records: &mut [u32],
    k: usize,
    total: usize,
    at: usize,
    group: u32,
    r: grouprun::Ended,
) -> spec::Outcome
    requires { CloseAsks group k total at log.old shared.now masks.now records.old r }
    ensures { Closed group k total at log.old shared.now masks.now records.old r result
        log.new records.new }
{
    placing::place_kinds(shared, 5, 0, k, total, at, log);
    placing::place_kinds(masks, 3, 5, k, total, at, log);
    let conflicts = intervals::finish(records, r.barriers + group, r.rows);
    spec::Outcome {
        verdict: r.verdict,
        row: r.row as u32,
        group,
        rows: r.rows,
        barriers: r.barriers,
        conflicts,
    }
}
