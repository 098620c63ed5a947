// The rows of constructs, and BARRIER. Masks are saved on entry, with the construct's row beside them.
#![tactic(auto)]

ghost use Rattle.std.specs.Prelude.{◌≡◌, ◌-◌, ◌*◌, ◌<◌, ◌≤◌, length, set};
ghost use Rattle.spec.specs.Limits.{log_per_cell};
ghost use Rattle.layout.specs.Ops.{construct_number};
ghost use Rattle.layout.specs.Represents.{Room, Counted, RoomForWhile, DepthAsks, gone_on, moved_on};
ghost use Rattle.layout.specs.Constructs.{if_state, else_state, endif_state, while_state, endwhile_state, saved_after, openers_after, EnteredWhile, ConstructDone};
ghost use Rattle.layout.specs.Constructs.{barrier_next, barrier_log};

// On at another row, with another mask and depth, after one more step of each enabled thread.
fn gone_on(s: layout::State, row: usize, mask: u32, depth: usize) -> layout::State
    requires { Room s }
    ensures { Counted s result × (result ≡ gone_on s row mask depth) }
{
    layout::State {
        row,
        mask,
        depth,
        rows: s.rows + 1,
        since: s.since + 1,
        ..s
    }
}

fn if_row(
    regs: &[u32; 512],
    opened: &mut layout::OpenConstructs,
    a: usize,
    s: layout::State,
) -> layout::State
    requires { Room s × (a < 16) × (s.depth < 8) }
    ensures { Counted s result × (result ≡ if_state a regs.now s) × (opened.new.masks ≡ set opened.old.masks s.depth s.mask)
        × (opened.new.rows ≡ set opened.old.rows s.depth s.row) }
{
    opened.masks[s.depth] = s.mask;
    opened.rows[s.depth] = s.row;
    let holding = truth::holding(regs, s.mask, a);
    gone_on(s, s.row + 1, holding, s.depth + 1)
}

fn else_row(opened: &mut layout::OpenConstructs, s: layout::State) -> layout::State
    requires { Room s × (0 < s.depth) × (s.depth ≤ 8) }
    ensures { Counted s result × (result ≡ else_state opened.old.masks s) × (opened.new.masks ≡ opened.old.masks)
        × (opened.new.rows ≡ set opened.old.rows (s.depth - 1) s.row) }
{
    opened.rows[s.depth - 1] = s.row;
    let others = masks::minus(opened.masks[s.depth - 1], s.mask);
    gone_on(s, s.row + 1, others, s.depth)
}

fn endif_row(opened: &layout::OpenConstructs, s: layout::State) -> layout::State
    requires { Room s × (0 < s.depth) × (s.depth ≤ 8) }
    ensures { Counted s result × (result ≡ endif_state opened.now.masks s) }
{
    gone_on(s, s.row + 1, opened.masks[s.depth - 1], s.depth - 1)
}

// The depth with the WHILE's own saved mask, which is put there when the WHILE is come to from above.
fn enter_while(opened: &mut layout::OpenConstructs, s: layout::State) -> usize
    requires { RoomForWhile s opened.old.rows }
    ensures { EnteredWhile result s opened.old.masks opened.old.rows opened.new.masks opened.new.rows }
{
    let depth = s.depth;
    if 0 < depth && opened.rows[depth - 1] == s.row {
        return depth;
    }
    opened.masks[depth] = s.mask;
    opened.rows[depth] = s.row;
    depth + 1
}

fn while_row(
    regs: &[u32; 512],
    opened: &mut layout::OpenConstructs,
    a: usize,
    end: usize,
    s: layout::State,
) -> layout::State
    requires { Room s × (a < 16) × (end < 256) × RoomForWhile s opened.old.rows }
    ensures { Counted s result × (result ≡ while_state a end regs.now s opened.old.masks opened.old.rows)
        × (opened.new.masks ≡ saved_after 35 s opened.old.masks opened.old.rows)
        × (opened.new.rows ≡ openers_after 35 s opened.old.rows) }
{
    let depth = enter_while(opened, s);
    let holding = truth::holding(regs, s.mask, a);
    if holding == 0 {
        return gone_on(s, end + 1, opened.masks[depth - 1], depth - 1);
    }
    gone_on(s, s.row + 1, holding, depth)
}

fn endwhile_row(opened: &layout::OpenConstructs, s: layout::State) -> layout::State
    requires { Room s × (0 < s.depth) × (s.depth ≤ 8) }
    ensures { Counted s result × (result ≡ endwhile_state opened.now.rows s) }
{
    gone_on(s, opened.rows[s.depth - 1], s.mask, s.depth)
}

pub fn construct_row(
    regs: &[u32; 512],
    opened: &mut layout::OpenConstructs,
    op: layout::ConstructOp,
    a: usize,
    end: usize,
    s: layout::State,
) -> layout::State
    requires { Room s × (end < 256) × ((construct_number op ≡ 32 → a < 16) × (construct_number op ≡ 35 → a < 16))
        × DepthAsks (construct_number op) s opened.old.rows }
    ensures { ConstructDone (construct_number op) a end regs.now s opened.old.masks opened.old.rows result opened.new.masks opened.new.rows }
{
    match op {
        layout::ConstructOp::If => if_row(regs, opened, a, s),
        layout::ConstructOp::Else => else_row(opened, s),
        layout::ConstructOp::EndIf => endif_row(opened, s),
        layout::ConstructOp::While => while_row(regs, opened, a, end, s),
        layout::ConstructOp::EndWhile => endwhile_row(opened, s),
    }
}

// On at the next row, after one more step of each enabled thread.
pub fn moved(s: layout::State) -> layout::State
    requires { Room s }
    ensures { result ≡ moved_on s }
{
    gone_on(s, s.row + 1, s.mask, s.depth)
}

// BARRIER, in a launch of so many cells.
pub fn barrier_row(log: &mut [u32], cells: usize, n: u32, s: layout::State) -> layout::Next
    requires { Room s × (1 ≤ n) × (n ≤ 32) × (length log.old ≡ log_per_cell * cells) }
    ensures { (result ≡ barrier_next n s) × (log.new ≡ barrier_log n s cells log.old) }
{
    let mask = s.mask;
    let all = masks::all(n);
    if mask == all {
        logclear::clear_cells(log, cells, s.reach as usize + 1);
        return Ok(layout::State {
            reach: 0,
            row: s.row + 1,
            rows: s.rows + 1,
            barriers: s.barriers + 1,
            ..s
        });
    }
    if mask == 0 {
        // Nobody is enabled, so the step is nobody's.
        return Ok(moved(s));
    }
    let verdict = spec::Verdict::Diverged(
        masks::lowest(mask),
        masks::lowest(masks::minus(all, mask)),
    );
    Err(layout::Stopped { state: s, verdict })
}
