// The lines of a report, each key with its value; and how several lines are measured and written, one behind the other.
#![tactic(auto)]

ghost use Rattle.std.specs.Prelude.{◌≡◌, ℕ, ◌+◌, ◌*◌, ◌≤◌, length, map};
ghost use Rattle.std.specs.List.{All};
ghost use Rattle.spec.specs.declared.Outcome.{Outcome};
ghost use Rattle.spec.specs.Report.{Line as Reported, bytes_of, each_line, head_lines, interval_lines, end_line, refusal_lines};
ghost use Rattle.reportlines.specs.Lines.{told};
ghost use Rattle.reportlines.specs.Places.{over_from};
ghost use Rattle.reporttable.specs.Values.{run_values, table_lines};
ghost use Rattle.reporttable.specs.Items.{HasShortKey, Gives, KeysWithin, HasRoom};

use reportlines::Line;
use spec::Value;

// How many values a run's report has beside those of its steps and cells: the head's, and two about intervals.
pub const VALUES: usize = 11;

// The lines before the steps.
#[tactic(auto, unfolding(crate::proofs::Opened::opened))]
pub fn head_lines(values: [Value; VALUES]) -> [Line<'static>; 9]
    ensures each { map told result ≡ table_lines values 0 9 }
    ensures lines { (o : Outcome) → values ≡ run_values o → map told result ≡ head_lines o }
    ensures short { All HasShortKey result }
{
    let [
        verdict,
        row,
        group,
        othergroup,
        thread,
        other,
        kind,
        at,
        rows,
        ..
    ] = values;
    [
        Line::new(b"verdict", verdict),
        Line::new(b"row", row),
        Line::new(b"group", group),
        Line::new(b"othergroup", othergroup),
        Line::new(b"thread", thread),
        Line::new(b"other", other),
        Line::new(b"kind", kind),
        Line::new(b"at", at),
        Line::new(b"rows", rows),
    ]
}

// The lines behind the steps.
#[tactic(auto, unfolding(crate::proofs::Opened::opened))]
pub fn interval_lines(values: [Value; VALUES]) -> [Line<'static>; 2]
    ensures each { map told result ≡ table_lines values 9 2 }
    ensures lines { (o : Outcome) → values ≡ run_values o → map told result ≡ interval_lines o }
    ensures short { All HasShortKey result }
{
    let [.., barriers, conflicts] = values;
    [
        Line::new(b"barriers", barriers),
        Line::new(b"conflicts", conflicts),
    ]
}

// The last line of every report.
#[tactic(auto, unfolding(crate::proofs::Opened::opened))]
pub fn end_line() -> Line<'static>
    ensures line { told result ≡ end_line }
    ensures short { HasShortKey result }
{
    Line::new(b"end", Value::Report)
}

// The lines of a refusal's report.
#[tactic(auto, unfolding(crate::proofs::Opened::opened))]
pub fn refusal_lines(number: u32, place: u32) -> [Line<'static>; 3]
    ensures lines { map told result ≡ refusal_lines number place }
    ensures short { All HasShortKey result }
{
    [
        Line::new(b"refused", Value::Number(number)),
        Line::new(b"place", Value::Number(place)),
        end_line(),
    ]
}

// The length of the lines of some items. A loop beside that of `items_at`: `write_report` asks for the length before anything may be written.
#[tactic(auto, using(crate::proofs::Lists::measured_none, crate::proofs::Lists::measured_more, crate::proofs::Lists::measured_small))]
fn items_length<'a, T: Copy, F: Fn(T) -> Line<'a>>(items: &[T], line: F) -> usize
    requires callable { F.IsAlwaysCallable line }
    requires few { length items.now ≤ 1024 }
    requires short { KeysWithin (F.post line) items.now 20 }
    ensures long { (f : T → Reported) → Gives (F.post line) f → result ≡ length (bytes_of (map f items.now)) }
    ensures bound { (k : ℕ) → KeysWithin (F.post line) items.now k → result ≤ (k + 12) * length items.now }
{
    let mut total = 0;
    for item in items {
        total += reportlines::line_length(line(*item));
    }
    total
}

// Writes the lines of some items from place `at` on, and answers the place behind them.
#[tactic(auto, using(crate::proofs::Lists::placed_none, crate::proofs::Lists::item_room, crate::proofs::Lists::placed_more, crate::proofs::Lists::placed_all))]
fn items_at<'a, T: Copy, F: Fn(T) -> Line<'a>>(
    items: &[T],
    line: F,
    out: &mut [u8],
    at: usize,
) -> usize
    requires callable { F.IsAlwaysCallable line }
    requires room { HasRoom (F.post line) items.now at out.old }
    ensures next { (f : T → Reported) → Gives (F.post line) f → result ≡ at + length (bytes_of (map f items.now)) }
    ensures written { (f : T → Reported) → Gives (F.post line) f → out.new ≡ over_from at (bytes_of (map f items.now)) out.old }
{
    let mut end = at;
    for item in items {
        end = reportlines::line_at(line(*item), out, end);
    }
    end
}

// The length of some lines.
pub fn lines_length(lines: &[Line]) -> usize
    requires { (length lines.now ≤ 1024) × All HasShortKey lines.now }
    ensures { (result ≡ length (bytes_of (map told lines.now))) × (result ≤ 32 * length lines.now) }
{
    items_length(lines, |line| line)
}

// Writes lines from place `at` on, and answers the place behind them.
pub fn lines_at(lines: &[Line], out: &mut [u8], at: usize) -> usize
    requires { at + length (bytes_of (map told lines.now)) ≤ length out.old }
    ensures next { result ≡ at + length (bytes_of (map told lines.now)) }
    ensures written { out.new ≡ over_from at (bytes_of (map told lines.now)) out.old }
{
    items_at(lines, |line| line, out, at)
}

// The length of one line for each number.
pub fn each_length(key: &[u8], numbers: &[u32]) -> usize
    requires { (length key.now ≤ 20) × (length numbers.now ≤ 1024) }
    ensures { (result ≡ length (bytes_of (each_line key.now numbers.now))) × (result ≤ (length key.now + 12) * length numbers.now) }
{
    items_length(numbers, |n| Line::new(key, Value::Number(n)))
}

// Writes one line for each number from place `at` on, and answers the place behind them.
pub fn each_at(key: &[u8], numbers: &[u32], out: &mut [u8], at: usize) -> usize
    requires { at + length (bytes_of (each_line key.now numbers.now)) ≤ length out.old }
    ensures next { result ≡ at + length (bytes_of (each_line key.now numbers.now)) }
    ensures written { out.new ≡ over_from at (bytes_of (each_line key.now numbers.now)) out.old }
{
    let numbered = |n: u32| Line::new(key, Value::Number(n));
    items_at(numbers, numbered, out, at)
}
