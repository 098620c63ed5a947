// The report writer: the length that is needed first, then line after line, each behind the last one.
#![tactic(auto)]

ghost use Rattle.std.specs.Prelude.{◌≡◌, [], ◌+◌, ◌≤◌, length};
ghost use Rattle.spec.specs.Report.{run_report};
ghost use Rattle.spec.specs.Answers.{told, told_in};
ghost use Rattle.spec.specs.Reading.{Readable};
ghost use Rattle.spec.specs.Entries.{over, writer_refusal, writer_answer, writer_buffer};
ghost use Rattle.spec.specs.Demands.{OfWritten};
ghost use Rattle.report.specs.Subjects.{ran, refused, FitsOutput};

use spec::{Outcome, Refusal, Subject};

// What the report of a run is made of: its outcome, the steps of each thread, its own cells and the global ones.
#[derive(Clone, Copy)]
struct Run<'a> {
    outcome: Outcome,
    steps: &'a [u32],
    cells: &'a [u32],
    global: &'a [u32],
}

impl Run<'_> {
    // The length of its report, which a buffer of 24,576 bytes always holds.
    #[tactic(auto, using(crate::proofs::Parts::run_size), unfolding(spec::specs::Text::text))]
    fn length(&self) -> usize
        requires { (length self.now.steps.now ≤ 256) × (length self.now.cells.now + length self.now.global.now ≤ 1024) }
        ensures { (result ≡ length (run_report self.now.outcome self.now.steps.now self.now.cells.now self.now.global.now)) × (result ≤ 24576) }
    {
        let values = reportvalues::run_values(self.outcome);
        reporttable::lines_length(&reporttable::head_lines(values))
            + reporttable::each_length(b"steps", self.steps)
            + reporttable::lines_length(&reporttable::interval_lines(values))
            + reporttable::each_length(b"cell", self.cells)
            + reporttable::each_length(b"gcell", self.global)
            + reportlines::line_length(reporttable::end_line())
    }

    // The head, the steps, the lines about intervals, the own cells, the global ones, and the last line.
    #[tactic(auto, using(crate::proofs::Parts::run_size), unfolding(spec::specs::Text::text))]
    fn write(&self, out: &mut [u8]) -> usize
        requires { length (run_report self.now.outcome self.now.steps.now self.now.cells.now self.now.global.now) ≤ length out.old }
        ensures long { result ≡ length (run_report self.now.outcome self.now.steps.now self.now.cells.now self.now.global.now) }
        ensures written { out.new ≡ over (run_report self.now.outcome self.now.steps.now self.now.cells.now self.now.global.now) out.old }
    {
        let values = reportvalues::run_values(self.outcome);
        let headed = reporttable::lines_at(&reporttable::head_lines(values), out, 0);
        let stepped = reporttable::each_at(b"steps", self.steps, out, headed);
        let next = reporttable::lines_at(&reporttable::interval_lines(values), out, stepped);
        let owned = reporttable::each_at(b"cell", self.cells, out, next);
        let last = reporttable::each_at(b"gcell", self.global, out, owned);
        reportlines::line_at(reporttable::end_line(), out, last)
    }

    #[tactic(auto, using(std::proofs::lemmas::Bool::Decides::nat_tests), unfolding(crate::proofs::Entry::defined))]
    fn report(&self, out: &mut [u8]) -> Result<usize, Refusal>
        ensures answer { result ≡ writer_answer (ran self.now.outcome) self.now.steps.now self.now.cells.now self.now.global.now out.old }
        ensures buffer { out.new ≡ writer_buffer (ran self.now.outcome) self.now.steps.now self.now.cells.now self.now.global.now out.old }
        ensures fits { FitsOutput (ran self.now.outcome) self.now.steps.now self.now.cells.now self.now.global.now }
    {
        if !(1..=256).contains(&self.steps.len()) {
            return Err(Refusal::ReportLines);
        }
        let all = self.cells.len() + self.global.len();
        if !(1..=1024).contains(&all) {
            return Err(Refusal::ReportLines);
        }
        let needed = self.length();
        if out.len() < needed {
            return Err(Refusal::ReportTooLong(needed as u32));
        }
        Ok(self.write(out))
    }
}

// A refusal's report has no steps and no cells.
#[tactic(auto, using(std::proofs::lemmas::Bool::Decides::nat_tests, crate::proofs::Parts::refusal_part, crate::proofs::Parts::from_start), unfolding(crate::proofs::Entry::defined))]
fn report_refusal(number: u32, place: u32, out: &mut [u8]) -> Result<usize, Refusal>
    ensures answer { result ≡ writer_answer (refused number place) [] [] [] out.old }
    ensures buffer { out.new ≡ writer_buffer (refused number place) [] [] [] out.old }
    ensures fits { FitsOutput (refused number place) [] [] [] }
{
    let lines = reporttable::refusal_lines(number, place);
    let size = reporttable::lines_length(&lines);
    if out.len() < size {
        return Err(Refusal::ReportTooLong(size as u32));
    }
    Ok(reporttable::lines_at(&lines, out, 0))
}

// The report of a run over its steps and its cells, own ones and global ones, or of a refusal; what is turned back leaves the buffer as it is.
#[tactic(auto, using(crate::proofs::Entry::refusal_is), unfolding(crate::proofs::Entry::defined))]
pub fn write_report(
    what: Subject,
    steps: &[u32],
    cells: &[u32],
    global: &[u32],
    out: &mut [u8],
) -> Result<usize, Refusal>
    ensures answer { result ≡ writer_answer what steps.now cells.now global.now out.old }
    ensures buffer { out.new ≡ writer_buffer what steps.now cells.now global.now out.old }
    ensures fits { FitsOutput what steps.now cells.now global.now }
    ensures refusal { told_in result ≡ told (writer_refusal what steps.now cells.now global.now out.old) }
    ensures reads { OfWritten (Readable what) result out.new }
{
    match what {
        Subject::Ran(outcome) => Run {
            outcome,
            steps,
            cells,
            global,
        }
        .report(out),
        Subject::Refused(number, place) => report_refusal(number, place, out),
    }
}
