// The report of a refusal.
#![tactic(auto)]

ghost use Rattle.std.specs.Prelude.{◌≡◌, ◌≤◌, length};
ghost use Rattle.spec.specs.Answers.{refusal_number, refusal_place};
ghost use Rattle.spec.specs.Report.{refusal_report};
ghost use Rattle.spec.specs.Entries.{over};

use spec::{Refusal, Subject};

// Its number and its place, written at the start of an output that has room for any report.
pub fn report_refusal(why: Refusal, output: &mut [u8]) -> usize
    requires { 24576 ≤ length output.old }
    ensures long { result ≡ length (refusal_report (refusal_number why) (refusal_place why)) }
    ensures written { output.new ≡ over (refusal_report (refusal_number why) (refusal_place why)) output.old }
    ensures fits { result ≤ 24576 }
{
    let [number, place] = refusals::words(why);
    // It is never turned back: it has room.
    report::write_report(Subject::Refused(number, place), &[], &[], &[], output).unwrap()
}
