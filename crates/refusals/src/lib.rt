// The number and the place by which document 01 names a refusal.
#![tactic(auto)]

ghost use Rattle.std.specs.Prelude.{◌≡◌};
ghost use Rattle.refusals.specs.Words.{refusal_words};

use spec::Refusal;

// No `From<Refusal>`: neither type is of this crate, and spec has types and no conversions.
#[tactic(auto, unfolding(crate::specs::Words::refusal_words, spec::specs::Answers::refusal_number, spec::specs::Answers::refusal_place))]
pub fn words(why: Refusal) -> [u32; 2]
    ensures { result ≡ refusal_words why }
{
    match why {
        Refusal::TableLength => [1, 0],
        Refusal::TooManyRows(place) => [2, place],
        Refusal::UnknownOp(place) => [3, place],
        Refusal::BadOperand(place) => [4, place],
        Refusal::Misplaced(place) => [5, place],
        Refusal::TooDeep(place) => [6, place],
        Refusal::LeftOpen(place) => [7, place],
        Refusal::ThreadsOutOfRange(place) => [8, place],
        Refusal::CellsOutOfRange(place) => [9, place],
        Refusal::LimitOutOfRange(place) => [10, place],
        Refusal::LineNotDue(place) => [11, place],
        Refusal::FileTooLong => [12, 0],
        Refusal::CellsLength => [20, 0],
        Refusal::LogLength => [21, 0],
        Refusal::ReportTooLong(place) => [22, place],
        Refusal::ReportLines => [23, 0],
        Refusal::OutputLength => [24, 0],
        Refusal::RecordsLength => [30, 0],
        Refusal::GroupsOutOfRange(place) => [32, place],
        Refusal::TooManyCells(place) => [33, place],
        Refusal::CommonFile(place) => [37, place],
    }
}
