// The first line of what is left of a launch file. A value is a part of the file's slice, and so is what is left behind a line.
#![tactic(auto)]

ghost use Rattle.std.specs.Prelude.{◌≡◌};
ghost use Rattle.spec.specs.Text.{text};
ghost use Rattle.spec.specs.LaunchFile.{number, byte};
ghost use Rattle.text.specs.Numbers.{number_of};
ghost use Rattle.filelines.specs.Lines.{keyed, value_in, next_in, keyed_value};
ghost use Rattle.filelines.specs.Values.{bytes_in, word_in, exact_bytes, row_bytes};

// What is left behind the first line.
#[tactic(auto, unfolding(crate::specs::Lines::next_in, text::specs::Parts::back_of, text::specs::Parts::back_in))]
pub fn next<'a>(rest: &'a [u8]) -> &'a [u8]
    ensures { result.now ≡ next_in rest.now }
{
    match text::split_once(rest, b'\n') {
        Some((_, behind)) => behind,
        None => &[],
    }
}

// The part of the first line after its first `=`.
#[tactic(auto, unfolding(crate::specs::Lines::value_in, text::specs::Parts::back_of, text::specs::Parts::back_in, text::specs::Parts::front_of, text::specs::Parts::front_in))]
pub fn value<'a>(rest: &'a [u8]) -> &'a [u8]
    ensures { result.now ≡ value_in rest.now }
{
    let line = match text::split_once(rest, b'\n') {
        Some((line, _)) => line,
        None => rest,
    };
    match text::split_once(line, b'=') {
        Some((_, found)) => found,
        None => &[],
    }
}

// Whether the first line is ended and has this key.
#[tactic(auto, using(crate::proofs::Comparing::compared), unfolding(crate::specs::Lines::keyed, crate::specs::Lines::line_named, crate::specs::Lines::name_is))]
pub fn is_keyed(rest: &[u8], key: &[u8]) -> bool
    ensures { result ≡ keyed key.now rest.now }
{
    let Some((line, _)) = text::split_once(rest, b'\n') else {
        return false;
    };
    let Some((name, _)) = text::split_once(line, b'=') else {
        return false;
    };
    name == key
}

// The number that the first line gives this key.
#[tactic(auto, unfolding(crate::specs::Lines::keyed_value, spec::specs::LaunchFile::number))]
pub fn number_line(rest: &[u8], key: &[u8]) -> Option<u32>
    ensures { keyed_value key.now number rest.now ≡ number_of result }
{
    if !is_keyed(rest, key) {
        return None;
    }
    text::number_below(value(rest), 4294967296)
}

// Whether the first line gives this key this text.
#[tactic(auto, using(crate::proofs::Comparing::compared), unfolding(crate::specs::Lines::keyed_value, crate::specs::Values::exact_bytes))]
pub fn word_line(rest: &[u8], key: &[u8], word: &[u8]) -> bool
    ensures { keyed_value key.now (exact_bytes word.now) rest.now ≡ word_in result }
{
    is_keyed(rest, key) && value(rest) == word
}

// A number below 256.
#[tactic(auto, using(text::proofs::Counting::value_below), unfolding(spec::specs::LaunchFile::byte))]
fn byte(s: &[u8]) -> Option<u8>
    ensures { byte s.now ≡ number_of result }
{
    let found = text::number_below(s, 256)?;
    Some(found as u8)
}

// A row's value: four numbers with commas between them.
#[tactic(auto, unfolding(crate::specs::Values::row_bytes, crate::specs::Values::four_bytes, spec::specs::LaunchFile::given))]
pub fn row(found: &[u8]) -> Option<[u8; 4]>
    ensures { row_bytes found.now ≡ bytes_in result }
{
    let (op, operands) = text::split_once(found, b',')?;
    let (d, sources) = text::split_once(operands, b',')?;
    let (a, b) = text::split_once(sources, b',')?;
    Some([byte(op)?, byte(d)?, byte(a)?, byte(b)?])
}

// The row that the first line gives.
#[tactic(auto, unfolding(crate::specs::Lines::keyed_value, spec::specs::Text::text))]
pub fn row_line(rest: &[u8]) -> Option<[u8; 4]>
    ensures { keyed_value (text "row") row_bytes rest.now ≡ bytes_in result }
{
    if !is_keyed(rest, b"row") {
        return None;
    }
    row(value(rest))
}
