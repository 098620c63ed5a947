// The reader of the common file: one pass over its lines, as with a launch file. Every fault in it is refusal 37, at its line.
#![tactic(auto)]

ghost use Rattle.std.specs.Prelude.{◌≡◌, ◌<◌, ◌≤◌, ◌^◌, length, take};
ghost use Rattle.spec.specs.declared.Refusal.TheVariants as refusal;
ghost use Rattle.commonfile.specs.CommonRead.{CommonRead};

use spec::Refusal;

// The `count` common cells are the first words of `words`: fixed memory, as in `launchfile::Launch`.
#[derive(Clone, Copy)]
pub struct CommonFile {
    pub count: usize,
    pub words: [u32; 256],
}

impl CommonFile {
    // The words of the common cells.
    pub fn cells(&self) -> &[u32]
        requires { self.now.count ≤ length self.now.words }
        ensures { result.now ≡ take self.now.count self.now.words }
    {
        &self.words[..self.count]
    }
}

fn fault(line: usize) -> Refusal
    requires { line < 2 ^ 32 }
    ensures { result ≡ refusal.CommonFile line }
{
    Refusal::CommonFile(line as u32)
}

// The common cells that a file gives, or the first refusal of its lines. Not inlined: what it copies would take stack below both runs.
#[inline(never)]
pub fn read_common(file: &[u8]) -> Result<CommonFile, Refusal>
    ensures { CommonRead file.now result }
{
    let Some(found) = filelines::number_line(file, b"common") else {
        return Err(fault(1));
    };
    if 256 < found {
        return Err(fault(1));
    }
    let count = found as usize;
    let cells = filelines::next(file);
    let mut words = [0u32; 256];
    let end = match contents::read_cells(cells, b"cell", count, &mut words) {
        Ok(end) => end,
        Err(undue) => return Err(fault(2 + undue.good)),
    };
    if !filelines::word_line(end, b"end", b"common") {
        return Err(fault(2 + count));
    }
    if !filelines::next(end).is_empty() {
        return Err(fault(3 + count));
    }
    Ok(CommonFile { count, words })
}
