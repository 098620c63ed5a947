// The reader of a launch file: one pass over its lines. What is left of the file after a line is a part of the file's slice.
#![tactic(auto)]

ghost use Rattle.std.specs.Prelude.{◌≡◌, ◌+◌, ◌*◌, ◌≤◌, length, take, IfOk};
ghost use Rattle.spec.specs.LaunchFile.{sizes_in, limit_in, rows_in, content_lines};
ghost use Rattle.numberlines.specs.Answered.{line_count};
ghost use Rattle.launchfile.specs.Parsed.{Within, ReadAs, BytesFrom, ContentsRead, ParsedIs};

use spec::Refusal;

// The table's `rows` rows are the first 4 * rows bytes of `table`. Each group has `each` own cells: all `count` of them are the first words of `cells`,
// and the `shared` global ones the first of `global`. Arrays with their lengths beside them: the memory of a check is fixed, and there is no heap.
#[derive(Clone, Copy)]
pub struct Launch {
    pub threads: u32,
    pub groups: u32,
    pub limit: u32,
    pub rows: usize,
    pub each: usize,
    pub count: usize,
    pub shared: usize,
    pub table: [u8; 1024],
    pub cells: [u32; 1024],
    pub global: [u32; 1024],
}

impl Launch {
    // The bytes of the table's rows.
    pub fn table_bytes(&self) -> &[u8]
        requires { 4 * self.now.rows ≤ length self.now.table }
        ensures { result.now ≡ take (4 * self.now.rows) self.now.table }
    {
        &self.table[..4 * self.rows]
    }

    // The words of all own cells, and of the global ones.
    pub fn own_words(&self) -> &[u32]
        requires { self.now.count ≤ length self.now.cells }
        ensures { result.now ≡ take self.now.count self.now.cells }
    {
        &self.cells[..self.count]
    }

    pub fn global_words(&self) -> &[u32]
        requires { self.now.shared ≤ length self.now.global }
        ensures { result.now ≡ take self.now.shared self.now.global }
    {
        &self.global[..self.shared]
    }
}

// So many rows, own cells and global cells, and the end.
fn read_lines(
    rest: &[u8],
    rows: usize,
    count: usize,
    shared: usize,
    table: &mut [u8; 1024],
    cells: &mut [u32; 1024],
    global: &mut [u32; 1024],
) -> Result<(), Refusal>
    requires { (rows ≤ 256) × (count + shared ≤ 1024) × (length table.old ≡ 1024) × (length cells.old ≡ 1024) × (length global.old ≡ 1024) }
    ensures { ContentsRead rest.now rows count shared table.old cells.old global.old result
        table.new cells.new global.new }
{
    let first = 2 + numberlines::COUNT;
    let own = match contents::read_rows(rest, rows, table) {
        Ok(own) => own,
        Err(undue) => return Err(Refusal::LineNotDue((first + undue.good) as u32)),
    };
    let others = match contents::read_cells(own, b"cell", count, cells) {
        Ok(others) => others,
        Err(undue) => return Err(Refusal::LineNotDue((first + rows + undue.good) as u32)),
    };
    let end = match contents::read_cells(others, b"gcell", shared, global) {
        Ok(end) => end,
        Err(undue) => return Err(Refusal::LineNotDue((first + rows + count + undue.good) as u32)),
    };
    let last = (first + rows + count + shared) as u32;
    if !filelines::word_line(end, b"end", b"kernel") {
        return Err(Refusal::LineNotDue(last));
    }
    if !filelines::next(end).is_empty() {
        return Err(Refusal::LineNotDue(last + 1));
    }
    Ok(())
}

// What follows the numbers.
fn read_contents(
    rest: &[u8],
    sizes: &[u32; numberlines::SIZES],
    lengths: &[u32; numberlines::LENGTHS],
) -> Result<Launch, Refusal>
    requires { Within (sizes_in sizes.now) (limit_in lengths.now) (rows_in lengths.now) }
    ensures { ReadAs (content_lines (sizes_in sizes.now) (limit_in lengths.now) (rows_in lengths.now) (2 + line_count) rest.now) result
        × IfOk result (BytesFrom rest.now) }
{
    let groups = sizes[numberlines::GROUPS];
    let own = sizes[numberlines::CELLS];
    let count = admission::own_cells(groups, own);
    let shared = sizes[numberlines::GLOBAL] as usize;
    let rows = lengths[numberlines::ROWS] as usize;
    let mut table = [0u8; 1024];
    let mut cells = [0u32; 1024];
    let mut global = [0u32; 1024];
    read_lines(
        rest,
        rows,
        count,
        shared,
        &mut table,
        &mut cells,
        &mut global,
    )?;
    Ok(Launch {
        threads: sizes[numberlines::THREADS],
        groups,
        limit: lengths[numberlines::LIMIT],
        rows,
        each: own as usize,
        count,
        shared,
        table,
        cells,
        global,
    })
}

// The launch that a file gives, or the first refusal of its length and its lines.
pub fn read_launch(file: &[u8]) -> Result<Launch, Refusal>
    ensures { ParsedIs file.now result }
{
    if 32768 < file.len() {
        return Err(Refusal::FileTooLong);
    }
    if !filelines::word_line(file, b"kernel", b"1") {
        return Err(Refusal::LineNotDue(1));
    }
    let lines = filelines::next(file);
    let mut sizes = [0u32; numberlines::SIZES];
    numberlines::read_numbers(lines, 0, &mut sizes)?;
    let groups = sizes[numberlines::GROUPS];
    let own = sizes[numberlines::CELLS];
    let global = sizes[numberlines::GLOBAL];
    if 1024 < admission::all_cells(groups, own, global) {
        return Err(Refusal::TooManyCells(5));
    }
    let behind = numberlines::behind_lines(lines, numberlines::SIZES);
    let mut lengths = [0u32; numberlines::LENGTHS];
    numberlines::read_numbers(behind, numberlines::SIZES, &mut lengths)?;
    let rest = numberlines::behind_lines(behind, numberlines::LENGTHS);
    read_contents(rest, &sizes, &lengths)
}
