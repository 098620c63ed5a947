// The rows and the cells of a launch file, line by line.
#![tactic(auto)]

ghost use Rattle.std.specs.Prelude.{◌≡◌, ◌*◌, ◌<◌, ◌≤◌, get_or, length};
ghost use Rattle.contents.specs.Taken.{put_row, RowsRead, CellsRead};

// The first line that was due and is not there: how many of them stand before it, and what is left of the file from it on.
#[derive(Clone, Copy)]
pub struct Undue<'a> {
    pub good: usize,
    pub rest: &'a [u8],
}

fn put_row(table: &mut [u8; 1024], row: usize, bytes: [u8; 4])
    requires { row < 256 }
    ensures { table.new ≡ put_row table.old (4 * row) (get_or bytes 0 0) (get_or bytes 1 0) (get_or bytes 2 0) (get_or bytes 3 0) }
{
    let at = 4 * row;
    let [op, d, a, b] = bytes;
    table[at] = op;
    table[at + 1] = d;
    table[at + 2] = a;
    table[at + 3] = b;
}

// Reads n rows, and answers what is left of the file; or up to where it read, at the first line that is not one.
pub fn read_rows<'a>(
    file: &'a [u8],
    n: usize,
    table: &mut [u8; 1024],
) -> Result<&'a [u8], Undue<'a>>
    requires { (n ≤ 256) × (length table.old ≡ 1024) }
    ensures { RowsRead n file.now table.old table.new result }
{
    let mut rest = file;
    for k in 0..n {
        let Some(bytes) = filelines::row_line(rest) else {
            return Err(Undue { good: k, rest });
        };
        put_row(table, k, bytes);
        rest = filelines::next(rest);
    }
    Ok(rest)
}

// Reads n cells whose lines have this key, and answers what is left of the file; or up to where it read, at the first line that is not one.
pub fn read_cells<'a>(
    file: &'a [u8],
    key: &[u8],
    n: usize,
    cells: &mut [u32],
) -> Result<&'a [u8], Undue<'a>>
    requires { n ≤ length cells.old }
    ensures { CellsRead key.now n file.now cells.old cells.new result }
{
    let mut rest = file;
    for k in 0..n {
        let Some(word) = filelines::number_line(rest, key) else {
            return Err(Undue { good: k, rest });
        };
        cells[k] = word;
        rest = filelines::next(rest);
    }
    Ok(rest)
}
