// Reads a table by recursive descent: its first refusal, or where each of its loops ends.
#![tactic(auto)]

ghost use Rattle.std.specs.Prelude.{◌≡◌, ◌&&◌, ℕ, ◌*◌, ◌%◌, ◌<◌, ◌≤◌, eqb, ltb, length, get_or, IfOk};
ghost use Rattle.std.proofs.Math.Option.{none};
ghost use Rattle.admission.specs.Refusing.{refusal_of};
ghost use Rattle.spec.specs.Table.{rows_of, row_at};
ghost use Rattle.spec.specs.TableCheck.{table_refusal};
ghost use Rattle.reader.specs.Answer.{end_at};
ghost use Rattle.reader.specs.Parts.{IsTable, own_refusal, Opens, ClosesIs, BodyIs, ConstructIs};

use optable::Form;
use spec::Refusal;

const IF: u8 = 32;

const ELSE: u8 = 33;

const ENDIF: u8 = 34;

const WHILE: u8 = 35;

const ENDWHILE: u8 = 36;

// Refusals 3 and 4, for which a row is looked at by itself.
fn row_fits(table: &[u8], row: usize) -> Result<(), Refusal>
    requires { (IsTable table.now) × (row * 4 < length table.now) }
    ensures { refusal_of result ≡ own_refusal row (row_at (rows_of table.now) row) }
{
    let at = row * 4;
    let form = optable::form_of(table[at]);
    if let Form::UnknownForm = form {
        return Err(Refusal::UnknownOp(row as u32));
    }
    if optable::operands_fit(form, table[at + 1], table[at + 2], table[at + 3]) {
        Ok(())
    } else {
        Err(Refusal::BadOperand(row as u32))
    }
}

// False also behind the last row, where no ELSE can stand.
fn is_else(table: &[u8], row: usize) -> bool
    requires { (IsTable table.now) × (row * 4 ≤ length table.now) }
    ensures { result ≡ (ltb (row * 4) (length table.now) && eqb (get_or table.now (row * 4) 0) 33) }
{
    row * 4 < table.len() && table[row * 4] == ELSE
}

// `row` closes the construct that `opener` opens if its op is `end`. A construct that is left open is refused at `opener`.
fn closes(table: &[u8], opener: usize, row: usize, end: u8) -> Result<usize, Refusal>
    requires { (IsTable table.now) × (opener < row) × (row * 4 ≤ length table.now) }
    ensures { ClosesIs table.now opener row end result }
{
    if row * 4 == table.len() {
        return Err(Refusal::LeftOpen(opener as u32));
    }
    if table[row * 4] == end {
        Ok(row + 1)
    } else {
        Err(Refusal::Misplaced(row as u32))
    }
}

// A body ends where the table does, or at an ELSE, ENDIF or ENDWHILE that is of no construct in it. A loop, so that only nesting takes stack.
#[cycle(body_construct)]
fn body(table: &[u8], from: usize, depth: usize, ends: &mut [u8; 256]) -> Result<usize, Refusal>
    requires { (IsTable table.now) × (from * 4 ≤ length table.now) × (depth ≤ 8) × (length ends.old ≡ 256) }
    ensures { BodyIs table.now depth from ends.old ends.new result }
{
    let rows = table.len() / 4;
    let mut row = from;
    // No `for`: a construct moves the row past itself.
    while row < rows {
        row_fits(table, row)?;
        // ENDIF has an arm of its own: tried beside ELSE, which makes a range of numbers, and the last arm's proof doesn't close: it loses what its op is not.
        match table[row * 4] {
            IF | WHILE => row = construct(table, row, depth, ends)?,
            ELSE | ENDWHILE => return Ok(row),
            ENDIF => return Ok(row),
            _ => row += 1,
        }
    }
    Ok(row)
}

// A ninth construct is refused before its body is read: at most nine bodies are being read at once.
#[cycle(body_construct)]
fn construct(table: &[u8], row: usize, depth: usize, ends: &mut [u8; 256]) -> Result<usize, Refusal>
    requires { (IsTable table.now) × (row * 4 < length table.now) × (depth ≤ 8) × (Opens (get_or table.now (row * 4) 0))
        × (own_refusal row (row_at (rows_of table.now) row) ≡ none) × (length ends.old ≡ 256) }
    ensures { ConstructIs table.now depth row ends.old ends.new result }
{
    if depth == 8 {
        return Err(Refusal::TooDeep(row as u32));
    }
    let stop = body(table, row + 1, depth + 1, ends)?;
    if table[row * 4] == WHILE {
        let next = closes(table, row, stop, ENDWHILE)?;
        ends[row] = (next - 1) as u8;
        return Ok(next);
    }
    if !is_else(table, stop) {
        return closes(table, row, stop, ENDIF);
    }
    let last = body(table, stop + 1, depth + 1, ends)?;
    closes(table, row, last, ENDIF)
}

// Where the loops of a table end: at each WHILE of an accepted one the row of its ENDWHILE, and 0 everywhere else. The caller has tested the length.
pub fn read_table(table: &[u8]) -> Result<[u8; 256], Refusal>
    requires { (length table.now % 4 ≡ 0) × (length table.now ≤ 4 * 256) }
    ensures answer { refusal_of result ≡ table_refusal (rows_of table.now) }
    ensures ends { IfOk result (λ ends. (i : ℕ) → i < 256 → get_or ends i 0 ≡ end_at (rows_of table.now) i) }
{
    let mut ends = [0u8; 256];
    let row = body(table, 0, 0, &mut ends)?;
    if row * 4 < table.len() {
        return Err(Refusal::Misplaced(row as u32));
    }
    Ok(ends)
}
