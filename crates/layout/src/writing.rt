// The message of a stage, built in a lent output command by command. None of the table's commands is ever refused by
// `building`: with a set-up that 40 lets by, only the output and the tag can be wrong, 21.
ghost use Rattle.std.specs.Prelude.{◌≡◌, ◌<◌};
ghost use Rattle.layout.specs.Layout.{kind_at};
ghost use Rattle.layout.specs.Writing.{length_of, wrote_of, wrote_to};
ghost use Rattle.layout.specs.Filling.{Below, RowAdded, RowsAdded, MarkAdded, StageAdded};

use crate::Stage;
use building::asked::Asked;
use building::build;
use building::record::Building;
use header::Kind;
use header::refusal::Refusal;

// A table that 40 lets by, so that its addresses are below 2^32: where it starts, and the caller's words.
#[derive(Clone, Copy)]
struct Table<'a> {
    start: u64,
    rows: &'a [u32; 168],
    ghost below: { Below start },
}

impl Table<'_> {
    // The command of row i, counted from 0, behind those before it: in a message of writes that of its eight words, in
    // one of reads that of as many, which has no use for enables and words.
    fn add_row(self, out: &mut [u8], b: Building, i: usize) -> Result<Building, Refusal>
        requires { i < 24 }
        ensures { RowAdded self.entry.start self.entry.rows.now i b out.old result out.new }
    {
        let row = crate::row_of(self.rows, i);
        let asked = Asked {
            address: self.start + 32 * i as u64,
            first: 15,
            last: 15,
            count: 8,
        };
        build::add(out, b, asked, &row)
    }

    // The commands of all rows.
    fn add_rows(self, out: &mut [u8], b: Building) -> Result<Building, Refusal>
        ensures { RowsAdded self.entry.start self.entry.rows.now 24 b out.old result out.new }
    {
        let mut grown = b;
        for i in 0..crate::ROWS {
            grown = self.add_row(out, grown, i)?;
        }
        Ok(grown)
    }

    // The write of a word to the mark.
    fn add_mark(self, out: &mut [u8], b: Building, value: u32) -> Result<Building, Refusal>
        ensures { MarkAdded self.entry.start value b out.old result out.new }
    {
        let asked = Asked {
            address: self.start + 768,
            first: 15,
            last: 0,
            count: 1,
        };
        build::add(out, b, asked, &[value])
    }

    // The commands of a stage.
    fn fill(self, out: &mut [u8], b: Building, stage: Stage) -> Result<Building, Refusal>
        ensures { StageAdded stage self.entry.start self.entry.rows.now b out.old result out.new }
    {
        match stage {
            Stage::Clear => self.add_mark(out, b, 0),
            Stage::Rows | Stage::Back => self.add_rows(out, b),
            Stage::Mark => self.add_mark(out, b, 24),
        }
    }
}

// The kind of a stage's message.
fn kind_at(stage: Stage) -> Kind
    ensures { result ≡ kind_at stage }
{
    match stage {
        Stage::Clear | Stage::Rows | Stage::Mark => Kind::Write,
        Stage::Back => Kind::Read,
    }
}

// Writes the message of a stage, with this tag, into the output, and gives its length in bytes: 40, then 21. What lies
// behind it stays; refused, the whole output.
pub fn write(
    out: &mut [u8],
    tag: u32,
    start: u64,
    room: u64,
    rows: &[u32; 168],
    stage: Stage,
) -> Result<usize, Refusal>
    ensures { (result ≡ length_of (wrote_of stage tag start room rows.now out.old))
        × (out.new ≡ wrote_to stage tag start room rows.now out.old) }
{
    crate::set_up(start, room)?;
    let table = Table { start, rows };
    let begun = build::begin(out, u32::from(kind_at(stage)), tag, false, false)?;
    let filled = table.fill(out, begun, stage)?;
    let closed = build::close(out, filled)?;
    Ok(4 * closed.words)
}
