// A sheet and the place in it from which is read, as one value. (Document 01, "Sheet and graph bytes": "The sheet is read field by field from
// where the last one ended".) The work is that of crate `fields`: each function here says of a reader what it says of bytes and a place.
#![tactic(auto)]

ghost use Rattle.std.specs.Prelude.{◌≡◌, drop};
ghost use Rattle.claims.specs.Fields.{next_field};
ghost use Rattle.fields.specs.Places.{Stands};

use fields::Field;

// A sheet, and the place in it from which is read.
#[derive(Clone, Copy)]
pub struct Reader<'a> {
    pub sheet: &'a [u8],
    pub at: usize,
}

// A reader at a place of a sheet.
pub fn from<'a>(sheet: &'a [u8], at: usize) -> Reader<'a>
    ensures { (result.sheet ≡ sheet.entry) × (result.at ≡ at) }
{
    Reader { sheet, at }
}

// The same sheet, from another place on: from where the last field ended.
pub fn moved<'a>(r: Reader<'a>, at: usize) -> Reader<'a>
    ensures { (result.sheet ≡ r.entry.sheet) × (result.at ≡ at) }
{
    Reader { sheet: r.sheet, at }
}

// The field at the reader's place.
pub fn field<'a>(r: Reader<'a>) -> Option<Field>
    ensures { Stands r.entry.sheet.now r.entry.at (next_field (drop r.entry.at r.entry.sheet.now)) result }
{
    fields::next(r.sheet, r.at)
}
