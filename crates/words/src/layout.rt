// Where the entries of a table and their cursors stand: a row of numbers for each kind. Each number of the layout is named here
// alone.
ghost use Rattle.std.specs.Prelude.{◌≡◌};
ghost use Rattle.words.specs.Layout.{row_of, base_of, stride_of, count_of, place_of, cursor_of};

// The words in use. Words from here on are never read or written.
pub const WORDS: usize = 739;

#[derive(Clone, Copy, Debug, PartialEq, Eq)]
pub enum Kind {
    Model,
    SchemaInstance,
    Instance,
}

// The first word of the kind's entry 0, how many words an entry has, how many entries there are, and the word of the cursor.
#[derive(Clone, Copy, Debug, PartialEq, Eq)]
pub struct Row {
    pub base: usize,
    pub stride: usize,
    pub count: u32,
    pub cursor: usize,
}

fn row_of(kind: Kind) -> Row
    ensures { result ≡ row_of kind }
{
    match kind {
        Kind::Model => Row {
            base: 0,
            stride: 1,
            count: 64,
            cursor: 736,
        },
        Kind::SchemaInstance => Row {
            base: 64,
            stride: 2,
            count: 16,
            cursor: 737,
        },
        Kind::Instance => Row {
            base: 96,
            stride: 5,
            count: 128,
            cursor: 738,
        },
    }
}

// A function for each number of a row: the layers above and the theorems over the layout name the four.
pub fn base(kind: Kind) -> usize
    ensures { result ≡ base_of kind }
{
    row_of(kind).base
}

pub fn stride(kind: Kind) -> usize
    ensures { result ≡ stride_of kind }
{
    row_of(kind).stride
}

pub fn count(kind: Kind) -> u32
    ensures { result ≡ count_of kind }
{
    row_of(kind).count
}

pub fn cursor(kind: Kind) -> usize
    ensures { result ≡ cursor_of kind }
{
    row_of(kind).cursor
}

// The first word of entry i.
pub fn place(kind: Kind, i: u32) -> usize
    ensures { result ≡ place_of kind i }
{
    base(kind) + stride(kind) * (i as usize)
}
