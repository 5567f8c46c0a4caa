// The lines that the reader's program prints, each written into a lent buffer at a position, whole or not at all. The
// answer is the next position.
ghost use Rattle.std.specs.Prelude.{◌≡◌, ◌∷◌, [], ◌++◌, ◌<◌, ◌≤◌, ◌+◌, leb, length};
ghost use Rattle.records.specs.Lines.{digit as digit_of, ended, blank, written, after, line_text, bad_text, end_text, last_text};
ghost use Rattle.records.specs.Laws.Decimal.{width_of, digits};
ghost use Rattle.records.specs.Laws.Writing.{Wrote};

const BLANK: u8 = b' ';

const LINE_FEED: u8 = b'\n';

fn digit(d: u64) -> u8
    requires { d < 10 }
    ensures { result ≡ digit_of d }
{
    b'0' + d as u8
}

// How many digits the text of n has.
fn width(n: u64) -> usize
    ensures { (result ≡ width_of n) × (result ≤ 20) }
{
    n.checked_ilog10().unwrap_or(0) as usize + 1
}

// A number, and how many digits its text has.
#[derive(Clone, Copy)]
struct Number {
    n: u64,
    width: usize,
    ghost counted: { width ≡ width_of n },
}

impl Number {
    fn new(n: u64) -> Number
        ensures { (result.n ≡ n) × (result.width ≡ width_of n) × (result.width ≤ 20) }
    {
        Number { n, width: width(n) }
    }
}

// The text of a number over the whole of a slice, from the last digit to the first. By index: of what `iter_mut().rev()` gave
// out to be written a proof knows nothing afterwards.
fn spell(out: &mut [u8], n: u64)
    ensures { out.new ≡ digits (length out.old) n }
{
    let mut rest = n;
    for i in (0..out.len()).rev() {
        out[i] = digit(rest % 10);
        rest /= 10;
    }
}

// A text that grows in a lent buffer. The public functions take the two apart, so that one contract says what both are
// afterwards, and that of one outcome alone (tightness, records).
#[derive(Drop)]
struct Text<'a> {
    out: &'a mut [u8],
    at: usize,
}

impl Text<'_> {
    fn has_room(&self, size: usize) -> bool
        ensures { result ≡ leb (self.now.at + size) (length self.now.out.now) }
    {
        self.at <= self.out.len() && size <= self.out.len() - self.at
    }

    // A word of three letters and a blank.
    fn word(&mut self, word: &[u8; 3])
        requires { self.old.at + 4 ≤ length self.old.out.now }
        ensures same_reference { self.new.out.ghost_name ≡ self.old.out.ghost_name }
        ensures wrote { Wrote self.old.out.now self.old.at (word.now ++ blank ∷ []) self.new.out.now self.new.at }
    {
        let end = self.at + 3;
        self.out[self.at..end].copy_from_slice(word);
        self.out[end] = BLANK;
        self.at = end + 1;
    }

    // A number and the byte after it.
    fn number(&mut self, x: Number, stop: u8)
        requires { self.old.at + x.width < length self.old.out.now }
        ensures same_reference { self.new.out.ghost_name ≡ self.old.out.ghost_name }
        ensures wrote { Wrote self.old.out.now self.old.at (ended x.n stop) self.new.out.now self.new.at }
        ensures at { self.new.at ≡ self.old.at + x.width + 1 }
        ensures len { length self.new.out.now ≡ length self.old.out.now }
    {
        let end = self.at + x.width;
        spell(&mut self.out[self.at..end], x.n);
        self.out[end] = stop;
        self.at = end + 1;
    }
}

pub fn line(
    out: &mut [u8],
    at: usize,
    n: u64,
    op: u32,
    refusal: u16,
    value: u32,
    place: u16,
) -> usize
    ensures { (out.new ≡ written out.old at (line_text n op refusal value place)) × (result ≡ after out.old at (line_text n op refusal value place)) }
{
    let n = Number::new(n);
    let op = Number::new(op.into());
    let refusal = Number::new(refusal.into());
    let value = Number::new(value.into());
    let place = Number::new(place.into());
    let mut text = Text { out, at };
    if !text.has_room(n.width + op.width + refusal.width + value.width + place.width + 5) {
        return at;
    }
    text.number(n, BLANK);
    text.number(op, BLANK);
    text.number(refusal, BLANK);
    text.number(value, BLANK);
    text.number(place, LINE_FEED);
    text.at
}

// A word of three letters, a blank and a number.
fn last(out: &mut [u8], at: usize, word: &[u8; 3], n: u64) -> usize
    ensures { (out.new ≡ written out.old at (last_text word.now n)) × (result ≡ after out.old at (last_text word.now n)) }
{
    let n = Number::new(n);
    let mut text = Text { out, at };
    if !text.has_room(n.width + 5) {
        return at;
    }
    text.word(word);
    text.number(n, LINE_FEED);
    text.at
}

// Two functions over one, since each has its theorem of one outcome (`records_lines_bad_one`, `records_lines_end_one`).
pub fn bad(out: &mut [u8], at: usize, n: u64) -> usize
    ensures { (out.new ≡ written out.old at (bad_text n)) × (result ≡ after out.old at (bad_text n)) }
{
    last(out, at, b"bad", n)
}

pub fn end(out: &mut [u8], at: usize, n: u64) -> usize
    ensures { (out.new ≡ written out.old at (end_text n)) × (result ≡ after out.old at (end_text n)) }
{
    last(out, at, b"end", n)
}
