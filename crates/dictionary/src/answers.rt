// What the dictionary answers with.

// An attribute: I, a whole number; or R t, which names an instance whose type is t or below it. A type by its number, as the
// definitions have it (`attribute_of`).
#[derive(Clone, Copy, Debug, PartialEq, Eq)]
pub enum Attribute {
    Whole,
    Reference(u32),
}

// A type's name: `len` bytes, and 0 in the places past its end. No &str: a contract can say what one shows, and not where it
// stands, so two answers of `name` would not be one (`dictionary_types_name_one` in `tightness`).
#[derive(Clone, Copy, Debug, PartialEq, Eq)]
pub struct Name {
    pub len: u32,
    pub bytes: [u8; 10],
}
