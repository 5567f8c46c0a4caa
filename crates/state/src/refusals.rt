// The refusals, by the standard's names, and the places that they name.
ghost use Rattle.std.specs.Prelude.{◌≡◌, Some};
ghost use Rattle.state.specs.Refusals.{◌on◌, number_in, place_in, room_of};
ghost use Rattle.state.specs.Numbers.{number_of, place_number, letters_of, Numbers};

use std::fmt;
use words::layout::Kind;

// Why an operation is not done. What it is to C is its number.
#[derive(Clone, Copy, Debug, PartialEq, Eq)]
pub enum Refusal {
    // anything unsound
    SyErr = 1,
    // an operation number that is not listed
    FnNavl = 2,
    // a session is open
    SsOpn = 3,
    // no session is open
    SsNopn = 4,
    // the transaction is aborted
    TrEab = 5,
    // a transaction exists
    TrExs = 6,
    // no transaction to end, commit or abort
    TrNexs = 7,
    // no transaction to work in
    TrNavl = 8,
    // the transaction is read-only
    TrNrw = 9,
    // repository above 7
    RpNexs = 10,
    // the repository is open
    RpOpn = 11,
    // the repository is not open
    RpNopn = 12,
    // model above 63 or free
    MoNexs = 13,
    // the repository has a model of this name
    MoDup = 14,
    // schemas differ
    MoNdeq = 15,
    // not in the set; for 44, in no set with it
    MoNvld = 16,
    // has read-only access already
    MxRo = 17,
    // has read-write access already
    MxRw = 18,
    // no access
    MxNdef = 19,
    // no read-write access
    MxNrw = 20,
    // schema neither 1 nor 2
    SdNdef = 21,
    // schema instance above 15 or free
    SiNexs = 22,
    // the repository has a schema instance of this name
    SiDup = 23,
    // type above 9
    EdNdef = 24,
    // types of different schemas
    EdNdeq = 25,
    // type of another schema than the model's
    EdNvld = 26,
    // instance above 127 or free
    EiNexs = 27,
    // attribute not of its type
    AtNdef = 28,
    // the attribute is not set
    VaNset = 29,
    // no such instance
    VaNvld = 30,
    // an instance of the wrong type
    VtNvld = 31,
    // every entry live
    NoRoom = 32,
}

// Which argument failed its check, which table is full, or that a reference remains.
#[derive(Clone, Copy, Debug, PartialEq, Eq)]
pub enum Place {
    Nowhere = 0,
    First = 1,
    Second = 2,
    Third = 3,
    Models = 4,
    SchemaInstances = 5,
    Instances = 6,
    Remaining = 7,
}

// A refusal on its place.
#[derive(Clone, Copy, Debug, PartialEq, Eq)]
pub struct Refused {
    pub refusal: Refusal,
    pub place: Place,
}

impl From<Refusal> for u8 {
    ghost from_gives = { λ refusal n. n ≡ number_of refusal };

    fn from(refusal: Refusal) -> u8 {
        refusal as u8
    }
}

impl Refusal {
    pub fn on(self, place: Place) -> Refused
        ensures { result ≡ record { refusal = self; place = place } }
    {
        Refused {
            refusal: self,
            place,
        }
    }

    // By the page's name.
    fn name(self) -> &'static str
        ensures { result.now ≡ letters_of self }
    {
        match self {
            Refusal::SyErr => "SY_ERR",
            Refusal::FnNavl => "FN_NAVL",
            Refusal::SsOpn => "SS_OPN",
            Refusal::SsNopn => "SS_NOPN",
            Refusal::TrEab => "TR_EAB",
            Refusal::TrExs => "TR_EXS",
            Refusal::TrNexs => "TR_NEXS",
            Refusal::TrNavl => "TR_NAVL",
            Refusal::TrNrw => "TR_NRW",
            Refusal::RpNexs => "RP_NEXS",
            Refusal::RpOpn => "RP_OPN",
            Refusal::RpNopn => "RP_NOPN",
            Refusal::MoNexs => "MO_NEXS",
            Refusal::MoDup => "MO_DUP",
            Refusal::MoNdeq => "MO_NDEQ",
            Refusal::MoNvld => "MO_NVLD",
            Refusal::MxRo => "MX_RO",
            Refusal::MxRw => "MX_RW",
            Refusal::MxNdef => "MX_NDEF",
            Refusal::MxNrw => "MX_NRW",
            Refusal::SdNdef => "SD_NDEF",
            Refusal::SiNexs => "SI_NEXS",
            Refusal::SiDup => "SI_DUP",
            Refusal::EdNdef => "ED_NDEF",
            Refusal::EdNdeq => "ED_NDEQ",
            Refusal::EdNvld => "ED_NVLD",
            Refusal::EiNexs => "EI_NEXS",
            Refusal::AtNdef => "AT_NDEF",
            Refusal::VaNset => "VA_NSET",
            Refusal::VaNvld => "VA_NVLD",
            Refusal::VtNvld => "VT_NVLD",
            Refusal::NoRoom => "NO_ROOM",
        }
    }
}

impl From<Place> for u8 {
    ghost from_gives = { λ place n. n ≡ place_number place };

    fn from(place: Place) -> u8 {
        place as u8
    }
}

// A number that is no refusal's.
#[derive(Clone, Copy, Debug, PartialEq, Eq)]
pub struct NoRefusal;

impl TryFrom<u16> for Refusal {
    type Error = NoRefusal;

    ghost try_from_gives = { Numbers };

    fn try_from(number: u16) -> Result<Self, NoRefusal> {
        match number {
            1 => Ok(Refusal::SyErr),
            2 => Ok(Refusal::FnNavl),
            3 => Ok(Refusal::SsOpn),
            4 => Ok(Refusal::SsNopn),
            5 => Ok(Refusal::TrEab),
            6 => Ok(Refusal::TrExs),
            7 => Ok(Refusal::TrNexs),
            8 => Ok(Refusal::TrNavl),
            9 => Ok(Refusal::TrNrw),
            10 => Ok(Refusal::RpNexs),
            11 => Ok(Refusal::RpOpn),
            12 => Ok(Refusal::RpNopn),
            13 => Ok(Refusal::MoNexs),
            14 => Ok(Refusal::MoDup),
            15 => Ok(Refusal::MoNdeq),
            16 => Ok(Refusal::MoNvld),
            17 => Ok(Refusal::MxRo),
            18 => Ok(Refusal::MxRw),
            19 => Ok(Refusal::MxNdef),
            20 => Ok(Refusal::MxNrw),
            21 => Ok(Refusal::SdNdef),
            22 => Ok(Refusal::SiNexs),
            23 => Ok(Refusal::SiDup),
            24 => Ok(Refusal::EdNdef),
            25 => Ok(Refusal::EdNdeq),
            26 => Ok(Refusal::EdNvld),
            27 => Ok(Refusal::EiNexs),
            28 => Ok(Refusal::AtNdef),
            29 => Ok(Refusal::VaNset),
            30 => Ok(Refusal::VaNvld),
            31 => Ok(Refusal::VtNvld),
            32 => Ok(Refusal::NoRoom),
            _ => Err(NoRefusal),
        }
    }
}

impl fmt::Display for Refusal {
    ghost output = { λ refusal. Some (letters_of refusal) };

    fn fmt<W: fmt::Write>(&self, f: &mut fmt::Formatter<W>) -> fmt::Result {
        f.write_str(self.name())
    }
}

// Which table is full. By this name and not as `From<Kind>`: so its definition and its theorem have it.
pub fn room_of(kind: Kind) -> Place
    ensures { place_number result ≡ room_of kind }
{
    match kind {
        Kind::Model => Place::Models,
        Kind::SchemaInstance => Place::SchemaInstances,
        Kind::Instance => Place::Instances,
    }
}

// A refusal on its place, as one number, and what such a number says of the two: of any number, one of the page or not. An event
// has a byte for each.
pub fn on(number: u8, place: u8) -> u32
    ensures { result ≡ number on place }
{
    u32::from(number) + 0x100 * u32::from(place)
}

pub fn number_in(refusal: u32) -> u8
    ensures { result ≡ number_in refusal }
{
    (refusal % 0x100) as u8
}

pub fn place_in(refusal: u32) -> u8
    ensures { result ≡ place_in refusal }
{
    (refusal / 0x100 % 0x100) as u8
}
