// The settings of a list of routes: the family, how an item stands, Add-Path; and the numbers that they fix (RFC 4271 section 4.3,
// RFC 7911 section 3).
#![tactic(auto)]

ghost use Rattle.std.specs.Prelude.{◌≡◌};
ghost use Rattle.families.specs.Family.{id_size, mark_of, guess_mark, octets, mode_of};

pub mod octets;

// The family of a route.
#[derive(Clone, Copy, Debug, PartialEq, Eq, Hash)]
pub enum Afi {
    Ipv4,
    Ipv6,
}

// How an item stands: Plain without a path id, Tagged with one. They are also the two states of the guess.
#[derive(Clone, Copy, Debug, PartialEq, Eq, Hash)]
pub enum Form {
    Plain,
    Tagged,
}

// The Add-Path setting of a list: off, on, or off with the guess.
#[derive(Clone, Copy, Debug, PartialEq, Eq, Hash)]
pub enum AddPath {
    Off,
    On,
    Guess,
}

// The bytes of an id in a form.
pub fn id_size(form: Form) -> usize
    ensures { result ≡ id_size form }
{
    match form {
        Form::Plain => 0,
        Form::Tagged => 4,
    }
}

// What an id adds to a row's first word.
pub fn mark_of(form: Form) -> u32
    ensures { result ≡ mark_of form }
{
    match form {
        Form::Plain => 0,
        Form::Tagged => 256,
    }
}

// The mark of an id that came from the guess, in a row's first word.
pub const GUESSED: u32 = 512;

// What the guess adds there, beside the 256.
pub fn guess_mark(form: Form) -> u32
    ensures { result ≡ guess_mark AddPath.Guess form }
{
    match form {
        Form::Plain => 0, // no id to mark
        Form::Tagged => GUESSED,
    }
}

// The octets of a prefix of that many bits, as a writer counts them; a reader has the tables of `octets`.
pub fn octet_count(len: u8) -> usize
    ensures { result ≡ octets len }
{
    usize::from(len).div_ceil(8)
}

// The setting of a settings byte, as a slot has it: the lowest bit is Add-Path, and the next one the guess, which is for Add-Path off alone.
// No other bit is read.
impl From<u8> for AddPath {
    ghost from_gives = { λ settings mode. mode ≡ mode_of settings };

    fn from(settings: u8) -> AddPath {
        if settings % 2 == 1 {
            AddPath::On
        } else if settings / 2 % 2 == 1 {
            AddPath::Guess
        } else {
            AddPath::Off
        }
    }
}
