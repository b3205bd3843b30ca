// The header word: every field read and written, how long a command is, and the next tag. Beside it the limits that
// every message and every answer keeps, and what a refusal is.
//
// The contracts cite specs/, where document 01's sentences have their definitions, in the file named after the module.
#![tactic(auto)]

ghost use Rattle.std.specs.Prelude.{◌≡◌, ◌<◌, ◌≤◌};
ghost use Rattle.header.specs.Limits.{tag_count};
ghost use Rattle.header.specs.Header.{tag_of, number_of, kind_no, kind_of, wide_of, discovery_of, byte0_of, byte1_of};
ghost use Rattle.header.specs.Header.{first_field, last_field, count_of, reserved_of, last_of, bit, byte0_from};
ghost use Rattle.header.specs.Header.{header_from, address_by, address_words, data_words, reply_words, body_words};
ghost use Rattle.header.specs.Header.{size_of, head_of, ends_ok, next_tag};

pub mod limits;
pub mod refusal;

// The kind of a command, or an answer's.
#[derive(Clone, Copy, Debug, PartialEq, Eq)]
pub enum Kind {
    Nop,
    Write,
    Read,
    Response,
}

// The kind that a number of two bits names.
impl From<u32> for Kind {
    ghost from_gives = { λ n kind. kind ≡ kind_no n };

    fn from(n: u32) -> Kind {
        match n {
            0 => Kind::Nop,
            1 => Kind::Write,
            2 => Kind::Read,
            3.. => Kind::Response,
        }
    }
}

// The number of a kind.
impl From<Kind> for u32 {
    ghost from_gives = { λ kind n. (n ≡ number_of kind) × (n < 4) };

    fn from(kind: Kind) -> u32 {
        kind as u32
    }
}

// A header as it was read: byte 1, count, words of its body, LAST.
#[derive(Drop)]
pub struct Head {
    pub byte1: u32,
    pub count: usize,
    pub body: usize,
    pub last: bool,
}

pub fn tag(h: u32) -> u32
    ensures value { result ≡ tag_of h }
    ensures below { result < 16 }
{
    h % 16
}

// The tag after this one, modulo 16.
pub fn next_tag(tag: u32) -> u32
    requires { tag < tag_count }
    ensures value { result ≡ next_tag tag }
    ensures below { result < tag_count }
{
    (tag + 1) % limits::TAGS
}

pub fn kind_of(h: u32) -> Kind
    ensures { result ≡ kind_of h }
{
    Kind::from(h / 16 % 4)
}

// Whether addresses have 64 bits.
pub fn wide(h: u32) -> bool
    ensures { result ≡ wide_of h }
{
    h / 64 % 2 != 0
}

pub fn discovery(h: u32) -> bool
    ensures { result ≡ discovery_of h }
{
    h / 128 % 2 != 0
}

pub fn byte0(h: u32) -> u32
    ensures value { result ≡ byte0_of h }
    ensures below { result < 256 }
{
    h % 256
}

// A request's byte enables, an answer's status.
pub fn byte1(h: u32) -> u32
    ensures value { result ≡ byte1_of h }
    ensures below { result < 256 }
{
    h / 256 % 256
}

// The enables of a write's first word.
pub fn first_field(byte1: u32) -> u32
    ensures value { result ≡ first_field byte1 }
    ensures below { result < 16 }
{
    byte1 % 16
}

// The enables of a write's last word.
pub fn last_field(byte1: u32) -> u32
    ensures { result ≡ last_field byte1 }
{
    byte1 / 16
}

// How many data words the command is about.
pub fn count(h: u32) -> usize
    ensures value { result ≡ count_of h }
    ensures below { result < 4096 }
{
    (h / 65536 % 4096) as usize
}

pub fn reserved(h: u32) -> u32
    ensures { result ≡ reserved_of h }
{
    h / 268435456 % 8
}

pub fn last(h: u32) -> bool
    ensures { result ≡ last_of h }
{
    h / 2147483648 != 0
}

// Byte 0 from its fields.
pub fn byte0_from(tag: u32, kind: Kind, wide: bool, discovery: bool) -> u32
    requires { tag < 16 }
    ensures value { result ≡ byte0_from tag kind wide discovery }
    ensures below { result < 256 }
{
    tag + 16 * u32::from(kind) + 64 * u32::from(wide) + 128 * u32::from(discovery)
}

// A header from its fields; the reserved bits are 0.
pub fn header_from(byte0: u32, byte1: u32, count: usize, last: bool) -> u32
    requires { (byte0 < 256)
        × (byte1 < 256)
        × (count < 4096) }
    ensures { result ≡ header_from byte0 byte1 count last }
{
    byte0 + 256 * byte1 + 65536 * count as u32 + 2147483648 * u32::from(last)
}

// The words of an address.
fn address_by(kind: Kind, wide: bool) -> usize
    ensures value { result ≡ address_by kind wide }
    ensures below { result < 3 }
{
    match kind {
        Kind::Write | Kind::Read => 1 + usize::from(wide),
        Kind::Nop | Kind::Response => 0,
    }
}

// The words of a command's address in a message of this byte 0.
pub fn address_words(byte0: u32) -> usize
    ensures value { result ≡ address_words byte0 }
    ensures below { result < 3 }
{
    address_by(kind_of(byte0), wide(byte0))
}

// The words of a command's data.
pub fn data_words(kind: Kind, count: usize) -> usize
    ensures value { result ≡ data_words kind count }
    ensures below { result ≤ count }
{
    match kind {
        Kind::Read => 0,
        Kind::Nop | Kind::Write | Kind::Response => count,
    }
}

// The data words of the OK answer to a command.
pub fn reply_words(kind: Kind, count: usize) -> usize
    ensures value { result ≡ reply_words kind count }
    ensures below { result ≤ count }
{
    match kind {
        Kind::Nop | Kind::Read => count,
        Kind::Write | Kind::Response => 0,
    }
}

// The words of the body of the header h in a message of this byte 0: its address, then its data.
pub fn body_words(byte0: u32, h: u32) -> usize
    ensures value { result ≡ body_words byte0 (count_of h) }
    ensures below { result < 4098 }
{
    address_words(byte0) + data_words(kind_of(byte0), count(h))
}

// The words of a command, its header's included, from its header alone.
pub fn size(h: u32) -> usize
    ensures { result ≡ size_of h }
{
    1 + body_words(h, h)
}

// A header of this byte 0, its byte 1 being 0, with the count and LAST of the header h: neither is moved.
pub fn as_asked(byte0: u32, h: u32) -> u32
    requires { byte0 < 256 }
    ensures { result ≡ header_from byte0 0 (count_of h) (last_of h) }
{
    byte0 + h / 65536 % 4096 * 65536 + h / 2147483648 * 2147483648
}

// A header as it is read in a message of this byte 0.
pub fn head_of(byte0: u32, h: u32) -> Head
    ensures { result ≡ head_of byte0 h }
{
    Head {
        byte1: byte1(h),
        count: count(h),
        body: body_words(byte0, h),
        last: last(h),
    }
}

// Whether nothing follows the body of a LAST command.
pub fn ends_ok(last: bool, body: usize, left: usize) -> bool
    ensures { result ≡ ends_ok last body left }
{
    !last || left == body
}
