// Lines of text.
ghost use Rattle.std.specs.Prelude.{◌≡◌, ◌+◌, ◌≤◌, ◌++◌, [], length};
ghost use Rattle.listing.specs.Text as Text;
ghost use Rattle.listing.specs.Text.{line_bytes, padded, is_reserved, rights_text, run_line, stop_line, end_line, more_line, refused_line};

use arrayvec::ArrayVec;
use found::StopReason;
use itoa::Buffer;
use std::marker::Model;
use walk::Rights;

// The bytes of a line: no text is longer.
pub const LINE_BYTES: usize = 64;

// A text, its newline last. It lies in the value itself, so that no line can fail for want of memory.
#[derive(Drop)]
pub struct Line {
    text: ArrayVec<u8, LINE_BYTES>,
}

impl Model for Line {
    ghost use Rattle.std.specs.Prelude.{ℕ, List};

    ghost Value = { List ℕ };

    ghost view = { λ l. l.text.items };
}

impl Line {
    // No text yet.
    fn new() -> Line
        ensures { result ≡ [] }
    {
        Line {
            text: ArrayVec::new(),
        }
    }

    // The text.
    pub fn as_bytes(&self) -> &[u8]
        ensures value { result.now ≡ self.now }
        ensures fits { length result.now ≤ line_bytes }
    {
        self.text.as_slice()
    }

    // The text, and zeros behind it.
    pub fn padded(&self) -> [u8; LINE_BYTES]
        ensures { result ≡ padded self.now }
    {
        let text = self.as_bytes();
        let mut bytes = [0; LINE_BYTES];
        bytes[..text.len()].copy_from_slice(text);
        bytes
    }

    // The line with a text behind it.
    fn with(mut self, text: &[u8]) -> Line
        requires { length self + length text.now ≤ line_bytes }
        ensures { result ≡ self ++ text.now }
    {
        self.text.try_extend_from_slice(text).unwrap();
        self
    }

    // The line with a number of 16 hexadecimal digits.
    fn with_hex(self, n: u64) -> Line
        requires { length self + 16 ≤ line_bytes }
        ensures { result ≡ self ++ Text.hex n }
    {
        let mut digits = [0; 16];
        let k = io::hex(n, 16, &mut digits);
        self.with(&digits[..k])
    }

    // The line with a number in decimal.
    #[tactic(auto, using(crate::proofs::Decimal::decimal_is))]
    fn with_decimal(self, n: u64) -> Line
        requires { length self + 20 ≤ line_bytes }
        ensures text { result ≡ self ++ Text.decimal n }
        ensures len { length result ≤ length self + 20 }
    {
        self.with(Buffer::new().format(n).as_bytes())
    }
}

// The letters of rights: `w`, `u` and `x` (executable), or `-` for one that is not there.
fn letters(rights: Rights) -> [u8; 3]
    ensures { result ≡ rights_text rights.writable rights.user rights.no_execute }
{
    [
        if rights.writable { b'w' } else { b'-' },
        if rights.user { b'u' } else { b'-' },
        if rights.no_execute { b'-' } else { b'x' },
    ]
}

// `run PAGE FRAME COUNT RIGHTS`
#[tactic(auto, unfolding(crate::specs::Text::run_line))]
pub fn run_line(page: u64, frame: u64, count: u64, rights: Rights) -> Line
    ensures { result ≡ run_line page frame count rights.writable rights.user rights.no_execute }
{
    Line::new()
        .with(b"run ")
        .with_hex(page)
        .with(b" ")
        .with_hex(frame)
        .with(b" ")
        .with_decimal(count)
        .with(b" ")
        .with(&letters(rights))
        .with(b"\n")
}

// `stop PAGE LEVEL reserved` or `stop PAGE LEVEL outside`
#[tactic(auto, unfolding(crate::specs::Text::stop_line))]
pub fn stop_line(page: u64, level: u64, reason: StopReason) -> Line
    ensures { result ≡ stop_line page level (is_reserved reason) }
{
    let why = match reason {
        StopReason::Reserved => b"reserved".as_slice(),
        StopReason::Outside => b"outside".as_slice(),
    };
    Line::new()
        .with(b"stop ")
        .with_hex(page)
        .with(b" ")
        .with_decimal(level)
        .with(b" ")
        .with(why)
        .with(b"\n")
}

// `end`
#[tactic(auto, unfolding(crate::specs::Text::end_line))]
pub fn end_line() -> Line
    ensures { result ≡ end_line }
{
    Line::new().with(b"end\n")
}

// `more PAGE`. It and `refused_line` differ in how their number is printed, and one function would be told the text and the way.
#[tactic(auto, unfolding(crate::specs::Text::more_line))]
pub fn more_line(page: u64) -> Line
    ensures { result ≡ more_line page }
{
    Line::new().with(b"more ").with_hex(page).with(b"\n")
}

// `refused` and the number
#[tactic(auto, unfolding(crate::specs::Text::refused_line))]
pub fn refused_line(number: u64) -> Line
    ensures { result ≡ refused_line number }
{
    Line::new()
        .with(b"refused ")
        .with_decimal(number)
        .with(b"\n")
}
