ghost use Rattle.std.specs.Prelude.{◌≡◌, ◌≤◌, [], ◌∷◌, ◌++◌, length, Ok, IsOk, IfOk, IfErr, decimal};
ghost use Rattle.std.specs.Fmt.{signed_decimal};
ghost use Rattle.printing.specs.Pages.{text_on, RoomFor};
ghost use Rattle.printing.specs.Printing.{in_text};
ghost use Rattle.printing.specs.Words.{ShortText, fault};

use crate::page::{MOST_WRITTEN, Page};
use sheet::fault::{Fault, Refusal};

impl Page {
    // The page without text.
    pub(crate) fn new() -> Page
        ensures { text_on result ≡ [] }
    {
        Page {
            bytes: [0; MOST_WRITTEN],
            len: 0,
        }
    }

    // One byte more.
    pub(crate) fn push(&mut self, byte: u8)
        requires { RoomFor self.old (byte ∷ []) }
        ensures { text_on self.new ≡ text_on self.old ++ byte ∷ [] }
    {
        let at = self.len;
        self.bytes[at] = byte;
        self.len = at + 1;
    }

    // A text.
    pub(crate) fn push_text(&mut self, text: &[u8])
        requires { RoomFor self.old text.now }
        ensures { text_on self.new ≡ text_on self.old ++ text.now }
    {
        let at = self.len;
        let end = at + text.len();
        self.bytes[at..end].copy_from_slice(text);
        self.len = end;
    }

    // A line feed, which ends every line.
    pub(crate) fn end_line(&mut self)
        requires { RoomFor self.old (10 ∷ []) }
        ensures { text_on self.new ≡ text_on self.old ++ 10 ∷ [] }
    {
        self.push(b'\n');
    }

    // A number in decimal digits.
    pub(crate) fn push_number(&mut self, n: u32)
        requires { RoomFor self.old (decimal n) }
        ensures { text_on self.new ≡ text_on self.old ++ decimal n }
    {
        if n > 9 {
            self.push_number(n / 10);
        }
        self.push(b'0' + (n % 10) as u8);
    }

    // A weight in decimal digits, with a dash before it if it is below zero.
    pub(crate) fn push_weight(&mut self, weight: i32)
        requires { RoomFor self.old (signed_decimal weight) }
        ensures { text_on self.new ≡ text_on self.old ++ signed_decimal weight }
    {
        if weight < 0 {
            self.push(b'-');
        }
        self.push_number(weight.unsigned_abs());
    }

    // The text into the first of the caller's bytes, and how many bytes it has.
    pub(crate) fn copy_to(&self, text: &mut [u8]) -> Result<usize, Fault>
        ensures exact { record { answer = result; memory = text.new }
            ≡ in_text (Ok (text_on self.now)) text.old }
        ensures within { IfOk result (λ n. n ≤ length text.new) }
        ensures short { IfErr result (λ f. f ≡ fault ShortText 0) }
        ensures enough { 9504 ≤ length text.old → IsOk result }
    {
        let len = self.len;
        if text.len() < len {
            return Err(Refusal::ShortText.into());
        }
        text[..len].copy_from_slice(&self.bytes[..len]);
        Ok(len)
    }
}
