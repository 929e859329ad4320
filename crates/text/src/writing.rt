//! Writing to a text.
ghost use Rattle.std.specs.Prelude.{◌≡◌, [], ◌∷◌, ◌++◌, decimal};
ghost use Rattle.text.specs.Written.{clip, line_end, refused_line, row_line, spaced, table, written};

use crate::Text;
use bounded::Bounded;
use itoa::Buffer;
use refusal::Refusal;

impl Text {
    /// How many bytes a text has space for.
    pub const SPACE: usize = 1024;

    /// A text with nothing written.
    pub fn new() -> Text
        ensures { written result ≡ [] }
    {
        Text {
            bytes: Bounded::new(0),
        }
    }

    /// The bytes written so far.
    pub fn as_bytes(&self) -> &[u8]
        ensures { result.now ≡ written self.now }
    {
        self.bytes.as_slice()
    }

    /// Writes one byte.
    pub fn push(&mut self, byte: u8)
        ensures { written self.new ≡ clip (written self.old ++ (byte ∷ [])) }
    {
        self.bytes.push(byte);
    }

    /// Writes a word.
    pub fn push_str(&mut self, word: &str)
        ensures { written self.new ≡ clip (written self.old ++ word.now) }
    {
        self.bytes.extend_from_slice(word.as_bytes());
    }

    /// Writes a number in decimal digits.
    pub fn push_number(&mut self, n: usize)
        ensures { written self.new ≡ clip (written self.old ++ decimal n) }
    {
        // One digit by hand: `itoa` takes longer for it. The cast loses nothing.
        if n < 10 {
            self.push(b'0' + n as u8);
        } else {
            // Not by `write!`: it may fail, and promises its bytes only where it doesn't.
            let mut digits = Buffer::new();
            self.push_str(digits.format(n));
        }
    }

    /// Writes each number after one space.
    pub fn push_numbers(&mut self, numbers: &[usize])
        ensures { written self.new ≡ clip (written self.old ++ spaced numbers.now) }
    {
        for n in numbers {
            self.push(b' ');
            self.push_number(*n);
        }
    }

    /// Ends a line: each number after one space, then a line feed.
    #[tactic(auto, using(crate::proofs::Clip::and_then))]
    pub fn end_line(&mut self, numbers: &[usize])
        ensures { written self.new ≡ clip (written self.old ++ line_end numbers.now) }
    {
        self.push_numbers(numbers);
        self.push(b'\n');
    }

    /// Writes a line of numbers, one space between two; of no numbers nothing.
    pub fn push_row(&mut self, numbers: &[usize])
        ensures { written self.new ≡ clip (written self.old ++ row_line numbers.now) }
    {
        if let Some((first, rest)) = numbers.split_first() {
            self.push_number(*first);
            self.end_line(rest);
        }
    }

    /// Writes a line for each row, in order.
    pub fn push_rows<const N: usize>(&mut self, rows: &[[usize; N]])
        ensures { written self.new ≡ clip (written self.old ++ table rows.now) }
    {
        for row in rows {
            self.push_row(row);
        }
    }

    /// Writes the line of a refusal: the word "refused", its number and, for a bad record, its index.
    pub fn push_refusal(&mut self, refusal: Refusal)
        ensures { written self.new ≡ clip (written self.old ++ refused_line refusal) }
    {
        self.push_str("refused");
        let number = usize::from(u8::from(refusal));
        match refusal.index() {
            Some(index) => self.end_line(&[number, index]),
            None => self.end_line(&[number]),
        }
    }
}

/// The text of a refusal: its line.
impl From<Refusal> for Text {
    ghost from_gives = { λ refusal text. written text ≡ clip (refused_line refusal) };

    fn from(refusal: Refusal) -> Text {
        let mut text = Text::new();
        text.push_refusal(refusal);
        text
    }
}
