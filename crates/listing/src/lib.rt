// The lines of the program's listing, written as bytes to a buffer that the caller lends. A line
// has at most 278 bytes: a cycle's number of 20 digits, a colon, 64 leaves of 4 bytes and the
// line's end.
#![tactic(auto)]

ghost use Rattle.std.specs.Prelude.{◌≡◌, [], ◌∷◌, ◌+◌, ◌*◌, ◌/◌, ◌^◌, ◌≤◌, ◌<◌, length, drop};
ghost use Rattle.listing.specs.Digits.{digits};
ghost use Rattle.listing.specs.Lines.{word_line, numbers_line, type_line, cycles_line, refused_line, leaf_text, leaf_texts, cycle_line};
ghost use Rattle.listing.specs.Wrote.{line_bytes};
ghost use Rattle.listing.specs.Texts.{HasRoom, Added};
ghost use Rattle.listing.specs.Fills.{LinesAdded};

// The room that a line is given.
pub const LINE_BYTES: usize = 280;

// A text in the front of a buffer. It grows at its end; what it held and what lies behind it stay.
// It writes to the one buffer that it was made of: clauses name that by `lender`, so that who lent
// it knows what stands in all of it afterwards.
#[derive(Drop)]
pub struct Text<'a> {
    buffer: &'a mut [u8],
    len: usize,
    pub ghost inside: { len ≤ length buffer.now },
}

impl<'a> Text<'a> {
    ghost use Rattle.listing.specs.Seen.{written};

    // An empty text, with all of a buffer as its room.
    pub fn new(buffer: &'a mut [u8]) -> Text<'a>
        ensures { written result ≡ record { bytes = []; room = length buffer.old; rest = buffer.old; lender = buffer.entry.ghost_name } }
    {
        Text { buffer, len: 0 }
    }

    // How many bytes are written.
    pub fn len(&self) -> usize
        ensures { result ≡ length (written self.now).bytes }
    {
        let Text { len, .. } = self;
        *len
    }

    // How many bytes more have room.
    pub fn left(&self) -> usize
        ensures { length (written self.now).bytes + result ≡ (written self.now).room }
    {
        self.buffer.len() - self.len
    }

    // The bytes written, which keep the buffer: for one who holds the text alone. Who lent the buffer
    // knows all of it afterwards by `len`.
    pub fn into_bytes(self) -> &'a [u8]
        ensures { result.now ≡ (written self.entry).bytes }
    {
        let Text { buffer, len, .. } = self;
        &buffer[..len]
    }

    fn put_byte(&mut self, b: u8)
        requires { HasRoom (written self.old) 1 }
        ensures { Added (written self.old) (b ∷ []) (written self.new) }
    {
        self.buffer[self.len] = b;
        self.len += 1;
    }

    fn put_text(&mut self, text: &[u8])
        requires { HasRoom (written self.old) (length text.now) }
        ensures { Added (written self.old) text.now (written self.new) }
    {
        let end = self.len + text.len();
        self.buffer[self.len..end].copy_from_slice(text);
        self.len = end;
    }

    // A number in decimal: its front digits, which are those of a tenth of it, and the last one.
    pub fn put_number(&mut self, n: u64)
        requires { HasRoom (written self.old) (length (digits n)) }
        ensures { Added (written self.old) (digits n) (written self.new) }
    {
        if n >= 10 {
            self.put_number(n / 10);
        }
        self.put_byte(b'0' + (n % 10) as u8);
    }

    // A word, a number and the line's end.
    pub fn put_word_line(&mut self, word: &[u8], n: u64)
        requires { HasRoom (written self.old) (length word.now + 21) }
        ensures { Added (written self.old) (word_line word.now n) (written self.new) }
    {
        self.put_text(word);
        self.put_number(n);
        self.put_byte(b'\n');
    }

    // The first line: the output type's record.
    pub fn put_type(&mut self, t: u64)
        requires { HasRoom (written self.old) line_bytes }
        ensures { Added (written self.old) (type_line t) (written self.new) }
    {
        self.put_word_line(b"type ", t);
    }

    // The last line: how many cycles were done.
    pub fn put_cycles(&mut self, count: usize)
        requires { HasRoom (written self.old) line_bytes }
        ensures { Added (written self.old) (cycles_line count) (written self.new) }
    {
        self.put_word_line(b"cycles ", count as u64);
    }

    // A word, a number, another word, another number and the line's end.
    pub fn put_numbers_line(&mut self, word: &[u8], n: u64, second: &[u8], m: u64)
        requires { HasRoom (written self.old) (length word.now + length second.now + 41) }
        ensures { Added (written self.old) (numbers_line word.now n second.now m) (written self.new) }
    {
        self.put_text(word);
        self.put_number(n);
        self.put_word_line(second, m);
    }

    // The line of a refusal.
    pub fn put_refused(&mut self, code: u64, place: u64)
        requires { HasRoom (written self.old) line_bytes }
        ensures { Added (written self.old) (refused_line code place) (written self.new) }
    {
        self.put_numbers_line(b"refused ", code, b" at ", place);
    }

    fn put_leaf(&mut self, leaf: u8)
        requires { HasRoom (written self.old) (length (leaf_text leaf)) }
        ensures { Added (written self.old) (leaf_text leaf) (written self.new) }
    {
        self.put_byte(b' ');
        self.put_number(u64::from(leaf));
    }

    fn put_leaves(&mut self, leaves: &[u8])
        requires { HasRoom (written self.old) (length (leaf_texts leaves.now)) }
        ensures { Added (written self.old) (leaf_texts leaves.now) (written self.new) }
    {
        for &leaf in leaves {
            self.put_leaf(leaf);
        }
    }

    // The line of cycle k.
    pub fn put_cycle(&mut self, k: usize, leaves: &[u8])
        requires { HasRoom (written self.old) line_bytes × (length leaves.now ≤ 64) }
        ensures { Added (written self.old) (cycle_line k leaves.now) (written self.new) }
    {
        self.put_number(k as u64);
        self.put_byte(b':');
        self.put_leaves(leaves);
        self.put_byte(b'\n');
    }

    // The lines of cycles from k on, of w leaves each: all, or as many as surely have room. It
    // gives how many.
    pub fn put_lines(&mut self, k: usize, w: usize, leaves: &[u8]) -> usize
        requires some { 0 < w }
        requires few { w ≤ 64 }
        requires numbered { k + length leaves.now < 2 ^ 64 }
        ensures { LinesAdded (written self.old) k w leaves.now (written self.new) result }
    {
        let mut count = 0;
        for line in leaves.chunks_exact(w) {
            if self.left() < LINE_BYTES {
                break;
            }
            self.put_cycle(k + count, line);
            count += 1;
        }
        count
    }
}

// The outputs of all cycles end to end, so many leaves each, and no more of them than a line has
// room for.
#[derive(Clone, Copy)]
pub struct Outputs<'a> {
    pub leaves: &'a [u8],
    pub width: usize,
    pub ghost some: { 0 < width },
    pub ghost few: { width ≤ 64 },
}

impl<'a> Outputs<'a> {
    // How many cycles there are.
    pub fn cycles(self) -> usize
        ensures { result ≡ length self.entry.leaves.now / self.entry.width }
    {
        self.leaves.len() / self.width
    }

    // The leaves from cycle k on.
    pub fn from_cycle(self, k: usize) -> &'a [u8]
        requires { k * self.width ≤ length self.leaves.now }
        ensures { result.now ≡ drop (k * self.entry.width) self.entry.leaves.now }
    {
        &self.leaves[k * self.width..]
    }
}

#[cfg(test)]
mod tests {
    use super::*;

    // A line of docs/SHEETS.md, "Listing": `refused CODE at PLACE` and the line's end.
    #[test]
    fn bytes_of_a_text(rt: HostRuntime) {
        let mut buffer = [b'#'; LINE_BYTES];
        let mut text = Text::new(&mut buffer);
        text.put_refused(12, 1);
        assert_eq!(rt; text.into_bytes(), b"refused 12 at 1\n".as_slice());
    }
}
