// A text of up to 1,024 bytes, a book or a sheet: an array with its length, as no crate uses a heap. It has room to spare for each that the bench writes; what
// would not fit is not written.
ghost use Rattle.std.specs.Prelude.{◌≡◌, ℕ, ◌+◌, ◌%◌, ◌^◌, ◌<◌, ◌≤◌, [], length, take, min, slice_index, slice_set};

#[derive(Drop)]
pub struct Text {
    bytes: [u8; 1024],
    length: usize,
}

impl Text {
    pub fn new() -> Text
        ensures { result.length ≡ 0 }
    {
        Text {
            bytes: [0; 1024],
            length: 0,
        }
    }

    pub fn len(&self) -> usize
        ensures { result ≡ self.now.length }
    {
        self.length
    }

    pub fn bytes(&self) -> &[u8]
        ensures fits { self.now.length ≤ length self.now.bytes → result.now ≡ take self.now.length self.now.bytes }
        ensures past { length self.now.bytes < self.now.length → result.now ≡ [] }
    {
        self.bytes.get(..self.length).unwrap_or(&[])
    }

    // Another byte in the place of one.
    pub fn put_byte(&mut self, place: usize, byte: u8)
        ensures byte { self.new.bytes ≡ slice_set self.old.bytes place byte }
        ensures length { self.new.length ≡ self.old.length }
    {
        // by index: no clause says what a write through `get_mut` leaves
        if place < self.bytes.len() {
            self.bytes[place] = byte;
        }
    }

    pub fn push_byte(&mut self, byte: u8)
        ensures byte { self.new.bytes ≡ slice_set self.old.bytes self.old.length byte }
        ensures length { self.new.length ≡ (self.old.length + 1) % 2 ^ 64 }
    {
        self.put_byte(self.length, byte);
        self.length = self.length.wrapping_add(1);
    }

    pub fn truncate(&mut self, length: usize)
        ensures { self.new ≡ record self.old { length = min self.old.length length } }
    {
        self.length = self.length.min(length);
    }

    // A number over as many digits, the highest first, from a place on.
    pub fn put_number(&mut self, start: usize, digits: usize, number: u64)
        ensures length { self.new.length ≡ self.old.length }
        ensures before { (k : ℕ) → k < start → slice_index self.new.bytes k ≡ slice_index self.old.bytes k }
        ensures after { (k : ℕ) → start + digits ≤ k → slice_index self.new.bytes k ≡ slice_index self.old.bytes k }
    {
        // by index, as in `put_byte`
        let end = start.saturating_add(digits);
        if end <= self.bytes.len() {
            let mut left = number;
            for place in (start..end).rev() {
                self.bytes[place] = b"0123456789ABCDEF"[(left % 16) as usize];
                left /= 16;
            }
        }
    }

    pub fn push_number(&mut self, digits: usize, number: u64)
        ensures { self.new.length ≡ (self.old.length + digits) % 2 ^ 64 }
    {
        let start = self.length;
        self.length = start.wrapping_add(digits);
        self.put_number(start, digits, number);
    }

    pub fn end_line(&mut self)
        ensures byte { self.new.bytes ≡ slice_set self.old.bytes self.old.length 10 }
        ensures length { self.new.length ≡ (self.old.length + 1) % 2 ^ 64 }
    {
        self.push_byte(b'\n');
    }

    // The number of the eight digits from a place on; what is no digit is given some value.
    pub fn number_at(&self, start: usize) -> u64 {
        let field = self.bytes.get(start..start.wrapping_add(8)).unwrap_or(&[]);
        field.iter().fold(0, |n: u64, byte| {
            n.wrapping_mul(16)
                .wrapping_add(char::from(*byte).to_digit(16).map_or(0, u64::from))
        })
    }
}
