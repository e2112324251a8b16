// Putting a text into a lent pool of bytes, one part after another.
ghost use Rattle.std.specs.Prelude.{◌≡◌, ◌+◌, leb, length};
ghost use Rattle.text_lines.specs.Text.{decimal, number_line, clash_text, refused_text};
ghost use Rattle.text_lines.specs.Put.{pool, pool_lent, put_at};
ghost use Rattle.text_lines.specs.steps.Put.{SamePool, FitsIn, PutIn};

// Whether a part of a size has room from a place on.
fn has_room(whole: usize, at: usize, size: usize) -> bool
    ensures { result ≡ leb (at + size) whole }
{
    at <= whole && size <= whole - at
}

// A lent pool of bytes that a text is put into, and the place where the next part goes.
#[derive(Drop)]
pub struct Pool<'a> {
    bytes: &'a mut [u8],
    pub next: usize,
}

impl<'a> Pool<'a> {
    // A pool with nothing put yet: the text goes to its front.
    pub fn new(bytes: &'a mut [u8]) -> Pool<'a>
        ensures same { result.bytes.ghost_name ≡ bytes.entry.ghost_name }
        ensures front { pool_lent result ≡ pool bytes.old 0 }
    {
        Pool { bytes, next: 0 }
    }

    // Puts bytes that have room, one by one: `copy_from_slice` would need `memmove`.
    fn put_fitting(&mut self, bytes: &[u8])
        requires { FitsIn self.old bytes.now }
        ensures same { SamePool self.old self.new }
        ensures put { PutIn self.old bytes.now self.new }
    {
        let from = self.next;
        let text = &mut *self.bytes;
        for (i, byte) in bytes.iter().enumerate() {
            text[from + i] = *byte;
        }
        self.next = from + bytes.len();
    }

    // Puts bytes as they are, where there is room.
    pub fn put_bytes(&mut self, bytes: &[u8])
        ensures same { SamePool self.old self.new }
        ensures put { pool_lent self.new ≡ put_at self.old.bytes.now self.old.next bytes.now }
    {
        if !has_room(self.bytes.len(), self.next, bytes.len()) {
            return;
        }
        self.put_fitting(bytes);
    }

    // Puts a number in decimal.
    pub fn put_number(&mut self, number: u64)
        ensures same { SamePool self.old self.new }
        ensures put { pool_lent self.new ≡ put_at self.old.bytes.now self.old.next (decimal number) }
    {
        let mut digits = [0u8; 20];
        let count = io::decimal(number, &mut digits);
        self.put_bytes(&digits[..count]);
    }

    // Puts a line with a number at its end, which has room.
    fn put_fitting_line(&mut self, word: &[u8], number: u64)
        requires { FitsIn self.old (number_line word.now number) }
        ensures same { SamePool self.old self.new }
        ensures put { PutIn self.old (number_line word.now number) self.new }
    {
        self.put_bytes(word);
        self.put_number(number);
        self.put_bytes(b"\n");
    }

    // Puts a line with a number at its end, where there is room for all of it.
    pub fn put_number_line(&mut self, word: &[u8], number: u64)
        ensures same { SamePool self.old self.new }
        ensures put { let line = number_line word.now number in
            pool_lent self.new ≡ put_at self.old.bytes.now self.old.next line }
    {
        if !has_room(self.bytes.len(), self.next, word.len()) {
            return;
        }
        let digits_at = self.next + word.len();
        if !has_room(self.bytes.len(), digits_at, digits_of(number) + 1) {
            return;
        }
        self.put_fitting_line(word, number);
    }
}

// How many digits a number has.
fn digits_of(number: u64) -> usize
    ensures { result ≡ length (decimal number) }
{
    let mut digits = [0u8; 20];
    io::decimal(number, &mut digits)
}

// Puts the whole text of `clash`.
pub fn put_clash(text: &mut [u8]) -> usize
    ensures { pool text.new result ≡ put_at text.old 0 clash_text }
{
    let mut text = Pool::new(text);
    text.put_bytes(b"result clash\n");
    text.next
}

// Puts the whole text of `refused` with 01's number.
pub fn put_refused(text: &mut [u8], number: u64) -> usize
    ensures { pool text.new result ≡ put_at text.old 0 (refused_text number) }
{
    let mut text = Pool::new(text);
    text.put_number_line(b"result refused ", number);
    text.next
}
