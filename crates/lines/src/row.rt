// A line of a table: words, a colon, and numbers. Those before the last comma are asked, those behind it are the reply. A reply of the library is such a row too.
ghost use Rattle.std.specs.Prelude.{◌≤◌};

// The most numbers that a line keeps: a deck of the largest block and its sheet has 446.
pub const MOST: usize = 480;

// The longest deck and one byte more.
pub const ROOM: usize = 32769;

// What stands in a lent buffer before it is written to, and behind the numbers of a row.
pub const STAYS: u64 = 199;

// Numbers of bytes, entries, atoms and placements are handed on up to here.
pub const FAR: usize = 255;

// A number from here on takes no more digits.
const LONG: u64 = 1000000000000000;

// The numbers behind a line's colon, how many of them are asked, and whether the word "refused" stands among them, which is told by its r.
#[derive(Clone, Copy, Debug, PartialEq, Eq)]
pub struct Row {
    pub refused: bool,
    pub asked: usize,
    pub count: usize,
    pub values: [u64; MOST],
}

// How far a line is read: so many numbers are whole, so many stood before a comma, and while open, the next is still being read.
#[derive(Clone, Copy)]
struct Reading {
    refused: bool,
    open: bool,
    asked: usize,
    count: usize,
    number: u64,
}

// The value of a digit; 16 for any other byte.
fn digit(byte: u8) -> u64 {
    match byte {
        b'0'..=b'9' => (byte - b'0') as u64,
        b'a'..=b'f' => (byte - b'a' + 10) as u64,
        _ => 16,
    }
}

fn longer(n: u64, digit: u64, hex: bool) -> u64 {
    if LONG <= n {
        return n;
    }
    if 16 < digit {
        return n;
    }
    if hex { 16 * n + digit } else { 10 * n + digit }
}

fn after(count: usize) -> usize {
    if count < MOST { count + 1 } else { count }
}

fn either(test: bool, x: usize, y: usize) -> usize {
    if test { x } else { y }
}

impl Reading {
    fn with_digit(self, digit: u64, hex: bool) -> Reading {
        let before = if self.open { self.number } else { 0 };
        Reading {
            refused: self.refused,
            open: true,
            asked: self.asked,
            count: self.count,
            number: longer(before, digit, hex),
        }
    }

    // A byte that is no digit ends a number.
    fn with_mark(self, byte: u8) -> Reading {
        let count = either(self.open, after(self.count), self.count);
        Reading {
            refused: self.refused || byte == b'r',
            open: false,
            asked: either(byte == b',', count, self.asked),
            count,
            number: 0,
        }
    }

    fn with_byte(self, byte: u8, hex: bool) -> Reading {
        let value = digit(byte);
        if value < 10 || hex && value < 16 {
            self.with_digit(value, hex)
        } else {
            self.with_mark(byte)
        }
    }
}

// The number at a place of a row that has so many.
fn entry(values: &[u64], count: usize, i: usize) -> u64 {
    if count <= i {
        return STAYS;
    }
    if values.len() <= i {
        return STAYS;
    }
    values[i]
}

// Whether the numbers of a line behind those that are asked are those of a reply.
fn same(line: &[u64], asked: usize, count: usize, told: &[u64], n: usize) -> bool {
    for k in asked..MOST {
        if entry(line, count, k) != entry(told, n, k - asked) {
            return false;
        }
    }
    true
}

impl Row {
    pub fn none() -> Row {
        Row {
            refused: false,
            asked: 0,
            count: 0,
            values: [0; MOST],
        }
    }

    pub fn at(self, i: usize) -> u64 {
        let values = self.values;
        entry(&values, self.count, i)
    }

    // One of the first numbers, as a number of bytes, entries, atoms or placements.
    pub fn first(self, i: usize, most: usize) -> usize
        ensures { result ≤ most }
    {
        let value = self.at(i);
        if value < most as u64 {
            value as usize
        } else {
            most
        }
    }

    // With another number at a place.
    pub fn with(self, at: usize, value: u64) -> Row {
        let mut next = self;
        if at < MOST {
            next.values[at] = value;
        }
        next
    }

    // Whether the line says what a reply does.
    pub fn says(self, reply: Row) -> bool {
        let line = self.values;
        let told = reply.values;
        self.refused == reply.refused && same(&line, self.asked, self.count, &told, reply.count)
    }
}

// The numbers as bytes, zeros behind them.
pub fn bytes_of(row: Row) -> [u8; ROOM] {
    let values = row.values;
    let mut bytes = [0u8; ROOM];
    for k in 0..MOST {
        bytes[k] = (values[k] % 256) as u8;
    }
    bytes
}

// Whether the numbers of a line are written in base 16: a deck's bytes, a block's part of it, a sheet's bytes.
fn is_hex(letter: u8) -> bool {
    match letter {
        b'D' | b'f' | b'b' | b'o' => true,
        _ => false,
    }
}

// The place behind a line's last colon: the numbers in the words before it do not count.
fn numbers_at(line: &[u8]) -> usize {
    let mut from = 0;
    for at in 0..line.len() {
        if line[at] == b':' {
            from = at;
        }
    }
    from
}

// The numbers of a line that starts with a letter.
pub fn row_of(line: &[u8], letter: u8) -> Row {
    let hex = is_hex(letter);
    let mut values = [0u64; MOST];
    let mut seen = Reading {
        refused: false,
        open: false,
        asked: 0,
        count: 0,
        number: 0,
    };
    for at in numbers_at(line)..line.len() {
        seen = seen.with_byte(line[at], hex);
        let count = seen.count;
        if seen.open && count < MOST {
            values[count] = seen.number;
        }
    }
    let last = seen.with_mark(b' ');
    Row {
        refused: last.refused,
        asked: last.asked,
        count: last.count,
        values,
    }
}
