// What a recorded answer holds: numbers, parts and rows of numbers at places of a record. The record is any bytes;
// what is not there reads as 0, or as nothing. crates/replay/src/main.rt describes the records.
ghost use Rattle.std.specs.Prelude.{◌≡◌, ◌<◌, ◌≤◌, length};

#[derive(Clone, Copy)]
pub struct Record<'a> {
    pub bytes: &'a [u8],
}

impl<'a> Record<'a> {
    // The number of two bytes at a place; 0 where they are not there.
    pub fn short_at(self, at: usize) -> usize
        ensures { result < 65536 }
    {
        match self.rest(at) {
            [a, b, ..] => u16::from_le_bytes([*a, *b]) as usize,
            _ => 0,
        }
    }

    // The number of four bytes at a place; 0 where they are not there.
    // (One pattern for each size: an array of N bytes would have to be taken from the slice first.)
    pub fn number_at(self, at: usize) -> u32 {
        match self.rest(at) {
            [a, b, c, d, ..] => u32::from_le_bytes([*a, *b, *c, *d]),
            _ => 0,
        }
    }

    // The number of eight bytes at a place; 0 for the four of them that are not there.
    pub fn long_at(self, at: usize) -> u64
        requires { at < 8000000 }
    {
        self.number_at(at) as u64 + 4294967296 * (self.number_at(at + 4) as u64)
    }

    // Whether it is this number.
    pub fn is(self, at: usize, n: u32) -> bool {
        self.number_at(at) == n
    }

    // The bytes from a place on.
    pub fn rest(self, from: usize) -> &'a [u8] {
        self.bytes.get(from..).unwrap_or(&[])
    }

    // The bytes from a place on, at most n of them.
    pub fn part(self, from: usize, n: usize) -> &'a [u8]
        ensures { length result.now ≤ n }
    {
        let rest = self.rest(from);
        &rest[..rest.len().min(n)]
    }

    // The same as a record.
    pub fn inner(self, from: usize, n: usize) -> Record<'a> {
        Record {
            bytes: self.part(from, n),
        }
    }

    // Whether the first n places of a row hold the numbers recorded from a place on, and the others x.
    pub fn is_row(self, at: usize, row: &[u32], n: usize, x: u32) -> bool
        requires { (at < 4000000) × (length row.now ≤ 65536) }
    {
        for (i, y) in row.iter().enumerate() {
            let wanted = if i < n { self.number_at(at + 4 * i) } else { x };
            if *y != wanted {
                return false;
            }
        }
        true
    }

    // Numbers from a place on, as many as there are places for them.
    // (A place is below 4,000,000, so that no sum leaves the numbers: it is asked here, of `is_row` and of
    // `fill_long`, since each adds to it.)
    pub fn fill(self, at: usize, to: &mut [u32])
        requires { (at < 4000000) × (length to.old ≤ 65536) }
    {
        for (i, x) in to.iter_mut().enumerate() {
            *x = self.number_at(at + 4 * i);
        }
    }

    // Numbers of eight bytes from a place on, as many as there are places for them.
    // (Beside `fill`, since the numbers are read otherwise: one function would take the reading as a closure, and
    // its length as a number.)
    pub fn fill_long(self, at: usize, to: &mut [u64])
        requires { (at < 4000000) × (length to.old ≤ 65536) }
    {
        for (i, x) in to.iter_mut().enumerate() {
            *x = self.long_at(at + 8 * i);
        }
    }
}
