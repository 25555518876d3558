// Records of four numbers in a lent slice. Past the end every number reads as 0, and nothing is written. A number of 64 bits
// stands in two of them, its low half and its high half.
#![tactic(auto)]

ghost use Rattle.std.specs.Prelude.{◌≡◌, ◌+◌, ◌*◌, ◌/◌, ◌%◌, length, get_or, set, replicate};
ghost use Rattle.tables.specs.Tables.{record_put, shifted};

// The number at i, 0 past the end.
pub fn at(t: &[u32], i: usize) -> u32
    ensures { result ≡ get_or t.now i 0 }
{
    t.get(i).copied().unwrap_or(0)
}

// Stores v at i; past the end nothing changes.
pub fn store(t: &mut [u32], i: usize, v: u32)
    ensures { t.new ≡ set t.old i v }
{
    if i < t.len() {
        t[i] = v;
    }
}

// Writes record i where the table has room for it, else nothing.
pub fn put_record(t: &mut [u32], i: usize, a: u32, b: u32, c: u32, d: u32)
    ensures { t.new ≡ record_put t.old i a b c d }
{
    if i < t.len() / 4 {
        let record = &mut t[i * 4..i * 4 + 4];
        record[0] = a;
        record[1] = b;
        record[2] = c;
        record[3] = d;
    }
}

// Moves the records from `from` up to `to` one record up, where the table has room for them, else none.
pub fn shift_up(t: &mut [u32], from: usize, to: usize)
    ensures { t.new ≡ shifted t.old from to }
{
    if from < to && to < t.len() / 4 {
        t.copy_within(from * 4..to * 4, from * 4 + 4);
    }
}

// Makes every number 0.
pub fn zero_all(t: &mut [u32])
    ensures { t.new ≡ replicate (length t.old) 0 }
{
    t.fill(0);
}

// The low half of a word.
pub fn low(word: u64) -> u32
    ensures { result ≡ word % 4294967296 }
{
    (word & 0xffff_ffff) as u32
}

// The high half of a word.
pub fn high(word: u64) -> u32
    ensures { result ≡ word / 4294967296 }
{
    (word >> 32) as u32
}

// The word of two halves.
pub fn word(low: u32, high: u32) -> u64
    ensures { result ≡ low + 4294967296 * high }
{
    u64::from(low) | u64::from(high) << 32
}
