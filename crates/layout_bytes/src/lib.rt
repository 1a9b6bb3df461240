// Little-endian numbers read from bytes and written to them, and runs of bytes written: the only stores of the
// library into bytes.
#![tactic(auto)]

ghost use Rattle.std.specs.Prelude.{◌≡◌, [], ◌∷◌, ◌++◌, ◌+◌, ◌≤◌, ◌<◌, length, take, drop, replicate};
ghost use Rattle.layout_bytes.specs.Bytes.{u16_at, u32_at, u64_at, le16, le32, le64, all};
ghost use Rattle.layout_bytes.specs.inner.Bytes.{put_at};

// The N bytes at a place.
fn bytes_at<const N: usize>(s: &[u8], at: usize) -> [u8; N]
    requires { at + N ≤ length s.now }
    ensures { result ≡ take N (drop at s.now) }
{
    let mut bytes = [0; N];
    bytes.copy_from_slice(&s[at..at + N]);
    bytes
}

// The number of two bytes at a place.
// (Three functions over the one above, here and of `put`: `from_le_bytes` and `to_le_bytes` are methods of each
// number type by itself, and a trait over them would have an impl for each.)
pub fn u16_at(s: &[u8], at: usize) -> u16
    requires { at + 2 ≤ length s.now }
    ensures { result ≡ u16_at s.now at }
{
    u16::from_le_bytes(bytes_at(s, at))
}

// The number of four bytes at a place.
pub fn u32_at(s: &[u8], at: usize) -> u32
    requires { at + 4 ≤ length s.now }
    ensures { result ≡ u32_at s.now at }
{
    u32::from_le_bytes(bytes_at(s, at))
}

// The number of eight bytes at a place.
pub fn u64_at(s: &[u8], at: usize) -> u64
    requires { at + 8 ≤ length s.now }
    ensures { result ≡ u64_at s.now at }
{
    u64::from_le_bytes(bytes_at(s, at))
}

// Every byte is b.
pub fn all_are(s: &[u8], b: u8) -> bool
    ensures { result ≡ all b s.now }
{
    s.iter().all(|x| *x == b)
}

// A number of two bytes written at a place.
pub fn put16(out: &mut [u8], at: usize, x: u16)
    requires { at + 2 ≤ length out.old }
    ensures { out.new ≡ put_at out.old at (le16 x) }
{
    put_bytes(out, at, &x.to_le_bytes());
}

// A number of four bytes written at a place.
pub fn put32(out: &mut [u8], at: usize, x: u32)
    requires { at + 4 ≤ length out.old }
    ensures { out.new ≡ put_at out.old at (le32 x) }
{
    put_bytes(out, at, &x.to_le_bytes());
}

// A number of eight bytes written at a place.
pub fn put64(out: &mut [u8], at: usize, x: u64)
    requires { at + 8 ≤ length out.old }
    ensures { out.new ≡ put_at out.old at (le64 x) }
{
    put_bytes(out, at, &x.to_le_bytes());
}

// Two bytes written at a place.
pub fn put_two(out: &mut [u8], at: usize, a: u8, b: u8)
    requires { at + 2 ≤ length out.old }
    ensures { out.new ≡ put_at out.old at (a ∷ b ∷ []) }
{
    put_bytes(out, at, &[a, b]);
}

// The bytes of s written at a place.
#[tactic(auto, unfolding(crate::specs::inner::Bytes::put_at))]
pub fn put_bytes(out: &mut [u8], at: usize, s: &[u8])
    requires { at + length s.now ≤ length out.old }
    ensures { out.new ≡ put_at out.old at s.now }
{
    for i in 0..s.len() {
        out[at + i] = s[i];
    }
}

// The byte b in the first n places.
pub fn fill(out: &mut [u8], n: usize, b: u8)
    requires { n ≤ length out.old }
    ensures { out.new ≡ replicate n b ++ drop n out.old }
{
    out[..n].fill(b);
}
