// Bytes: one as a number, scans of them, and stores. Assumes nothing.
ghost use Rattle.std.specs.Prelude.{◌≡◌, ◌+◌, ◌≤◌, ◌<◌, length, drop, set, ltb};
ghost use Rattle.std.proofs.lemmas.List.Edits.{sets};
ghost use Rattle.spec.specs.Lists as lists;
ghost use Rattle.spec.specs.Numbers.{little_endian};
ghost use Rattle.spec.specs.Held.{padded};

// A byte as a number.
pub fn wide(x: u8) -> usize
    ensures { (result ≡ x) × (result < 256) }
{
    x as usize
}

// Whether every byte from `from` on is below a limit.
pub fn all_below(p: &[u8], from: usize, limit: usize) -> bool
    requires { from ≤ length p.now }
    ensures { result ≡ lists.all (λ d. ltb d limit) (drop from p.now) }
{
    p[from..].iter().all(|x| usize::from(*x) < limit)
}

// The bytes from `from` on, at most eight, in an array.
pub fn place_of(p: &[u8], from: usize) -> [u8; 8]
    requires { (from ≤ length p.now) × (length p.now ≤ from + 8) }
    ensures { result ≡ padded 8 0 (drop from p.now) }
{
    let mut place = [0u8; 8];
    place[..p.len() - from].copy_from_slice(&p[from..]);
    place
}

// Stores a byte where the buffer has room. By `get_mut` a proof would know only the buffer's length behind it.
pub fn put(buf: &mut [u8], at: usize, x: u8)
    ensures { buf.new ≡ set buf.old at x }
{
    if at < buf.len() {
        buf[at] = x;
    }
}

// Stores bytes from a place on, as far as the buffer has room; answers where they end.
pub fn put_bytes(buf: &mut [u8], at: usize, s: &[u8]) -> usize
    requires { at + length s.now < 0x1_0000_0000_0000_0000 }
    ensures { (result ≡ at + length s.now) × (buf.new ≡ sets buf.old at s.now) }
{
    for (i, x) in s.iter().enumerate() {
        put(buf, at + i, *x);
    }
    at + s.len()
}

// Stores a number in two bytes from a place on, the lower one first.
pub fn put_pair(buf: &mut [u8], at: usize, n: usize)
    requires { (at + 2 ≤ length buf.old) × (n < 65536) }
    ensures { buf.new ≡ sets buf.old at (little_endian 2 n) }
{
    buf[at] = (n % 256) as u8;
    buf[at + 1] = (n / 256) as u8;
}
