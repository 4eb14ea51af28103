// Numbers of several bytes, the high byte first, at any offset, past the end of which the bytes are 0; and bytes copied.
ghost use Rattle.std.specs.Prelude.{◌≡◌, ◌+◌, ◌*◌, ◌≤◌, length, take};
ghost use Rattle.semantics.specs.Run.{over};
ghost use Rattle.semantics.specs.RunFile.{byte_at, pair_at};

// No Option: the definitions of these are total, and 0 past the end.
pub fn byte_at(bytes: &[u8], at: usize) -> u8
    ensures { result ≡ byte_at bytes.now at }
{
    if at < bytes.len() { bytes[at] } else { 0 }
}

pub fn pair_at(bytes: &[u8], at: usize) -> u16
    ensures { result ≡ pair_at bytes.now at }
{
    if at < bytes.len() {
        u16::from_be_bytes([byte_at(bytes, at), byte_at(bytes, at + 1)])
    } else {
        0
    }
}

pub fn four_at(bytes: &[u8], at: usize) -> u32
    ensures { result ≡ pair_at bytes.now at * 65536 + pair_at bytes.now (at + 2) }
{
    if at < bytes.len() {
        u32::from_be_bytes([
            byte_at(bytes, at),
            byte_at(bytes, at + 1),
            byte_at(bytes, at + 2),
            byte_at(bytes, at + 3),
        ])
    } else {
        0
    }
}

// The first n bytes of a slice over the front of another, by eight at either end, which are a load and a store each.
#[inline(always)]
fn copy_few(to: &mut [u8], from: &[u8], n: usize)
    requires few { 8 ≤ n × (n ≤ 16) }
    requires room { (n ≤ length to.old) × (n ≤ length from.now) }
    ensures { to.new ≡ over (take n from.now) to.old }
{
    to[..8].copy_from_slice(&from[..8]);
    to[n - 8..n].copy_from_slice(&from[n - 8..n]);
}

// The bytes of a slice over the front of another, as many as both have. (A loop: copy_from_slice of a length that is not
// known beforehand is a call of memmove, a name that the libraries for C would then ask their caller for. By the loop alone
// the smallest conversion would take more instructions than the second model's.)
#[inline(always)]
pub fn copy(to: &mut [u8], from: &[u8])
    ensures every { to.new ≡ over (take (length to.old) from.now) to.old }
    ensures same { length from.now ≡ length to.old → to.new ≡ from.now }
{
    let n = to.len().min(from.len());
    if n >= 8 && n <= 16 {
        copy_few(to, from, n);
        return;
    }
    for i in 0..n {
        to[i] = from[i];
    }
}
