// Numbers in bytes, low byte first.
ghost use Rattle.std.specs.Prelude.{◌≡◌, ◌+◌, ◌<◌, ◌≤◌, length};
ghost use Rattle.std.proofs.Math.Seq.{paste};
ghost use Rattle.hour.specs.Bytes.{two, three, low_bytes};

// The number in the two bytes from `i` on, low byte first.
pub fn two_bytes(bytes: &[u8], i: usize) -> u64
    requires { i + 1 < length bytes.now }
    ensures { result ≡ two bytes.now i }
{
    u64::from(u16::from_le_bytes([bytes[i], bytes[i + 1]]))
}

// The number in the three bytes from `i` on, low byte first.
pub fn three_bytes(bytes: &[u8], i: usize) -> u64
    requires { i + 2 < length bytes.now }
    ensures { result ≡ three bytes.now i }
{
    u64::from(u32::from_le_bytes([bytes[i], bytes[i + 1], bytes[i + 2], 0]))
}

// The lowest `width` bytes of a number from `at` on, low byte first.
pub fn put_low(out: &mut [u8], at: usize, width: usize, number: u64)
    requires few { width ≤ 8 }
    requires fits { at + width ≤ length out.old }
    ensures { out.new ≡ paste out.old at (low_bytes width number) width }
{
    out[at..at + width].copy_from_slice(&number.to_le_bytes()[..width]);
}
