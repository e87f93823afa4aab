// Numbers in bytes that are there.

ghost use Rattle.std.specs.Prelude.{◌≡◌, ◌+◌, ◌*◌, ◌^◌, ◌<◌, ◌≤◌, length};
ghost use Rattle.raw_seg.specs.Bytes.{number_of, bytes_of, bytes_at, with_bytes, IsWidth};

/// The number in `width` bytes from a place on, the lowest first.
#[inline(always)]
pub fn number_in(bytes: &[u8], at: usize, width: usize) -> u128
    requires width { IsWidth width }
    requires inside { at + width ≤ length bytes.now }
    ensures value { result ≡ number_of (bytes_at bytes.now at width) }
    ensures bytes { bytes_of width result ≡ bytes_at bytes.now at width }
    ensures fits { result < 256 ^ width }
{
    match width {
        1 => u128::from(bytes[at]),
        2 => u128::from(number_of_2(&bytes[at..at + 2])),
        4 => u128::from(number_of_4(&bytes[at..at + 4])),
        8 => u128::from(number_of_8(&bytes[at..at + 8])),
        _ => number_16(bytes, at),
    }
}

// The number in two bytes. They are taken at once: a sum of them isn't always compiled to one load.
#[inline(always)]
fn number_of_2(bytes: &[u8]) -> u16
    requires { length bytes.now ≡ 2 }
    ensures value { result ≡ number_of bytes.now }
    ensures bytes { bytes_of 2 result ≡ bytes.now }
    ensures small { result < 65536 }
{
    let mut taken = [0u8; 2];
    taken.copy_from_slice(bytes);
    u16::from_le_bytes(taken)
}

// The number in four bytes.
#[inline(always)]
fn number_of_4(bytes: &[u8]) -> u32
    requires { length bytes.now ≡ 4 }
    ensures value { result ≡ number_of bytes.now }
    ensures bytes { bytes_of 4 result ≡ bytes.now }
    ensures small { result < 4294967296 }
{
    let mut taken = [0u8; 4];
    taken.copy_from_slice(bytes);
    u32::from_le_bytes(taken)
}

/// The number in eight bytes.
#[inline(always)]
pub fn number_of_8(bytes: &[u8]) -> u64
    requires { length bytes.now ≡ 8 }
    ensures value { result ≡ number_of bytes.now }
    ensures bytes { bytes_of 8 result ≡ bytes.now }
    ensures small { result < 18446744073709551616 }
{
    let mut taken = [0u8; 8];
    taken.copy_from_slice(bytes);
    u64::from_le_bytes(taken)
}

#[inline(always)]
fn number_8(bytes: &[u8], at: usize) -> u64
    requires { at + 8 ≤ length bytes.now }
    ensures value { result ≡ number_of (bytes_at bytes.now at 8) }
    ensures bytes { bytes_of 8 result ≡ bytes_at bytes.now at 8 }
    ensures small { result < 18446744073709551616 }
{
    number_of_8(&bytes[at..at + 8])
}

#[inline(always)]
fn number_16(bytes: &[u8], at: usize) -> u128
    requires { at + 16 ≤ length bytes.now }
    ensures value { result ≡ number_of (bytes_at bytes.now at 16) }
    ensures bytes { bytes_of 16 result ≡ bytes_at bytes.now at 16 }
{
    u128::from(number_8(bytes, at)) + u128::from(number_8(bytes, at + 8)) * 18446744073709551616
}

/// Writes the lowest `width` bytes of a number over those from a place on.
#[inline(always)]
pub fn put_number(bytes: &mut [u8], at: usize, width: usize, value: u128)
    requires width { IsWidth width }
    requires inside { at + width ≤ length bytes.old }
    ensures bytes { bytes.new ≡ with_bytes bytes.old at (bytes_of width value) }
    ensures len { length bytes.new ≡ length bytes.old }
{
    match width {
        1 => put(bytes, at, &[(value % 256) as u8]),
        2 => put(bytes, at, &((value % 65536) as u16).to_le_bytes()),
        4 => put(bytes, at, &((value % 4294967296) as u32).to_le_bytes()),
        8 => put(
            bytes,
            at,
            &((value % 18446744073709551616) as u64).to_le_bytes(),
        ),
        _ => put(bytes, at, &value.to_le_bytes()),
    }
}

/// Writes these bytes over those from a place on.
#[inline(always)]
pub fn put(bytes: &mut [u8], at: usize, new: &[u8])
    requires { at + length new.now ≤ length bytes.old }
    ensures bytes { bytes.new ≡ with_bytes bytes.old at new.now }
    ensures len { length bytes.new ≡ length bytes.old }
{
    bytes[at..at + new.len()].copy_from_slice(new);
}
