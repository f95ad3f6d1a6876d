// Numbers of a fixed width as bytes, the lowest first.
ghost use Rattle.std.specs.Prelude.{◌≡◌, ◌≤◌, ◌++◌, OnErr, OnOk, length, take};
ghost use Rattle.std.specs.Int.{w16, w32, w64, to_le_bytes};

use byteorder::{ByteOrder, LittleEndian};
use mt_base::NoMemory;
use mt_values::Bytes;

/// Adds the two bytes of a number, the lowest first.
///
/// `NoMemory` where the allocation failed; the bytes stay as they were.
pub fn push_u16(bytes: &mut Bytes, number: u16) -> Result<(), NoMemory>
    ensures ok { OnOk result (bytes.new ≡ bytes.old ++ to_le_bytes w16 number) }
    ensures err { OnErr result (bytes.new ≡ bytes.old) }
{
    let mut spelled = [0; 2];
    LittleEndian::write_u16(&mut spelled, number);
    bytes.extend(&spelled)
}

/// Adds the four bytes of a number, the lowest first.
///
/// `NoMemory` where the allocation failed; the bytes stay as they were.
pub fn push_u32(bytes: &mut Bytes, number: u32) -> Result<(), NoMemory>
    ensures ok { OnOk result (bytes.new ≡ bytes.old ++ to_le_bytes w32 number) }
    ensures err { OnErr result (bytes.new ≡ bytes.old) }
{
    let mut spelled = [0; 4];
    LittleEndian::write_u32(&mut spelled, number);
    bytes.extend(&spelled)
}

/// Adds the eight bytes of a number, the lowest first.
///
/// `NoMemory` where the allocation failed; the bytes stay as they were.
pub fn push_u64(bytes: &mut Bytes, number: u64) -> Result<(), NoMemory>
    ensures ok { OnOk result (bytes.new ≡ bytes.old ++ to_le_bytes w64 number) }
    ensures err { OnErr result (bytes.new ≡ bytes.old) }
{
    let mut spelled = [0; 8];
    LittleEndian::write_u64(&mut spelled, number);
    bytes.extend(&spelled)
}

/// The number in the first two bytes.
pub fn first_u16(bytes: &[u8]) -> u16
    requires { 2 ≤ length bytes.now }
    ensures { to_le_bytes w16 result ≡ take 2 bytes.now }
{
    u16::from_le_bytes(front(bytes))
}

/// The number in the first four bytes.
pub fn first_u32(bytes: &[u8]) -> u32
    requires { 4 ≤ length bytes.now }
    ensures { to_le_bytes w32 result ≡ take 4 bytes.now }
{
    u32::from_le_bytes(front(bytes))
}

/// The number in the first eight bytes.
pub fn first_u64(bytes: &[u8]) -> u64
    requires { 8 ≤ length bytes.now }
    ensures { to_le_bytes w64 result ≡ take 8 bytes.now }
{
    u64::from_le_bytes(front(bytes))
}

/// The first bytes, as an array.
pub fn front<const N: usize>(bytes: &[u8]) -> [u8; N]
    requires { N ≤ length bytes.now }
    ensures { result ≡ take N bytes.now }
{
    let mut front = [0; N];
    front.copy_from_slice(&bytes[..N]);
    front
}
