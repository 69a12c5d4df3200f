// Numbers of two and four bytes, high byte first.
// Kept (d): a reader for each size. One for both would answer `[u8; N]`, by `s[i..i + N].try_into()` with an `unwrap` or by a loop, before `from_be_bytes`: each of
// these is one line.
ghost use Rattle.std.specs.Prelude.{◌+◌, ◌≤◌, ◌≡◌, length};
ghost use Rattle.std.proofs.lemmas.List.Edits.{sets};
ghost use Rattle.sheet.specs.Form.{word2, word4};

/// The number in the two bytes from i on.
pub fn word2(s: &[u8], i: usize) -> u16
    requires { i + 2 ≤ length s.now }
    ensures { result ≡ word2 s.now i }
{
    u16::from_be_bytes([s[i], s[i + 1]])
}

/// The number in the four bytes from i on.
pub fn word4(s: &[u8], i: usize) -> u32
    requires { i + 4 ≤ length s.now }
    ensures { result ≡ word4 s.now i }
{
    u32::from_be_bytes([s[i], s[i + 1], s[i + 2], s[i + 3]])
}

/// Bytes from i on.
pub fn put(s: &mut [u8], i: usize, bytes: &[u8])
    requires { i + length bytes.now ≤ length s.old }
    ensures { s.new ≡ sets s.old i bytes.now }
{
    s[i..i + bytes.len()].copy_from_slice(bytes);
}
