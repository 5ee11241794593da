// Signed numbers of 8 bytes, little-endian, at an offset of a slice.
#![tactic(auto)]

ghost use Rattle.std.specs.Prelude.{◌≡◌, ◌+◌, ◌≤◌, length};
ghost use Rattle.std.proofs.lemmas.List.Edits.{sets};
ghost use Rattle.word.specs.Word.{size64, le64_at, bytes64};

// (At an offset, as write_i64 below.)
pub fn read_i64(s: &[u8], at: usize) -> i64
    requires { at + size64 ≤ length s.now }
    ensures { result ≡ le64_at s.now at }
{
    let mut bytes = [0u8; 8];
    bytes.copy_from_slice(&s[at..at + 8]);
    i64::from_le_bytes(bytes)
}

// Changes the 8 bytes at the offset and no other.
// (At a place of the whole, and not on a part: the contract says that no other byte changes.)
pub fn write_i64(s: &mut [u8], at: usize, v: i64)
    requires { at + size64 ≤ length s.old }
    ensures { s.new ≡ sets s.old at (bytes64 v) }
{
    s[at..at + 8].copy_from_slice(&v.to_le_bytes());
}
