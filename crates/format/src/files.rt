ghost use Rattle.format.specs.Bytes.{Bytes};
ghost use Rattle.std.specs.Prelude.{◌≡◌, length};

// The most bytes of a file.
pub const LONGEST: usize = 32767;

// How many bytes a file has; each is a number below 256.
pub fn byte_count(file: &[u8]) -> usize
    ensures count { result ≡ length file.now }
    ensures bytes { Bytes file.now }
{
    file.len()
}
