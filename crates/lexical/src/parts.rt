// Parts of bytes, as far as the bytes go.
ghost use Rattle.std.specs.Prelude.{◌≡◌, ◌+◌, take, drop};

// As many of `len` bytes from a place on as there are.
pub fn part(bytes: &[u8], from: usize, len: usize) -> &[u8]
    ensures { result.now ≡ take len (drop from bytes.now) }
{
    let rest = &bytes[from.min(bytes.len())..];
    &rest[..len.min(rest.len())]
}

// The bytes after the one at a place.
pub fn after(bytes: &[u8], place: usize) -> &[u8]
    ensures { result.now ≡ drop (place + 1) bytes.now }
{
    match bytes.get(place..) {
        Some([_, rest @ ..]) => rest,
        _ => &[],
    }
}
