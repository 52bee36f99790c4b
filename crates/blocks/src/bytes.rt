// Bytes at places that need not be there.
ghost use Rattle.std.specs.Prelude.{◌≡◌, slice_index};
ghost use Rattle.blocks.specs.Places.{name_at, read16};

// The byte at a place, or 0 past the end: the definition by places is total in this way, so no reader has to ask first.
pub(crate) fn byte(bytes: &[u8], i: usize) -> u8
    ensures { result ≡ slice_index bytes.now i }
{
    bytes.get(i).copied().unwrap_or(0)
}

// The number of 16 bits at a place.
pub(crate) fn number16(bytes: &[u8], at: u16) -> u16
    ensures { result ≡ read16 bytes.now at }
{
    let i = usize::from(at);
    u16::from_le_bytes([byte(bytes, i), byte(bytes, i + 1)])
}

// The name whose length stands at a place, or what there is of it.
pub(crate) fn name_at(block: &[u8], at: u16) -> &[u8]
    ensures { result.now ≡ name_at block.now at }
{
    let Some([len, rest @ ..]) = block.get(usize::from(at)..) else {
        return &[];
    };
    &rest[..usize::from(*len).min(rest.len())]
}
