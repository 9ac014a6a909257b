//! The header of an area of the log.

ghost use Rattle.std.specs.Prelude.{◌≡◌, ◌∷◌, ◌++◌, [], ◌<◌, ◌^◌, ℕ, IfSome, IfNone};
ghost use Rattle.log_meaning.specs.Bytes.{header_bytes};
ghost use Rattle.log_meaning.specs.Images.{IsOpened};

/// A header: the number of its generation.
#[derive(Clone, Copy)]
pub struct Header {
    pub generation: u64,
}

/// An open gate and the header after it.
pub fn open_header(head: &Header) -> [u8; 32]
    ensures { result ≡ 1 ∷ header_bytes head.now.generation }
{
    let g = head.generation.to_be_bytes();
    [
        1, 65, 66, 76, 66, 73, 48, 48, 49, g[0], g[1], g[2], g[3], g[4], g[5], g[6], g[7], 0, 0, 0,
        0, 0, 0, 0, 0, 0, 0, 0, 0, 0, 0, 0,
    ]
}

/// The header of a generation after its gate, and the closed gate of its first batch.
pub fn new_header(generation: u64) -> [u8; 32]
    ensures { result ≡ header_bytes generation ++ 0 ∷ [] }
{
    let g = generation.to_be_bytes();
    [
        65, 66, 76, 66, 73, 48, 48, 49, g[0], g[1], g[2], g[3], g[4], g[5], g[6], g[7], 0, 0, 0, 0,
        0, 0, 0, 0, 0, 0, 0, 0, 0, 0, 0, 0,
    ]
}

/// The header that these bytes are, with an open gate. `None` comes exactly where they are none.
pub fn header_of(bytes: &[u8; 32]) -> Option<Header>
    ensures head { IfSome result (λ h. IsOpened bytes.now h.generation) }
    ensures none { IfNone result ((generation : ℕ) → IsOpened bytes.now generation → ⊥) }
{
    let generation = u64::from_be_bytes([
        bytes[9], bytes[10], bytes[11], bytes[12], bytes[13], bytes[14], bytes[15], bytes[16],
    ]);
    let head = Header { generation };
    if generation >= 1 << 63 {
        return None;
    }
    if open_header(&head) != *bytes {
        return None;
    }
    Some(head)
}
