// What a file holds that is made or replaced.

#[derive(Clone, Copy, Debug, PartialEq, Eq)]
pub enum Content {
    // So many bytes, all 0.
    Zeros(u64),
    // These sixteen.
    Bytes([u8; 16]),
}
