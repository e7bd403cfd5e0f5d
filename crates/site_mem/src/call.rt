//! The calls on a site, as a site in memory notes them.

/// One call on a site. Lengths are numbers of bytes.
#[derive(Clone, Copy, Debug, PartialEq, Eq)]
pub enum Call {
    /// The length of a file was asked for.
    Length { file: u32 },
    /// Up to `len` bytes of a file were asked for, from the place `at`.
    Read { file: u32, at: u64, len: u64 },
    /// Bytes were to be put at the place `at` of a file.
    Write { file: u32, at: u64, len: u64 },
    /// All that was written was to become stable.
    Sync,
    /// Bytes were to be appended to the output.
    Emit { len: u64 },
}
