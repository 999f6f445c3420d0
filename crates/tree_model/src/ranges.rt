//! Ranges of bytes, as `read` and `hread` name them.
ghost use Rattle.std.specs.Prelude.{◌≡◌};
ghost use Rattle.tree_model.specs.Answers.{range_of};
ghost use Rattle.tree_model.specs.Cases.{is_wide};

/// Whether a range has an end above 2^40, or more than 32,768 bytes.
pub fn is_wide(at: u64, len: u64) -> bool
    ensures { result ≡ is_wide at len }
{
    len > 32_768 || at > (1 << 40) - len
}

/// The bytes of a range that lie below the size.
pub fn range(bytes: &[u8], at: u64, len: u64) -> &[u8]
    ensures { result.now ≡ range_of at len bytes.now }
{
    let size = bytes.len() as u64;
    let start = at.min(size);
    let end = start + len.min(size - start);
    &bytes[start as usize..end as usize]
}
