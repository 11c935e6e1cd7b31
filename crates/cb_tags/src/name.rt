//! Which names a file may have.
ghost use Rattle.std.specs.Prelude.{◌≡◌, ◌&&◌, ◌||◌, nat_le, nat_eq, codes};
ghost use Rattle.std.specs.List.{list_all, ends_with};
ghost use Rattle.cb_tags.specs.Names.{is_file_name};

/// The fewest bytes of a file's name.
const LEAST_NAME: usize = 2;

/// The most bytes of a file's name.
const MOST_NAME: usize = 255;

/// Whether a file may have this name: 2 to 255 printable bytes without a blank that end in `.c` or
/// `.h`.
pub fn is_file_name(name: &[u8]) -> bool
    ensures { result ≡ is_file_name name.now }
{
    name.len() >= LEAST_NAME && name.len() <= MOST_NAME && is_printable(name) && names_c(name)
}

/// Whether all bytes are from `!` to `~`.
fn is_printable(name: &[u8]) -> bool
    ensures { result ≡ list_all (λ b. nat_le 0x21 b && nat_le b 0x7E) name.now }
{
    name.iter().all(|byte| *byte >= b'!' && *byte <= b'~')
}

/// Whether the name says that the file is C.
fn names_c(name: &[u8]) -> bool
    ensures { result
        ≡ (ends_with nat_eq name.now (codes ".c") || ends_with nat_eq name.now (codes ".h")) }
{
    name.ends_with(b".c") || name.ends_with(b".h")
}
