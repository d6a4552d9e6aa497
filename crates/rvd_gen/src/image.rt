ghost use Rattle.std.specs.Prelude.{◌≡◌, ◌<◌, ◌≤◌, IfOk};
ghost use Rattle.rvd_gen.specs.Image.{image};

use crate::code::push_code;
use crate::header::push_headers;
use crate::layout::{MAX_FUNCTIONS, code_size, strings_size};
use crate::strings::push_strings;
use std::alloc::{AllocError, Global};

/// The image of n functions, as the bytes of an ELF file. Only want of memory refuses it.
pub fn make(alloc: Global, n: u32) -> Result<Vec<u8>, AllocError>
    requires some { 0 < n }
    requires few { n ≤ MAX_FUNCTIONS }
    ensures { IfOk result (λ bytes. bytes.items ≡ image n) }
{
    let size = 116 + code_size(n) + strings_size(n);
    let mut image = Vec::with_capacity(alloc, size as usize)?;
    push_headers(&mut image, n)?;
    push_code(&mut image, n)?;
    push_strings(&mut image, n)?;
    Ok(image)
}
