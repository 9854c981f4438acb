//! The numbers of names.
ghost use Rattle.std.specs.Prelude.{◌≡◌, ◌≤◌, length, map, string_bytes, IfOk};
ghost use Rattle.vp_read.specs.Numbers.{Numbers, number};

use indexmap::IndexMap;
use std::alloc::{AllocError, Global};

/// The number of each name in a list, from 0: the first place where it stands. The list is gone
/// through from its end, so that the first place is the one that stays.
pub(crate) fn numbers<'a>(
    alloc: Global,
    names: &'a [String],
) -> Result<IndexMap<&'a [u8], u32>, AllocError>
    requires { length names.now ≤ 1048576 }
    ensures { IfOk result (Numbers (map string_bytes names.now)) }
{
    let mut found = IndexMap::new(alloc);
    for i in (0..names.len()).rev() {
        found.insert(names[i].as_bytes(), i as u32)?;
    }
    Ok(found)
}

/// The number of a name.
pub(crate) fn number_of(numbers: &IndexMap<&[u8], u32>, name: &[u8]) -> Option<u32>
    ensures { result ≡ number numbers.now name.now }
{
    match numbers.get(name) {
        Some(number) => Some(*number),
        None => None,
    }
}
