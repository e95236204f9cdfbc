//! Bytes that are lent to C.
ghost use Rattle.std.specs.Prelude.{◌≡◌, length};
ghost use Rattle.std_alloc.specs.Vec.{vec_ptr};

/// Bytes of a place, lent until the next call that is given the place.
#[repr(C)]
#[derive(Drop)]
pub struct Lent {
    /// Where they are.
    pub at: *const u8,
    /// Their number.
    pub length: usize,
}

/// Lends these bytes.
pub fn lend(bytes: &Vec<u8>, lent: &mut Lent)
    ensures at { lent.new.at ≡ vec_ptr bytes.now }
    ensures length { lent.new.length ≡ length bytes.now.items }
{
    lent.at = bytes.as_ptr();
    lent.length = bytes.len();
}
