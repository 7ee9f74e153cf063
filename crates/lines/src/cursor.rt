//! Where a walk over the fields of a line stands.

// The fields of a line that are to come, parted at each octet `part`: those of the rest of the line, if there is one.
#[derive(Drop)]
pub struct Fields<'a> {
    pub(crate) rest: Option<&'a [u8]>,
    pub(crate) part: u8,
}
