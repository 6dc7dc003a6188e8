// A lookup that a line asks for.
use crate::opened::Opened;

// What is asked, with the line's key and numbers.
#[derive(Clone, Copy)]
pub struct Lookup<'a> {
    pub opened: &'a Opened,
    pub key: &'a [u8],
    pub given: &'a [u64],
}
