/// Why bytes are not read as an element or a snapshot.
#[derive(Clone, Copy, Debug)]
pub enum EntryFault {
    /// The field at this place, counted in bytes from 0, is the first that is not whole or breaks its rule.
    Bad { at: u64 },
    NoMemory,
}
