// A file in memory.

/// A file's name, and its bytes.
#[derive(Debug, Drop)]
pub struct NamedFile {
    pub name: String,
    pub bytes: Vec<u8>,
}
