/// One page of a guest's memory: its number (its address divided by 4,096), who may use it (execute 1, write 2, read
/// 4), and its bytes.
#[derive(Drop)]
pub struct Page {
    pub number: u32,
    pub flags: u8,
    pub bytes: [u8; 4096],
}

/// One page, with its bytes lent.
#[derive(Clone, Copy, Debug)]
pub struct PageView<'a> {
    /// Its address divided by 4,096.
    pub number: u32,
    /// Execute 1, write 2, read 4.
    pub flags: u8,
    /// Its 4,096 bytes.
    pub bytes: &'a [u8],
}
