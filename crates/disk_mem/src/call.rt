// One call, as a record keeps it.
use disk_model::Stream;
use dp_base::Bytes;

/// A call on a `MemWorld`. `ok` is `false` if the call failed by its number.
#[derive(Drop)]
pub enum Call {
    Attach {
        ok: bool,
    },
    Len {
        ok: bool,
    },
    /// A read from an offset on, and how many bytes it asked for.
    Read {
        at: u64,
        count: usize,
        ok: bool,
    },
    /// A write at an offset, and its bytes. One that failed wrote none of them.
    Write {
        at: u64,
        bytes: Bytes,
        ok: bool,
    },
    /// A cut to a length, in bytes. One that failed cut nothing.
    Cut {
        len: u64,
        ok: bool,
    },
    Sync {
        ok: bool,
    },
    /// An emit of a piece, and how many of its bytes were taken: 0 if it failed.
    Emit {
        to: Stream,
        piece: Bytes,
        taken: usize,
        ok: bool,
    },
}
