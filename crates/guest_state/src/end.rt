use dp_base::Tid;

/// How a guest ended, if it has.
#[derive(Clone, Copy, Debug, PartialEq, Eq)]
pub enum End {
    None,
    /// By an exit, with its code.
    Exit(u32),
    /// By a trap of one of its threads.
    Trap { tid: Tid, cause: u8, value: u32 },
    /// No thread runs, and some wait.
    Deadlock,
}
