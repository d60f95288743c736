// Entries of a level, which may be empty. There are entries only up to the last that isn't.
ghost use Rattle.std.specs.Prelude.{◌≡◌, OnErr, OnOk, length, take};
ghost use Rattle.cow_pages.specs.Tree.{padded};

use dp_base::OutOfMemory;

// Appends empty entries up to a number of them. An `Err` changes nothing.
pub(crate) fn grow<T: Drop>(entries: &mut Vec<Option<T>>, count: usize) -> Result<(), OutOfMemory>
    ensures ok { OnOk result (entries.new.items ≡ padded count entries.old.items) }
    ensures err { OnErr result (entries.new.items ≡ entries.old.items) }
{
    let len = entries.len();
    match append_empty(entries, count) {
        Ok(()) => Ok(()),
        Err(error) => {
            entries.truncate(len);
            Err(error)
        }
    }
}

// The same, of which an `Err` leaves a part.
fn append_empty<T: Drop>(entries: &mut Vec<Option<T>>, count: usize) -> Result<(), OutOfMemory>
    ensures ok { OnOk result (entries.new.items ≡ padded count entries.old.items) }
    ensures kept { take (length entries.old.items) entries.new.items ≡ entries.old.items }
{
    'entries: while entries.len() < count {
        entries.push(None)?;
    }
    Ok(())
}
