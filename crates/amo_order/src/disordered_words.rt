// The words whose AMOs are to be put in order.
use crate::amo::Amo;
use dp_base::OutOfMemory;
use std::alloc::Global;

// The number of slots in which words are looked at, one for each remainder of a word's number. Two words of one slot
// may hide each other.
const SLOTS: usize = 1024;

// How many words are put in order in a pass at most. Each costs several walks over all AMOs.
const MOST_WORDS: usize = 16;

// Returns the first words of which an AMO didn't find what the one before it, by ticket, stored.
pub(crate) fn disordered_words(alloc: Global, amos: &[Amo]) -> Result<Vec<u32>, OutOfMemory> {
    let mut by_ticket = amos.to_vec(alloc)?;
    by_ticket.sort_by_key(|amo| amo.ticket)?;
    let mut words = Vec::new(alloc);
    let mut slots = Vec::new(alloc);
    slots.resize(SLOTS, None)?;
    for amo in &by_ticket {
        let index = amo.address as usize / 4 % SLOTS;
        if let Some(slot) = slots.get_mut(index) {
            let before: Option<Amo> = *slot;
            *slot = Some(*amo);
            if let Some(before) = before {
                if before.address == amo.address
                    && before.stored != amo.found
                    && words.len() < MOST_WORDS
                    && !words.contains(&amo.address)
                {
                    words.push(amo.address)?;
                }
            }
        }
    }
    Ok(words)
}
