// A page of a partial mark.
ghost use Rattle.std.specs.Prelude.{◌≡◌, IfSome, length, option_map};
ghost use Rattle.partial_mark.specs.Partial.{content_from, partial_page_from, written_from};
ghost use Rattle.dp_base.specs.declared.limits.TheConstants.{PAGE_BYTES};
ghost use Rattle.partial_mark.specs.View.{IsPageRead, partial_page_of};

use dp_base::limits::{PAGE_BYTES, PAGE_NUMBERS};
use dp_base::little_endian::{read_u8, read_u32};

// The kinds of a page's content.
const SAME: u8 = 0;

const WRITTEN: u8 = 1;

/// A page of a partial mark, whose bytes are lent.
#[derive(Clone, Copy)]
pub struct PartialPageView<'a> {
    pub number: u32,
    pub flags: u8,
    /// Its 4,096 bytes, or `None` if they are those of the page with its number in the base.
    pub content: Option<&'a [u8]>,
}

/// Returns the page at the start of bytes, and the bytes after it. Returns `None` exactly if the bytes don't start with
/// a page.
#[tactic(auto, unfolding(crate::specs::Partial::partial_page_from))]
pub fn read_partial_page(bytes: &[u8]) -> Option<(PartialPageView<'_>, &[u8])>
    ensures page { option_map (λ x. (partial_page_of x.0, x.1.now)) result ≡ partial_page_from bytes.now }
    ensures kept { IfSome result (λ x. IsPageRead (partial_page_of x.0)) }
{
    let (number, rest) = read_u32(bytes)?;
    let (flags, rest) = read_u8(rest)?;
    let (content, rest) = read_content(rest)?;
    if number < PAGE_NUMBERS && flags < 8 {
        let page = PartialPageView {
            number,
            flags,
            content,
        };
        Some((page, rest))
    } else {
        None
    }
}

// A page's bytes after their kind, and the bytes after them.
#[tactic(auto, unfolding(crate::specs::Partial::content_from))]
fn read_content(bytes: &[u8]) -> Option<(Option<&[u8]>, &[u8])>
    ensures content { option_map (λ x. (option_map (λ b. b.now) x.0, x.1.now)) result ≡ content_from bytes.now }
    ensures size { IfSome result (λ x. IfSome x.0 (λ b. length b.now ≡ PAGE_BYTES)) }
{
    let (kind, rest) = read_u8(bytes)?;
    match kind {
        SAME => Some((None, rest)),
        WRITTEN => read_written(rest),
        _ => None,
    }
}

#[tactic(auto, unfolding(crate::specs::Partial::written_from))]
fn read_written(bytes: &[u8]) -> Option<(Option<&[u8]>, &[u8])>
    ensures content { option_map (λ x. (option_map (λ b. b.now) x.0, x.1.now)) result ≡ written_from bytes.now }
    ensures size { IfSome result (λ x. IfSome x.0 (λ b. length b.now ≡ PAGE_BYTES)) }
{
    if bytes.len() < PAGE_BYTES as usize {
        return None;
    }
    let (content, rest) = bytes.split_at(PAGE_BYTES as usize);
    Some((Some(content), rest))
}
