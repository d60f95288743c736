// A row of the vectors, as it is read.
ghost use Rattle.std.specs.Prelude.{◌≡◌, option_map};
ghost use Rattle.rv_vectors.specs.Reading.{after_from, before_at, distance, field_at, hex_number, hex_number_at, row_of, sixteen, sixteen_at};

use hex::FromHex;

/// What is in the registers and in the sixteen bytes before an instruction.
#[derive(Clone, Copy, Debug, PartialEq, Eq)]
pub(crate) struct Before {
    pub x5: u32,
    pub x6: u32,
    pub bytes: [u8; 16],
}

/// What is there after it, and how far pc went.
#[derive(Clone, Copy, Debug, PartialEq, Eq)]
pub(crate) struct After {
    pub x5: u32,
    pub x6: u32,
    pub x7: u32,
    pub distance: u32,
    pub bytes: [u8; 16],
}

/// An instruction and what it does.
#[derive(Clone, Copy, Debug, PartialEq, Eq)]
pub(crate) struct Row {
    pub word: u32,
    pub before: Before,
    pub after: After,
}

/// Returns the row that a line has, or `None` if it has none: a name and nine fields, with one space between two of
/// them.
#[tactic(auto, unfolding(crate::specs::Reading::row_of))]
pub(crate) fn parse(line: &str) -> Option<Row>
    ensures { result ≡ row_of line.now }
{
    let (_name, rest) = field_at(line)?;
    let (word, rest) = hex_number_at(rest)?;
    let (before, rest) = before_at(rest)?;
    let after = after_from(rest)?;
    Some(Row {
        word,
        before,
        after,
    })
}

#[tactic(auto, unfolding(crate::specs::Reading::before_at))]
fn before_at(text: &str) -> Option<(Before, &str)>
    ensures { option_map (λ x. (x.0, x.1.now)) result ≡ before_at text.now }
{
    let (x5, rest) = hex_number_at(text)?;
    let (x6, rest) = hex_number_at(rest)?;
    let (bytes, rest) = sixteen_at(rest)?;
    Some((Before { x5, x6, bytes }, rest))
}

#[tactic(auto, unfolding(crate::specs::Reading::after_from))]
fn after_from(text: &str) -> Option<After>
    ensures { result ≡ after_from text.now }
{
    let (x5, rest) = hex_number_at(text)?;
    let (x6, rest) = hex_number_at(rest)?;
    let (x7, rest) = hex_number_at(rest)?;
    let (far, rest) = field_at(rest)?;
    let distance = distance(far)?;
    let bytes = sixteen(rest)?;
    Some(After {
        x5,
        x6,
        x7,
        distance,
        bytes,
    })
}

#[tactic(auto, unfolding(crate::specs::Reading::hex_number_at))]
fn hex_number_at(text: &str) -> Option<(u32, &str)>
    ensures { option_map (λ x. (x.0, x.1.now)) result ≡ hex_number_at text.now }
{
    let (field, rest) = field_at(text)?;
    let value = hex_number(field)?;
    Some((value, rest))
}

#[tactic(auto, unfolding(crate::specs::Reading::sixteen_at))]
fn sixteen_at(text: &str) -> Option<([u8; 16], &str)>
    ensures { option_map (λ x. (x.0, x.1.now)) result ≡ sixteen_at text.now }
{
    let (field, rest) = field_at(text)?;
    let bytes = sixteen(field)?;
    Some((bytes, rest))
}

// A field up to the first space, and what follows that space.
#[tactic(auto, unfolding(crate::specs::Reading::field_at))]
fn field_at(text: &str) -> Option<(&str, &str)>
    ensures { option_map (λ x. (x.0.now, x.1.now)) result ≡ field_at text.now }
{
    text.split_once(' ')
}

// Eight hexadecimal digits.
#[tactic(auto, unfolding(crate::specs::Reading::hex_number))]
fn hex_number(field: &str) -> Option<u32>
    ensures { result ≡ hex_number field.now }
{
    let bytes = <[u8; 4] as FromHex>::from_hex(field).ok()?;
    Some(u32::from_be_bytes(bytes))
}

// Sixteen bytes, or `-` for zeros.
#[tactic(auto, unfolding(crate::specs::Reading::sixteen))]
fn sixteen(field: &str) -> Option<[u8; 16]>
    ensures { result ≡ sixteen field.now }
{
    if field == "-" {
        return Some([0; 16]);
    }
    <[u8; 16] as FromHex>::from_hex(field).ok()
}

// How far pc went: 1 for sixteen bytes, 0 for four.
#[tactic(auto, unfolding(crate::specs::Reading::distance))]
fn distance(field: &str) -> Option<u32>
    ensures { result ≡ distance field.now }
{
    match field {
        "0" => Some(4),
        "1" => Some(16),
        _ => None,
    }
}
