// The words of a line: numbers, kinds and data.
use crate::wrong::{Problem, Wrong};
use device::Kind;
use std::alloc::{AllocError, Global};
use std::iter::successors;
use std::str::FromStr;

/// The most bytes that a line gives as data or as room.
const MOST_BYTES: usize = 65536;

/// The words of a line.
pub(crate) fn words_of(heap: Global, line: &str) -> Result<Vec<&str>, AllocError> {
    line.split_whitespace().collect(heap)
}

/// The number that a word of decimal digits spells.
pub(crate) fn number<N: FromStr<Err: Drop>>(word: &str, wrong: Wrong) -> Result<N, Wrong> {
    if !word.bytes().all(|b| b.is_ascii_digit()) {
        return Err(wrong);
    }
    word.parse().map_err(|_| wrong)
}

/// A number of bytes that a line may ask for.
pub(crate) fn length(word: &str, wrong: Wrong) -> Result<usize, Wrong> {
    let n = number(word, wrong)?;
    if n > MOST_BYTES {
        return Err(wrong);
    }
    Ok(n)
}

/// The number of a kind that is named or given as a number.
pub(crate) fn kind_of(word: &str) -> Result<u8, Wrong> {
    let kind = match word {
        "read" => Kind::Read,
        "write" => Kind::Write,
        "flush" => Kind::Flush,
        _ => return number(word, Wrong::Kind),
    };
    Ok(kind.into())
}

/// Bytes that begin with `first`, each `step` more than the one before, modulo 256, in no more memory than they take.
fn row(heap: Global, first: u8, step: u8, length: usize) -> Result<Vec<u8>, AllocError> {
    let mut bytes = Vec::with_capacity(heap, length)?;
    bytes.extend(successors(Some(first), |b| Some(b.wrapping_add(step))).take(length))?;
    Ok(bytes)
}

/// The data of a request of `count` sectors. A request of more sectors than 65,536 bytes hold is refused for its count,
/// whatever its data, so the data is not made longer than that.
pub(crate) fn request_data(heap: Global, word: &str, count: u32) -> Result<Vec<u8>, Problem> {
    if word == "-" {
        return Ok(Vec::new(heap));
    }
    let (form, rest) = word.split_once(':').ok_or(Wrong::Data)?;
    let step = match form {
        "fill" => 0,
        "from" => 1,
        _ => return Err(Wrong::Data.into()),
    };
    let whole = Kind::Write.due_length(count).min(MOST_BYTES);
    let (first, length) = match rest.split_once(':') {
        Some((first, given)) => (number(first, Wrong::Data)?, length(given, Wrong::Length)?),
        None => (number(rest, Wrong::Data)?, whole),
    };
    Ok(row(heap, first, step, length)?)
}
