//! The spelling of a word in text.
ghost use Rattle.std.specs.Prelude.{◌≡◌, ◌≤◌, ◌<◌, ◌+◌, ◌*◌, ◌↔◌, IsTrue, length, take, slice_index, neg_ℤ, pos};
ghost use Rattle.std.specs.Str.Parse.{AllDigits, IsNumeral, digits_value};
ghost use Rattle.vp_words.specs.Text.{ReadsDigits, ReadsWord, greatest_size, spelled, word_text};

use crate::{Word, neg};
use itoa::Buffer;

/// Why a text is no word.
#[derive(Clone, Copy, PartialEq, Eq, Debug)]
pub enum WordErr {
    /// The text has no spelling of a word.
    Spelling,
    /// The text writes a number that is beyond 2^63 - 2 in size.
    Range,
}

/// The word that a text spells: `inf`, `-inf`, or an optional `-` and one decimal digit or more.
/// Leading zeros are allowed, and `-0` is 0.
pub fn read_word(text: &[u8]) -> Result<Word, WordErr>
    ensures exact { result ≡ spelled text.now }
    ensures meaning { ReadsWord text.now result }
{
    if text == b"inf".as_slice() {
        return Ok(Word::INF);
    }
    if text == b"-inf".as_slice() {
        return Ok(Word::MINUS_INF);
    }
    match text {
        [b'-', digits @ ..] => Ok(neg(Word::finite(read_digits(digits)?))),
        digits => Ok(Word::finite(read_digits(digits)?)),
    }
}

// The number that the digits write.
#[tactic(auto, using(crate::proofs::Digits::digit_facts))]
fn read_digits(digits: &[u8]) -> Result<u64, WordErr>
    ensures { ReadsDigits digits.now result }
{
    if digits.is_empty() || !are_digits(digits) {
        return Err(WordErr::Spelling);
    }
    let mut number = 0;
    for digit in digits {
        let longer = number as u128 * 10 + (*digit - b'0') as u128;
        if longer > GREATEST_SIZE as u128 {
            return Err(WordErr::Range);
        }
        number = longer as u64;
    }
    Ok(number)
}

const GREATEST_SIZE: u64 = i64::MAX as u64 - 1;

fn are_digits(text: &[u8]) -> bool
    ensures { IsTrue result ↔ AllDigits 10 text.now }
{
    for byte in text {
        if !byte.is_ascii_digit() {
            return false;
        }
    }
    true
}

/// Writes the shortest text that spells the word, and says how many bytes it has.
pub fn write_word(word: Word, out: &mut [u8; 20]) -> usize
    ensures len { result ≡ length (word_text word) }
    ensures room { length (word_text word) ≤ 20 }
    ensures text { take result out.new ≡ word_text word }
{
    if word == Word::INF {
        return write_text(b"inf", out);
    }
    if word == Word::MINUS_INF {
        return write_text(b"-inf", out);
    }
    write_text(Buffer::new().format(word.value()).as_bytes(), out)
}

fn write_text(text: &[u8], out: &mut [u8; 20]) -> usize
    requires { length text.now ≤ 20 }
    ensures len { result ≡ length text.now }
    ensures text { take result out.new ≡ text.now }
{
    out[..text.len()].copy_from_slice(text);
    text.len()
}

/// Writes a word and reads it back, which gives that word.
pub fn reread(word: Word) -> Result<Word, WordErr>
    ensures { result ≡ Ok word }
{
    let mut out = [0; 20];
    let len = write_word(word, &mut out);
    read_word(&out[..len])
}
