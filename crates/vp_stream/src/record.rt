//! Lines as records.
ghost use Rattle.std.specs.Prelude.{◌≡◌, ◌+◌, ◌*◌, ◌≤◌, ◌<◌, ◌^◌, Err, IfErr, Ok, OnErr, OnOk, MatchResult, length, take};
ghost use Rattle.vp_words.specs.Exchanges.{IsRecordOf};
ghost use Rattle.vp_words.specs.Record.{IsRecord, IsValid};
ghost use Rattle.vp_words.specs.Text.{spelled};
ghost use Rattle.vp_stream.specs.Lines.{fields_of};
ghost use Rattle.vp_stream.specs.Reading.{first_empty, reading, tag_of, word_of, words_of};

use crate::line::next_field;
use thiserror::Error;
use vp_words::{Counts, Kind, Record, Word, encloses, fields, pair_count, read_word};

/// Why a line is not the due record. The rules are in `docs/stream.md`.
#[derive(Clone, Copy, Debug, PartialEq, Eq, Error)]
pub enum LineErr {
    /// There is no field, or the first is not the due tag.
    #[error("the tag is not the due one")]
    Tag,
    /// The number of fields behind the tag is not the due one.
    #[error("the number of fields is not the due one")]
    Count,
    /// The first field that spells no word. Fields are counted from 1 behind the tag.
    #[error("field {field} spells no word")]
    Word { field: u32 },
    /// The first field that is not valid: the low end of a pair that encloses no number, or a
    /// control that is infinite. Fields are counted from 1 behind the tag.
    #[error("field {field} is not valid")]
    Empty { field: u32 },
}

fn tag(kind: Kind) -> &'static str
    ensures { result.now ≡ tag_of kind }
{
    match kind {
        Kind::Init => "i",
        Kind::Choice => "c",
        Kind::Sense => "s",
    }
}

/// How many fields a line has.
fn count_fields(line: &[u8]) -> usize
    ensures { result ≡ length (fields_of line.now) }
{
    let mut count = 0;
    let mut rest = line;
    'fields: while let Some((_, more)) = next_field(rest) {
        count += 1;
        rest = more;
    }
    count
}

/// The word of a field that has this number.
fn field_word(field: &[u8], number: u32) -> Result<Word, LineErr>
    ensures { result ≡ word_of number (spelled field.now) }
{
    match read_word(field) {
        Ok(word) => Ok(word),
        Err(_) => Err(LineErr::Word { field: number }),
    }
}

/// Reads the words of as many fields as there are places.
fn read_words(line: &[u8], words: &mut [Word]) -> Result<(), LineErr>
    requires count { length (fields_of line.now) ≡ length words.old }
    requires short { length words.old ≤ 64 }
    ensures { MatchResult result (λ _. words_of 1 (fields_of line.now) ≡ Ok words.new) (λ e. words_of 1 (fields_of line.now) ≡ Err e) }
{
    let mut read = 0;
    let mut rest = line;
    'fields: while let Some((field, more)) = next_field(rest) {
        words[read] = field_word(field, read as u32 + 1)?;
        read += 1;
        rest = more;
    }
    Ok(())
}

/// The first word that is infinite, where the first has this number.
fn first_infinite(words: &[Word], first: u32) -> Option<u32>
    requires { first + length words.now < 2 ^ 32 }
    ensures { result ≡ first_empty 0 first words.now }
{
    let mut number = first;
    for word in words {
        if !word.is_finite() {
            return Some(number);
        }
        number += 1;
    }
    None
}

/// The first field of words that is not valid, where so many pairs of ends come first.
fn first_empty(words: &[Word], pairs: usize) -> Option<u32>
    requires pairs { 2 * pairs ≤ length words.now }
    requires short { length words.now ≤ 64 }
    ensures { result ≡ first_empty pairs 1 words.now }
{
    let mut number = 1;
    let mut rest = words;
    for _pair in 0..pairs {
        let (ends, more) = rest.split_at(2);
        if !encloses(ends[0], ends[1]) {
            return Some(number);
        }
        number += 2;
        rest = more;
    }
    first_infinite(rest, number)
}

/// Reads a line, without its LF and its CR, as the due record of a model with these counts: its words
/// are put into `out`, with zeros behind them. The tag is tested first, then the number of fields, then
/// that each spells a word, then that each is valid. After an error `out` is as it was. It takes no
/// memory. The rules are in `docs/stream.md`.
pub fn read_record(line: &[u8], due: Kind, counts: Counts, out: &mut Record) -> Result<(), LineErr>
    requires { IsValid counts }
    ensures ok { OnOk result (reading due counts line.now ≡ Ok (take out.new.len out.new.words)) }
    ensures kind { OnOk result (out.new.kind ≡ due) }
    ensures valid { OnOk result (IsRecord counts out.new) }
    ensures words { OnOk result (IsRecordOf counts due (take out.new.len out.new.words)) }
    ensures room { OnOk result (out.new.len ≤ 64) }
    ensures err { IfErr result (λ e. reading due counts line.now ≡ Err e) }
    ensures kept { OnErr result (out.new ≡ out.old) }
{
    let Some((first, rest)) = next_field(line) else {
        return Err(LineErr::Tag);
    };
    if first != tag(due).as_bytes() {
        return Err(LineErr::Tag);
    }
    let len = fields(due, counts);
    if count_fields(rest) != usize::from(len) {
        return Err(LineErr::Count);
    }
    let mut words = [Word::ZERO; 64];
    let read = &mut words[..usize::from(len)];
    read_words(rest, read)?;
    if let Some(field) = first_empty(read, usize::from(pair_count(due, counts))) {
        return Err(LineErr::Empty { field });
    }
    *out = Record {
        kind: due,
        words,
        len,
    };
    Ok(())
}
