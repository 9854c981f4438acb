//! Replies as lines.
ghost use Rattle.std.specs.Prelude.{◌≡◌, ◌+◌, ◌*◌, ◌≤◌, ◌++◌, codes, length, take, decimal};
ghost use Rattle.std.specs.List.{flat_map};
ghost use Rattle.vp_words.specs.Record.{ActFits};
ghost use Rattle.vp_stream.specs.Run.{bad_line, end_line};
ghost use Rattle.vp_stream.specs.Printing.{reply_line, source_text, spaced_word, truth_text, violation_line};

use itoa::Buffer;
use vp_words::{Reply, Why, Word, write_word};

/// Writes a piece behind the first bytes, and says where it ends.
fn append(out: &mut [u8; 1024], at: usize, piece: &[u8]) -> usize
    requires { at + length piece.now ≤ 1024 }
    ensures end { result ≡ at + length piece.now }
    ensures text { take result out.new ≡ take at out.old ++ piece.now }
{
    let end = at + piece.len();
    out[at..end].copy_from_slice(piece);
    end
}

/// Writes one space and the spelling of a word.
fn append_word(out: &mut [u8; 1024], at: usize, word: Word) -> usize
    requires { at + 21 ≤ 1024 }
    ensures end { result ≡ at + length (spaced_word word) }
    ensures short { result ≤ at + 21 }
    ensures text { take result out.new ≡ take at out.old ++ spaced_word word }
{
    let mut spelling = [0; 20];
    let len = write_word(word, &mut spelling);
    let at = append(out, at, b" ");
    append(out, at, &spelling[..len])
}

/// Writes each word behind one space.
fn append_words(out: &mut [u8; 1024], start: usize, words: &[Word]) -> usize
    requires { start + 21 * length words.now ≤ 1000 }
    ensures end { result ≡ start + length (flat_map spaced_word words.now) }
    ensures short { result ≤ start + 21 * length words.now }
    ensures text { take result out.new ≡ take start out.old ++ flat_map spaced_word words.now }
{
    let mut at = start;
    for word in words {
        at = append_word(out, at, *word);
    }
    at
}

/// Writes a monitor's name, the number of a conjunct and its truth.
fn write_conjunct(out: &mut [u8; 1024], monitor: &[u8], k: u32, unknown: bool) -> usize
    requires { length monitor.now ≤ 100 }
    ensures end { result ≡ length (monitor.now ++ decimal k ++ truth_text unknown) }
    ensures short { result ≤ 349 }
    ensures text { take result out.new ≡ monitor.now ++ decimal k ++ truth_text unknown }
{
    let truth = if unknown {
        b" unknown\n".as_slice()
    } else {
        b" false\n".as_slice()
    };
    let at = append(out, 0, monitor);
    let at = append(out, at, Buffer::new().format(k).as_bytes());
    append(out, at, truth)
}

/// Writes the line of a violation.
fn write_violation(out: &mut [u8; 1024], why: &Why) -> usize
    ensures end { result ≡ length (violation_line why.now) }
    ensures short { result ≤ 349 }
    ensures text { take result out.new ≡ violation_line why.now }
{
    match why {
        Why::Init { k, unknown } => write_conjunct(out, b"violation init ", *k, *unknown),
        Why::Plant { k, unknown } => write_conjunct(out, b"violation plant ", *k, *unknown),
        Why::Fallback => append(out, 0, b"violation fallback\n"),
    }
}

/// Writes the line of a reply with its LF at the front of `out`, and says how many bytes it has: at most
/// 349. It takes no memory. The lines are listed in `docs/stream.md`.
pub fn write_reply(reply: &Reply, out: &mut [u8; 1024]) -> usize
    requires { ActFits reply.now }
    ensures end { result ≡ length (reply_line reply.now) }
    ensures room { result ≤ 349 }
    ensures text { take result out.new ≡ reply_line reply.now }
{
    match reply {
        Reply::Ok => append(out, 0, b"ok\n"),
        Reply::Act {
            words,
            len,
            fallback,
        } => {
            let source = if *fallback {
                b"act fallback".as_slice()
            } else {
                b"act chosen".as_slice()
            };
            let at = append(out, 0, source);
            let at = append_words(out, at, &words[..*len as usize]);
            append(out, at, b"\n")
        }
        Reply::Violation(why) => write_violation(out, why),
    }
}

/// Writes words and a number as a line, and says how many bytes it has.
fn write_count(out: &mut [u8; 1024], words: &[u8], count: u64) -> usize
    requires { length words.now ≤ 100 }
    ensures end { result ≡ length (words.now ++ decimal count ++ codes "\n") }
    ensures room { result ≤ 349 }
    ensures text { take result out.new ≡ words.now ++ decimal count ++ codes "\n" }
{
    let at = append(out, 0, words);
    let at = append(out, at, Buffer::new().format(count).as_bytes());
    append(out, at, b"\n")
}

/// Writes the line that says that line number `line`, from 1, is bad, with its LF at the front of `out`, and
/// says how many bytes it has. It takes no memory.
pub fn write_bad_line(line: u64, out: &mut [u8; 1024]) -> usize
    ensures end { result ≡ length (bad_line line) }
    ensures room { result ≤ 349 }
    ensures text { take result out.new ≡ bad_line line }
{
    write_count(out, b"bad line ", line)
}

/// Writes the line of the end of an input after so many rounds, with its LF at the front of `out`, and says
/// how many bytes it has. It takes no memory.
pub fn write_end_line(rounds: u64, out: &mut [u8; 1024]) -> usize
    ensures end { result ≡ length (end_line rounds) }
    ensures room { result ≤ 349 }
    ensures text { take result out.new ≡ end_line rounds }
{
    write_count(out, b"end ", rounds)
}
