//! Laws of lines: the contracts of these functions say them, and their bodies call the laws of the words that
//! they rest on. The laws of runs range over every kind of answerer, so they are lemmas: `proofs/RunLaws.antt`,
//! `proofs/Answered.antt` and `proofs/Agreeing.antt`.
ghost use Rattle.std.specs.Prelude.{◌≡◌, ℕ, ℤ, All, List, Ok};
ghost use Rattle.std.specs.List.{flat_map};
ghost use Rattle.vp_words.specs.declared.record.Counts.{Counts};
ghost use Rattle.vp_words.specs.declared.record.Kind.{Kind};
ghost use Rattle.vp_words.specs.declared.record.Reply.{Reply};
ghost use Rattle.vp_words.specs.Exchanges.{IsRecordOf};
ghost use Rattle.vp_stream.specs.Printing.{IsOneLine, IsReply, reply_line};
ghost use Rattle.vp_stream.specs.Reading.{reading};

use vp_words::laws::texts_of_words;

/// The words that a line is read as are a record of the kind that was due.
pub fn line_is_a_record()
    ensures { (kind : Kind) (counts : Counts) (line : List ℕ) (words : List ℤ) →
        reading kind counts line ≡ Ok words → IsRecordOf counts kind words }
{}

/// No two replies that can be given have one line.
pub fn line_tells_reply()
    ensures { (a b : Reply) → IsReply a → IsReply b → reply_line a ≡ reply_line b → a ≡ b }
{
    texts_of_words();
}

/// The line of a reply that can be given is one line: its last byte is its one LF.
pub fn reply_is_one_line()
    ensures { (reply : Reply) → IsReply reply → IsOneLine (reply_line reply) }
{
    texts_of_words();
}

/// The text of replies, line after line, tells how many there are and each of them.
pub fn text_tells_replies()
    ensures { (replies others : List Reply) → All IsReply replies → All IsReply others →
        flat_map reply_line replies ≡ flat_map reply_line others → replies ≡ others }
{
    texts_of_words();
}
