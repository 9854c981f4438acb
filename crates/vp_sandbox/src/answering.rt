//! The sandbox's answer to a record.
ghost use Rattle.std.specs.Prelude.{◌≡◌, ◌+◌, ◌*◌, ◌<◌, ◌≤◌, ◌^◌, ◌↔◌, List, map, length, take, drop, IsSome, IsTrue, IfSome, MatchOption, Some, None, replicate};
ghost use Rattle.vp_words.specs.declared.record.Due.TheVariants as due;
ghost use Rattle.vp_words.specs.declared.record.Turn.TheVariants as turn;
ghost use Rattle.vp_words.specs.Record.{IsRecord, IsValid, padded, pairs_then_finite};
ghost use Rattle.vp_interval.specs.Interval.{ends};
ghost use Rattle.vp_interval.specs.Polynomial.{AreSmall, interval_of};
ghost use Rattle.vp_poly.specs.Places.{AreBelow};
ghost use Rattle.vp_words.specs.Number.{IsFinite};
ghost use Rattle.vp_sandbox.specs.Answer.{acted, sandbox_of, choice_answer, init_answer, sense_answer, is_unknown};
ghost use Rattle.vp_sandbox.specs.Boxes.{point_words};
ghost use Rattle.vp_sandbox.specs.Fits.{Fits, IsDue};
ghost use Rattle.vp_sandbox.specs.Sandbox.{shown};

use crate::boxes::{
    first_control, first_next_control, first_next_state, set_boxes, set_points, tau_place,
};
use crate::{Sandbox, SandboxState};
use vp_interval::{Interval, Truth, first_not_yes, of_poly, truth_of};
use vp_poly::Poly;
use vp_words::{Due, Kind, Record, Reply, Turn, Why, Word};

/// Answers a record of the kind that is due. `Ended` comes exactly where nothing is due, which a
/// violation alone leaves, and then nothing changes.
pub fn answer(s: &Sandbox, st: &mut SandboxState, rec: &Record, out: &mut Reply) -> Turn
    requires fits { Fits s.now }
    requires record { IsRecord s.now.counts rec.now }
    requires due { IsDue st.old.due rec.now.kind }
    ensures ended { (result ≡ turn.Ended) ↔ (st.old.due ≡ due.Ended) }
    ensures same { result ≡ turn.Ended → (st.new ≡ st.old) × (out.new ≡ out.old) }
    ensures reply { result ≡ turn.Answered →
        out.new ≡ (sandbox_of s.now).reply (shown st.old) (take rec.now.len rec.now.words) }
    ensures next { result ≡ turn.Answered →
        shown st.new ≡ (sandbox_of s.now).next (shown st.old) (take rec.now.len rec.now.words) }
{
    if st.due == Due::Ended {
        return Turn::Ended;
    }
    let words = &rec.words[..rec.len as usize];
    *out = match rec.kind {
        Kind::Init => answer_init(s, st, words),
        Kind::Choice => answer_choice(s, st, words),
        Kind::Sense => answer_sense(s, st, words),
    };
    Turn::Answered
}

// Sets the boxes of parameters, states and controls, and tests the init conjuncts.
fn answer_init(s: &Sandbox, st: &mut SandboxState, words: &[Word]) -> Reply
    requires fits { Fits s.now }
    requires count { length words.now ≡ 2 * s.now.counts.params + 2 * s.now.counts.states + s.now.counts.controls }
    requires valid { IsTrue (pairs_then_finite (s.now.counts.params + s.now.counts.states) words.now) }
    ensures reply { result ≡ (init_answer s.now (map ends st.old.boxes) words.now).reply }
    ensures next { shown st.new ≡ (init_answer s.now (map ends st.old.boxes) words.now).next }
{
    let pairs = s.counts.params + s.counts.states;
    set_boxes(&mut st.boxes, 0, pairs, words);
    match first_not_yes(s.init.get(), &st.boxes) {
        None => {
            st.due = Due::Choice;
            Reply::Ok
        }
        Some((k, truth)) => {
            st.due = Due::Ended;
            Reply::Violation(Why::Init {
                k,
                unknown: is_unknown(truth),
            })
        }
    }
}

// Whether a truth is not known.
fn is_unknown(truth: Truth) -> bool
    ensures { result ≡ is_unknown truth }
{
    truth == Truth::Maybe
}

// Sets the time and the next states, and tests the plant's conjuncts.
fn answer_sense(s: &Sandbox, st: &mut SandboxState, words: &[Word]) -> Reply
    requires fits { Fits s.now }
    requires count { length words.now ≡ 2 + 2 * s.now.counts.states }
    requires valid { IsTrue (pairs_then_finite (1 + s.now.counts.states) words.now) }
    ensures reply { result ≡ (sense_answer s.now (map ends st.old.boxes) words.now).reply }
    ensures next { shown st.new ≡ (sense_answer s.now (map ends st.old.boxes) words.now).next }
{
    let (time, states) = words.split_at(2);
    set_boxes(&mut st.boxes, tau_place(s.counts), 1, time);
    set_boxes(
        &mut st.boxes,
        first_next_state(s.counts),
        s.counts.states,
        states,
    );
    match first_not_yes(s.plant.get(), &st.boxes) {
        None => {
            set_boxes(
                &mut st.boxes,
                s.counts.params as usize,
                s.counts.states,
                states,
            );
            st.due = Due::Choice;
            Reply::Ok
        }
        Some((k, truth)) => {
            st.due = Due::Ended;
            Reply::Violation(Why::Plant {
                k,
                unknown: is_unknown(truth),
            })
        }
    }
}

// Sets the next controls, and acts on them where the controller monitor holds, and else on the
// fallback.
fn answer_choice(s: &Sandbox, st: &mut SandboxState, words: &[Word]) -> Reply
    requires fits { Fits s.now }
    requires count { length words.now ≡ s.now.counts.controls }
    requires valid { IsTrue (pairs_then_finite 0 words.now) }
    ensures reply { result ≡ (choice_answer s.now (map ends st.old.boxes) words.now).reply }
    ensures next { shown st.new ≡ (choice_answer s.now (map ends st.old.boxes) words.now).next }
{
    let fallback = fallback_words(s, &st.boxes);
    set_points(&mut st.boxes, first_next_control(s.counts), words);
    if truth_of(&s.ctrl, &st.boxes).is_yes() {
        return act(s, st, words, false);
    }
    match fallback {
        Some(words) => act(s, st, &words[..s.counts.controls as usize], true),
        None => {
            st.due = Due::Ended;
            Reply::Violation(Why::Fallback)
        }
    }
}

// The words become the controls, and are the reply.
fn act(s: &Sandbox, st: &mut SandboxState, words: &[Word], fallback: bool) -> Reply
    requires counts { IsValid s.now.counts }
    requires count { length words.now ≡ s.now.counts.controls }
    requires valid { IsTrue (pairs_then_finite 0 words.now) }
    ensures reply { result ≡ (acted s.now (map ends st.old.boxes) words.now fallback).reply }
    ensures next { shown st.new ≡ (acted s.now (map ends st.old.boxes) words.now fallback).next }
{
    set_points(&mut st.boxes, first_control(s.counts), words);
    st.due = Due::Sense;
    Reply::Act {
        words: padded(words),
        len: s.counts.controls,
        fallback,
    }
}

// The words with zeros behind them.
fn padded(words: &[Word]) -> [Word; 16]
    requires { length words.now ≤ 16 }
    ensures { result ≡ padded 16 words.now }
{
    let mut out = [Word::ZERO; 16];
    out[..words.len()].copy_from_slice(words);
    out
}

// The word that a polynomial's interval is, where its two ends are the same.
fn point_of(poly: &Poly, boxes: &[Interval; 32]) -> Option<Word>
    requires places { AreBelow (length boxes.now) poly.now }
    requires small { AreSmall poly.now }
    ensures some { IsSome result ↔ ((interval_of (map ends boxes.now) poly.now).lo ≡
        (interval_of (map ends boxes.now) poly.now).hi) }
    ensures word { IfSome result (λ w. w ≡ (interval_of (map ends boxes.now) poly.now).lo) }
    ensures finite { IfSome result IsFinite }
{
    of_poly(poly, boxes).as_point()
}

// The word of each fallback polynomial, where the two ends of each are the same.
fn fallback_words(s: &Sandbox, boxes: &[Interval; 32]) -> Option<[Word; 16]>
    requires { Fits s.now }
    ensures { MatchOption result (point_words (map (interval_of (map ends boxes.now)) s.now.fallback) ≡ None) (λ ws.
        (point_words (map (interval_of (map ends boxes.now)) s.now.fallback) ≡ Some (take s.now.counts.controls ws))
        × IsTrue (pairs_then_finite 0 (take s.now.counts.controls ws))) }
{
    let mut words = [Word::ZERO; 16];
    for (i, poly) in s.fallback.get().iter().enumerate() {
        words[i] = point_of(poly, boxes)?;
    }
    Some(words)
}
