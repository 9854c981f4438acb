//! Laws of the words: the contracts of these functions say them, and their bodies do nothing.
ghost use Rattle.std.specs.Prelude.{◌≡◌, ◌≤◌, ℕ, ◌*◌, ℤ, pos, neg_ℤ, ◌+ℤ◌, ◌*ℤ◌, ◌≤ℤ◌, IsTrue, List, length, All, Ok};
ghost use Rattle.std.specs.Int.{int_min, int_max};
ghost use Rattle.vp_words.specs.Ends.{encloses, IsLowEnd, IsHighEnd, IsBetween, IsFractionLowEnd, IsFractionHighEnd, IsFractionBetween};
ghost use Rattle.vp_words.specs.Number.{IsWord, IsFinite, lower_sum, upper_sum, lower_product, upper_product, least_product, greatest_product};
ghost use Rattle.vp_words.specs.Text.{spelled, word_text, IsVisible, TellsWords};

use crate::Word;

/// The sum of two finite words lies between the two directed sums, and no finite word lies closer.
pub fn sum_is_enclosed(a: Word, b: Word)
    requires a_finite { IsFinite a }
    requires b_finite { IsFinite b }
    ensures low { IsLowEnd (lower_sum a b) (a +ℤ b) }
    ensures high { IsHighEnd (upper_sum a b) (a +ℤ b) }
    ensures low_closest { (w : ℤ) → IsFinite w → w ≤ℤ (a +ℤ b) → w ≤ℤ lower_sum a b }
    ensures high_closest { (w : ℤ) → IsFinite w → (a +ℤ b) ≤ℤ w → upper_sum a b ≤ℤ w }
{}

/// The product of two finite words lies between the two directed products, and no finite word lies
/// closer.
pub fn product_is_enclosed(a: Word, b: Word)
    requires a_finite { IsFinite a }
    requires b_finite { IsFinite b }
    ensures low { IsLowEnd (lower_product a b) (a *ℤ b) }
    ensures high { IsHighEnd (upper_product a b) (a *ℤ b) }
    ensures low_closest { (w : ℤ) → IsFinite w → w ≤ℤ (a *ℤ b) → w ≤ℤ lower_product a b }
    ensures high_closest { (w : ℤ) → IsFinite w → (a *ℤ b) ≤ℤ w → upper_product a b ≤ℤ w }
{}

/// Where the sum of two finite words is a finite word, both directions give it.
pub fn sum_is_exact(a: Word, b: Word)
    requires a_finite { IsFinite a }
    requires b_finite { IsFinite b }
    requires sum_finite { IsFinite (a +ℤ b) }
    ensures low { lower_sum a b ≡ a +ℤ b }
    ensures high { upper_sum a b ≡ a +ℤ b }
{}

/// Where the product of two finite words is a finite word, both directions give it.
pub fn product_is_exact(a: Word, b: Word)
    requires a_finite { IsFinite a }
    requires b_finite { IsFinite b }
    requires product_finite { IsFinite (a *ℤ b) }
    ensures low { lower_product a b ≡ a *ℤ b }
    ensures high { upper_product a b ≡ a *ℤ b }
{}

/// A directed sum of ends is an end of the sums.
pub fn sum_of_ends(a: Word, b: Word)
    ensures low { (x y : ℤ) → IsLowEnd a x → IsLowEnd b y → IsLowEnd (lower_sum a b) (x +ℤ y) }
    ensures high { (x y : ℤ) → IsHighEnd a x → IsHighEnd b y → IsHighEnd (upper_sum a b) (x +ℤ y) }
{}

/// The same for the fractions m / d and n / e.
pub fn sum_of_fraction_ends(a: Word, b: Word)
    ensures low { (m n : ℤ) (d e : ℕ) → IsFractionLowEnd a m d → IsFractionLowEnd b n e →
        IsFractionLowEnd (lower_sum a b) ((m *ℤ pos e) +ℤ (n *ℤ pos d)) (d * e) }
    ensures high { (m n : ℤ) (d e : ℕ) → IsFractionHighEnd a m d → IsFractionHighEnd b n e →
        IsFractionHighEnd (upper_sum a b) ((m *ℤ pos e) +ℤ (n *ℤ pos d)) (d * e) }
{}

/// The product of two numbers, one between `a` and `b` and one between `c` and `d`, lies between the
/// least of the four products of ends that are rounded down, and the greatest of those rounded up.
pub fn product_of_ends(a: Word, b: Word, c: Word, d: Word)
    requires left { IsTrue (encloses a b) }
    requires right { IsTrue (encloses c d) }
    ensures { (x y : ℤ) → IsBetween a b x → IsBetween c d y →
        IsBetween (least_product a b c d) (greatest_product a b c d) (x *ℤ y) }
{}

/// The same for the fractions m / e and n / f.
pub fn product_of_fraction_ends(a: Word, b: Word, c: Word, d: Word)
    requires left { IsTrue (encloses a b) }
    requires right { IsTrue (encloses c d) }
    ensures { (m n : ℤ) (e f : ℕ) → 1 ≤ e → 1 ≤ f →
        IsFractionBetween a b m e → IsFractionBetween c d n f →
        IsFractionBetween (least_product a b c d) (greatest_product a b c d) (m *ℤ n) (e * f) }
{}

/// The negatives of the numbers between two ends stand between the negatives of the ends, swapped.
pub fn negative_of_ends(a: Word, b: Word)
    ensures pair { encloses (neg_ℤ b) (neg_ℤ a) ≡ encloses a b }
    ensures whole { (x : ℤ) → IsBetween a b x → IsBetween (neg_ℤ b) (neg_ℤ a) (neg_ℤ x) }
    ensures fraction { (n : ℤ) (d : ℕ) → IsFractionBetween a b n d →
        IsFractionBetween (neg_ℤ b) (neg_ℤ a) (neg_ℤ n) d }
{}

/// A sum of valid pairs of ends is a valid pair.
pub fn sum_of_pairs(a: Word, b: Word, c: Word, d: Word)
    requires left { IsTrue (encloses a b) }
    requires right { IsTrue (encloses c d) }
    ensures { IsTrue (encloses (lower_sum a c) (upper_sum b d)) }
{}

/// A product of valid pairs of ends is a valid pair.
pub fn product_of_pairs(a: Word, b: Word, c: Word, d: Word)
    requires left { IsTrue (encloses a b) }
    requires right { IsTrue (encloses c d) }
    ensures { IsTrue (encloses (least_product a b c d) (greatest_product a b c d)) }
{}

/// The directed sums are monotone in each argument.
pub fn sums_are_monotone(a: Word, b: Word, c: Word)
    requires { a ≤ℤ b }
    ensures low_left { lower_sum a c ≤ℤ lower_sum b c }
    ensures low_right { lower_sum c a ≤ℤ lower_sum c b }
    ensures high_left { upper_sum a c ≤ℤ upper_sum b c }
    ensures high_right { upper_sum c a ≤ℤ upper_sum c b }
{}

/// The directed products are monotone in an argument where the other is at least 0.
pub fn products_are_monotone(a: Word, b: Word, c: Word)
    requires ordered { a ≤ℤ b }
    requires at_least_zero { pos 0 ≤ℤ c }
    ensures low_left { lower_product a c ≤ℤ lower_product b c }
    ensures low_right { lower_product c a ≤ℤ lower_product c b }
    ensures high_left { upper_product a c ≤ℤ upper_product b c }
    ensures high_right { upper_product c a ≤ℤ upper_product c b }
{}

/// The lesser and the greater of two words are monotone in each argument.
pub fn bounds_are_monotone(a: Word, b: Word, c: Word)
    requires { a ≤ℤ b }
    ensures min_left { int_min a c ≤ℤ int_min b c }
    ensures min_right { int_min c a ≤ℤ int_min c b }
    ensures max_left { int_max a c ≤ℤ int_max b c }
    ensures max_right { int_max c a ≤ℤ int_max c b }
{}

/// The text of a word spells that word, and has 1 to 20 bytes, each a visible ASCII character.
pub fn text_of_word(word: Word)
    ensures read_back { spelled (word_text word) ≡ Ok word }
    ensures some { 1 ≤ length (word_text word) }
    ensures room { length (word_text word) ≤ 20 }
    ensures visible { All IsVisible (word_text word) }
{}

/// Two words with the same text are the same.
pub fn text_tells_word(a: Word, b: Word)
    requires { word_text a ≡ word_text b }
    ensures { a ≡ b }
{}

/// What a text spells is a word.
pub fn spelled_is_word()
    ensures { (text : List ℕ) (z : ℤ) → spelled text ≡ Ok z → IsWord z }
{}

/// What the texts of words tell, of all words at once.
pub fn texts_of_words()
    ensures { TellsWords }
{}
