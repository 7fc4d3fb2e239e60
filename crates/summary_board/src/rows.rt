ghost use Rattle.std.specs.Prelude.{◌≡◌, ◌≢◌, ◌↔◌, ◌⊎◌, ℕ, ◌*◌, ◌/◌, ◌^◌, ◌<◌};
ghost use Rattle.std.specs.Prelude.{◌≤◌, IfOk, MatchOption, length, replicate};
ghost use Rattle.summary_board.specs.steps.Rows.{word_at, IsUsed, IsMarked, IsLeastMarked, lowest, AreTied};

use crate::looks::Looks;
use std::alloc::Global;
use std::marker::Model;
use type_kinds::{List, Memory};

/// A set of numbers that finds its least member by reading few words. It is kept in rows of words:
/// the lowest row has one bit for each number, each row above has one bit for each word of the row
/// below, set exactly where that word isn't 0, and the highest row is one word. Contracts see the
/// lowest row.
#[derive(Drop)]
pub struct Rows {
    rows: Vec<List<u64>>,
}

impl Model for Rows {
    ghost use Rattle.std.specs.Prelude.{List, ℕ};
    ghost use Rattle.summary_board.specs.steps.Rows.{lowest, AreTied};

    ghost Value = { List ℕ };

    ghost view = { λ it. lowest it.rows.items };

    ghost invariant = { λ it. AreTied it.rows.items };
}

impl Rows {
    /// The empty set, with room for the numbers below the count.
    pub fn new(alloc: Global, count: u32) -> Result<Rows, Memory>
        ensures none { IfOk result (λ rows. (n : ℕ) → IsMarked rows n → ⊥) }
        ensures room { IfOk result (λ rows. count ≤ 64 * length rows) }
    {
        let words = (count as usize).div_ceil(64).max(1);
        let rows = zero_rows(alloc, words)?;
        Ok(Rows { rows })
    }

    /// Adds a number. Takes no memory.
    pub fn mark(&mut self, number: usize, looks: &mut Looks)
        requires { number < 64 * length self.old }
        ensures marked { (n : ℕ) → IsMarked self.new n ↔ ((n ≡ number) ⊎ IsMarked self.old n) }
        ensures room { length self.new ≡ length self.old }
    {
        mark_in(self.rows.as_mut_slice(), number, looks);
    }

    /// Removes a number. Takes no memory.
    pub fn clear(&mut self, number: usize, looks: &mut Looks)
        requires { number < 64 * length self.old }
        ensures marked { (n : ℕ) → IsMarked self.new n ↔ ((n ≢ number) × IsMarked self.old n) }
        ensures room { length self.new ≡ length self.old }
    {
        clear_in(self.rows.as_mut_slice(), number, looks);
    }

    /// The least number. Takes no memory.
    pub fn least(&self, looks: &mut Looks) -> Option<usize>
        ensures { MatchOption result ((n : ℕ) → IsMarked self.now n → ⊥) (λ least. IsLeastMarked self.now least) }
    {
        least_in(self.rows.as_slice(), looks)
    }
}

// A row of `words` words that are 0.
fn zero_words(alloc: Global, words: usize) -> Result<List<u64>, Memory>
    ensures { IfOk result (λ row. row ≡ replicate words 0) }
{
    let mut row: Vec<u64> = Vec::new(alloc);
    match row.resize(words, 0) {
        Ok(()) => Ok(List::from_vec(row)),
        Err(_) => Err(Memory),
    }
}

// Rows over a lowest row of `words` words, that mark no number.
fn zero_rows(alloc: Global, words: usize) -> Result<Vec<List<u64>>, Memory>
    requires some { 0 < words }
    requires few { words ≤ 2 ^ 26 }
    ensures tied { IfOk result (λ rows. AreTied rows.items) }
    ensures lowest { IfOk result (λ rows. lowest rows.items ≡ replicate words 0) }
{
    let row = zero_words(alloc, words)?;
    let mut rows = if words == 1 {
        Vec::new(alloc)
    } else {
        zero_rows(alloc, words.div_ceil(64))?
    };
    match rows.insert(0, row) {
        Ok(()) => Ok(rows),
        Err(_) => Err(Memory),
    }
}

// The word of a row at a position, and 0 past the end.
fn word(row: &List<u64>, at: usize) -> u64
    ensures { result ≡ word_at row.now at }
{
    match row.get(at) {
        Some(word) => *word,
        None => 0,
    }
}

// Sets the bit of a number, and gives the word that has it as it was before.
fn set_bit(row: &mut List<u64>, number: usize) -> u64
    requires { number < 64 * length row.old }
    ensures before { result ≡ word_at row.old (number / 64) }
    ensures marked { (n : ℕ) → IsMarked row.new n ↔ ((n ≡ number) ⊎ IsMarked row.old n) }
    ensures used { (w : ℕ) → IsUsed row.new w ↔ ((w ≡ number / 64) ⊎ IsUsed row.old w) }
    ensures room { length row.new ≡ length row.old }
{
    let old = word(row, number / 64);
    row.replace(number / 64, old | 1 << (number % 64));
    old
}

// Clears the bit of a number, and gives the word that has it as it is then.
#[tactic(auto, using(std::proofs::lemmas::Nat::and_le_l))]
fn clear_bit(row: &mut List<u64>, number: usize) -> u64
    requires { number < 64 * length row.old }
    ensures after { result ≡ word_at row.new (number / 64) }
    ensures marked { (n : ℕ) → IsMarked row.new n ↔ ((n ≢ number) × IsMarked row.old n) }
    ensures less { result ≤ word_at row.old (number / 64) }
    ensures used { (w : ℕ) → w ≢ number / 64 → word_at row.new w ≡ word_at row.old w }
    ensures room { length row.new ≡ length row.old }
{
    let new = word(row, number / 64) & !(1 << (number % 64));
    row.replace(number / 64, new);
    new
}

// Marks a number in the lowest of these rows. If its word was 0, it is marked in the row above.
fn mark_in(rows: &mut [List<u64>], number: usize, looks: &mut Looks)
    requires tied { AreTied rows.old }
    requires within { number < 64 * length (lowest rows.old) }
    ensures tied { AreTied rows.new }
    ensures marked { (n : ℕ) → IsMarked (lowest rows.new) n ↔ ((n ≡ number) ⊎ IsMarked (lowest rows.old) n) }
    ensures room { length (lowest rows.new) ≡ length (lowest rows.old) }
    ensures count { length rows.new ≡ length rows.old }
{
    let Some((row, above)) = rows.split_first_mut() else {
        return;
    };
    looks.add();
    if set_bit(row, number) == 0 && !above.is_empty() {
        mark_in(above, number / 64, looks);
    }
}

// Clears a number in the lowest of these rows. If its word is 0 then, it is cleared in the row above.
fn clear_in(rows: &mut [List<u64>], number: usize, looks: &mut Looks)
    requires tied { AreTied rows.old }
    requires within { number < 64 * length (lowest rows.old) }
    ensures tied { AreTied rows.new }
    ensures marked { (n : ℕ) → IsMarked (lowest rows.new) n ↔ ((n ≢ number) × IsMarked (lowest rows.old) n) }
    ensures room { length (lowest rows.new) ≡ length (lowest rows.old) }
    ensures count { length rows.new ≡ length rows.old }
{
    let Some((row, above)) = rows.split_first_mut() else {
        return;
    };
    looks.add();
    if clear_bit(row, number) == 0 && !above.is_empty() {
        clear_in(above, number / 64, looks);
    }
}

// The least number of the lowest of these rows: the lowest bit of its first word that isn't 0, which
// is the least number of the row above.
fn least_in(rows: &[List<u64>], looks: &mut Looks) -> Option<usize>
    requires { AreTied rows.now }
    ensures { MatchOption result ((n : ℕ) → IsMarked (lowest rows.now) n → ⊥) (λ least. IsLeastMarked (lowest rows.now) least) }
{
    let (row, above) = rows.split_first()?;
    let at = if above.is_empty() {
        0
    } else {
        least_in(above, looks)?
    };
    looks.add();
    let word = word(row, at);
    if word == 0 {
        return None;
    }
    Some(64 * at + word.trailing_zeros() as usize)
}
