//! The board, and what its seats do.
ghost use Rattle.std.specs.Prelude.{◌≡◌, ◌<◌, ◌≤◌, [], length, vec_capacity};
ghost use Rattle.std.specs.Slots.{slots_items, slots_len, IsFull};

use crate::plays::{Add, Both, Look, OnePart, Sums};
use crate::seat::{BoardSeat, Tally};
use atomic_table::{Closed, Table};
use qos_base::NoMemory;
use std::alloc::Global;

/// Words of 64 bits that threads add to, all 0 at first.
#[derive(Drop)]
pub struct CountBoard {
    table: Table<u8, Tally, usize, Sums, Global>,
    alloc: Global,
    ghost counted: { table.shared.key ≡ table.shared.table_id.words },
    ghost no_slots: { table.shared.table_id.slots ≡ 0 },
    ghost has_a_word: { 0 < table.shared.table_id.words },
}

// Copies the words of a closed board.
fn read_words(closed: &Closed<u8, Global>, count: usize, sums: &mut Vec<u64>)
    requires full { IsFull closed.now.words × (slots_len closed.now.words ≡ count) }
    requires room { (sums.old.items ≡ []) × (count ≤ vec_capacity sums.old) }
    ensures { sums.new.items ≡ slots_items closed.now.words }
{
    for word in 0..count {
        sums.push_reserved(closed.word(word));
    }
}

impl CountBoard {
    ghost use Rattle.std.specs.Prelude.{ℕ, ◌+◌, ◌*◌, ◌^◌, ◌<◌, ◌≤◌, [], ◌∷◌, ◌++◌, length, slice_index, List, IfOk};
    ghost use Rattle.std.specs.List.{sum_by, All};
    ghost use Rattle.count_board.specs.Tally.{sum_in, sum_of, last_in, IsSeen};
    ghost use Rattle.count_board.specs.Seats.{words_of, IsSeatOf, IsFresh, parts_of, added_by, seen_by, added_in_all};

    /// A board of so many words, all 0, and its seats, of which none has added or seen anything.
    ///
    /// There is at least one word, and 1 to 48 seats.
    pub fn new(
        alloc: Global,
        words: u32,
        seats: u32,
    ) -> Result<(CountBoard, Vec<BoardSeat>), NoMemory>
        requires words { 1 ≤ words }
        requires some_seat { 1 ≤ seats }
        requires seats { seats ≤ 48 }
        ensures words { IfOk result (λ r. words_of r.0 ≡ words) }
        ensures seats { IfOk result (λ r. length r.1.items ≡ seats) }
        ensures fresh { IfOk result (λ r. All (IsFresh r.0) r.1.items) }
        ensures parts { IfOk result (λ r. sum_by parts_of r.1.items ≡ 48) }
    {
        let count = words as usize;
        let room = Vec::with_capacity(alloc, seats as usize)?;
        let zeros = Vec::from_elem(alloc, 0u64, count)?;
        let (table, seat) = Table::of_words(alloc, zeros.as_slice(), &count)?;
        let board = CountBoard { table, alloc };
        let dealt = board.deal(BoardSeat { seat }, room, seats);
        Ok((board, dealt))
    }

    // So many seats out of one.
    fn deal(&self, mut first: BoardSeat, mut dealt: Vec<BoardSeat>, seats: u32) -> Vec<BoardSeat>
        requires fresh { IsFresh self.now first × (parts_of first ≡ 48) }
        requires seats { (1 ≤ seats) × (seats ≤ 48) }
        requires room { (dealt.items ≡ []) × (seats ≤ vec_capacity dealt) }
        ensures seats { length result.items ≡ seats }
        ensures fresh { All (IsFresh self.now) result.items }
        ensures parts { sum_by parts_of result.items ≡ 48 }
    {
        for _ in 1..seats {
            dealt.push_reserved(self.split(&mut first));
        }
        dealt.push_reserved(first);
        dealt
    }

    // One part of a fresh seat, as another fresh seat.
    fn split(&self, seat: &mut BoardSeat) -> BoardSeat
        requires fresh { IsFresh self.now seat.old }
        requires parts { 1 < parts_of seat.old }
        ensures kept { IsFresh self.now seat.new × (parts_of seat.new + 1 ≡ parts_of seat.old) }
        ensures new { IsFresh self.now result × (parts_of result ≡ 1) }
    {
        BoardSeat {
            seat: self.table.shared.split_seat::<OnePart>(&mut seat.seat),
        }
    }

    /// Adds `n` to a word, in one step.
    ///
    /// The word is one of the board's, and the seat's additions stay at most 2^56 in all.
    pub fn add(&self, seat: &mut BoardSeat, word: u32, n: u64)
        requires seat { IsSeatOf self.now seat.old }
        requires word { word < words_of self.now }
        requires limit { sum_of (added_by seat.old) + n ≤ 2 ^ 56 }
        ensures seat { IsSeatOf self.now seat.new }
        ensures parts { parts_of seat.new ≡ parts_of seat.old }
        ensures added { added_by seat.new ≡ added_by seat.old ++ (word, n) ∷ [] }
        ensures seen { seen_by seat.new ≡ seen_by seat.old }
    {
        self.table
            .shared
            .fetch_add::<Add>(&mut seat.seat, word as usize, n);
    }

    /// What a word is at one moment of the call: at least what this seat has added to it, and at least
    /// what this seat last saw there.
    ///
    /// The word is one of the board's.
    pub fn look(&self, seat: &mut BoardSeat, word: u32) -> u64
        requires seat { IsSeatOf self.now seat.old }
        requires word { word < words_of self.now }
        ensures seat { IsSeatOf self.now seat.new }
        ensures parts { parts_of seat.new ≡ parts_of seat.old }
        ensures own { sum_in word (added_by seat.old) ≤ result }
        ensures last { last_in word (seen_by seat.old) ≤ result }
        ensures added { added_by seat.new ≡ added_by seat.old }
        ensures seen { seen_by seat.new ≡ seen_by seat.old ++ (word, result) ∷ [] }
    {
        self.table
            .shared
            .load::<Look>(&mut seat.seat, word as usize)
    }

    // Two seats as one.
    fn join(&self, seat: &mut BoardSeat, other: BoardSeat)
        requires seat { IsSeatOf self.now seat.old }
        requires other { IsSeatOf self.now other }
        ensures seat { IsSeatOf self.now seat.new }
        ensures parts { parts_of seat.new ≡ parts_of seat.old + parts_of other }
        ensures added { added_by seat.new ≡ added_by seat.old ++ added_by other }
        ensures seen { seen_by seat.new ≡ seen_by seat.old ++ seen_by other }
    {
        let BoardSeat { seat: other } = other;
        self.table.shared.join_seat::<Both>(&mut seat.seat, other);
    }

    // All seats as one.
    fn join_all(&self, mut seats: Vec<BoardSeat>) -> BoardSeat
        requires mine { All (λ s. IsSeatOf self.now s) seats.items }
        requires some { 1 ≤ sum_by parts_of seats.items }
        ensures seat { IsSeatOf self.now result }
        ensures parts { parts_of result ≡ sum_by parts_of seats.items }
        ensures added { (word : ℕ) → sum_in word (added_by result) ≡ added_in_all word seats.items }
        ensures seen { (words : List ℕ) → IsSeen words (seen_by result) → All (λ s. IsSeen words (seen_by s)) seats.items }
    {
        let Some(mut all) = seats.pop() else {
            unreachable!()
        };
        while let Some(seat) = seats.pop() {
            self.join(&mut all, seat);
        }
        all
    }

    /// Ends the board and tells each word: the sum of what the seats added to it, and not below what any
    /// of them ever saw there.
    ///
    /// All seats of the board are given back.
    pub fn close(self, seats: Vec<BoardSeat>) -> Result<Vec<u64>, NoMemory>
        requires mine { All (λ s. IsSeatOf self s) seats.items }
        requires all { sum_by parts_of seats.items ≡ 48 }
        ensures words { IfOk result (λ r. length r.items ≡ words_of self) }
        ensures sums { IfOk result (λ r. (word : ℕ) → word < words_of self → slice_index r.items word ≡ added_in_all word seats.items) }
        ensures seen { IfOk result (λ r. All (λ s. IsSeen r.items (seen_by s)) seats.items) }
    {
        let count = self.table.word_count();
        let mut sums = Vec::with_capacity(self.alloc, count)?;
        let all = self.join_all(seats);
        let CountBoard { table, alloc: _ } = self;
        let BoardSeat { seat } = all;
        let closed = table.close_with(seat);
        read_words(&closed, count, &mut sums);
        closed.free();
        Ok(sums)
    }
}
