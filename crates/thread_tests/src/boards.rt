//! Boards of counters.
ghost use Rattle.std.specs.Prelude.{◌≡◌, ◌+◌, ◌<◌, length};
ghost use Rattle.std.specs.List.{sum_by, All};
ghost use Rattle.count_board.specs.Seats.{words_of, IsSeatOf, IsFresh, parts_of};

use crate::check::same;
use count_board::{BoardSeat, CountBoard};
use std::alloc::Global;
use std::process::Abort;
use std::thread::{Threads, join};

const TIMES: u32 = 10_000;

// The two seats of a board.
fn two(rt: &impl Abort, mut seats: Vec<BoardSeat>, board: &CountBoard) -> (BoardSeat, BoardSeat)
    requires fresh { All (IsFresh board.now) seats.items }
    requires parts { sum_by parts_of seats.items ≡ 48 }
    requires count { length seats.items ≡ 2 }
    ensures fresh { IsFresh board.now result.0 × IsFresh board.now result.1 }
    ensures parts { parts_of result.0 + parts_of result.1 ≡ 48 }
{
    let second = seats.pop().unwrap();
    let first = seats.pop().unwrap();
    (first, second)
}

// Closes a board of two words with its two seats.
fn closed(
    rt: &impl Abort,
    alloc: Global,
    board: CountBoard,
    first: BoardSeat,
    second: BoardSeat,
) -> (u64, u64)
    requires words { words_of board ≡ 2 }
    requires seats { IsSeatOf board first × IsSeatOf board second }
    requires parts { parts_of first + parts_of second ≡ 48 }
{
    let mut seats = Vec::with_capacity(alloc, 2).expect(rt, "memory");
    seats.push_reserved(first);
    seats.push_reserved(second);
    let sums = board.close(seats).expect(rt, "memory");
    (sums[0], sums[1])
}

// Adds 1 to a word many times, and looks each time.
fn count(board: &CountBoard, mut seat: BoardSeat, word: u32) -> BoardSeat
    requires fresh { IsFresh board.now seat }
    requires word { word < words_of board.now }
    ensures seat { IsSeatOf board.now result }
    ensures parts { parts_of result ≡ parts_of seat }
{
    let mut last = 0;
    for _ in 0..TIMES {
        board.add(&mut seat, word, 1);
        last = board.look(&mut seat, word).max(last);
    }
    seat
}

fn counted<R: Threads + Sync + Abort>(rt: &R, alloc: Global) -> (u64, u64) {
    let (made, seats) = CountBoard::new(alloc, 2, 2).expect(rt, "memory");
    let board = &made;
    let (first, second) = two(rt, seats, board);
    let (first, second) = join(
        rt,
        move || -> BoardSeat
            requires { IsFresh board.now first × (1 < words_of board.now) }
            ensures { IsSeatOf board.entry.now result × (parts_of result ≡ parts_of first) }
        { count(board, first, 1) },
        move || -> BoardSeat
            requires { IsFresh board.now second × (1 < words_of board.now) }
            ensures { IsSeatOf board.entry.now result × (parts_of result ≡ parts_of second) }
        { count(board, second, 1) },
    );
    closed(rt, alloc, made, first, second)
}

#[test]
fn each_word_is_the_sum_of_its_additions(rt: HostRuntime) {
    let (board, seats) = CountBoard::new(rt.alloc(), 2, 2).expect(&rt, "memory");
    let (mut first, mut second) = two(&rt, seats, &board);
    board.add(&mut first, 1, 3);
    board.add(&mut second, 1, 4);
    same(
        &rt,
        &closed(&rt, rt.alloc(), board, first, second),
        &(0, 7),
        "two seats",
    );
}

#[test]
fn a_seat_sees_what_it_added(rt: HostRuntime) {
    let (board, mut seats) = CountBoard::new(rt.alloc(), 2, 1).expect(&rt, "memory");
    let mut seat = seats.pop().expect(&rt, "a seat");
    board.add(&mut seat, 1, 3);
    same(&rt, &board.look(&mut seat, 1), &3, "after an addition");
    same(&rt, &board.look(&mut seat, 0), &0, "another word");
}

#[test]
fn threads_lose_no_addition(rt: HostRuntime) {
    for _ in 0..50 {
        same(&rt, &counted(&rt, rt.alloc()), &(0, 20_000), "two threads");
    }
}
