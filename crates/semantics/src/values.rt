// What the step rules speak of, over any type of totals. The definitions name these very types, so that code and
// rules need no translation between them.

// The kinds of operations, in the order of their numbers, which are 1 to 5.
#[derive(Clone, Copy)]
pub enum Kind {
    Find,
    Insert,
    Update,
    Add,
    Remove,
}

// A cell of the table: one that was never filled, one whose room was removed, or a room's key with its total.
#[derive(Clone, Copy, PartialEq)]
pub enum Cell<T> {
    Empty,
    Tombstone,
    Live(u16, T),
}

// One operation (the specification's word: row).
#[derive(Clone, Copy)]
pub struct Operation<T> {
    pub kind: Kind,
    pub key: u16,
    pub amount: T,
}

// What an operation answers when it finishes, with the total that its key had, if it had one. Capped is the answer
// of an add that made a true total a saturated one, and Retained (the specification's word: held) that of an
// update which left a saturated total as it is.
#[derive(Clone, Copy)]
pub enum Answer<T> {
    Found(T),
    Present(T),
    Changed(T),
    Removed(T),
    Capped(T),
    Retained(T),
    Inserted,
    Absent,
    Full,
}

// The word that an operation has read and holds for its compare-and-swap: the empty word, or its own key with a
// total.
#[derive(Clone, Copy)]
pub enum Held<T> {
    Vacant,
    Mine(T),
}

// How an operation turns at a step: it passes to the following cell, loses its swap, holds a word, or finishes.
#[derive(Clone, Copy)]
pub enum Turn<T> {
    Passes,
    Loses,
    Holds(Held<T>),
    Finishes(Answer<T>),
}

// What an operation sees in a cell: its own key with a total, an empty cell, or another key or a tombstone.
#[derive(Clone, Copy)]
pub enum Sight<T> {
    Own(T),
    Free,
    Other,
}

// What becomes of the total of an operation's key: it stays, ends with the key's removal, or becomes another.
#[derive(Clone, Copy)]
pub enum Fate<T> {
    Stays,
    Ends,
    Becomes(T),
}

// What an operation does where its key has a total: the fate of that total, and the answer.
#[derive(Clone, Copy)]
pub struct Effect<T> {
    pub fate: Fate<T>,
    pub answer: Answer<T>,
}

// Where an operation stands that has not finished: how many cells it has passed, and the word that it holds, if
// its next step is a swap.
#[derive(Clone, Copy)]
pub enum Pending<T> {
    Reading(usize),
    Holding(usize, Held<T>),
}

// What a step leaves in its cell, and how the operation turns.
#[derive(Clone, Copy)]
pub struct Stepped<T> {
    pub cell: Cell<T>,
    pub turn: Turn<T>,
}
