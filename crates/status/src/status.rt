// The statuses that are no refusal's number.

// Each by the number that the C interface gives it.
#[derive(Clone, Copy, Debug, PartialEq, Eq)]
pub enum Status {
    // The answer's words are stored.
    Answered = 0,
    // A width, a level or a page size is none of those there are.
    NoSuchChoice = 253,
    // There is an answer, and the lent slice is too short for its words.
    NoRoom = 254,
    // There is no such item.
    NoItem = 255,
}
