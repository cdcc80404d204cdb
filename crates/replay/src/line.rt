// A line of the list: hexadecimal numbers, with a space between them. They are an operation, its arguments, and
// what it answered: the status, and the words if that is 0.
use crate::question::{Question, arguments, words};
use arrayvec::ArrayVec;
use status::Status;

// More numbers than any answer has, so a line of so many agrees with none.
const MOST_NUMBERS: usize = 16;

#[derive(Drop)]
pub(crate) struct Line {
    // The numbers that have ended.
    numbers: ArrayVec<u64, MOST_NUMBERS>,
    // The one being read; None once the line has what is no number.
    number: Option<u64>,
}

// The number with one digit more. Digits are lower case.
fn with_digit(number: u64, byte: u8) -> Option<u64> {
    let digit = match byte {
        b'0'..=b'9' => byte - b'0',
        b'a'..=b'f' => byte - b'a' + 10,
        _ => return None,
    };
    number.checked_mul(16)?.checked_add(u64::from(digit))
}

impl Line {
    pub(crate) fn new() -> Line {
        Line {
            numbers: ArrayVec::new(),
            number: Some(0),
        }
    }

    // Whether no number has ended.
    pub(crate) fn is_empty(&self) -> bool {
        self.numbers.is_empty()
    }

    // A further byte of the line: a digit of the number being read, or the space behind it.
    pub(crate) fn read(&mut self, byte: u8) {
        if byte == b' ' {
            self.end_number();
        } else {
            self.number = self.number.and_then(|number| with_digit(number, byte));
        }
    }

    // The number being read has ended. What is no number counts as one; a number for which there is no room does not.
    fn end_number(&mut self) {
        let _ = self.numbers.try_push(self.number.unwrap_or(0));
        self.number = self.number.and(Some(0));
    }

    // Whether the answer that the line records is the one that the call gives.
    pub(crate) fn agrees(mut self) -> bool {
        self.end_number();
        self.number.is_some() && same_answer(&self.numbers).unwrap_or(false)
    }
}

// The same of the numbers of a line; None if they are too few.
fn same_answer(numbers: &[u64]) -> Option<bool> {
    let (operation, rest) = numbers.split_first()?;
    let (arguments, answer) = rest.split_at_checked(arguments(*operation))?;
    let (status, recorded) = answer.split_first()?;
    let question = Question {
        operation: *operation,
        arguments,
    };
    let mut out = [0u64; 8];
    let given = question.ask(&mut out);
    // A call that does not answer has no words.
    let count = if given == Status::Answered as u8 {
        words(*operation)
    } else {
        0
    };
    Some(u64::from(given) == *status && &out[..count] == recorded)
}
