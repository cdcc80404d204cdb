// Translations and searches, stored.
#![tactic(auto, unfolding(status::specs::Convention::leaves))]

ghost use Rattle.std.specs.Prelude.{◌≡◌};
ghost use Rattle.paging.specs.Translate.{translated_words};
ghost use Rattle.image.specs.List.{listed_of};
ghost use Rattle.image.specs.Search.{report_of};
ghost use Rattle.translation.specs.Translate.{translated_of, translation_of};
ghost use Rattle.status.specs.Convention.{left, leaves};
ghost use Rattle.convention.specs.Images.{translation_words, search_words, listed};

use answer::Refusal;
use image::{Listed, OUTSIDE, RESERVED, SearchAnswer};
use status::give;
use translation::TranslateAnswer;

// The kinds of a translation, beside `RESERVED` and `OUTSIDE`: numbers, since C has them as such.
const MAPPED: u64 = 0;

const ABSENT: u64 = 1;

// A translation as words: its kind, then what its case has.
fn words_of(answer: TranslateAnswer) -> [u64; 4]
    ensures { result ≡ translated_words (translated_of answer) }
{
    match answer {
        TranslateAnswer::Mapped(address, size, rights) => {
            [MAPPED, address.0, size.bytes(), rights.bits()]
        }
        TranslateAnswer::Absent(level) => [ABSENT, level, 0, 0],
        TranslateAnswer::Reserved(level) => [RESERVED, level, 0, 0],
        TranslateAnswer::Outside(level) => [OUTSIDE, level, 0, 0],
    }
}

pub fn give_translation(answer: Result<TranslateAnswer, Refusal>, out: &mut [u64]) -> u8
    ensures { left result out.new ≡ leaves (translation_words (translation_of answer)) out.old }
{
    match answer {
        Ok(answer) => give(words_of(answer), out),
        Err(refusal) => refusal.number(),
    }
}

pub fn give_search(answer: Result<SearchAnswer, Refusal>, out: &mut [u64]) -> u8
    ensures { left result out.new ≡ leaves (search_words (report_of answer)) out.old }
{
    match answer {
        Ok(answer) => give(answer.words(), out),
        Err(refusal) => refusal.number(),
    }
}

// How many words `give_listed` stores.
pub const LISTED_WORDS: usize = 3;

pub fn give_listed(answer: Result<Listed, Refusal>, out: &mut [u64]) -> u8
    ensures { left result out.new ≡ leaves (listed (listed_of answer)) out.old }
{
    match answer {
        Ok(
            Listed {
                written,
                next: None,
            },
        ) => give([written, 1, 0], out),
        Ok(
            Listed {
                written,
                next: Some(page),
            },
        ) => give([written, 0, page.start_address.0], out),
        Err(refusal) => refusal.number(),
    }
}
